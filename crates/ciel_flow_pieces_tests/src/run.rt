// Two executors, each on a thread of its own, the second on the pieces of the first.

ghost use Rattle.std.specs.Prelude.{◌≡◌, [], ◌<◌, ◌^◌, IfOk, Ok, length, true};
ghost use Rattle.sky_base.specs.View.{view};
ghost use Rattle.sky_base_exec.specs.Perform.{slots};
ghost use Rattle.line_kit.specs.Table.{executor_of};
ghost use Rattle.ciel_flow_pieces.specs.Source.{hands_out as hands};

use ciel_flow_pieces::begin::stream_of;
use ciel_flow_pieces::ends::Producer;
use ciel_flow_pieces::follow::{Left, follow};
use ciel_flow_pieces::lead::{hands_out, lead};
use ciel_flow_pieces::piece::Piece;
use line_kit_tests::calls::{ONE, dictionary};
use sky_base::text::{Bytes, Txt};
use sky_base::value::Value;
use sky_base_exec::slots::slots;
use std::alloc::Global;
use std::sync::Wait;
use std::test::Fail;
use std::thread;
use std::thread::Threads;

/// One output of an executor over inputs.
#[derive(Drop)]
pub struct Made<'a> {
    pub executor: Txt,
    pub args: Value,
    pub outputs: u32,
    pub index: u32,
    pub inputs: &'a [Bytes],
}

// The arguments with slots in the place of references.
fn slotted(alloc: Global, args: &Value) -> Result<Value, Fail>
    ensures { IfOk result (λ v. view v ≡ slots (view args.now)) }
{
    if args.is_too_deep() || args.is_too_large() {
        return Err(Fail::from("a large value"));
    }
    let slotted = slots(alloc, args)?;
    Ok(slotted)
}

// Runs the first executor, and puts the last piece. Whether it came to outputs.
fn lead_whole<R: Wait>(
    rt: &R,
    alloc: Global,
    made: &Made,
    slotted: &Value,
    producer: Producer,
) -> bool
    requires source { producer.source ≡ record {
      executor = made.now.executor;
      args = made.now.args;
      outputs = made.now.outputs;
      index = made.now.index;
      inputs = Ok made.now.inputs.now;
    } }
    requires slots { view slotted.now ≡ slots (view made.now.args) }
    requires fresh { producer.pieces ≡ [] }
    requires hands { hands (executor_of made.now.executor) ≡ true }
    requires few { length made.now.inputs.now < 2 ^ 32 }
{
    let mut producer = producer;
    let led = lead(
        rt,
        alloc,
        &made.executor,
        slotted,
        made.outputs,
        made.index,
        made.inputs,
        &mut producer,
    );
    match led {
        Ok(Ok(_)) => {
            producer.put(rt, Piece::End);
            true
        }
        _ => {
            producer.give_up(rt);
            false
        }
    }
}

/// What the second executor gives for the output of the first, run at the same time; none where that came to no outputs.
pub fn both<R: Threads + Wait + Sync>(
    rt: &R,
    alloc: Global,
    made: &Made,
    second: &str,
) -> Result<Option<Left>, Fail>
    requires { length made.now.inputs.now < 2 ^ 32 }
{
    if !hands_out(&made.executor) {
        return Err(Fail::from("it doesn't hand out"));
    }
    let name = Txt::new(alloc, second)?;
    let args = dictionary(alloc, ONE)?;
    let slotted = slotted(alloc, &made.args)?;
    let (producer, follower) = stream_of(
        alloc,
        &made.executor,
        &made.args,
        made.outputs,
        made.index,
        made.inputs,
    )?;
    let (led, left) = thread::join(
        rt,
        || lead_whole(rt, alloc, made, &slotted, producer),
        || follow(rt, alloc, name, args, 1, follower),
    );
    if !led && left.is_some() {
        return Err(Fail::from("something is left of no outputs"));
    }
    Ok(left)
}
