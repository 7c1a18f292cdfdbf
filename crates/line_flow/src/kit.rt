// The executors over lines, run by pieces.

ghost use Rattle.std.specs.Prelude.{◌≡◌, IfOk, length};
ghost use Rattle.sky_base.specs.KitView.{RunsSo};
ghost use Rattle.line_kit.specs.Gives.{gives};
ghost use Rattle.line_flow.specs.Told.{opened, fed_more, CanFeed};
ghost use Rattle.line_flow.specs.Stands.{Stands};

use crate::flow::{Flow, FlowRefusal};
use line_kit::executor::{Executor, executor_of};
use line_kit::kit::LineKit;
use line_kit::output::Answer;
use sky_base::fault::FaultKind;
use sky_base::kit::Kit;
use sky_base::text::{Bytes, Memory, Txt};
use sky_base::value::Value;
use std::alloc::Global;

/// The most bytes of a piece.
pub const MOST_OF_A_PIECE: usize = 65_536;

/// The executors over lines, as `LineKit` has them, run by flows whose inputs come in pieces.
#[derive(Clone, Copy, Debug, Drop)]
pub struct FlowKit;

// Feeds an input whole.
fn feed_all(flow: &mut Flow, input: u32, bytes: &[u8]) -> Result<(), Memory>
    ensures { IfOk result (λ _. (t : _) → Stands flow.old t → CanFeed t input → Stands flow.new (fed_more t input bytes.now)) }
{
    let mut rest = bytes;
    while rest.len() > MOST_OF_A_PIECE {
        let (piece, more) = rest.split_at(MOST_OF_A_PIECE);
        flow.feed(input, piece)?;
        rest = more;
    }
    flow.feed(input, rest)
}

// What a flow gives for these inputs. No more is fed once an output is too large.
fn run_flow(flow: Flow, inputs: &[Bytes], count: u32) -> Answer
    requires { count ≡ length inputs.now }
    ensures { IfOk result (λ r. (executor : _) (args : _) (outputs : _) → Stands flow (opened executor args count outputs)
        → RunsSo r (gives executor args inputs.now outputs)) }
{
    let mut flow = flow;
    for input in 0..count {
        feed_all(&mut flow, input, inputs[input as usize].as_slice())?;
        if flow.is_over() {
            return Ok(Err(FaultKind::TooLarge));
        }
    }
    flow.end()
}

// Whether a flow of this executor would do no more than gather its lines.
fn takes_all(executor: &Txt) -> bool {
    matches!(
        executor_of(executor.as_str()),
        Some(Executor::Split | Executor::Sort)
    )
}

impl Kit for FlowKit {
    ghost use Rattle.std.specs.Prelude.{◌≡◌, ℕ, List, IfOk, false, is_some, Err};
    ghost use Rattle.sky_base.specs.declared.fault.FaultKind.{FaultKind as kind};
    ghost use Rattle.line_kit.specs.Table.{executor_of};
    ghost use Rattle.line_kit.specs.Gives.{gives as given};
    ghost use Rattle.line_kit.specs.Counts.{gives_counts};

    ghost gives = { λ _. given };

    ghost counts = { λ _. gives_counts };

    /// Whether the name is one of the table.
    fn known(&self, executor: &Txt) -> bool
        ensures table { result ≡ is_some (executor_of executor.now) }
        ensures unknown { result ≡ false
            → (args : _) (inputs : _) (n : _) → given executor.now args inputs n ≡ Err kind.BadExec }
    {
        executor_of(executor.as_str()).is_some()
    }

    fn run(
        &self,
        alloc: Global,
        executor: &Txt,
        args: &Value,
        inputs: &[Bytes],
        outputs: u32,
    ) -> Result<Result<Vec<Bytes>, FaultKind>, Memory> {
        if takes_all(executor) {
            return LineKit.run(alloc, executor, args, inputs, outputs);
        }
        let Ok(count) = u32::try_from(inputs.len()) else {
            return LineKit.run(alloc, executor, args, inputs, outputs);
        };
        match Flow::open(alloc, executor, args, count, outputs) {
            Ok(flow) => run_flow(flow, inputs, count),
            Err(FlowRefusal::Refused(kind)) => Ok(Err(kind)),
            Err(FlowRefusal::Memory) => Err(Memory),
        }
    }
}
