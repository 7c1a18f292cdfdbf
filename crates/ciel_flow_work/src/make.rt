//! What an executor's order makes, where something was computed ahead or its output is handed out meanwhile.

ghost use Rattle.std.specs.Prelude.{◌≡◌, ◌++◌, ◌<◌, ◌==◌, ◌&&◌, ◌^◌, [], ◌∷◌, true, IfOk, IfSome, IsSomeAnd, Ok, length};
ghost use Rattle.sky_base.specs.Kept.{Kept};
ghost use Rattle.sky_base.specs.Val.{same_text, same_val};
ghost use Rattle.sky_base.specs.View.{view};
ghost use Rattle.sky_base_exec.specs.Perform.{listed, made_of, slots, without_place};
ghost use Rattle.line_kit.specs.Gives.{gives};
ghost use Rattle.line_kit.specs.Table.{executor_of};
ghost use Rattle.ciel_flow_pieces.specs.Left.{as_answer, flat};
ghost use Rattle.ciel_flow_pieces.specs.Pieces.{AllParts, LawOf};
ghost use Rattle.ciel_flow_pieces.specs.Source.{hands_out};
ghost use Rattle.ciel_flow_pieces.specs.declared.piece.Piece.TheVariants.{End};
ghost use Rattle.ciel_flow_pieces.specs.Leads.{IsCall};
ghost use Rattle.ciel_flow_work.specs.Ahead.{IsOfCall};

use ciel_flow_pieces::ends::Producer;
use ciel_flow_pieces::follow::Left;
use ciel_flow_pieces::lead::{hand_out, lead};
use ciel_task_exec::make::make;
use sky_base::fault::Fault;
use sky_base::kit::Kit;
use sky_base::same::is_same;
use sky_base::text::{Bytes, Memory, Txt};
use sky_base::value::Value;
use sky_base_exec::slots::slots;
use sky_base_waves::wave::no_place;
use std::alloc::Global;
use std::sync::Wait;

/// What an order made, and whether it was computed ahead.
#[derive(Drop)]
pub(crate) struct MadeSo {
    pub(crate) made: Result<Vec<Bytes>, Fault>,
    pub(crate) ahead: bool,
}

// Whether these are the bytes of the parts, one behind the other.
fn is_flat(parts: &[Bytes], bytes: &[u8]) -> bool
    ensures { result ≡ true → flat parts.now ≡ bytes.now }
{
    let mut rest = bytes;
    for part in parts {
        let part = part.as_slice();
        if rest.len() < part.len() {
            return false;
        }
        let (first, more) = rest.split_at(part.len());
        if first != part {
            return false;
        }
        rest = more;
    }
    rest.is_empty()
}

// Whether there is one input, which has the bytes of these parts.
fn is_one(parts: &[Bytes], inputs: &[Bytes]) -> bool
    ensures { result ≡ true → inputs.now ≡ flat parts.now ∷ [] }
{
    match inputs {
        [input] => is_flat(parts, input.as_slice()),
        _ => false,
    }
}

// Whether it was computed for this call of an executor.
fn is_call(left: &Left, executor: &Txt, args: &Value, outputs: u32) -> bool
    ensures { result ≡ ((left.now.outputs == outputs) && (same_text left.now.executor executor.now && same_val same_text (view left.now.args) (view args.now))) }
{
    left.outputs == outputs && left.executor == *executor && is_same(&left.args, args)
}

// Whether it was computed for this call and these inputs.
fn is_of(left: &Left, executor: &Txt, args: &Value, outputs: u32, inputs: &[Bytes]) -> bool
    ensures { result ≡ true → IsOfCall executor.now (view args.now) outputs (Ok inputs.now) left.now }
{
    if is_call(left, executor, args, outputs) {
        return is_one(left.parts.as_slice(), inputs);
    }
    false
}

// The outputs, or the fault, without a place.
fn made_ahead(left: Left) -> Result<Vec<Bytes>, Fault>
    ensures { listed result ≡ without_place (as_answer left.made) }
{
    let Left { made, .. } = left;
    match made {
        Ok(outputs) => Ok(outputs),
        Err(kind) => Err(no_place(kind)),
    }
}

// What was computed ahead, where it is of this call and these inputs.
fn ahead_of(
    ahead: Option<Left>,
    executor: &Txt,
    args: &Value,
    outputs: u32,
    inputs: &[Bytes],
) -> Option<Result<Vec<Bytes>, Fault>>
    ensures made { IfSome result (λ r. listed r ≡ without_place (gives executor.now (view args.now) inputs.now outputs)) }
    ensures call { IfSome result (λ _. IsSomeAnd ahead (IsOfCall executor.now (view args.now) outputs (Ok inputs.now))) }
{
    let left = ahead?;
    if is_of(&left, executor, args, outputs, inputs) {
        Some(made_ahead(left))
    } else {
        None
    }
}

/// The outputs of a task, or the fault that each of them is. What was computed ahead takes the place of a run of the kit where it is of
/// this call and these inputs.
///
/// Answers `Memory` for want of memory.
pub(crate) fn make_with<K: Kit>(
    alloc: Global,
    kit: &K,
    executor: &Txt,
    args: &Value,
    outputs: u32,
    inputs: &Result<Vec<Bytes>, Fault>,
    ahead: Option<Left>,
) -> Result<MadeSo, Memory>
    requires kept { Kept (view args.now) }
    requires flow { K.gives kit.now ≡ gives }
    ensures all { IfOk result (λ r. IfOk (listed r.made) (λ bs. length bs ≡ outputs)) }
    ensures made { IfOk result (λ r. listed r.made ≡ made_of gives executor.now (view args.now) outputs (listed inputs.now)) }
    ensures ahead { IfOk result (λ r. r.ahead ≡ true → IsSomeAnd ahead (IsOfCall executor.now (slots (view args.now)) outputs (listed inputs.now))) }
{
    if let Ok(found) = inputs {
        let slotted = slots(alloc, args)?;
        if let Some(made) = ahead_of(ahead, executor, &slotted, outputs, found.as_slice()) {
            return Ok(MadeSo { made, ahead: true });
        }
    }
    let made = make(alloc, kit, executor, args, outputs, inputs)?;
    Ok(MadeSo { made, ahead: false })
}

// Hands out the output that is there whole, where there are outputs.
fn hand_out_made<R: Wait>(
    rt: &R,
    alloc: Global,
    index: u32,
    made: &Result<Vec<Bytes>, Fault>,
    producer: &mut Producer,
) -> Result<(), Memory>
    requires given { (inputs : _) × (producer.old.source.inputs ≡ Ok inputs)
        × (listed made.now ≡ made_of gives producer.old.source.executor (view producer.old.source.args) producer.old.source.outputs (Ok inputs)) }
    requires fresh { producer.old.pieces ≡ [] }
    requires hands { hands_out (executor_of producer.old.source.executor) ≡ true }
    requires index { producer.old.source.index ≡ index }
    ensures source { producer.new.source ≡ producer.old.source }
    ensures all { AllParts producer.new.pieces }
    ensures end { IfOk result (λ _. IfOk made.now (λ _. LawOf producer.new.source (producer.new.pieces ++ End ∷ []))) }
{
    match made {
        Ok(outputs) => hand_out(rt, alloc, index, outputs.as_slice(), producer),
        Err(_) => Ok(()),
    }
}

// The outputs of an executor's run that hands out one of them, or the fault that each is.
fn led<R: Wait>(
    rt: &R,
    alloc: Global,
    executor: &Txt,
    args: &Value,
    outputs: u32,
    index: u32,
    inputs: &[Bytes],
    producer: &mut Producer,
) -> Result<Result<Vec<Bytes>, Fault>, Memory>
    requires call { IsCall producer.old.source executor.now (view args.now) outputs index inputs.now }
    requires fresh { producer.old.pieces ≡ [] }
    requires hands { hands_out (executor_of executor.now) ≡ true }
    requires few { length inputs.now < 2 ^ 32 }
    ensures source { producer.new.source ≡ producer.old.source }
    ensures all { AllParts producer.new.pieces }
    ensures made { IfOk result (λ r. listed r ≡ without_place (gives executor.now (view args.now) inputs.now outputs)) }
    ensures end { IfOk result (λ r. IfOk r (λ _. LawOf producer.new.source (producer.new.pieces ++ End ∷ []))) }
{
    match lead(rt, alloc, executor, args, outputs, index, inputs, producer)? {
        Ok(outputs) => Ok(Ok(outputs)),
        Err(kind) => Ok(Err(no_place(kind))),
    }
}

/// As `make_with`, and the pieces of one of the outputs are put. The last piece isn't: where there are outputs, the end may be.
///
/// Answers `Memory` for want of memory. Whatever it answers, all that was put are parts.
pub(crate) fn make_leading<R: Wait>(
    rt: &R,
    alloc: Global,
    executor: &Txt,
    args: &Value,
    outputs: u32,
    index: u32,
    inputs: &Result<Vec<Bytes>, Fault>,
    ahead: Option<Left>,
    producer: &mut Producer,
) -> Result<MadeSo, Memory>
    requires kept { Kept (view args.now) }
    requires source { producer.old.source ≡ record {
      executor = executor.now;
      args = args.now;
      outputs = outputs;
      index = index;
      inputs = listed inputs.now;
    } }
    requires fresh { producer.old.pieces ≡ [] }
    requires hands { hands_out (executor_of executor.now) ≡ true }
    requires few { IfOk (listed inputs.now) (λ bs. length bs < 2 ^ 32) }
    ensures source { producer.new.source ≡ producer.old.source }
    ensures parts { AllParts producer.new.pieces }
    ensures all { IfOk result (λ r. IfOk (listed r.made) (λ bs. length bs ≡ outputs)) }
    ensures made { IfOk result (λ r. listed r.made ≡ made_of gives executor.now (view args.now) outputs (listed inputs.now)) }
    ensures ahead { IfOk result (λ r. r.ahead ≡ true → IsSomeAnd ahead (IsOfCall executor.now (slots (view args.now)) outputs (listed inputs.now))) }
    ensures end { IfOk result (λ r. IfOk r.made (λ _. LawOf producer.new.source (producer.new.pieces ++ End ∷ []))) }
{
    match inputs {
        Err(fault) => Ok(MadeSo {
            made: Err(*fault),
            ahead: false,
        }),
        Ok(found) => {
            let slotted = slots(alloc, args)?;
            let inputs = found.as_slice();
            match ahead_of(ahead, executor, &slotted, outputs, inputs) {
                Some(made) => {
                    hand_out_made(rt, alloc, index, &made, producer)?;
                    Ok(MadeSo { made, ahead: true })
                }
                None => {
                    let made = led(
                        rt, alloc, executor, &slotted, outputs, index, inputs, producer,
                    )?;
                    Ok(MadeSo { made, ahead: false })
                }
            }
        }
    }
}
