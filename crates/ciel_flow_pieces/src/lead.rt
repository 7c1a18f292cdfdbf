//! The run of an executor that hands out one of its outputs while it runs.

ghost use Rattle.std.specs.Prelude.{◌≡◌, ◌++◌, ◌<◌, ◌≤◌, ◌^◌, ℕ, List, [], ◌∷◌, IfOk, Ok, length, replicate, true};
ghost use Rattle.sky_base.specs.KitView.{RunsSo};
ghost use Rattle.sky_base.specs.View.{view};
ghost use Rattle.sky_base_exec.specs.Perform.{slots};
ghost use Rattle.line_kit.specs.Gives.{gives};
ghost use Rattle.line_kit.specs.Table.{executor_of};
ghost use Rattle.line_flow.specs.Told.{CanFeed, Told, drained_more, fed_more, opened};
ghost use Rattle.line_flow.specs.Stands.{Stands};
ghost use Rattle.ciel_flow_pieces.specs.Pieces.{AllParts, AllShort, LawOf, most_of_a_piece, parts};
ghost use Rattle.ciel_flow_pieces.specs.Source.{hands_out};
ghost use Rattle.ciel_flow_pieces.specs.Leads.{Begins, IsCall, IsFirstOf, IsOf, JoinedEach, Leads, WasFed, at};
ghost use Rattle.ciel_flow_pieces.specs.declared.piece.Piece.TheVariants.{End};

use crate::ends::Producer;
use crate::piece::Piece;
use line_flow::flow::{Flow, FlowRefusal};
use line_flow::kit::MOST_OF_A_PIECE;
use line_kit::executor::{Executor, executor_of};
use sky_base::fault::FaultKind;
use sky_base::text::{Bytes, Memory, Txt};
use sky_base::value::Value;
use std::alloc::Global;
use std::marker::Model;
use std::sync::Wait;

/// Whether an executor's output can be had line by line, while it is made: that of `cat`, `grep`, `words`, `deal` and `head`.
pub fn hands_out(executor: &Txt) -> bool
    ensures { result ≡ hands_out (executor_of executor.now) }
{
    matches!(
        executor_of(executor.as_str()),
        Some(Executor::Cat | Executor::Grep | Executor::Words | Executor::Deal | Executor::Head)
    )
}

/// An output so far. Contracts see it as its bytes.
#[derive(Drop)]
pub(crate) struct Grown {
    bytes: Vec<u8>,
}

impl Model for Grown {
    ghost use Rattle.std.specs.Prelude.{List, ℕ};

    ghost Value = { List ℕ };

    ghost view = { λ g. g.bytes.items };
}

impl Grown {
    fn new(alloc: Global) -> Grown
        ensures { result ≡ [] }
    {
        Grown {
            bytes: Vec::new(alloc),
        }
    }

    fn add(&mut self, more: &[u8]) -> Result<(), Memory>
        ensures { IfOk result (λ _. self.new ≡ self.old ++ more.now) }
    {
        match self.bytes.extend_from_slice(more) {
            Ok(()) => Ok(()),
            Err(_) => Err(Memory),
        }
    }
}

/// So many outputs without a byte.
pub(crate) fn nothing_grown(alloc: Global, outputs: u32) -> Result<Vec<Grown>, Memory>
    ensures { IfOk result (λ v. v.items ≡ replicate outputs []) }
{
    let mut all = Vec::new(alloc);
    for _i in 0..outputs {
        if all.push(Grown::new(alloc)).is_err() {
            return Err(Memory);
        }
    }
    Ok(all)
}

// Adds to each output what follows.
fn add_all(kept: &mut Vec<Grown>, more: &[Bytes]) -> Result<(), Memory>
    requires { length more.now ≡ length kept.old.items }
    ensures { IfOk result (λ _. JoinedEach kept.old.items more.now kept.new.items) }
{
    for i in 0..kept.len() {
        kept[i].add(more[i].as_slice())?;
    }
    Ok(())
}

// What was drained of one output, or nothing.
fn one_of(alloc: Global, more: &[Bytes], index: u32) -> Result<Bytes, Memory>
    ensures { IfOk result (λ b. b ≡ at more.now index) }
{
    let at = index as usize;
    if at < more.len() {
        more[at].share()
    } else {
        Bytes::new(alloc, Vec::new(alloc))
    }
}

// A copy of these bytes.
fn copied(alloc: Global, bytes: &[u8]) -> Result<Bytes, Memory>
    ensures { IfOk result (λ b. b ≡ bytes.now) }
{
    match Vec::from_slice(alloc, bytes) {
        Ok(copy) => Bytes::new(alloc, copy),
        Err(_) => Err(Memory),
    }
}

// Puts one part.
fn put_one<R: Wait>(rt: &R, part: Bytes, producer: &mut Producer)
    requires short { length part ≤ most_of_a_piece }
    requires all { AllParts producer.old.pieces }
    requires all_short { AllShort producer.old.pieces }
    requires begins { IsFirstOf producer.old part }
    ensures source { producer.new.source ≡ producer.old.source }
    ensures all { AllParts producer.new.pieces }
    ensures all_short { AllShort producer.new.pieces }
    ensures put { parts producer.new.pieces ≡ parts producer.old.pieces ++ part }
{
    producer.put(rt, Piece::Part(part));
}

// Puts copies of these bytes, in as many parts as they take.
fn put_cut<R: Wait>(
    rt: &R,
    alloc: Global,
    bytes: &[u8],
    producer: &mut Producer,
) -> Result<(), Memory>
    requires all { AllParts producer.old.pieces }
    requires all_short { AllShort producer.old.pieces }
    requires begins { IsFirstOf producer.old bytes.now }
    ensures source { producer.new.source ≡ producer.old.source }
    ensures all { AllParts producer.new.pieces }
    ensures all_short { AllShort producer.new.pieces }
    ensures put { IfOk result (λ _. parts producer.new.pieces ≡ parts producer.old.pieces ++ bytes.now) }
{
    let mut rest = bytes;
    while rest.len() > MOST_OF_A_PIECE {
        let (piece, more) = rest.split_at(MOST_OF_A_PIECE);
        let part = copied(alloc, piece)?;
        put_one(rt, part, producer);
        rest = more;
    }
    let last = copied(alloc, rest)?;
    put_one(rt, last, producer);
    Ok(())
}

/// Puts these bytes, as they are where one part may have so many, else copied into as many parts as they take.
pub(crate) fn put_parts<R: Wait>(
    rt: &R,
    alloc: Global,
    bytes: Bytes,
    producer: &mut Producer,
) -> Result<(), Memory>
    requires all { AllParts producer.old.pieces }
    requires all_short { AllShort producer.old.pieces }
    requires begins { IsFirstOf producer.old bytes }
    ensures source { producer.new.source ≡ producer.old.source }
    ensures all { AllParts producer.new.pieces }
    ensures all_short { AllShort producer.new.pieces }
    ensures put { IfOk result (λ _. parts producer.new.pieces ≡ parts producer.old.pieces ++ bytes) }
{
    let all = bytes.as_slice();
    if all.len() > MOST_OF_A_PIECE {
        return put_cut(rt, alloc, all, producer);
    }
    put_one(rt, bytes, producer);
    Ok(())
}

/// Feeds a piece, drains the flow, keeps what it hands out and puts that of one output.
pub(crate) fn lead_piece<R: Wait>(
    rt: &R,
    alloc: Global,
    flow: &mut Flow,
    input: u32,
    piece: &[u8],
    kept: &mut Vec<Grown>,
    index: u32,
    producer: &mut Producer,
) -> Result<(), Memory>
    requires leads { (t : Told) × (inputs : List (List ℕ)) × Leads flow.old t kept.old.items producer.old × IsOf producer.old.source t inputs
        × CanFeed t input × Begins t input piece.now inputs }
    requires index { producer.old.source.index ≡ index }
    ensures source { producer.new.source ≡ producer.old.source }
    ensures all { AllParts producer.new.pieces }
    ensures leads { IfOk result (λ _. (t : Told) → Leads flow.old t kept.old.items producer.old → CanFeed t input
        → Leads flow.new (drained_more (fed_more t input piece.now)) kept.new.items producer.new) }
{
    flow.feed(input, piece)?;
    let more = flow.drain()?;
    let part = one_of(alloc, more.as_slice(), index)?;
    add_all(kept, more.as_slice())?;
    put_parts(rt, alloc, part, producer)?;
    Ok(())
}

/// Feeds an input whole, piece by piece.
pub(crate) fn lead_input<R: Wait>(
    rt: &R,
    alloc: Global,
    flow: &mut Flow,
    input: u32,
    bytes: &[u8],
    kept: &mut Vec<Grown>,
    index: u32,
    producer: &mut Producer,
) -> Result<(), Memory>
    requires leads { (t : Told) × (inputs : List (List ℕ)) × Leads flow.old t kept.old.items producer.old × IsOf producer.old.source t inputs
        × CanFeed t input × Begins t input bytes.now inputs }
    requires index { producer.old.source.index ≡ index }
    ensures source { producer.new.source ≡ producer.old.source }
    ensures all { AllParts producer.new.pieces }
    ensures leads { IfOk result (λ _. (t : Told) → Leads flow.old t kept.old.items producer.old → CanFeed t input
        → (u : Told) × Leads flow.new u kept.new.items producer.new × CanFeed u input × WasFed t input bytes.now u) }
{
    let mut rest = bytes;
    while rest.len() > MOST_OF_A_PIECE {
        let (piece, more) = rest.split_at(MOST_OF_A_PIECE);
        lead_piece(rt, alloc, flow, input, piece, kept, index, producer)?;
        rest = more;
    }
    lead_piece(rt, alloc, flow, input, rest, kept, index, producer)
}

// The outputs.
fn in_bytes(alloc: Global, kept: Vec<Grown>) -> Result<Vec<Bytes>, Memory>
    ensures { IfOk result (λ v. v.items ≡ kept.items) }
{
    let mut all = Vec::new(alloc);
    for one in kept {
        let Grown { bytes } = one;
        if all.push(Bytes::new(alloc, bytes)?).is_err() {
            return Err(Memory);
        }
    }
    Ok(all)
}

/// Ends a flow to which all inputs were fed, and puts what is left of one output.
pub(crate) fn lead_end<R: Wait>(
    rt: &R,
    alloc: Global,
    flow: Flow,
    kept: Vec<Grown>,
    index: u32,
    producer: &mut Producer,
) -> Result<Result<Vec<Bytes>, FaultKind>, Memory>
    requires leads { (t : Told) × (inputs : List (List ℕ)) × Leads flow t kept.items producer.old × IsOf producer.old.source t inputs
        × (t.fed ≡ inputs) }
    requires hands { hands_out (executor_of producer.old.source.executor) ≡ true }
    requires index { producer.old.source.index ≡ index }
    ensures source { producer.new.source ≡ producer.old.source }
    ensures all { AllParts producer.new.pieces }
    ensures made { IfOk result (λ r. (t : Told) → Leads flow t kept.items producer.old → RunsSo r (gives t.executor t.args t.fed t.outputs)) }
    ensures end { IfOk result (λ r. IfOk r (λ _. LawOf producer.new.source (producer.new.pieces ++ End ∷ []))) }
{
    match flow.end()? {
        Err(kind) => Ok(Err(kind)),
        Ok(more) => {
            let part = one_of(alloc, more.as_slice(), index)?;
            let mut kept = kept;
            add_all(&mut kept, more.as_slice())?;
            let outputs = in_bytes(alloc, kept)?;
            put_parts(rt, alloc, part, producer)?;
            Ok(Ok(outputs))
        }
    }
}

// Feeds all inputs to a flow that was fed nothing.
fn lead_flow<R: Wait>(
    rt: &R,
    alloc: Global,
    flow: Flow,
    inputs: &[Bytes],
    count: u32,
    outputs: u32,
    index: u32,
    producer: &mut Producer,
) -> Result<Result<Vec<Bytes>, FaultKind>, Memory>
    requires count { count ≡ length inputs.now }
    requires call { IsOf producer.old.source (opened producer.old.source.executor (slots (view producer.old.source.args)) count outputs) inputs.now }
    requires flow { Stands flow (opened producer.old.source.executor (slots (view producer.old.source.args)) count outputs) }
    requires fresh { producer.old.pieces ≡ [] }
    requires hands { hands_out (executor_of producer.old.source.executor) ≡ true }
    requires index { producer.old.source.index ≡ index }
    ensures source { producer.new.source ≡ producer.old.source }
    ensures all { AllParts producer.new.pieces }
    ensures made { IfOk result (λ r. RunsSo r (gives producer.old.source.executor (slots (view producer.old.source.args)) inputs.now outputs)) }
    ensures end { IfOk result (λ r. IfOk r (λ _. LawOf producer.new.source (producer.new.pieces ++ End ∷ []))) }
{
    let mut flow = flow;
    let mut kept = nothing_grown(alloc, outputs)?;
    for input in 0..count {
        let bytes = inputs[input as usize].as_slice();
        lead_input(
            rt, alloc, &mut flow, input, bytes, &mut kept, index, producer,
        )?;
    }
    lead_end(rt, alloc, flow, kept, index, producer)
}

/// Runs an executor whose output can be had line by line over these inputs, piece by piece, and puts the pieces of one of its outputs. The
/// last piece isn't put: where it came to outputs, the end may be.
///
/// Answers `Memory` for want of memory. Whatever it answers, all that was put are parts.
pub fn lead<R: Wait>(
    rt: &R,
    alloc: Global,
    executor: &Txt,
    args: &Value,
    outputs: u32,
    index: u32,
    inputs: &[Bytes],
    producer: &mut Producer,
) -> Result<Result<Vec<Bytes>, FaultKind>, Memory>
    requires call { IsCall producer.old.source executor.now (view args.now) outputs index inputs.now }
    requires fresh { producer.old.pieces ≡ [] }
    requires hands { hands_out (executor_of executor.now) ≡ true }
    requires few { length inputs.now < 2 ^ 32 }
    ensures source { producer.new.source ≡ producer.old.source }
    ensures all { AllParts producer.new.pieces }
    ensures made { IfOk result (λ r. RunsSo r (gives executor.now (view args.now) inputs.now outputs)) }
    ensures end { IfOk result (λ r. IfOk r (λ _. LawOf producer.new.source (producer.new.pieces ++ End ∷ []))) }
{
    let count = inputs.len() as u32;
    match Flow::open(alloc, executor, args, count, outputs) {
        Ok(flow) => lead_flow(rt, alloc, flow, inputs, count, outputs, index, producer),
        Err(FlowRefusal::Refused(kind)) => Ok(Err(kind)),
        Err(FlowRefusal::Memory) => Err(Memory),
    }
}

/// Puts an output that is at hand whole, in as many parts as it takes. The last piece isn't put: the end may be.
///
/// Answers `Memory` for want of memory. Whatever it answers, all that was put are parts.
pub fn hand_out<R: Wait>(
    rt: &R,
    alloc: Global,
    index: u32,
    outputs: &[Bytes],
    producer: &mut Producer,
) -> Result<(), Memory>
    requires given { (inputs : List (List ℕ)) × (producer.old.source.inputs ≡ Ok inputs)
        × (gives producer.old.source.executor (slots (view producer.old.source.args)) inputs producer.old.source.outputs ≡ Ok outputs.now) }
    requires fresh { producer.old.pieces ≡ [] }
    requires hands { hands_out (executor_of producer.old.source.executor) ≡ true }
    requires index { producer.old.source.index ≡ index }
    ensures source { producer.new.source ≡ producer.old.source }
    ensures all { AllParts producer.new.pieces }
    ensures end { IfOk result (λ _. LawOf producer.new.source (producer.new.pieces ++ End ∷ [])) }
{
    let whole = one_of(alloc, outputs, index)?;
    put_parts(rt, alloc, whole, producer)?;
    Ok(())
}
