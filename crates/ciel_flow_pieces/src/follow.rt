//! The run of an executor on an output that is still made.

ghost use Rattle.std.specs.Prelude.{◌≡◌, ◌++◌, [], ◌∷◌, ℕ, Ok, IfOk, IfSome, replicate};
ghost use Rattle.sky_base.specs.KitView.{RunsSo};
ghost use Rattle.sky_base.specs.View.{view};
ghost use Rattle.line_kit.specs.Gives.{gives};
ghost use Rattle.line_flow.specs.Told.{CanFeed, Told, fed_more, opened};
ghost use Rattle.line_flow.specs.Stands.{Stands};
ghost use Rattle.ciel_flow_pieces.specs.Source.{output};
ghost use Rattle.ciel_flow_pieces.specs.Pieces.{AllParts};
ghost use Rattle.ciel_flow_pieces.specs.Left.{GivesSo, flat};

use crate::ends::Follower;
use crate::piece::Piece;
use line_flow::flow::Flow;
use sky_base::fault::FaultKind;
use sky_base::text::{Bytes, Memory, Txt};
use sky_base::value::Value;
use std::alloc::Global;
use std::sync::Wait;

/// What was computed ahead: what an executor gives for these bytes.
#[derive(Drop)]
pub struct Left {
    pub executor: Txt,
    pub args: Value,
    pub outputs: u32,
    pub parts: Vec<Bytes>,
    pub made: Result<Vec<Bytes>, FaultKind>,
    ghost so: { GivesSo executor args outputs parts.items made },
}

// Feeds a part, and keeps it.
fn keep(flow: &mut Flow, parts: &mut Vec<Bytes>, bytes: Bytes) -> Result<(), Memory>
    ensures parts { IfOk result (λ _. parts.new.items ≡ parts.old.items ++ bytes ∷ []) }
    ensures fed { IfOk result (λ _. (t : Told) → Stands flow.old t → CanFeed t 0 → Stands flow.new (fed_more t 0 bytes)) }
{
    flow.feed(0, bytes.as_slice())?;
    match parts.push(bytes) {
        Ok(()) => Ok(()),
        Err(_) => Err(Memory),
    }
}

// Takes what comes, up to the last piece.
fn pass_over<R: Wait>(rt: &R, follower: Follower)
    requires { AllParts follower.pieces }
{
    let mut follower = follower;
    for _ in rt.forever() {
        match follower.take(rt) {
            Piece::Part(_) => {}
            Piece::End | Piece::Broken => return,
        }
    }
}

// Feeds a flow with what comes.
fn feed_all<R: Wait>(
    rt: &R,
    alloc: Global,
    executor: Txt,
    args: Value,
    outputs: u32,
    flow: Flow,
    follower: Follower,
) -> Option<Left>
    requires fresh { follower.pieces ≡ [] }
    requires flow { Stands flow (opened executor (view args) 1 outputs) }
    ensures whole { IfSome result (λ l. output follower.source ≡ Ok (flat l.parts.items)) }
    ensures executor { IfSome result (λ l. l.executor ≡ executor) }
    ensures args { IfSome result (λ l. l.args ≡ args) }
    ensures outputs { IfSome result (λ l. l.outputs ≡ outputs) }
{
    let mut follower = follower;
    let mut flow = flow;
    let mut parts = Vec::new(alloc);
    for _ in rt.forever() {
        match follower.take(rt) {
            Piece::Part(bytes) => match keep(&mut flow, &mut parts, bytes) {
                Ok(()) => {}
                Err(_) => {
                    pass_over(rt, follower);
                    return None;
                }
            },
            Piece::Broken => return None,
            Piece::End => return ended(executor, args, outputs, flow, parts),
        }
    }
    unreachable!()
}

// What the flow gives for these parts.
fn ended(executor: Txt, args: Value, outputs: u32, flow: Flow, parts: Vec<Bytes>) -> Option<Left>
    requires { Stands flow record {
      executor = executor;
      args = view args;
      outputs = outputs;
      fed = flat parts.items ∷ [];
      last = 0;
      drained = replicate outputs [];
    } }
    ensures parts { IfSome result (λ l. l.parts ≡ parts) }
    ensures executor { IfSome result (λ l. l.executor ≡ executor) }
    ensures args { IfSome result (λ l. l.args ≡ args) }
    ensures outputs { IfSome result (λ l. l.outputs ≡ outputs) }
{
    match flow.end() {
        Ok(made) => Some(Left {
            executor,
            args,
            outputs,
            parts,
            made,
        }),
        Err(_) => None,
    }
}

/// Runs an executor with one input on the output that comes in pieces, up to its last piece. `None` where that is no end, or there is no
/// memory, or the call is refused. Whatever it answers, all pieces were taken.
pub fn follow<R: Wait>(
    rt: &R,
    alloc: Global,
    executor: Txt,
    args: Value,
    outputs: u32,
    follower: Follower,
) -> Option<Left>
    requires fresh { follower.pieces ≡ [] }
    ensures whole { IfSome result (λ l. output follower.source ≡ Ok (flat l.parts.items)) }
    ensures executor { IfSome result (λ l. l.executor ≡ executor) }
    ensures args { IfSome result (λ l. l.args ≡ args) }
    ensures outputs { IfSome result (λ l. l.outputs ≡ outputs) }
{
    match Flow::open(alloc, &executor, &args, 1, outputs) {
        Ok(flow) => feed_all(rt, alloc, executor, args, outputs, flow, follower),
        Err(_) => {
            pass_over(rt, follower);
            None
        }
    }
}
