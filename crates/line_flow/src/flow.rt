// A flow: an executor that takes its inputs in pieces.

ghost use Rattle.std.specs.Prelude.{◌≡◌, ◌<◌, ◌≤◌, Some, None, Err, true, false, IfOk, IfErr, length, take, count_by, ℕ, ◌++◌};
ghost use Rattle.sky_base.specs.Val.{dict};
ghost use Rattle.sky_base.specs.View.{view, pairs_of};
ghost use Rattle.sky_base.specs.declared.fault.FaultKind.TheVariants.{TooLarge};
ghost use Rattle.line_kit.specs.Lines.{all_lines, is_open, is_feed};
ghost use Rattle.line_kit.specs.Table.{executor_of, may_have, has_keys, all_fit};
ghost use Rattle.line_kit.specs.Gives.{gives};
ghost use Rattle.line_flow.specs.Told.{opened, fed_more, drained_more, early, CanFeed};
ghost use Rattle.line_flow.specs.Drained.{Follows, Completes};
ghost use Rattle.line_flow.specs.Refused.{Right, wrong_args, refusal};
ghost use Rattle.line_flow.specs.Stands.{Stands, IsWhole, Took};
ghost use Rattle.line_flow.specs.declared.flow.FlowRefusal.{FlowRefusal};

use crate::rest::{cut, settled_end};
use crate::settled::Settled;
use line_kit::arguments::{all_fit, has_keys};
use line_kit::executor::{Executor, executor_of};
use sky_base::fault::FaultKind;
use sky_base::text::{Bytes, Memory, Txt};
use sky_base::value::{Pair, Value};
use std::alloc::Global;

/// Why a flow isn't opened.
#[derive(Clone, Copy, PartialEq, Eq, Debug)]
pub enum FlowRefusal {
    /// The fault that the executor gives for this name, these arguments and this number of outputs, whatever the
    /// inputs are.
    Refused(FaultKind),
    /// There is no memory.
    Memory,
}

/// An executor that takes its inputs in pieces, in their order, and hands out what is settled when it is asked to. What it
/// hands out and answers is what the executor gives for the joined pieces, however they are cut.
///
/// The settled lines are those of the inputs before the last one fed, and those of the last one that a line feed ends. Of
/// these a flow keeps for `cat`, `grep`, `words`, `deal` and `head` what wasn't drained yet, for `count` their number, for `half`
/// its output while that isn't too large, for `sum` and `tally` each distinct rest or line with its sum, for `same` the first input
/// and how far the second agrees with it, for `sort` and `split` all. Beside these it holds what follows the last line feed
/// of the last input, and lines for which there was no memory when they came.
#[derive(Drop)]
pub struct Flow {
    pub(crate) alloc: Global,
    pub(crate) executor: Txt,
    pub(crate) args: Value,
    pub(crate) outputs: u32,
    // the last input fed
    pub(crate) last: u32,
    // what of it isn't settled
    pub(crate) rest: Vec<u8>,
    pub(crate) settled: Settled,
}

// The pairs of the arguments, where they are right, or their fault.
fn right_args(executor: Executor, args: &Value) -> Result<&[Pair], FaultKind>
    ensures ok { IfOk result (λ r. (view args.now ≡ dict (pairs_of r.now)) × (has_keys executor (pairs_of r.now) ≡ true)
        × (all_fit executor (pairs_of r.now) ≡ true)) }
    ensures err { IfErr result (λ k. wrong_args executor (view args.now) ≡ Some k) }
{
    let Value::Dict(args) = args else {
        return Err(FaultKind::BadKind);
    };
    let args = args.as_slice();
    if !has_keys(executor, args) {
        return Err(FaultKind::NoKey);
    }
    if !all_fit(executor, args) {
        return Err(FaultKind::BadKind);
    }
    Ok(args)
}

// The executor of a name, where it may have so many outputs, or the fault.
fn right_executor(executor: &Txt, outputs: u32) -> Result<Executor, FaultKind>
    ensures ok { IfOk result (λ e. (executor_of executor.now ≡ Some e) × (may_have e outputs ≡ true)) }
    ensures err { IfErr result (λ k. (args : _) → refusal executor.now args outputs ≡ Some k) }
{
    let Some(executor) = executor_of(executor.as_str()) else {
        return Err(FaultKind::BadExec);
    };
    if !executor.may_have(outputs) {
        return Err(FaultKind::BadCount);
    }
    Ok(executor)
}

// The executor with the pairs of its arguments, or the fault.
fn right_call<'a>(
    executor: &Txt,
    args: &'a Value,
    outputs: u32,
) -> Result<(Executor, &'a [Pair]), FaultKind>
    ensures ok { IfOk result (λ r. Right executor.now (view args.now) outputs r.0 (pairs_of r.1.now)) }
    ensures err { IfErr result (λ k. refusal executor.now (view args.now) outputs ≡ Some k) }
{
    let kind = right_executor(executor, outputs)?;
    let pairs = right_args(kind, args)?;
    Ok((kind, pairs))
}

// A flow that was fed nothing.
fn begin(
    alloc: Global,
    kind: Executor,
    pairs: &[Pair],
    executor: &Txt,
    args: &Value,
    outputs: u32,
) -> Result<Flow, Memory>
    requires { may_have kind outputs ≡ true }
    ensures { IfOk result (λ f. Right executor.now (view args.now) outputs kind (pairs_of pairs.now) → (inputs : _)
        → Stands f (opened executor.now (view args.now) inputs outputs)) }
{
    Ok(Flow {
        alloc,
        executor: executor.share()?,
        args: args.copy()?,
        outputs,
        last: 0,
        rest: Vec::new(alloc),
        settled: Settled::nothing(alloc, kind, pairs, outputs)?,
    })
}

impl Flow {
    /// A flow that was fed nothing. `inputs` is the number of its inputs.
    ///
    /// It is refused exactly where the name, the arguments or the number of outputs have a fault: BadExec for a name
    /// that no executor has, BadCount for a number of outputs that the executor can't have, BadKind for arguments that
    /// are no dictionary, NoKey for a missing key, BadKind for another key or a value of another kind.
    pub fn open(
        alloc: Global,
        executor: &Txt,
        args: &Value,
        inputs: u32,
        outputs: u32,
    ) -> Result<Flow, FlowRefusal>
        ensures opened { IfOk result (λ f. Stands f (opened executor.now (view args.now) inputs outputs)) }
        ensures right { IfOk result (λ _. refusal executor.now (view args.now) outputs ≡ None) }
        ensures refused { (kind : _) → result ≡ Err (FlowRefusal.Refused kind) → refusal executor.now (view args.now) outputs ≡ Some kind }
    {
        let _ = inputs;
        match right_call(executor, args, outputs) {
            Err(kind) => Err(FlowRefusal::Refused(kind)),
            Ok((kind, pairs)) => match begin(alloc, kind, pairs, executor, args, outputs) {
                Ok(flow) => Ok(flow),
                Err(_) => Err(FlowRefusal::Memory),
            },
        }
    }

    // Settles the lines of the first so many bytes of the rest, while there is memory, and answers how many of these
    // bytes that took.
    fn take(&mut self, end: usize) -> usize
        requires { end ≤ length self.old.rest.items }
        ensures bound { result ≤ end }
        ensures closed { result < end → is_open (take result self.old.rest.items) ≡ false }
        ensures took { Took self.old self.new result }
    {
        let taken = self.settled.take(self.alloc, self.last, &self.rest[..end]);
        cut(&mut self.rest, taken);
        taken
    }

    // Settles the lines of the rest that a line feed ends, where one stands from this place on, and answers whether there
    // was memory.
    fn settle(&mut self, from: usize) -> bool
        requires { from ≤ length self.old.rest.items }
        ensures stands { (t : _) → Stands self.old t → Stands self.new t }
        ensures all { result ≡ true → from ≡ 0 → count_by is_feed self.new.rest.items ≡ 0 }
    {
        let end = settled_end(self.rest.as_slice(), from);
        self.take(end) == end
    }

    // Settles all of the rest, and answers whether there was memory.
    fn settle_all(&mut self) -> bool
        ensures some { result ≡ false → (t : _) → Stands self.old t → Stands self.new t }
        ensures all { result ≡ true → (t : _) → Stands self.old t → IsWhole self.new t }
    {
        let end = self.rest.len();
        self.take(end) == end
    }

    // The first piece of a later input. What is left of the one before is a line.
    fn turn(&mut self, input: u32, piece: &[u8]) -> Result<(), Memory>
        ensures ok { IfOk result (λ _. (t : _) → Stands self.old t → t.last < input → input < length t.fed
            → Stands self.new (fed_more t input piece.now)) }
        ensures err { IfErr result (λ _. (t : _) → Stands self.old t → Stands self.new t) }
    {
        let Ok(rest) = Vec::from_slice(self.alloc, piece) else {
            return Err(Memory);
        };
        if !self.settle_all() {
            return Err(Memory);
        }
        self.last = input;
        self.rest = rest;
        let _ = self.settle(0);
        Ok(())
    }

    // A further piece of the last input.
    fn go_on(&mut self, piece: &[u8]) -> Result<(), Memory>
        ensures ok { IfOk result (λ _. (t : _) → Stands self.old t → t.last < length t.fed → Stands self.new (fed_more t t.last piece.now)) }
        ensures err { IfErr result (λ _. (t : _) → Stands self.old t → Stands self.new t) }
    {
        let from = self.rest.len();
        if self.rest.extend_from_slice(piece).is_err() {
            return Err(Memory);
        }
        let _ = self.settle(from);
        Ok(())
    }

    /// Takes a piece of an input, from 0. The input is below the number given to `open`, and no later one was fed
    /// before. Where there is no memory for the piece the flow is as it was.
    pub fn feed(&mut self, input: u32, piece: &[u8]) -> Result<(), Memory>
        ensures fed { IfOk result (λ _. (t : _) → Stands self.old t → CanFeed t input → Stands self.new (fed_more t input piece.now)) }
        ensures unchanged { IfErr result (λ _. (t : _) → Stands self.old t → Stands self.new t) }
    {
        if input > self.last {
            self.turn(input, piece)
        } else {
            self.go_on(piece)
        }
    }

    /// What is settled of each output and wasn't drained before. Where there is no memory for it the flow is as it was.
    pub fn drain(&mut self) -> Result<Vec<Bytes>, Memory>
        ensures drained { IfOk result (λ v. (t : _) → Stands self.old t → Follows t.drained v.items (early t)) }
        ensures stands { IfOk result (λ _. (t : _) → Stands self.old t → Stands self.new (drained_more t)) }
        ensures unchanged { IfErr result (λ _. (t : _) → Stands self.old t → Stands self.new t) }
    {
        if !self.settle(0) {
            return Err(Memory);
        }
        self.settled.drain(self.alloc, self.outputs)
    }

    /// Whether an output is too large whatever is fed: the answer is then `TooLarge`, for these inputs and more.
    pub(crate) fn is_over(&self) -> bool
        ensures { result ≡ true → (t : _) (inputs : _) (more : _) → Stands self.now t → all_lines inputs ≡ all_lines t.fed ++ more
            → gives t.executor t.args inputs t.outputs ≡ Err TooLarge }
    {
        self.settled.is_over()
    }

    /// The answer of the executor for the inputs as they were fed, each output without what was drained of it.
    pub fn end(self) -> Result<Result<Vec<Bytes>, FaultKind>, Memory>
        ensures { IfOk result (λ r. (t : _) → Stands self t → Completes t.drained r (gives t.executor t.args t.fed t.outputs)) }
    {
        let mut flow = self;
        if !flow.settle_all() {
            return Err(Memory);
        }
        flow.settled
            .finish(flow.alloc, &flow.executor, &flow.args, flow.outputs)
    }
}
