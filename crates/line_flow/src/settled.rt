// What is kept of the settled lines, for each executor.

ghost use Rattle.std.specs.Prelude.{◌≡◌, ℕ, ◌<◌, ◌≤◌, ◌∷◌, [], Some, IfOk, IfErr, true, false, length, take, replicate, ◌++◌, Err};
ghost use Rattle.sky_base.specs.View.{view, pairs_of};
ghost use Rattle.sky_base.specs.declared.fault.FaultKind.TheVariants.{TooLarge};
ghost use Rattle.line_kit.specs.Lines.{all_lines, lines, is_open};
ghost use Rattle.line_kit.specs.Table.{may_have, text_of, lines_of};
ghost use Rattle.line_kit.specs.Gives.{row};
ghost use Rattle.line_kit.specs.declared.executor.Executor.TheVariants.{Grep as OfGrep, Head as OfHead};
ghost use Rattle.line_flow.specs.Told.{early_by};
ghost use Rattle.line_flow.specs.Drained.{Follows, Completes};
ghost use Rattle.line_flow.specs.Refused.{Right};
ghost use Rattle.line_flow.specs.Kept.{Keeps, KeptBlocks, KeptLined, seen_of, seen_more, nothing_seen};

use crate::blocks::Blocks;
use crate::halves::Halves;
use crate::head::Head;
use crate::lined::Lined;
use crate::pair::Pair;
use crate::stream::Stream;
use crate::sums::Sums;
use crate::totals::Totals;
use crate::turns::Turns;
use line_kit::arguments::{lines_of, text_of};
use line_kit::executor::Executor;
use line_kit::output::Answer;
use sky_base::text::{Bytes, Memory, Txt};
use sky_base::value::{Pair as Entry, Value};
use std::alloc::Global;

/// What is kept of the settled lines.
pub(crate) enum Settled {
    /// Of an executor that takes blocks.
    Blocks(Blocks),
    /// Of an executor that takes lines.
    Lined(Lined),
}

impl Drop for Settled {
    fn drop(self) {
        match self {
            Settled::Blocks(_) => {}
            Settled::Lined(_) => {}
        }
    }
}

fn grep(alloc: Global, text: &[u8]) -> Result<Blocks, Memory>
    ensures { IfOk result (λ b. (args : _) → text_of args ≡ text.now → KeptBlocks b OfGrep args 1 ([] ∷ []) nothing_seen) }
{
    match Vec::from_slice(alloc, text) {
        Ok(text) => Ok(Blocks::Grep(text, Stream::new(alloc))),
        Err(_) => Err(Memory),
    }
}

fn head(alloc: Global, left: u64) -> Lined
    ensures { (args : _) → lines_of args ≡ left → KeptLined result OfHead args 1 ([] ∷ []) [] }
{
    Lined::Head(Head {
        left,
        out: Stream::new(alloc),
    })
}

impl Settled {
    /// No lines.
    pub(crate) fn nothing(
        alloc: Global,
        executor: Executor,
        args: &[Entry],
        outputs: u32,
    ) -> Result<Settled, Memory>
        requires { may_have executor outputs ≡ true }
        ensures { IfOk result (λ s. Keeps s executor (pairs_of args.now) outputs (replicate outputs []) nothing_seen) }
    {
        Ok(match executor {
            Executor::Cat => Settled::Blocks(Blocks::Cat(Stream::new(alloc))),
            Executor::Grep => Settled::Blocks(grep(alloc, text_of(args))?),
            Executor::Words => Settled::Lined(Lined::Words(Stream::new(alloc))),
            Executor::Deal => Settled::Lined(Lined::Deal(Turns::new(alloc, outputs)?)),
            Executor::Tally => Settled::Lined(Lined::Tally(Totals::new(alloc))),
            Executor::Count => Settled::Blocks(Blocks::Count(0)),
            Executor::Sum => Settled::Lined(Lined::Sum(Sums::new(alloc))),
            Executor::Head => Settled::Lined(head(alloc, lines_of(args))),
            Executor::Half => Settled::Lined(Lined::Half(Halves::new(alloc))),
            Executor::Same => Settled::Blocks(Blocks::Same(Pair::new(alloc))),
            Executor::Sort | Executor::Split => Settled::Blocks(Blocks::Kept(Vec::new(alloc))),
        })
    }

    /// Takes the lines of a block of an input while there is memory, and answers how many of its bytes these have.
    pub(crate) fn take(&mut self, alloc: Global, input: u32, block: &[u8]) -> usize
        ensures bound { result ≤ length block.now }
        ensures closed { result < length block.now → is_open (take result block.now) ≡ false }
        ensures keeps { (e : _) (args : _) (n : ℕ) (drained : _) (seen : _) → 0 < n → (input ≡ 0 → seen.second ≡ [])
            → Keeps self.old e args n drained seen
            → Keeps self.new e args n drained (seen_more seen input (lines (take result block.now))) }
    {
        match self {
            Settled::Blocks(blocks) => match blocks.take(input, block) {
                Ok(()) => block.len(),
                Err(_) => 0,
            },
            Settled::Lined(lined) => lined.take_all(alloc, block),
        }
    }

    /// Whether an output has more bytes than an output may have, whatever lines follow.
    pub(crate) fn is_over(&self) -> bool
        ensures { result ≡ true → (e : _) (args : _) (n : ℕ) (drained : _) (seen : _) (inputs : _) (more : _) → Keeps self.now e args n drained seen
            → all_lines inputs ≡ seen.all ++ more → row e args inputs n ≡ Err TooLarge }
    {
        match self {
            Settled::Blocks(blocks) => blocks.is_over(),
            Settled::Lined(lined) => lined.is_over(),
        }
    }

    /// What waits of each output: it is handed out, or all is left as it is.
    pub(crate) fn drain(&mut self, alloc: Global, outputs: u32) -> Result<Vec<Bytes>, Memory>
        ensures ok { IfOk result (λ v. (e : _) (args : _) (drained : _) (seen : _) → Keeps self.old e args outputs drained seen
            → Follows drained v.items (early_by (Some e) args outputs seen.all)
            × Keeps self.new e args outputs (early_by (Some e) args outputs seen.all) seen) }
        ensures err { IfErr result (λ _. (e : _) (args : _) (drained : _) (seen : _)
            → Keeps self.old e args outputs drained seen → Keeps self.new e args outputs drained seen) }
    {
        match self {
            Settled::Blocks(blocks) => blocks.drain(alloc, outputs),
            Settled::Lined(lined) => lined.drain(alloc, outputs),
        }
    }

    /// The answer, without what was handed out.
    pub(crate) fn finish(self, alloc: Global, executor: &Txt, args: &Value, outputs: u32) -> Answer
        ensures { IfOk result (λ r. (e : _) (pairs : _) (drained : _) (inputs : _) → Right executor.now (view args.now) outputs e pairs
            → Keeps self e pairs outputs drained (seen_of inputs) → Completes drained r (row e pairs inputs outputs)) }
    {
        match self {
            Settled::Blocks(blocks) => blocks.finish(alloc, executor, args, outputs),
            Settled::Lined(lined) => lined.finish(alloc),
        }
    }
}
