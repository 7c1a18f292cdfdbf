// The executors that take their lines one by one.

ghost use Rattle.std.specs.Prelude.{◌≡◌, ℕ, ◌<◌, ◌≤◌, ◌∷◌, ◌++◌, [], Some, IfOk, IfErr, true, false, length, take, Err};
ghost use Rattle.sky_base.specs.declared.fault.FaultKind.TheVariants.{TooLarge};
ghost use Rattle.line_kit.specs.Lines.{lines, all_lines, is_open};
ghost use Rattle.line_kit.specs.Table.{may_have};
ghost use Rattle.line_kit.specs.Gives.{row};
ghost use Rattle.line_flow.specs.Told.{early_by};
ghost use Rattle.line_flow.specs.Drained.{Follows, Completes};
ghost use Rattle.line_flow.specs.Kept.{KeptLined};

use crate::buffer::put_words;
use crate::halves::Halves;
use crate::head::Head;
use crate::rest::first_line;
use crate::stream::{Stream, drain_one, empties, finish_one};
use crate::sums::{Sums, written};
use crate::totals::Totals;
use crate::turns::{Turns, drain_all, finish_all, is_any_over};
use line_kit::output::Answer;
use sky_base::text::{Bytes, Memory};
use std::alloc::Global;

/// What is kept of the settled lines.
pub(crate) enum Lined {
    /// `words`: the words that weren't handed out.
    Words(Stream),
    /// `head`: how many lines more there may be, and those that weren't handed out.
    Head(Head),
    /// `deal`: whose turn it is, and the lines that weren't handed out.
    Deal(Turns),
    /// `half`: the output.
    Half(Halves),
    /// `sum`: the sums by rest.
    Sum(Sums),
    /// `tally`: the counts by line.
    Tally(Totals),
}

impl Drop for Lined {
    fn drop(self) {
        match self {
            Lined::Words(_) => {}
            Lined::Head(_) => {}
            Lined::Deal(_) => {}
            Lined::Half(_) => {}
            Lined::Sum(_) => {}
            Lined::Tally(_) => {}
        }
    }
}

impl Lined {
    /// Takes a line, or leaves all as it is.
    pub(crate) fn take(&mut self, alloc: Global, line: &[u8]) -> Result<(), Memory>
        ensures ok { IfOk result (λ _. (e : _) (args : _) (n : ℕ) (drained : _) (ls : _) → 0 < n
            → KeptLined self.old e args n drained ls → KeptLined self.new e args n drained (ls ++ line.now ∷ [])) }
        ensures err { IfErr result (λ _. (e : _) (args : _) (n : ℕ) (drained : _) (ls : _)
            → KeptLined self.old e args n drained ls → KeptLined self.new e args n drained ls) }
    {
        match self {
            Lined::Words(out) => put_words(&mut out.bytes, line),
            Lined::Head(head) => head.take(line),
            Lined::Deal(turns) => turns.take(line),
            Lined::Half(halves) => halves.take(line),
            Lined::Sum(sums) => sums.take(alloc, line),
            Lined::Tally(totals) => totals.add(alloc, line, 1),
        }
    }

    /// Takes the lines of a block while there is memory, and answers how many of its bytes these have.
    pub(crate) fn take_all(&mut self, alloc: Global, block: &[u8]) -> usize
        ensures bound { result ≤ length block.now }
        ensures closed { result < length block.now → is_open (take result block.now) ≡ false }
        ensures keeps { (e : _) (args : _) (n : ℕ) (drained : _) (ls : _) → 0 < n → KeptLined self.old e args n drained ls
            → KeptLined self.new e args n drained (ls ++ lines (take result block.now)) }
    {
        let mut taken = 0;
        while taken < block.len() {
            let (line, size) = first_line(&block[taken..]);
            match self.take(alloc, line) {
                Ok(()) => taken += size,
                Err(_) => return taken,
            }
        }
        taken
    }

    /// Whether an output has more bytes than an output may have, whatever lines follow, where no line can be faulty.
    pub(crate) fn is_over(&self) -> bool
        ensures { result ≡ true → (e : _) (args : _) (n : ℕ) (drained : _) (ls : _) (inputs : _) (more : _) → KeptLined self.now e args n drained ls
            → all_lines inputs ≡ ls ++ more → row e args inputs n ≡ Err TooLarge }
    {
        match self {
            Lined::Words(out) => out.is_over(),
            Lined::Head(head) => head.out.is_over(),
            Lined::Deal(turns) => is_any_over(turns.outs.as_slice()),
            Lined::Half(_) => false,
            Lined::Sum(_) => false,
            Lined::Tally(_) => false,
        }
    }

    /// What waits of each output: it is handed out, or all is left as it is.
    pub(crate) fn drain(&mut self, alloc: Global, outputs: u32) -> Result<Vec<Bytes>, Memory>
        ensures ok { IfOk result (λ v. (e : _) (args : _) (drained : _) (ls : _) → KeptLined self.old e args outputs drained ls
            → Follows drained v.items (early_by (Some e) args outputs ls)
            × KeptLined self.new e args outputs (early_by (Some e) args outputs ls) ls) }
        ensures err { IfErr result (λ _. (e : _) (args : _) (drained : _) (ls : _)
            → KeptLined self.old e args outputs drained ls → KeptLined self.new e args outputs drained ls) }
    {
        match self {
            Lined::Words(out) => drain_one(alloc, out),
            Lined::Head(head) => drain_one(alloc, &mut head.out),
            Lined::Deal(turns) => drain_all(alloc, &mut turns.outs),
            Lined::Half(_) => empties(alloc, outputs),
            Lined::Sum(_) => empties(alloc, outputs),
            Lined::Tally(_) => empties(alloc, outputs),
        }
    }

    /// The answer, without what was handed out.
    pub(crate) fn finish(self, alloc: Global) -> Answer
        ensures { IfOk result (λ r. (e : _) (pairs : _) (n : ℕ) (drained : _) (inputs : _) → may_have e n ≡ true
            → KeptLined self e pairs n drained (all_lines inputs) → Completes drained r (row e pairs inputs n)) }
    {
        match self {
            Lined::Words(out) => finish_one(alloc, out),
            Lined::Head(head) => finish_one(alloc, head.out),
            Lined::Deal(turns) => finish_all(alloc, turns.outs),
            Lined::Half(halves) => halves.finish(alloc),
            Lined::Sum(sums) => sums.finish(alloc),
            Lined::Tally(totals) => written(alloc, &totals),
        }
    }
}
