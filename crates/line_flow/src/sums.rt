// The sums of the numbers in front of equal rests, and how often lines occur.

ghost use Rattle.std.specs.Prelude.{◌≡◌, ◌∷◌, ◌++◌, [], IfOk, IfErr, map, nat_lt};
ghost use Rattle.std.specs.List.{list_any};
ghost use Rattle.sky_base.specs.KitView.{RunsSo};
ghost use Rattle.line_kit.specs.Numbers.{counted, count_line};
ghost use Rattle.line_kit.specs.Gives.{one, summed, read_each};
ghost use Rattle.line_kit.specs.Lines.{joined};
ghost use Rattle.line_kit.specs.Written.{extended, finished};
ghost use Rattle.line_flow.specs.Entries.{lent};
ghost use Rattle.line_flow.specs.Kept.{HasSums, sums_in};

use crate::totals::Totals;
use line_kit::numbers::{MOST, counted};
use line_kit::output::{Answer, Output};
use sky_base::fault::FaultKind;
use sky_base::text::Memory;
use std::alloc::Global;

/// The sums by rest, and whether a line had no number.
#[derive(Drop)]
pub(crate) struct Sums {
    pub(crate) totals: Totals,
    pub(crate) bad: bool,
}

// Whether a sum is above this number.
fn is_any_above(sums: &[(&[u8], u128)], most: u64) -> bool
    ensures { result ≡ list_any (λ e. nat_lt most e.1) sums.now }
{
    sums.iter().any(|(_, sum)| *sum > u128::from(most))
}

#[tactic(auto, using(line_kit::proofs::WrittenLaw::pieces))]
fn put_all(out: &mut Output, sums: &[(&[u8], u128)]) -> Result<(), Memory>
    ensures { IfOk result (λ _. finished out.new ≡ extended out.old (joined (map (λ e. count_line e.1 e.0) (lent sums.now)))) }
{
    for (line, sum) in sums {
        out.put_count(*sum, *line)?;
    }
    Ok(())
}

// The answer with each sum and its line.
fn written_sums(alloc: Global, sums: &[(&[u8], u128)]) -> Answer
    ensures { IfOk result (λ r. RunsSo r (one (map (λ e. count_line e.1 e.0) (lent sums.now)))) }
{
    let mut out = Output::new(alloc);
    put_all(&mut out, sums)?;
    out.alone(alloc)
}

/// The answer with each sum and its line.
pub(crate) fn written(alloc: Global, totals: &Totals) -> Answer
    ensures { IfOk result (λ r. RunsSo r (one (map (λ e. count_line e.1 e.0) (sums_in totals.now)))) }
{
    let sums = totals.in_order(alloc)?;
    written_sums(alloc, sums.as_slice())
}

impl Sums {
    /// No lines.
    pub(crate) fn new(alloc: Global) -> Sums
        ensures { HasSums result [] }
    {
        Sums {
            totals: Totals::new(alloc),
            bad: false,
        }
    }

    /// Takes a line.
    pub(crate) fn take(&mut self, alloc: Global, line: &[u8]) -> Result<(), Memory>
        ensures ok { IfOk result (λ _. (ls : _) → HasSums self.old ls → HasSums self.new (ls ++ line.now ∷ [])) }
        ensures err { IfErr result (λ _. (ls : _) → HasSums self.old ls → HasSums self.new ls) }
    {
        if self.bad {
            return Ok(());
        }
        match counted(line) {
            Some((rest, number)) => self.totals.add(alloc, rest, number),
            None => {
                self.bad = true;
                Ok(())
            }
        }
    }

    /// The answer.
    pub(crate) fn finish(self, alloc: Global) -> Answer
        ensures { IfOk result (λ r. (ls : _) → HasSums self ls → RunsSo r (summed (read_each counted ls))) }
    {
        if self.bad {
            return Ok(Err(FaultKind::BadLine));
        }
        let sums = self.totals.in_order(alloc)?;
        if is_any_above(sums.as_slice(), MOST) {
            return Ok(Err(FaultKind::Overflow));
        }
        written_sums(alloc, sums.as_slice())
    }
}
