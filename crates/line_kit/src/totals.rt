// Sums by line, in the order of the lines' bytes.

ghost use Rattle.std.specs.Prelude.{◌≡◌, ◌<◌, ◌+◌, ◌^◌, [], IfOk, map};
ghost use Rattle.std.specs.List.{list_any};
ghost use Rattle.std.specs.Prelude.{nat_lt};
ghost use Rattle.std.specs.BTreeMap.{values};
ghost use Rattle.line_kit.specs.Lines.{joined};
ghost use Rattle.line_kit.specs.Numbers.{count_line};
ghost use Rattle.line_kit.specs.Totals.{sum_at, with_more};
ghost use Rattle.line_kit.specs.Written.{extended, finished};

use crate::output::Output;
use sky_base::text::Memory;
use std::alloc::Global;
use std::collections::BTreeMap;
use std::marker::Model;

fn is_any_above(sums: &BTreeMap<&[u8], u128>, most: u64) -> bool
    ensures { result ≡ list_any (λ sum. nat_lt most sum) (values sums.now) }
{
    sums.values().any(|sum| *sum > u128::from(most))
}

/// For each line the sum of the numbers that were added at it. Contracts see the lines with their sums,
/// in the order of the lines' bytes.
#[derive(Drop)]
pub(crate) struct Totals<'a> {
    sums: BTreeMap<&'a [u8], u128>,
}

impl<'a> Model for Totals<'a> {
    ghost use Rattle.std.specs.Prelude.{List, ℕ, map};

    ghost Value = { List (List ℕ × ℕ) };

    ghost view = { λ t. map (λ e. (e.0.now, e.1)) t.sums.entries };
}

impl<'a> Totals<'a> {
    /// No sums.
    pub(crate) fn new(alloc: Global) -> Totals<'a>
        ensures { result ≡ [] }
    {
        Totals {
            sums: BTreeMap::new(alloc),
        }
    }

    /// Adds a number at a line.
    pub(crate) fn add(&mut self, line: &'a [u8], number: u64) -> Result<(), Memory>
        requires { sum_at self.old line.now + number < 2 ^ 128 }
        ensures { IfOk result (λ _. self.new ≡ with_more self.old line.now number) }
    {
        let sum = self.sums.get(line).copied().unwrap_or(0u128);
        match self.sums.insert(line, sum + u128::from(number)) {
            Ok(_) => Ok(()),
            Err(_) => Err(Memory),
        }
    }

    /// Whether a sum is above this number.
    pub(crate) fn has_above(&self, most: u64) -> bool
        ensures { result ≡ list_any (λ e. nat_lt most e.1) self.now }
    {
        is_any_above(&self.sums, most)
    }

    /// Puts each sum with its line.
    #[tactic(auto, using(crate::proofs::WrittenLaw::pieces))]
    pub(crate) fn put_onto(&self, out: &mut Output) -> Result<(), Memory>
        ensures { IfOk result (λ _. finished out.new ≡ extended out.old (joined (map (λ e. count_line e.1 e.0) self.now))) }
    {
        for (line, sum) in &self.sums {
            out.put_count(*sum, *line)?;
        }
        Ok(())
    }
}
