// Sums by line. A line is found by its hash, and the lines come in the order of their bytes at the end.
//
// The table of hints decides nothing: a line that isn't found stands among the entries once more, and equal lines are
// added up at the end. Where a hint finds no place equal lines may stand there twice; once half of the entries may be
// such ones, equal lines are added up before the end. So a number takes a search of a bounded number of steps and a share
// of a sort, and there are at most twice as many entries as different lines, whatever the lines are.

ghost use Rattle.std.specs.Prelude.{◌≡◌, [], IfOk, IfErr, IfSome, true};
ghost use Rattle.line_kit.specs.Totals.{totals, with_more};
ghost use Rattle.line_flow.specs.Entries.{lent, IsAt};
ghost use Rattle.line_flow.specs.Kept.{sums_in};

use crate::entries::Entries;
use crate::order::in_order;
use crate::slots::{MOST_STEPS, Slots, hash_of};
use sky_base::text::Memory;
use std::alloc::Global;

/// For each line the sum of the numbers that were added at it.
#[derive(Drop)]
pub(crate) struct Totals {
    pub(crate) entries: Entries,
    slots: Slots,
    unplaced: usize,
}

// The entry of a line, where a hint tells it.
fn find(slots: &Slots, entries: &Entries, hash: u32, line: &[u8]) -> Option<usize>
    ensures { IfSome result (λ at. IsAt entries.now at line.now) }
{
    for step in 0..MOST_STEPS {
        let (held, at) = slots.at(hash, step)?;
        if held == hash && is_at(entries, at, line) {
            return Some(at);
        }
    }
    None
}

fn is_at(entries: &Entries, at: usize, line: &[u8]) -> bool
    ensures { result ≡ true → IsAt entries.now at line.now }
{
    match entries.line(at) {
        Some(own) => own == line,
        None => false,
    }
}

// The lines with their sums, one after the other.
fn copied(alloc: Global, sums: &[(&[u8], u128)]) -> Result<Entries, Memory>
    ensures { IfOk result (λ es. es ≡ lent sums.now) }
{
    let mut all = Entries::new(alloc);
    for (line, sum) in sums {
        all.push(*line, *sum)?;
    }
    Ok(all)
}

impl Totals {
    /// No sums.
    pub(crate) fn new(alloc: Global) -> Totals
        ensures { sums_in result ≡ [] }
    {
        Totals {
            entries: Entries::new(alloc),
            slots: Slots::new(alloc),
            unplaced: 0,
        }
    }

    // Adds up the sums of equal lines, while there is memory.
    fn merge(&mut self, alloc: Global) -> Result<(), Memory>
        ensures { sums_in self.new ≡ sums_in self.old }
    {
        self.unplaced = 0;
        let entries = copied(alloc, in_order(alloc, &self.entries)?.as_slice())?;
        self.slots = self.slots.again(alloc, &entries)?;
        self.entries = entries;
        Ok(())
    }

    // Makes room in the table for one more.
    fn make_room(&mut self, alloc: Global) -> Result<(), Memory>
        ensures { self.new.entries ≡ self.old.entries }
    {
        if self.slots.is_full(self.entries.len()) {
            self.slots = self.slots.grown(alloc, &self.entries)?;
        }
        Ok(())
    }

    // Notes an entry.
    fn note(&mut self, alloc: Global, hash: u32, at: usize)
        ensures { sums_in self.new ≡ sums_in self.old }
    {
        if self.slots.note(hash, at) {
            return;
        }
        self.unplaced = self.unplaced.saturating_add(1);
        if self.unplaced > self.entries.len() / 2 {
            let _ = self.merge(alloc);
        }
    }

    // A number at a line that wasn't found.
    fn begin(&mut self, alloc: Global, hash: u32, line: &[u8], number: u64) -> Result<(), Memory>
        ensures ok { IfOk result (λ _. sums_in self.new ≡ with_more (sums_in self.old) line.now number) }
        ensures err { IfErr result (λ _. sums_in self.new ≡ sums_in self.old) }
    {
        self.make_room(alloc)?;
        let at = self.entries.len();
        self.entries.push(line, u128::from(number))?;
        self.note(alloc, hash, at);
        Ok(())
    }

    /// Adds a number at a line. A sum that more than 128 bits would write is as want of memory.
    pub(crate) fn add(&mut self, alloc: Global, line: &[u8], number: u64) -> Result<(), Memory>
        ensures ok { IfOk result (λ _. sums_in self.new ≡ with_more (sums_in self.old) line.now number) }
        ensures err { IfErr result (λ _. sums_in self.new ≡ sums_in self.old) }
    {
        let hash = hash_of(line);
        match find(&self.slots, &self.entries, hash, line) {
            Some(at) => self.entries.add(at, number),
            None => self.begin(alloc, hash, line, number),
        }
    }

    /// The lines with their sums, in order.
    pub(crate) fn in_order(&self, alloc: Global) -> Result<Vec<(&[u8], u128)>, Memory>
        ensures { IfOk result (λ v. lent v.items ≡ sums_in self.now) }
    {
        in_order(alloc, &self.entries)
    }
}
