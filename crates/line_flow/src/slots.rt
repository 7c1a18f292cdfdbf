// Where lines may stand, by their hashes: hints, each of which is looked at before it is believed. A search looks at so
// many places and no more, whatever hashes the lines have.

use crate::entries::Entries;
use sky_base::text::Memory;
use std::alloc::Global;
use std::hash::{FoldHasher, Hasher};

/// The most places that are looked at for a hash.
pub(crate) const MOST_STEPS: usize = 64;

/// The fewest places of a table that has some.
const FEWEST: usize = 64;

/// The number that stands for no entry.
const NO_ENTRY: u32 = 4_294_967_295;

/// The hash of an entry's line, and the number of the entry.
#[derive(Clone, Copy)]
struct Slot {
    hash: u32,
    entry: u32,
}

/// A table of hints, with a power of two of places.
#[derive(Drop)]
pub(crate) struct Slots {
    slots: Vec<Slot>,
}

/// The hash of a line. It has no seed: whoever chooses the lines can make their hashes equal.
pub(crate) fn hash_of(line: &[u8]) -> u32 {
    let mut hasher = FoldHasher::default();
    hasher.write(line);
    (hasher.finish() >> 32) as u32
}

impl Slots {
    /// No hints.
    pub(crate) fn new(alloc: Global) -> Slots {
        Slots {
            slots: Vec::new(alloc),
        }
    }

    /// Whether one more than so many entries would take more than half of the places.
    pub(crate) fn is_full(&self, count: usize) -> bool {
        self.slots.len() / 2 <= count
    }

    /// Hints for the entries, in a table of twice as many places.
    pub(crate) fn grown(&self, alloc: Global, entries: &Entries) -> Result<Slots, Memory> {
        noted(
            alloc,
            entries,
            self.slots.len().saturating_mul(2).max(FEWEST),
        )
    }

    /// Hints for the entries, in a table of as many places.
    pub(crate) fn again(&self, alloc: Global, entries: &Entries) -> Result<Slots, Memory> {
        noted(alloc, entries, self.slots.len())
    }

    // The place at which a search for a hash looks at a step.
    fn place(&self, hash: u32, step: usize) -> usize {
        (hash as usize).wrapping_add(step) & self.slots.len().wrapping_sub(1)
    }

    /// The entry at which a search for a hash looks at a step, with its hash, where there is one.
    pub(crate) fn at(&self, hash: u32, step: usize) -> Option<(u32, usize)> {
        let slot = self.slots.get(self.place(hash, step))?;
        if slot.entry == NO_ENTRY {
            return None;
        }
        Some((slot.hash, slot.entry as usize))
    }

    /// Notes an entry, and answers whether it found a free place. Where it found none it takes the first place that a
    /// search looks at.
    pub(crate) fn note(&mut self, hash: u32, entry: usize) -> bool {
        let Ok(entry) = u32::try_from(entry) else {
            return false;
        };
        for step in 0..MOST_STEPS {
            let place = self.place(hash, step);
            if let Some(slot) = self.slots.get_mut(place) {
                if slot.entry == NO_ENTRY {
                    *slot = Slot { hash, entry };
                    return true;
                }
            }
        }
        let place = self.place(hash, 0);
        if let Some(slot) = self.slots.get_mut(place) {
            *slot = Slot { hash, entry };
        }
        false
    }
}

/// Hints for these entries, in a table of so many places.
fn noted(alloc: Global, entries: &Entries, places: usize) -> Result<Slots, Memory> {
    let free = Slot {
        hash: 0,
        entry: NO_ENTRY,
    };
    let Ok(slots) = Vec::from_elem(alloc, free, places) else {
        return Err(Memory);
    };
    let mut all = Slots { slots };
    for at in 0..entries.len() {
        if let Some(line) = entries.line(at) {
            let _ = all.note(hash_of(line), at);
        }
    }
    Ok(all)
}
