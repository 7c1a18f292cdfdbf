//! Rising lists of numbers. What is looked for is found by halves; what is put in or taken out moves what is behind it, which are
//! 65,536 numbers at most.

ghost use Rattle.std.specs.Prelude.{◌≡◌, ◌↔◌, ◌≤◌, ◌<◌, [], OnOk, cond, is_ok, length, true};
ghost use Rattle.std.specs.List.{insert};
ghost use Rattle.ciel_journal.specs.Job.{In};
ghost use Rattle.ciel_want_marks.specs.Lists.{HasAlso, HasBut, Rising};

use sky_base::text::Memory;
use std::alloc::Global;
use std::marker::Model;

/// Rising numbers. Contracts see them as a list.
#[derive(Drop)]
pub struct RisingNumbers {
    items: Vec<u32>,
}

impl Model for RisingNumbers {
    ghost use Rattle.std.specs.Prelude.{List, ℕ};
    ghost use Rattle.ciel_want_marks.specs.Lists.{Rising};

    ghost Value = { List ℕ };

    ghost view = { λ a. a.items.items };

    ghost invariant = { λ a. Rising a.items.items };
}

// Puts a number in at a place.
fn put(items: &mut Vec<u32>, place: usize, number: u32) -> Result<(), Memory>
    requires within { place ≤ length items.old.items }
    ensures items { items.new.items ≡ cond (is_ok result) (insert items.old.items place number) items.old.items }
{
    match items.insert(place, number) {
        Ok(()) => Ok(()),
        Err(_) => Err(Memory),
    }
}

impl RisingNumbers {
    /// None.
    pub(crate) fn new(alloc: Global) -> RisingNumbers
        ensures { result ≡ [] }
    {
        RisingNumbers {
            items: Vec::new(alloc),
        }
    }

    /// The numbers in order, which rise.
    pub(crate) fn as_slice(&self) -> &[u32]
        ensures numbers { result.now ≡ self.now }
        ensures rising { Rising self.now }
    {
        self.items.as_slice()
    }

    /// Whether a number is in the list.
    pub(crate) fn has(&self, number: u32) -> bool
        ensures { (result ≡ true) ↔ In number self.now }
    {
        self.items.as_slice().binary_search(&number).is_ok()
    }

    /// Puts a number in, if it isn't there.
    ///
    /// Answers `Memory` for want of memory. The list is then as it was.
    pub(crate) fn insert(&mut self, number: u32) -> Result<(), Memory>
        ensures { OnOk result (HasAlso number self.old self.new) }
    {
        match self.items.as_slice().binary_search(&number) {
            Ok(_) => Ok(()),
            Err(i) => put(&mut self.items, i, number),
        }
    }

    /// Takes a number out, if it is there.
    pub(crate) fn remove(&mut self, number: u32)
        ensures { HasBut number self.old self.new }
    {
        if let Ok(i) = self.items.as_slice().binary_search(&number) {
            let _ = self.items.remove(i);
        }
    }
}
