//! Lists of numbers.

ghost use Rattle.std.specs.Prelude.{◌≡◌, ◌++◌, ◌∷◌, [], MatchOption, OnErr, OnOk};
ghost use Rattle.ciel_want_marks.specs.Lists.{Settled, flag};

use crate::lists::flag;
use sky_base::text::Memory;
use std::alloc::Global;
use std::marker::Model;

/// Numbers in the order in which they were added. Contracts see them as a list.
#[derive(Drop)]
pub struct Numbers {
    items: Vec<u32>,
}

impl Model for Numbers {
    ghost use Rattle.std.specs.Prelude.{List, ℕ};

    ghost Value = { List ℕ };

    ghost view = { λ a. a.items.items };
}

impl Numbers {
    /// None.
    pub fn new(alloc: Global) -> Numbers
        ensures { result ≡ [] }
    {
        Numbers {
            items: Vec::new(alloc),
        }
    }

    /// Puts a number at the end.
    ///
    /// Answers `Memory` for want of memory. The list is then as it was.
    pub fn push(&mut self, number: u32) -> Result<(), Memory>
        ensures pushed { OnOk result (self.new ≡ self.old ++ number ∷ []) }
        ensures kept { OnErr result (self.new ≡ self.old) }
    {
        match self.items.push(number) {
            Ok(()) => Ok(()),
            Err(_) => Err(Memory),
        }
    }

    /// The numbers in order.
    pub fn as_slice(&self) -> &[u32]
        ensures { result.now ≡ self.now }
    {
        self.items.as_slice()
    }

    /// Takes the last one off.
    pub(crate) fn pop(&mut self) -> Option<u32>
        ensures { MatchOption result ((self.old ≡ []) × (self.new ≡ [])) (λ x. self.old ≡ self.new ++ x ∷ []) }
    {
        self.items.pop()
    }

    /// Takes those whose flags are set off the end, and answers the last one that is left.
    pub(crate) fn settle(&mut self, flags: &[bool]) -> Option<u32>
        ensures { Settled flags.now self.old self.new result }
    {
        'settle: while let Some(number) = self.items.pop() {
            if !flag(flags, number) {
                self.items.push_reserved(number);
                return Some(number);
            }
        }
        None
    }
}
