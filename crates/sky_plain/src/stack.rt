// The numbers of the descriptions that are open, the last opened first.

ghost use Rattle.std.specs.Prelude.{◌≡◌, [], ◌∷◌, List, IfOk, IfErr, MatchOption, length, drop};

use sky_base::text::Memory;
use std::alloc::Global;
use std::marker::Model;

/// The numbers of the descriptions that are open. Contracts see them as a list, the last opened
/// first.
#[derive(Drop)]
pub struct Stack {
    items: Vec<u32>,
}

impl Model for Stack {
    ghost use Rattle.std.specs.Prelude.{List, ℕ, reverse};

    ghost Value = { List ℕ };

    ghost view = { λ a. reverse a.items.items };
}

impl Stack {
    /// None is open.
    #[tactic(auto, using(crate::proofs::Stacks::stacks))]
    pub fn new(alloc: Global) -> Stack
        ensures { result ≡ [] }
    {
        Stack {
            items: Vec::new(alloc),
        }
    }

    /// The one that was opened last.
    #[tactic(auto, using(crate::proofs::Stacks::stacks))]
    pub fn top(&self) -> Option<u32>
        ensures { MatchOption result (self.now ≡ []) (λ k. (rest : List _) × (self.now ≡ k ∷ rest)) }
    {
        let count = self.items.len();
        if count == 0 {
            return None;
        }
        Some(self.items[count - 1])
    }

    /// Opens one more. After `Memory` nothing is changed.
    #[tactic(auto, using(crate::proofs::Stacks::stacks))]
    pub fn push(&mut self, number: u32) -> Result<(), Memory>
        ensures ok { IfOk result (λ _. self.new ≡ number ∷ self.old) }
        ensures err { IfErr result (λ _. self.new ≡ self.old) }
    {
        match self.items.push(number) {
            Ok(()) => Ok(()),
            Err(_) => Err(Memory),
        }
    }

    /// Closes the one that was opened last, if there is one.
    #[tactic(auto, using(crate::proofs::Stacks::stacks))]
    pub fn pop(&mut self)
        ensures { self.new ≡ drop 1 self.old }
    {
        self.items.pop();
    }

    /// How many are open.
    #[tactic(auto, using(crate::proofs::Stacks::stacks))]
    pub fn len(&self) -> usize
        ensures { result ≡ length self.now }
    {
        self.items.len()
    }
}
