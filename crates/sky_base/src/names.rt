// Lists of names.

ghost use Rattle.std.specs.Prelude.{◌≡◌, [], ◌∷◌, ◌++◌, IfOk, IfErr, length};

use crate::name::Name;
use crate::text::Memory;
use std::alloc::Global;
use std::marker::Model;

/// A list of names. Contracts see it as the list of the names' bytes.
#[derive(Drop)]
pub struct Names {
    items: Vec<Name>,
}

impl Model for Names {
    ghost use Rattle.std.specs.Prelude.{List, ℕ};

    ghost Value = { List (List ℕ) };

    ghost view = { λ a. a.items.items };
}

impl Names {
    /// The empty list.
    pub fn new(alloc: Global) -> Names
        ensures { result ≡ [] }
    {
        Names {
            items: Vec::new(alloc),
        }
    }

    /// The names, in order.
    pub fn of(items: Vec<Name>) -> Names
        ensures { result ≡ items.items }
    {
        Names { items }
    }

    /// The names in order.
    pub fn as_slice(&self) -> &[Name]
        ensures { result.now ≡ self.now }
    {
        self.items.as_slice()
    }

    /// How many names there are.
    #[tactic(auto, using(crate::proofs::Gathers::named))]
    pub fn len(&self) -> usize
        ensures { result ≡ length self.now }
    {
        self.items.len()
    }

    /// Puts a name at the end. After `Memory` the list is as it was.
    #[tactic(auto, using(crate::proofs::Gathers::named))]
    pub fn push(&mut self, name: Name) -> Result<(), Memory>
        ensures ok { IfOk result (λ _. self.new ≡ self.old ++ name ∷ []) }
        ensures err { IfErr result (λ _. self.new ≡ self.old) }
    {
        match self.items.push(name) {
            Ok(()) => Ok(()),
            Err(_) => Err(Memory),
        }
    }
}
