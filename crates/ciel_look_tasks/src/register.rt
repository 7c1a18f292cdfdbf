//! The descriptions of a run, each with its name.

ghost use Rattle.std.specs.Prelude.{◌≡◌, [], ◌∷◌, ◌++◌, ℕ, Bool, List, IfOk, MatchOption, None, Some};
ghost use Rattle.std.specs.BTreeMap.{get};
ghost use Rattle.sky_base.specs.NameOrder.{name_cmp};
ghost use Rattle.sky_base.specs.ObjectView.{desc_view};
ghost use Rattle.ciel_look_tasks.specs.Known.{known_as, known_view, knowns, maker_as, makers, place_of, with_known};
ghost use Rattle.ciel_look_tasks.specs.Learned.{AreMade};

use crate::places::push;
use ciel_look_words::known::Known;
use sky_base::name::Name;
use sky_base::text::Memory;
use std::alloc::Global;
use std::collections::BTreeMap;

/// The descriptions that are known, each name once, in the order in which they were learned; and the place of each name.
#[derive(Drop)]
pub struct Register {
    pub all: Vec<Known>,
    pub at: BTreeMap<Name, usize>,
    ghost found: { (n : List ℕ) → get name_cmp at n ≡ place_of n all.items },
}

impl Register {
    /// Nothing is known.
    pub fn new(alloc: Global) -> Register
        ensures known { knowns result.all.items ≡ [] }
        ensures made { (b : Bool) → AreMade b result.all.items }
    {
        Register {
            all: Vec::new(alloc),
            at: BTreeMap::new(alloc),
        }
    }

    /// The place of the description that is known under a name.
    pub fn place(&self, name: &Name) -> Option<usize>
        ensures place { result ≡ place_of name.now self.now.all.items }
    {
        self.at.get(name).copied()
    }

    /// The description that is known under a name.
    pub fn find(&self, name: &Name) -> Option<&Known>
        ensures found { MatchOption result (known_as name.now (knowns self.now.all.items) ≡ None)
            (λ k. known_as name.now (knowns self.now.all.items) ≡ Some (desc_view k.now.desc)) }
        ensures maker { MatchOption result (maker_as name.now (makers self.now.all.items) ≡ None)
            (λ k. maker_as name.now (makers self.now.all.items) ≡ Some k.now.task) }
    {
        match self.place(name) {
            Some(place) => self.all.get(place),
            None => None,
        }
    }

    /// Learns a description, unless its name is known.
    pub fn learn(&mut self, one: Known) -> Result<(), Memory>
        ensures known { IfOk result (λ _. knowns self.new.all.items ≡ with_known (knowns self.old.all.items) (known_view one)) }
        ensures made { IfOk result (λ _. (b : Bool) → one.short ≡ b → AreMade b self.old.all.items → AreMade b self.new.all.items) }
    {
        match self.place(&one.name) {
            Some(_) => Ok(()),
            None => {
                self.add(one)?;
                Ok(())
            }
        }
    }

    /// Learns a description whose name is new.
    fn add(&mut self, one: Known) -> Result<(), Memory>
        requires new { place_of one.name self.old.all.items ≡ None }
        ensures known { IfOk result (λ _. knowns self.new.all.items ≡ knowns self.old.all.items ++ known_view one ∷ []) }
        ensures made { IfOk result (λ _. (b : Bool) → one.short ≡ b → AreMade b self.old.all.items → AreMade b self.new.all.items) }
    {
        let place = self.all.len();
        let name = one.name;
        push(&mut self.all, one)?;
        match self.at.insert(name, place) {
            Ok(_) => Ok(()),
            Err(_) => {
                self.all.pop();
                Err(Memory)
            }
        }
    }
}
