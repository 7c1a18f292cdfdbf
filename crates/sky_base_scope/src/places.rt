// The places of a script's functions by their names. They hold nothing of the script itself, so they can be kept beside
// it: they are made once for a script, and a call finds its function without a search through all of them.

ghost use Rattle.std.specs.Prelude.{◌≡◌, List, ℕ, IfOk};
ghost use Rattle.sky_base.specs.Val.{same_text};
ghost use Rattle.sky_base_scope.specs.FunPlace.{FindsEach, place_at, or_here};

use sky_base::script::Script;
use sky_base::text::{Memory, Txt};
use std::alloc::Global;
use std::collections::BTreeMap;
use std::marker::Model;

/// The place of the first function of each name, among a script's functions from 0. Contracts see names with their places.
#[derive(Drop)]
pub struct Places {
    map: BTreeMap<Txt, usize>,
}

impl Model for Places {
    ghost use Rattle.std.specs.Prelude.{List, ℕ};

    ghost Value = { List (List ℕ × ℕ) };

    ghost view = { λ p. p.map.entries };
}

impl Places {
    /// The places of the script's functions. Each function is met once.
    ///
    /// Answers `Memory` for want of memory.
    #[tactic(auto, using(crate::proofs::FunPlaces::fun_places))]
    pub fn new(alloc: Global, script: &Script) -> Result<Places, Memory>
        ensures { IfOk result (λ p. FindsEach p script.now.funs) }
    {
        let mut map = BTreeMap::new(alloc);
        let funs = script.funs().as_slice();
        for (place, fun) in funs.iter().enumerate() {
            add(&mut map, &fun.name, place)?;
        }
        Ok(Places { map })
    }

    /// The place of the first function of this name.
    pub fn get(&self, name: &Txt) -> Option<usize>
        ensures { result ≡ place_at self.now name.now }
    {
        match self.map.get(name) {
            Some(place) => Some(*place),
            None => None,
        }
    }
}

// Puts the place of a name, where it has none so far.
fn add(map: &mut BTreeMap<Txt, usize>, name: &Txt, place: usize) -> Result<(), Memory>
    ensures { IfOk result (λ _. (x : List ℕ) → place_at map.new.entries x ≡ or_here (place_at map.old.entries x) (same_text x name.now) place) }
{
    if map.contains_key(name) {
        return Ok(());
    }
    let name = name.share()?;
    let Ok(_) = map.insert(name, place) else {
        return Err(Memory);
    };
    Ok(())
}
