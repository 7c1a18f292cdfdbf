// What a run made since it was last asked.

ghost use Rattle.std.specs.Prelude.{◌≡◌, [], ◌∷◌, ◌++◌, IfOk, IfErr};
ghost use Rattle.sky_state.specs.StandView.{named_view, spawned_view};

use sky_base::object::Named;
use sky_base::text::Memory;
use std::alloc::Global;
use std::marker::Model;

/// Descriptions with their names, in the order in which they were made. Contracts see them as pairs of a name
/// and a description.
#[derive(Drop)]
pub struct Spawned {
    items: Vec<Named>,
}

impl Model for Spawned {
    ghost use Rattle.std.specs.Prelude.{List, ℕ};
    ghost use Rattle.sky_base.specs.Val.{Desc};
    ghost use Rattle.sky_state.specs.StandCode.{spawned_code};

    ghost Value = { List (List ℕ × Desc (List ℕ)) };

    ghost coded = { spawned_code };

    ghost use Rattle.sky_state.specs.StandView.{spawned_view};

    ghost view = { λ a. spawned_view a.items.items };
}

impl Spawned {
    /// Nothing.
    pub fn new(alloc: Global) -> Spawned
        ensures { result ≡ [] }
    {
        Spawned {
            items: Vec::new(alloc),
        }
    }

    /// The descriptions in order.
    pub fn of(items: Vec<Named>) -> Spawned
        ensures { result ≡ spawned_view items.items }
    {
        Spawned { items }
    }

    /// The descriptions themselves.
    pub fn as_slice(&self) -> &[Named]
        ensures { spawned_view result.now ≡ self.now }
    {
        self.items.as_slice()
    }

    /// Hands the descriptions out.
    pub fn into_vec(self) -> Vec<Named>
        ensures { spawned_view result.items ≡ self }
    {
        self.items
    }

    /// Puts a description at the end. After `Memory` the list is as it was.
    pub fn push(&mut self, named: Named) -> Result<(), Memory>
        ensures ok { IfOk result (λ _. self.new ≡ self.old ++ named_view named ∷ []) }
        ensures err { IfErr result (λ _. self.new ≡ self.old) }
    {
        match self.items.push(named) {
            Ok(()) => Ok(()),
            Err(_) => Err(Memory),
        }
    }
}
