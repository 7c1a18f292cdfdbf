//! A list that exists in the proofs alone, and grows.

ghost use Rattle.std.specs.Prelude.{◌≡◌, ◌<◌, ◌++◌, [], ◌∷◌, List, IfOk};

use atomic_table::{Play, Seat, Table, TableRule};
use std::alloc::{AllocError, Global};
use std::collections::LinkedList;
use std::marker::Model;

/// The rule of the list, which says nothing.
pub struct Free;

impl<T> TableRule<T, LinkedList<T>, ()> for Free {
    ghost use Rattle.std.specs.Prelude.{⊤, []};

    ghost holds = { λ _ _. ⊤ };

    ghost first = { λ _. [] };
}

/// A step by which it grows.
pub struct Adds;

impl<T> Play<T, LinkedList<T>> for Adds {
    ghost use Rattle.std.specs.Prelude.{◌≡◌};
    ghost use Rattle.ciel_steal_ready.specs.Logs.{added};

    ghost then = { λ st m n w. w ≡ (added m.0 st.said, m.1) };
}

/// Contracts see it as its items.
#[derive(Drop)]
pub struct Log<T> {
    table: Table<T, LinkedList<T>, (), Free, Global>,
    seat: Seat<T, LinkedList<T>>,
}

impl<T> Model for Log<T> {
    ghost Value = { List T };

    ghost view = { λ l. l.seat.me.0 };

    ghost invariant = { λ l. (l.seat.table_id ≡ l.table.shared.table_id) × (0 < l.table.shared.table_id.words) };
}

impl<T> Log<T> {
    /// An empty one. Answers `AllocError` for want of memory.
    pub fn new(alloc: Global) -> Result<Log<T>, AllocError>
        ensures { IfOk result (λ l. l ≡ []) }
    {
        let (table, seat) = Table::of_words(alloc, &[0], &())?;
        Ok(Log { table, seat })
    }

    /// It has one item more, the last. This takes no memory.
    pub fn add(&mut self, item: &T)
        ensures { self.new ≡ self.old ++ item.now ∷ [] }
    {
        let table = &self.table;
        table
            .shared
            .compare_exchange_with::<Adds>(&mut self.seat, 0, 0, 0, item);
    }
}
