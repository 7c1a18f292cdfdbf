//! Rows: what is known of an object.

ghost use Rattle.std.specs.Prelude.{◌≡◌, ℕ, [], ◌∷◌, ◌++◌, IfOk, IfErr, OnOk, OnErr};
ghost use Rattle.ciel_table.specs.Changes.{places_without};
ghost use Rattle.ciel_table.specs.Seen.{has_place, is_input, is_live_row};

use sky_base::at::At;
use sky_base::name::Name;
use sky_base::object::{Desc1, TaskId};
use sky_base::text::Memory;
use std::alloc::Global;
use std::marker::Model;

/// The number of a row. Rows are numbered from 0 in the order of learning.
pub type RowId = u32;

/// Places of one object, in the order in which they were added. Contracts see them as a list.
#[derive(Drop)]
pub struct Places<P> {
    items: Vec<P>,
}

impl<P> Model for Places<P> {
    ghost use Rattle.std.specs.Prelude.{List};

    ghost Value = { List P };

    ghost view = { λ a. a.items.items };
}

/// A description under its name, the task that makes its object, and the places of that object.
#[derive(Drop)]
pub struct Row<P> {
    pub name: Name,
    pub desc: Desc1,
    pub task: TaskId,
    pub places: Places<P>,
}

impl<P> Places<P> {
    /// None.
    pub fn new(alloc: Global) -> Places<P>
        ensures { result ≡ [] }
    {
        Places {
            items: Vec::new(alloc),
        }
    }

    /// The places in order.
    pub fn as_slice(&self) -> &[P]
        ensures { result.now ≡ self.now }
    {
        self.items.as_slice()
    }
}

impl<P: At + Drop> Places<P> {
    // Puts a place at the end. After `Memory` the list is as it was.
    pub(crate) fn add(&mut self, place: P) -> Result<(), Memory>
        ensures ok { OnOk result (self.new ≡ self.old ++ place ∷ []) }
        ensures err { OnErr result (self.new ≡ self.old) }
    {
        match self.items.push(place) {
            Ok(()) => Ok(()),
            Err(_) => Err(Memory),
        }
    }

    // Takes the places at a worker away.
    pub(crate) fn drop_worker(&mut self, worker: u32)
        ensures { self.new ≡ places_without P.at worker self.old }
    {
        self.items.retain(|place| worker != place.worker());
    }
}

impl<P> Row<P> {
    /// Whether it is an input's, or has a place.
    pub fn is_live(&self) -> bool
        ensures live { result ≡ is_live_row self.now }
    {
        matches!(&self.desc, Desc1::Input { .. }) || !self.places.as_slice().is_empty()
    }
}
