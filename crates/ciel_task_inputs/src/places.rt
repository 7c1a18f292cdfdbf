//! What an order brings along, asked for by names: mostly for few of them, and in the order in which they stand.

ghost use Rattle.std.specs.Prelude.{◌≡◌, None, Some, IfSome, MatchOption};
ghost use Rattle.ciel_table.specs.Named.{IsOnce, found};
ghost use Rattle.ciel_task_inputs.specs.Lies.{held_name};

use crate::index::index;
use ciel_task_order::block::Held;
use sky_base::name::Name;
use std::alloc::Global;
use std::cell::{Cell, OnceCell};
use std::collections::BTreeMap;
use std::marker::Model;

// How many names are looked for entry after entry before there is a map.
const WALKS: u32 = 16;

/// What an order brings along: a list in which no name stands twice. Contracts see that list.
///
/// A name is looked for at the entry that was found last and the one after it; then, for the first sixteen names for which that isn't
/// enough, entry after entry; and then by a map of the places of all names, which is made once. No proof knows what the cells hold, so
/// what they say is where to look first: an entry is the answer if it has the name, and else all entries are looked at.
#[derive(Drop)]
pub struct Places<'a> {
    alloc: Global,
    held: &'a [Held],
    last: Cell<usize>,
    walks: Cell<u32>,
    map: OnceCell<BTreeMap<Name, usize>>,
}

impl<'a> Model for Places<'a> {
    ghost use Rattle.std.specs.Coded.{codes};
    ghost use Rattle.std.specs.Prelude.{List};
    ghost use Rattle.sky_base.specs.Code.{pairs_code, val_code, vals_code};
    ghost use Rattle.sky_frozen_bytes.specs.FrozenCode.{stand_code};
    ghost use Rattle.ciel_table.specs.Named.{IsOnce};
    ghost use Rattle.ciel_task_order.specs.declared.block.Held.{Held};
    ghost use Rattle.ciel_task_inputs.specs.Lies.{held_name};

    ghost Value = { List Held };

    ghost coded = { Prim.hlevel (codes, val_code, vals_code, pairs_code, stand_code) };

    ghost view = { λ p. p.held.now };

    ghost invariant = { λ p. IsOnce held_name p.held.now };
}

impl<'a> Places<'a> {
    /// The places of this list, of which none was asked for.
    pub fn new(alloc: Global, held: &'a [Held]) -> Places<'a>
        requires once { IsOnce held_name held.now }
        ensures list { result ≡ held.now }
    {
        Places {
            alloc,
            held,
            last: Cell::new(0),
            walks: Cell::new(0),
            map: OnceCell::new(),
        }
    }

    /// The entry of this name. Where there is no memory for the map, all entries are looked at.
    pub fn find(&self, name: &Name) -> Option<&'a Held>
        ensures found { MatchOption result (found held_name name.now self.now ≡ None) (λ h. found held_name name.now self.now ≡ Some h.now) }
    {
        match self.near(name) {
            Some(one) => Some(one),
            None => self.far(name),
        }
    }

    // The entry of this name, if it is the one that was found last or the one after that.
    fn near(&self, name: &Name) -> Option<&'a Held>
        ensures { IfSome result (λ h. found held_name name.now self.now ≡ Some h.now) }
    {
        let last = self.last.get();
        match self.at(last, name) {
            Some(one) => Some(one),
            None => self.at(last.wrapping_add(1), name),
        }
    }

    // The entry at this place, if it has this name.
    fn at(&self, place: usize, name: &Name) -> Option<&'a Held>
        ensures { IfSome result (λ h. found held_name name.now self.now ≡ Some h.now) }
    {
        match self.held.get(place) {
            Some(one) => {
                if *name == one.name {
                    self.last.set(place);
                    Some(one)
                } else {
                    None
                }
            }
            None => None,
        }
    }

    // The entry of this name, by the map if there were many walks.
    fn far(&self, name: &Name) -> Option<&'a Held>
        ensures { MatchOption result (found held_name name.now self.now ≡ None) (λ h. found held_name name.now self.now ≡ Some h.now) }
    {
        match self.mapped(name) {
            Some(one) => Some(one),
            None => self.walk(name),
        }
    }

    // The entry of this name, if there were many walks and it stands where the map says.
    fn mapped(&self, name: &Name) -> Option<&'a Held>
        ensures { IfSome result (λ h. found held_name name.now self.now ≡ Some h.now) }
    {
        if self.walks.get() < WALKS {
            return None;
        }
        match self.guess(name) {
            Some(place) => self.at(place, name),
            None => None,
        }
    }

    // What the map says of this name. It is made where there is none and memory for it.
    fn guess(&self, name: &Name) -> Option<usize> {
        if let Some(map) = self.map.get() {
            return map.get(name).copied();
        }
        let map = index(self.alloc, self.held).ok()?;
        let place = map.get(name).copied();
        let _ = self.map.set(map);
        place
    }

    // The entry of this name, looked for entry after entry.
    fn walk(&self, name: &Name) -> Option<&'a Held>
        ensures { MatchOption result (found held_name name.now self.now ≡ None) (λ h. found held_name name.now self.now ≡ Some h.now) }
    {
        self.walks.set(self.walks.get().saturating_add(1));
        match first_named(self.held, name) {
            Some((place, one)) => {
                self.last.set(place);
                Some(one)
            }
            None => None,
        }
    }
}

// The first of the list that has this name, with its place.
fn first_named<'a>(held: &'a [Held], name: &Name) -> Option<(usize, &'a Held)>
    ensures { MatchOption result (found held_name name.now held.now ≡ None) (λ p. found held_name name.now held.now ≡ Some p.1.now) }
{
    for (place, one) in held.iter().enumerate() {
        if *name == one.name {
            return Some((place, one));
        }
    }
    None
}
