// The names found so far in a value, each once, and where each of them stands.
//
// A name is looked for by its key, four of its bytes: names are digests, so their bytes are spread as a hash would spread them. A table
// holds for each slot the last place whose key falls there, and for each place the one before it in its slot; so a walk from the last
// place comes to all names of a slot and only to these. Who chooses what a job describes can search for digests that fall into one slot
// of 16,384, some 16,384 digests for each. So where a walk goes past 32 names the keys are taken of the next four bytes, up to four
// times: to make walks long with each of the five keys takes some 2^70 digests for each name.

ghost use Rattle.std.specs.Prelude.{◌≡◌, ◌<◌, ◌≤◌, [], ◌∷◌, ◌++◌, IfOk, IfErr, IsTrue, false, length, MatchOption, slice_get, get_or, Some, ◌^◌};
ghost use Rattle.sky_base.specs.Names.{known_of, gathered, is_among};
ghost use Rattle.sky_base.specs.Places.{slot_of, HasSame};
ghost use Rattle.sky_base.specs.Val.{known};

use crate::name::Name;
use crate::names::Names;
use crate::text::Memory;
use std::alloc::Global;
use std::marker::Model;

// How many names a walk may pass before the keys are taken of the next bytes.
const LONG_WALK: usize = 32;

// At which byte the last keys begin: a name has 20 bytes at least.
const LAST_TURN: usize = 16;

// The table's first size; each further one is four times that before.
const FIRST_SIZE: usize = 16;

/// The names found so far, in order, and where each stands.
#[derive(Drop)]
pub(crate) struct Found {
    names: Vec<Name>,
    places: Places,
    // Where the next name may stand: after the one met last.
    next: usize,
}

// Where names stand: one more than the place, or 0 where there is none.
#[derive(Drop)]
struct Places {
    // Of each slot the last.
    latest: Vec<usize>,
    // Of each name the last one before it in its slot.
    earlier: Vec<usize>,
    // At which of a name's bytes its key begins.
    turn: usize,
}

// Where a name stands, if it does, and whether the walk to it was long.
#[derive(Clone, Copy)]
struct Seen {
    place: Option<usize>,
    was_long: bool,
}

impl Model for Found {
    ghost use Rattle.std.specs.Prelude.{List, ℕ};
    ghost use Rattle.sky_base.specs.Places.{HasSame};

    ghost Value = { List (List ℕ) };

    ghost view = { λ a. a.names.items };

    ghost invariant = { λ a. HasSame a.places a.names.items };
}

impl Found {
    /// None is found yet.
    pub(crate) fn new(alloc: Global) -> Found
        ensures { result ≡ [] }
    {
        Found {
            names: Vec::new(alloc),
            places: Places::new(alloc),
            next: 0,
        }
    }

    /// Puts a name at the end, unless it is there.
    pub(crate) fn add(&mut self, name: &Name) -> Result<(), Memory>
        ensures { IfOk result (λ _. known_of self.new ≡ gathered (known_of self.old) (known name.now ∷ [])) }
    {
        if is_at(self.names.as_slice(), self.next, name) {
            self.next += 1;
            return Ok(());
        }
        let seen = self.places.find(self.names.as_slice(), name);
        match seen.place {
            Some(place) => {
                self.next = place + 1;
                Ok(())
            }
            None => {
                self.push(name, seen.was_long)?;
                Ok(())
            }
        }
    }

    // Puts a name that isn't there at the end.
    fn push(&mut self, name: &Name, was_long: bool) -> Result<(), Memory>
        ensures { IfOk result (λ _. self.new ≡ self.old ++ name.now ∷ []) }
    {
        self.places.make_room(self.names.as_slice(), was_long)?;
        if self.names.reserve(1).is_err() {
            return Err(Memory);
        }
        self.places.push(self.names.as_slice(), name)?;
        self.names.push_reserved(*name);
        self.next = self.names.len();
        Ok(())
    }

    /// The names.
    pub(crate) fn into_names(self) -> Names
        ensures { result ≡ self }
    {
        let Found {
            names,
            places,
            next: _,
        } = self;
        drop(places);
        Names::of(names)
    }
}

// Whether the name stands at this place.
fn is_at(names: &[Name], place: usize, name: &Name) -> bool
    ensures { IsTrue result → slice_get names.now place ≡ Some name.now }
{
    match names.get(place) {
        Some(other) => *other == *name,
        None => false,
    }
}

// The size of a table that is full at this one.
fn grown(size: usize) -> usize
    ensures { size < 2 ^ 63 → size < result }
{
    size.saturating_mul(4).max(FIRST_SIZE)
}

// Where these names stand, in a table of this size.
fn placed(alloc: Global, names: &[Name], turn: usize, size: usize) -> Result<Places, Memory>
    requires within { turn ≤ 16 }
    requires room { length names.now ≤ size }
    ensures same { IfOk result (λ p. HasSame p names.now) }
    ensures size { IfOk result (λ p. length p.latest.items ≡ size) }
{
    let mut places = Places::sized(alloc, turn, size)?;
    for place in 0..names.len() {
        places.push(&names[..place], &names[place])?;
    }
    Ok(places)
}

impl Places {
    // Of no names.
    fn new(alloc: Global) -> Places
        ensures { HasSame result [] }
    {
        Places {
            latest: Vec::new(alloc),
            earlier: Vec::new(alloc),
            turn: 0,
        }
    }

    // Of no names, with a table of this size.
    fn sized(alloc: Global, turn: usize, size: usize) -> Result<Places, Memory>
        requires { turn ≤ 16 }
        ensures same { IfOk result (λ p. HasSame p []) }
        ensures size { IfOk result (λ p. length p.latest.items ≡ size) }
    {
        let mut latest = Vec::new(alloc);
        if latest.resize(size, 0).is_err() {
            return Err(Memory);
        }
        Ok(Places {
            latest,
            earlier: Vec::new(alloc),
            turn,
        })
    }

    // A name is put behind these.
    fn push(&mut self, names: &[Name], name: &Name) -> Result<(), Memory>
        requires same { HasSame self.old names.now }
        requires room { length names.now < length self.old.latest.items }
        ensures same { IfOk result (λ _. HasSame self.new (names.now ++ name.now ∷ [])) }
        ensures size { length self.new.latest.items ≡ length self.old.latest.items }
        ensures err { IfErr result (λ _. HasSame self.new names.now) }
    {
        let slot = slot(name, self.turn, self.latest.len());
        let last = self.latest[slot];
        let Ok(()) = self.earlier.push(last) else {
            return Err(Memory);
        };
        self.latest[slot] = names.len() + 1;
        Ok(())
    }

    // Makes the table anew where it is full, or where walks are long.
    fn make_room(&mut self, names: &[Name], was_long: bool) -> Result<(), Memory>
        requires { HasSame self.old names.now }
        ensures same { HasSame self.new names.now }
        ensures room { IfOk result (λ _. length names.now < length self.new.latest.items) }
    {
        let size = self.latest.len();
        let alloc = *self.latest.allocator();
        if names.len() >= size {
            *self = placed(alloc, names, self.turn, grown(size))?;
        } else if was_long && self.turn + 4 <= LAST_TURN {
            *self = placed(alloc, names, self.turn + 4, size)?;
        }
        Ok(())
    }

    // Where a name stands.
    fn find(&self, names: &[Name], name: &Name) -> Seen
        requires { HasSame self.now names.now }
        ensures { MatchOption result.place (is_among name.now names.now ≡ false) (λ k. slice_get names.now k ≡ Some name.now) }
    {
        let mut short = LONG_WALK;
        let mut from = self.last(name);
        while from > 0 {
            let place = from - 1;
            if names[place] == *name {
                return Seen {
                    place: Some(place),
                    was_long: false,
                };
            }
            from = self.earlier[place];
            short = short.saturating_sub(1);
        }
        Seen {
            place: None,
            was_long: short == 0,
        }
    }

    // The last place of a name's slot.
    fn last(&self, name: &Name) -> usize
        requires { self.now.turn ≤ 16 }
        ensures none { length self.now.latest.items ≡ 0 → result ≡ 0 }
        ensures some { 0 < length self.now.latest.items → result ≡ get_or self.now.latest.items (slot_of self.now.turn (length self.now.latest.items) name.now) 0 }
        ensures bound { 0 < length self.now.latest.items → slot_of self.now.turn (length self.now.latest.items) name.now < length self.now.latest.items }
    {
        let size = self.latest.len();
        if size == 0 {
            return 0;
        }
        self.latest[slot(name, self.turn, size)]
    }
}

// The slot of a name: its key, cut to the size of the table.
fn slot(name: &Name, turn: usize, size: usize) -> usize
    requires within { turn ≤ 16 }
    requires some { 0 < size }
    ensures value { result ≡ slot_of turn size name.now }
    ensures bound { result < size }
{
    let bytes = name.bytes();
    let key = u32::from_le_bytes([
        bytes[turn],
        bytes[turn + 1],
        bytes[turn + 2],
        bytes[turn + 3],
    ]);
    let folded = key ^ (key >> 16);
    folded as usize & (size - 1)
}
