//! Where objects lie.

ghost use Rattle.std.specs.Prelude.{◌≡◌, [], ◌∷◌, ◌++◌, ◌&&◌, ℕ, List, IfOk, OnErr, cond, false, map, nat_eq};
ghost use Rattle.std.specs.BTreeMap.{IsOrdered};
ghost use Rattle.std.specs.List.{list_all, list_any};
ghost use Rattle.sky_base.specs.NameOrder.{name_cmp};
ghost use Rattle.sky_base.specs.Val.{same_text};
ghost use Rattle.ciel_look_tasks.specs.ObjectPlaces.{first_run, names_where, place_worker, placed, places_of};
ghost use Rattle.ciel_look_tasks.specs.Objects.{IsTaken, put_at, takes_from};
ghost use Rattle.ciel_look_tasks.specs.declared.places.Place.{Place};

use sky_base::name::Name;
use sky_base::text::Memory;
use std::alloc::Global;
use std::collections::BTreeMap;

/// A place of an object: the worker, and the order that put it there.
#[derive(Clone, Copy)]
pub struct Place {
    pub worker: u32,
    pub run: usize,
}

/// The places of each name, and the workers that are lost.
#[derive(Drop)]
pub struct Places {
    pub at: BTreeMap<Name, Vec<Place>>,
    pub gone: Vec<u32>,
}

impl Places {
    /// None.
    pub fn new(alloc: Global) -> Places
        ensures placed { (n : List ℕ) → placed result.at n ≡ [] }
        ensures gone { result.gone.items ≡ [] }
    {
        Places {
            at: BTreeMap::new(alloc),
            gone: Vec::new(alloc),
        }
    }

    /// One more.
    pub fn put(&mut self, alloc: Global, name: Name, place: Place) -> Result<(), Memory>
        ensures put { IfOk result (λ _. (n : List ℕ) → placed self.new.at n ≡ placed self.old.at n ++ cond (same_text n name) (place.worker ∷ []) []) }
        ensures gone { self.new.gone ≡ self.old.gone }
    {
        let mut places = take_places(alloc, &mut self.at, &name);
        push(&mut places, place)?;
        match self.at.insert(name, places) {
            Ok(_) => Ok(()),
            Err(_) => Err(Memory),
        }
    }

    /// The order that put the object where it was first, of those at workers that aren't lost.
    pub fn first(&self, name: &Name) -> Option<usize>
        ensures order { result ≡ first_run self.now.gone.items (places_of self.now.at name.now) }
    {
        match self.at.get(name) {
            Some(places) => first_there(places.as_slice(), self.gone.as_slice()),
            None => None,
        }
    }

    /// A worker is lost: the names of the objects that lay there and at no other worker that isn't lost.
    pub fn lose(&mut self, alloc: Global, worker: u32) -> Result<Vec<Name>, Memory>
        ensures objects { IfOk result (λ names.
            IsTaken (record { worker = worker; gone = self.old.gone.items; at = placed self.old.at }) names.items) }
        ensures at { self.new.at ≡ self.old.at }
        ensures gone { IfOk result (λ _. self.new.gone.items ≡ self.old.gone.items ++ worker ∷ []) }
    {
        push(&mut self.gone, worker)?;
        let names = lost_names(alloc, &self.at, worker, self.gone.as_slice())?;
        Ok(names)
    }
}

/// The places of a name, which has none then.
fn take_places(alloc: Global, at: &mut BTreeMap<Name, Vec<Place>>, name: &Name) -> Vec<Place>
    ensures places { result.items ≡ places_of at.old name.now }
    ensures others { (n : List ℕ) → same_text n name.now ≡ false → places_of at.new n ≡ places_of at.old n }
{
    match at.remove(name) {
        Some(places) => places,
        None => Vec::new(alloc),
    }
}

/// The order of the first place whose worker isn't lost.
fn first_there(places: &[Place], gone: &[u32]) -> Option<usize>
    ensures { result ≡ first_run gone.now places.now }
{
    for place in places {
        if !gone.contains(&place.worker) {
            return Some(place.run);
        }
    }
    None
}

/// The names of the objects of which some lie at this worker, and all at lost ones.
fn lost_names(
    alloc: Global,
    at: &BTreeMap<Name, Vec<Place>>,
    worker: u32,
    gone: &[u32],
) -> Result<Vec<Name>, Memory>
    ensures names { IfOk result (λ names. names.items ≡ names_where (takes_from worker gone.now) at.now.entries) }
    ensures ordered { IfOk result (λ _. IsOrdered name_cmp at.now) }
{
    let mut names = Vec::new(alloc);
    for (name, places) in at {
        add_lost(&mut names, name, places.as_slice(), worker, gone)?;
    }
    Ok(names)
}

/// The name, where the object of these places is lost.
fn add_lost(
    names: &mut Vec<Name>,
    name: &Name,
    places: &[Place],
    worker: u32,
    gone: &[u32],
) -> Result<(), Memory>
    ensures added { IfOk result (λ _. names.new.items
        ≡ names.old.items ++ cond (takes_from worker gone.now (map place_worker places.now)) (name.now ∷ []) []) }
{
    if is_lost(places, worker, gone) {
        push(names, *name)?;
        return Ok(());
    }
    Ok(())
}

/// One more for each name.
pub fn put_all(
    alloc: Global,
    places: &mut Places,
    names: &[Name],
    place: Place,
) -> Result<(), Memory>
    ensures put { IfOk result (λ _. (n : List ℕ) → placed places.new.at n ≡ placed places.old.at n ++ put_at place.worker names.now n) }
    ensures gone { places.new.gone ≡ places.old.gone }
{
    for name in names {
        places.put(alloc, *name, place)?;
    }
    Ok(())
}

/// Whether one of the places is at the worker, and none at one that isn't lost.
fn is_lost(places: &[Place], worker: u32, gone: &[u32]) -> bool
    ensures { result ≡ (list_any (λ (p : Place). nat_eq worker p.worker) places.now
        && list_all (λ (p : Place). list_any (nat_eq p.worker) gone.now) places.now) }
{
    is_there(places, worker) && are_gone(places, gone)
}

/// Whether one of the places is at the worker.
fn is_there(places: &[Place], worker: u32) -> bool
    ensures { result ≡ list_any (λ (p : Place). nat_eq worker p.worker) places.now }
{
    places.iter().any(|place| worker == place.worker)
}

/// Whether each of the places is at a lost worker.
fn are_gone(places: &[Place], gone: &[u32]) -> bool
    ensures { result ≡ list_all (λ (p : Place). list_any (nat_eq p.worker) gone.now) places.now }
{
    places.iter().all(|place| gone.contains(&place.worker))
}

/// Puts something at the end of a list.
pub fn push<T>(list: &mut Vec<T>, thing: T) -> Result<(), Memory>
where
    T: Drop,
    ensures pushed { IfOk result (λ _. list.new.items ≡ list.old.items ++ thing ∷ []) }
    ensures kept { OnErr result (list.new.items ≡ list.old.items) }
{
    match list.push(thing) {
        Ok(()) => Ok(()),
        Err(_) => Err(Memory),
    }
}
