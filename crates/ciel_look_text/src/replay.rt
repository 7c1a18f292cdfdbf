//! A run, gone through again: who waits for what, and what is there.

ghost use Rattle.std.specs.Prelude.{◌≡◌, [], ◌∷◌, ◌++◌, ℕ, List, IfOk, OnErr, None, Some, cond, false, map, slice_get};
ghost use Rattle.std.specs.List.{list_any};
ghost use Rattle.std.specs.Option.{option_map};
ghost use Rattle.sky_base.specs.ObjectView.{desc_view};
ghost use Rattle.sky_base.specs.Val.{same_text};
ghost use Rattle.sky_base.specs.declared.object.TaskId.{TaskId};
ghost use Rattle.ciel_look_tasks.specs.Heads.{own_desc};
ghost use Rattle.ciel_look_tasks.specs.Known.{known_as, knowns, named_at};
ghost use Rattle.ciel_look_tasks.specs.SceneView.{end_view, how_view, made_at, one_of, order_view};
ghost use Rattle.ciel_look_tasks.specs.SceneView.{scene_view, took_at, waits_of};
ghost use Rattle.ciel_look_tasks.specs.Tasks.{same_task};
ghost use Rattle.ciel_look_tasks.specs.declared.scene.Scene.{Scene};
ghost use Rattle.ciel_look_text.specs.Now.{after, after_all, at_first, desc_in, first_name, given_names, have, is_input, is_left, is_there, latest};
ghost use Rattle.ciel_look_text.specs.Now.{nothing_yet, waits, waits_for};
ghost use Rattle.ciel_look_text.specs.Replays.{closed_event, desc_at, event_view, listed_at, orders_at, saves_at, stand_of, taken_event};

use ciel_look_tasks::make::is_saved;
use ciel_look_tasks::scene::{End, Happening, How, Run, Scene, Task, is_own};
use ciel_look_told::told::Outcome;
use sky_base::name::Name;
use sky_base::object::{Desc1, TaskId};
use sky_base::text::Memory;
use std::alloc::Global;
use std::collections::BTreeMap;

/// What stands at some place of a run: the workers that have each object, the places of the orders of each task that ended at a wait, those of
/// the root task and of the others, and the lost workers.
#[derive(Drop)]
pub struct Replay {
    pub places: BTreeMap<Name, Vec<u32>>,
    pub show: Vec<usize>,
    pub others: BTreeMap<Name, Vec<usize>>,
    pub gone: Vec<u32>,
}

impl Replay {
    /// Before anything happened.
    pub fn new(alloc: Global) -> Replay
        ensures nothing { (s : Scene) → stand_of s result ≡ nothing_yet }
    {
        Replay {
            places: BTreeMap::new(alloc),
            show: Vec::new(alloc),
            others: BTreeMap::new(alloc),
            gone: Vec::new(alloc),
        }
    }

    /// What happened next.
    pub fn step(&mut self, alloc: Global, scene: &Scene, one: &Happening) -> Result<(), Memory>
        ensures step { IfOk result (λ _. stand_of scene.now self.new ≡ after_all (event_view scene.now one.now) (stand_of scene.now self.old)) }
    {
        match *one {
            Happening::Begun(_) => Ok(()),
            Happening::Ended(place) => {
                self.end_at(alloc, scene, place)?;
                Ok(())
            }
            Happening::Lost(place) => {
                self.lose_at(scene, place)?;
                Ok(())
            }
        }
    }

    /// The order at a place ended, if there is one.
    fn end_at(&mut self, alloc: Global, scene: &Scene, place: usize) -> Result<(), Memory>
        ensures end { IfOk result (λ _. stand_of scene.now self.new
            ≡ after_all (map closed_event (one_of (slice_get scene.now.runs.items place))) (stand_of scene.now self.old)) }
    {
        match scene.runs.get(place) {
            Some(run) => {
                self.end(alloc, scene, place, run)?;
                Ok(())
            }
            None => Ok(()),
        }
    }

    /// The worker of the loss at a place is lost, if there is one.
    fn lose_at(&mut self, scene: &Scene, place: usize) -> Result<(), Memory>
        ensures lost { IfOk result (λ _. stand_of scene.now self.new
            ≡ after_all (map (taken_event scene.now) (one_of (slice_get scene.now.losses.items place))) (stand_of scene.now self.old)) }
    {
        match scene.losses.get(place) {
            Some(loss) => {
                push(&mut self.gone, loss.worker)?;
                Ok(())
            }
            None => Ok(()),
        }
    }

    /// The object is there: an input, or at a worker that isn't lost.
    pub fn is_there(&self, scene: &Scene, name: &Name) -> bool
        ensures { result ≡ is_there (scene_view scene.now) (stand_of scene.now self.now) name.now }
    {
        is_input(scene, name) || self.lies(name)
    }

    /// It lies at a worker that isn't lost.
    fn lies(&self, name: &Name) -> bool
        ensures { result ≡ list_any (is_left self.now.gone.items) (listed_at self.now.places name.now) }
    {
        match self.places.get(name) {
            Some(workers) => any_left(workers.as_slice(), self.gone.as_slice()),
            None => false,
        }
    }

    /// The names that a task waits for.
    pub fn needs(&self, alloc: Global, scene: &Scene, id: &TaskId) -> Result<Vec<Name>, Memory>
        ensures names { IfOk result (λ names. names.items ≡ waits_for (scene_view scene.now) (stand_of scene.now self.now) id.now) }
    {
        match self.last_save(scene, id) {
            Some(run) => {
                let names = waits_of(alloc, &run.end)?;
                Ok(names)
            }
            None => {
                let names = at_first(alloc, scene, id)?;
                Ok(names)
            }
        }
    }

    /// The last order of a task that ended at a wait, at a worker that isn't lost.
    fn last_save<'a>(&self, scene: &'a Scene, id: &TaskId) -> Option<&'a Run>
        ensures last { option_map (λ r. order_view r.now) result
            ≡ latest self.now.gone.items None (orders_at scene.now.runs.items (saves_at self.now.show.items self.now.others id.now)) }
    {
        match id {
            TaskId::Show => last_of(scene, self.gone.as_slice(), self.show.as_slice()),
            TaskId::Of(name) => match self.others.get(name) {
                Some(places) => last_of(scene, self.gone.as_slice(), places.as_slice()),
                None => None,
            },
        }
    }

    /// An order ended: what it took along and what it made lies at its worker, and it may be at a wait.
    fn end(&mut self, alloc: Global, scene: &Scene, place: usize, run: &Run) -> Result<(), Memory>
        ensures end { IfOk result (λ _. slice_get scene.now.runs.items place ≡ Some run.now
            → stand_of scene.now self.new ≡ after (closed_event run.now) (stand_of scene.now self.old)) }
    {
        put_took(alloc, &mut self.places, &run.end, run.worker)?;
        put_made(alloc, &mut self.places, &run.end, run.worker)?;
        if is_saved(run) {
            self.save(alloc, &run.id, place)?;
            return Ok(());
        }
        Ok(())
    }

    /// An order of the task ended at a wait.
    fn save(&mut self, alloc: Global, id: &TaskId, place: usize) -> Result<(), Memory>
        ensures places { self.new.places ≡ self.old.places }
        ensures gone { self.new.gone ≡ self.old.gone }
        ensures saved { IfOk result (λ _. (t : TaskId) → saves_at self.new.show.items self.new.others t
            ≡ saves_at self.old.show.items self.old.others t ++ cond (same_task t id.now) (place ∷ []) []) }
    {
        match id {
            TaskId::Show => {
                push(&mut self.show, place)?;
                Ok(())
            }
            TaskId::Of(name) => {
                put_in(alloc, &mut self.others, *name, place)?;
                Ok(())
            }
        }
    }
}

/// What an order took along lies at its worker.
fn put_took(
    alloc: Global,
    places: &mut BTreeMap<Name, Vec<u32>>,
    end: &Option<End>,
    worker: u32,
) -> Result<(), Memory>
    ensures put { IfOk result (λ _. (n : List ℕ) → listed_at places.new n ≡ listed_at places.old n ++ have worker (took_at end.now) n) }
{
    match end {
        Some(end) => {
            put_all(alloc, places, end.took.as_slice(), worker)?;
            Ok(())
        }
        None => Ok(()),
    }
}

/// What an order made lies at its worker.
fn put_made(
    alloc: Global,
    places: &mut BTreeMap<Name, Vec<u32>>,
    end: &Option<End>,
    worker: u32,
) -> Result<(), Memory>
    ensures put { IfOk result (λ _. (n : List ℕ) → listed_at places.new n ≡ listed_at places.old n ++ have worker (made_at end.now) n) }
{
    match end {
        Some(end) => match &end.how {
            How::Told { outcome: _, made } => {
                put_all(alloc, places, made.as_slice(), worker)?;
                Ok(())
            }
            How::Lost { loss: _ } => Ok(()),
        },
        None => Ok(()),
    }
}

/// Each of these objects lies at a worker.
fn put_all(
    alloc: Global,
    places: &mut BTreeMap<Name, Vec<u32>>,
    names: &[Name],
    worker: u32,
) -> Result<(), Memory>
    ensures put { IfOk result (λ _. (n : List ℕ) → listed_at places.new n ≡ listed_at places.old n ++ have worker names.now n) }
{
    for name in names {
        put_in(alloc, places, *name, worker)?;
    }
    Ok(())
}

/// One more in the list of a name.
fn put_in<T>(
    alloc: Global,
    lists: &mut BTreeMap<Name, Vec<T>>,
    name: Name,
    thing: T,
) -> Result<(), Memory>
where
    T: Drop,
    ensures put { IfOk result (λ _. (n : List ℕ) → listed_at lists.new n ≡ listed_at lists.old n ++ cond (same_text n name) (thing ∷ []) []) }
{
    let mut list = take_list(alloc, lists, &name);
    push(&mut list, thing)?;
    match lists.insert(name, list) {
        Ok(_) => Ok(()),
        Err(_) => Err(Memory),
    }
}

/// The list of a name, which has none then.
fn take_list<T>(alloc: Global, lists: &mut BTreeMap<Name, Vec<T>>, name: &Name) -> Vec<T>
where
    T: Drop,
    ensures list { result.items ≡ listed_at lists.old name.now }
    ensures others { (n : List ℕ) → same_text n name.now ≡ false → listed_at lists.new n ≡ listed_at lists.old n }
{
    match lists.remove(name) {
        Some(list) => list,
        None => Vec::new(alloc),
    }
}

/// Whether the name is that of an input.
fn is_input(scene: &Scene, name: &Name) -> bool
    ensures { result ≡ is_input (known_as name.now (knowns scene.now.known.all.items)) }
{
    match scene.find(name) {
        Some(known) => is_given(&known.desc),
        None => false,
    }
}

/// Whether a description is of an input.
fn is_given(desc: &Desc1) -> bool
    ensures { result ≡ is_input (Some (desc_view desc.now)) }
{
    match desc {
        Desc1::Input { key: _ } => true,
        Desc1::Call {
            fun: _,
            caught: _,
            args: _,
        } => false,
        Desc1::Exec {
            executor: _,
            args: _,
            outputs: _,
            index: _,
        } => false,
    }
}

/// Whether one of the workers isn't lost.
fn any_left(workers: &[u32], gone: &[u32]) -> bool
    ensures { result ≡ list_any (is_left gone.now) workers.now }
{
    for worker in workers {
        if is_left(gone, *worker) {
            return true;
        }
    }
    false
}

/// Whether a worker isn't lost.
fn is_left(gone: &[u32], worker: u32) -> bool
    ensures { result ≡ is_left gone.now worker }
{
    !gone.contains(&worker)
}

/// The last of the orders at these places whose worker isn't lost.
fn last_of<'a>(scene: &'a Scene, gone: &[u32], places: &[usize]) -> Option<&'a Run>
    ensures last { option_map (λ r. order_view r.now) result ≡ latest gone.now None (orders_at scene.now.runs.items places.now) }
{
    let mut last = None;
    for place in places {
        last = later(scene, gone, last, *place);
    }
    last
}

/// The order at a place, where its worker isn't lost; else the one that was the last before.
fn later<'a>(scene: &'a Scene, gone: &[u32], last: Option<&'a Run>, place: usize) -> Option<&'a Run>
    ensures later { option_map (λ r. order_view r.now) result
        ≡ latest gone.now (option_map (λ r. order_view r.now) last.entry) (map order_view (one_of (slice_get scene.now.runs.items place))) }
{
    match scene.runs.get(place) {
        Some(run) => {
            if is_left(gone, run.worker) {
                return Some(run);
            }
            last
        }
        None => last,
    }
}

/// The names that an order waits for, where it ended at a wait.
fn waits_of(alloc: Global, end: &Option<End>) -> Result<Vec<Name>, Memory>
    ensures names { IfOk result (λ names. names.items ≡ waits (end_view end.now)) }
{
    match end {
        Some(end) => {
            let names = waits_how(alloc, &end.how)?;
            Ok(names)
        }
        None => Ok(Vec::new(alloc)),
    }
}

fn waits_how(alloc: Global, how: &How) -> Result<Vec<Name>, Memory>
    ensures names { IfOk result (λ names. names.items ≡ waits (how_view how.now)) }
{
    match how {
        How::Told { outcome, made: _ } => {
            let names = waits_told(alloc, outcome)?;
            Ok(names)
        }
        How::Lost { loss: _ } => Ok(Vec::new(alloc)),
    }
}

fn waits_told(alloc: Global, outcome: &Outcome) -> Result<Vec<Name>, Memory>
    ensures names { IfOk result (λ names. names.items ≡ waits_of outcome.now) }
{
    match outcome {
        Outcome::Saved {
            j: _,
            weight: _,
            waits,
        } => {
            let names = copied(alloc, waits.as_slice())?;
            Ok(names)
        }
        Outcome::Made(_) => Ok(Vec::new(alloc)),
        Outcome::Answer(_) => Ok(Vec::new(alloc)),
        Outcome::Fault(_) => Ok(Vec::new(alloc)),
        Outcome::Missing { name: _, loss: _ } => Ok(Vec::new(alloc)),
    }
}

/// The names that a task waits for before it has started.
fn at_first(alloc: Global, scene: &Scene, id: &TaskId) -> Result<Vec<Name>, Memory>
    ensures names { IfOk result (λ names. names.items ≡ at_first (scene_view scene.now) id.now) }
{
    match id {
        TaskId::Show => {
            let names = first_known(alloc, scene)?;
            Ok(names)
        }
        TaskId::Of(_) => {
            let names = given_to(alloc, scene, id)?;
            Ok(names)
        }
    }
}

/// The name of the main call, which is known first.
fn first_known(alloc: Global, scene: &Scene) -> Result<Vec<Name>, Memory>
    ensures names { IfOk result (λ names. names.items ≡ first_name (knowns scene.now.known.all.items)) }
{
    let mut names = Vec::new(alloc);
    match scene.known.all.get(0) {
        Some(main) => {
            push(&mut names, main.name)?;
            Ok(names)
        }
        None => Ok(names),
    }
}

/// The names in what an executor is given, none where the task is none.
fn given_to(alloc: Global, scene: &Scene, id: &TaskId) -> Result<Vec<Name>, Memory>
    ensures names { IfOk result (λ names. names.items ≡ given_names (desc_in id.now (scene_view scene.now).rows)) }
{
    match scene.roll.place(id) {
        Some(place) => {
            let names = given_at(alloc, scene, place)?;
            Ok(names)
        }
        None => Ok(Vec::new(alloc)),
    }
}

/// The names in what the task at a place is given.
fn given_at(alloc: Global, scene: &Scene, place: usize) -> Result<Vec<Name>, Memory>
    ensures names { IfOk result (λ names. names.items ≡ given_names (desc_at scene.now (slice_get scene.now.roll.tasks.items place))) }
{
    match scene.roll.tasks.get(place) {
        Some(task) => {
            let names = given_of(alloc, scene, task)?;
            Ok(names)
        }
        None => Ok(Vec::new(alloc)),
    }
}

/// The names in what a task is given.
fn given_of(alloc: Global, scene: &Scene, task: &Task) -> Result<Vec<Name>, Memory>
    ensures names { IfOk result (λ names. names.items
        ≡ given_names (own_desc task.now.id (named_at scene.now.known.all.items task.now.known))) }
{
    match scene.desc_of(task) {
        Some(known) => {
            if is_own(&task.id, &known.name) {
                let names = given_in(alloc, &known.desc)?;
                return Ok(names);
            }
            Ok(Vec::new(alloc))
        }
        None => Ok(Vec::new(alloc)),
    }
}

/// The names in what an executor is given.
fn given_in(alloc: Global, desc: &Desc1) -> Result<Vec<Name>, Memory>
    ensures names { IfOk result (λ names. names.items ≡ given_names (Some (desc_view desc.now))) }
{
    match desc {
        Desc1::Exec {
            executor: _,
            args,
            outputs: _,
            index: _,
        } => {
            let found = args.refs(alloc)?;
            let names = copied(alloc, found.as_slice())?;
            Ok(names)
        }
        Desc1::Call {
            fun: _,
            caught: _,
            args: _,
        } => Ok(Vec::new(alloc)),
        Desc1::Input { key: _ } => Ok(Vec::new(alloc)),
    }
}

fn copied(alloc: Global, names: &[Name]) -> Result<Vec<Name>, Memory>
    ensures names { IfOk result (λ copy. copy.items ≡ names.now) }
{
    match Vec::from_slice(alloc, names) {
        Ok(names) => Ok(names),
        Err(_) => Err(Memory),
    }
}

/// Puts something at the end of a list.
pub fn push<T>(list: &mut Vec<T>, thing: T) -> Result<(), Memory>
where
    T: Drop,
    ensures pushed { IfOk result (λ _. list.new.items ≡ list.old.items ++ thing ∷ []) }
    ensures kept { OnErr result (list.new.items ≡ list.old.items) }
{
    match list.push(thing) {
        Ok(()) => Ok(()),
        Err(_) => Err(Memory),
    }
}
