//! The table.

ghost use Rattle.std.specs.Prelude.{◌≡◌, ◌<◌, ℕ, List, [], ◌∷◌, ◌++◌, None, Some, Ok, Err, IfOk, IfErr, OnOk, OnErr, MatchOption, length, map};
ghost use Rattle.std.specs.Prelude.{slice_get};
ghost use Rattle.sky_base.specs.Name.{canon};
ghost use Rattle.ciel_table.specs.Changes.{dropped, placed, row_without, saved, saves_without};
ghost use Rattle.ciel_table.specs.Learning.{Refuses, learn_answer, learned};
ghost use Rattle.ciel_table.specs.Seen.{Known, find, is_live, last_wait, waits_of};
ghost use Rattle.ciel_table.specs.Sound.{Here, IsAbove, TableSound};

use crate::dropped::Dropped;
use crate::refusal::Learn;
use crate::row::{Places, Row, RowId};
use crate::wait::{Saves, Wait, Waits};
use ciel_name::name::{Namer, task_of};
use ciel_name::object::canon;
use sky_base::at::At;
use sky_base::name::Name;
use sky_base::object::{Named, TaskId};
use sky_base::text::Memory;
use std::alloc::Global;
use std::collections::BTreeMap;
use std::marker::Model;

/// What is known of each description of a run, where its object lies, and the saved waits of each task. Contracts see
/// `TableSeen`.
pub struct Table<P: At> {
    limit: u32,
    rows: Vec<Row<P>>,
    // The row of each name.
    row_of: BTreeMap<Name, u32>,
    shown: Waits<P>,
    saves: Vec<Saves<P>>,
    // The place in `saves` of each name.
    saves_of: BTreeMap<Name, usize>,
    dropped: Dropped,
}

impl<P: At + Drop> Drop for Table<P> {
    fn drop(self) {
        let Table {
            limit: _,
            rows: _,
            row_of: _,
            shown: _,
            saves: _,
            saves_of: _,
            dropped: _,
        } = self;
    }
}

impl<P: At> Model for Table<P> {
    ghost use Rattle.ciel_table.specs.Seen.{TableSeen};
    ghost use Rattle.ciel_table.specs.Inside.{seen_of, Stands};
    ghost use Rattle.std.specs.Coded.{codes};
    ghost use Rattle.sky_base.specs.Code.{val_code, vals_code, pairs_code};

    ghost Value = { TableSeen P };

    ghost coded = { Prim.hlevel (codes, val_code, vals_code, pairs_code) };

    ghost view = { λ t. seen_of t.limit t.rows.items t.shown t.saves.items t.dropped.workers };

    ghost invariant = { λ t. Stands P.at (seen_of t.limit t.rows.items t.shown t.saves.items t.dropped.workers) t.row_of t.saves_of };
}

impl<P: At + Drop> Table<P> {
    /// A table with no rows, which takes so many.
    pub fn open(alloc: Global, limit: u32) -> Result<Table<P>, Memory>
        ensures empty { result ≡ Ok (record { limit = limit; rows = []; shown = []; saved = []; gone = [] }) }
    {
        Ok(Table {
            limit,
            rows: Vec::new(alloc),
            row_of: BTreeMap::new(alloc),
            shown: Waits::new(alloc),
            saves: Vec::new(alloc),
            saves_of: BTreeMap::new(alloc),
            dropped: Dropped::new(),
        })
    }

    /// How many rows there are, and what holds of every table.
    pub fn len(&self) -> u32
        ensures number { result ≡ length self.now.rows }
        ensures sound { TableSound P.at self.now }
    {
        prove!(self.rows.len() <= self.limit as usize);
        self.rows.len() as u32
    }

    /// The row of a name; `None` exactly where no row has it. It takes no memory.
    pub fn find(&self, name: &Name) -> Option<RowId>
        ensures row { result ≡ find name.now self.now }
    {
        self.row_of.get(name).copied()
    }

    /// The row of this number, and what holds of every table. It takes no memory.
    pub fn row(&self, id: RowId) -> &Row<P>
        requires held { id < length self.now.rows }
        ensures row { slice_get self.now.rows id ≡ Some result.now }
        ensures sound { TableSound P.at self.now }
    {
        &self.rows[id as usize]
    }

    /// Whether a name is an input's, or has a place. It takes no memory.
    pub fn is_live(&self, name: &Name) -> bool
        ensures live { result ≡ is_live name.now self.now }
    {
        match self.find(name) {
            Some(id) => self.rows[id as usize].is_live(),
            None => false,
        }
    }

    /// Learns a description: the row of its name, which is a new one at the end where no row has the name. A new row has no
    /// place, and the task that this namer names for the description.
    ///
    /// Answers `Clash` exactly where the name is held for other canonical bytes, `Full` exactly where it is new and the
    /// limit is held, and `Memory` for want of memory. The table is then as it was.
    pub fn learn<N: Namer>(&mut self, named: &Named, namer: &N) -> Result<RowId, Learn>
        ensures row { IfOk result (λ id. learn_answer named.now self.old ≡ Ok id) }
        ensures refused { IfErr result (λ e. Refuses e (learn_answer named.now self.old ≡ Err e)) }
        ensures found { IfOk result (λ id. find named.now.name self.new ≡ Some id) }
        ensures learned { OnOk result (self.new ≡ learned (N.digest namer.now) named.now self.old) }
        ensures kept { OnErr result (self.new ≡ self.old) }
    {
        match self.find(&named.name) {
            Some(id) => self.held(id, named),
            None => self.add(named, namer),
        }
    }

    // The row, where its description has the same canonical bytes.
    fn held(&self, id: RowId, named: &Named) -> Result<RowId, Learn>
        requires held { find named.now.name self.now ≡ Some id }
        ensures row { IfOk result (λ i. learn_answer named.now self.now ≡ Ok i) }
        ensures found { IfOk result (λ i. find named.now.name self.now ≡ Some i) }
        ensures refused { IfErr result (λ e. Refuses e (learn_answer named.now self.now ≡ Err e)) }
    {
        let alloc = *self.rows.allocator();
        let kept = canon(alloc, &self.rows[id as usize].desc)?;
        let given = canon(alloc, &named.desc)?;
        if kept.as_slice() == given.as_slice() {
            Ok(id)
        } else {
            Err(Learn::Clash { kept, given })
        }
    }

    // A new row for a name that has none.
    fn add<N: Namer>(&mut self, named: &Named, namer: &N) -> Result<RowId, Learn>
        requires new { find named.now.name self.old ≡ None }
        ensures row { IfOk result (λ id. learn_answer named.now self.old ≡ Ok id) }
        ensures refused { IfErr result (λ e. Refuses e (learn_answer named.now self.old ≡ Err e)) }
        ensures found { IfOk result (λ id. find named.now.name self.new ≡ Some id) }
        ensures learned { OnOk result (self.new ≡ learned (N.digest namer.now) named.now self.old) }
        ensures kept { OnErr result (self.new ≡ self.old) }
    {
        let id = self.rows.len() as u32;
        if id >= self.limit {
            return Err(Learn::Full { held: id });
        }
        let alloc = *self.rows.allocator();
        let row = Row {
            name: named.name,
            desc: named.desc.copy()?,
            task: task_of(alloc, &named.desc, namer)?,
            places: Places::new(alloc),
        };
        let Ok(()) = self.rows.reserve(1) else {
            return Err(Learn::Memory);
        };
        let Ok(_) = self.row_of.insert(named.name, id) else {
            return Err(Learn::Memory);
        };
        self.rows.push_reserved(row);
        Ok(id)
    }

    /// Adds a place of the object of a name. After `Memory` the table is as it was.
    pub fn add_place(&mut self, name: &Name, place: P) -> Result<(), Memory>
        requires known { Known self.old name.now }
        requires here { Here self.old.gone (P.at place) }
        ensures placed { OnOk result (self.new ≡ placed name.now place self.old) }
        ensures kept { OnErr result (self.new ≡ self.old) }
    {
        match self.find(name) {
            Some(id) => {
                let row = &mut self.rows[id as usize];
                row.places.add(place)
            }
            None => unreachable!(),
        }
    }

    /// Adds a saved wait of a task; an earlier one at its worker goes. After `Memory` the table is as it was.
    pub fn save_wait(&mut self, task: &TaskId, wait: Wait<P>) -> Result<(), Memory>
        requires later { IsAbove wait.j (waits_of task.now self.old) }
        requires here { Here self.old.gone (P.at wait.place) }
        ensures saved { OnOk result (self.new ≡ saved P.at task.now wait self.old) }
        ensures kept { OnErr result (self.new ≡ self.old) }
    {
        match task {
            TaskId::Show => self.shown.add(wait),
            TaskId::Of(name) => self.save(name, wait),
        }
    }

    // Adds a saved wait of the task of this name.
    fn save(&mut self, name: &Name, wait: Wait<P>) -> Result<(), Memory>
        requires later { IsAbove wait.j (waits_of (TaskId.Of name.now) self.old) }
        requires here { Here self.old.gone (P.at wait.place) }
        ensures saved { OnOk result (self.new ≡ saved P.at (TaskId.Of name.now) wait self.old) }
        ensures kept { OnErr result (self.new ≡ self.old) }
    {
        match self.saves_of.get(name).copied() {
            Some(at) => {
                let saves = &mut self.saves[at];
                saves.waits.add(wait)
            }
            None => {
                let alloc = *self.saves.allocator();
                let first = Saves::first(alloc, name, wait)?;
                let at = self.saves.len();
                let Ok(()) = self.saves.reserve(1) else {
                    return Err(Memory);
                };
                let Ok(_) = self.saves_of.insert(*name, at) else {
                    return Err(Memory);
                };
                self.saves.push_reserved(first);
                Ok(())
            }
        }
    }

    /// The saved wait of a task with the greatest number; `None` exactly where none is left. It takes no memory.
    pub fn last_wait(&self, task: &TaskId) -> Option<&Wait<P>>
        ensures last { MatchOption result (last_wait task.now self.now ≡ None) (λ w. last_wait task.now self.now ≡ Some w.now) }
    {
        match task {
            TaskId::Show => self.shown.latest(),
            TaskId::Of(name) => match self.saves_of.get(name).copied() {
                Some(at) => self.saves[at].waits.latest(),
                None => None,
            },
        }
    }

    /// Takes all places and saved waits at a worker away; none can be added there from now on. It takes no memory.
    pub fn drop_worker(&mut self, worker: u32)
        ensures dropped { self.new ≡ dropped P.at worker self.old }
    {
        drop_places(&mut self.rows, worker);
        self.shown.drop_worker(worker);
        drop_waits(&mut self.saves, worker);
        self.dropped = Dropped::with(&self.dropped, &worker);
    }
}

// Takes the places at a worker away from each row.
fn drop_places<P: At + Drop>(rows: &mut Vec<Row<P>>, worker: u32)
    ensures { rows.new.items ≡ map (row_without P.at worker) rows.old.items }
{
    for i in 0..rows.len() {
        let row = &mut rows[i];
        row.places.drop_worker(worker);
    }
}

// Takes the saved waits at a worker away from each task.
fn drop_waits<P: At + Drop>(saves: &mut Vec<Saves<P>>, worker: u32)
    ensures { saves.new.items ≡ map (saves_without P.at worker) saves.old.items }
{
    for i in 0..saves.len() {
        let of_task = &mut saves[i];
        of_task.waits.drop_worker(worker);
    }
}
