//! The table with the tasks that can run.

ghost use Rattle.std.specs.Prelude.{◌≡◌, ◌<◌, [], ℕ, filter, not, IfErr, IfOk, None, OnErr, OnOk, Ok, Err, length, Some, slice_get};
ghost use Rattle.ciel_want_marks.specs.Lists.{Rising};
ghost use Rattle.ciel_want_ready.specs.Fits.{FitsOut, many_of, runs_at};
ghost use Rattle.ciel_want_ready.specs.Following.{ExecsAtStart};
ghost use Rattle.ciel_want_ready.specs.Seen.{CanRunAt, CanRunMany, with_out, with_table, without};
ghost use Rattle.ciel_table.specs.Changes.{dropped, placed, saved};
ghost use Rattle.ciel_table.specs.Learning.{Refuses, learn_answer, learned};
ghost use Rattle.ciel_table.specs.Seen.{Known, find, waits_of};
ghost use Rattle.ciel_table.specs.Sound.{Here, IsAbove};
ghost use Rattle.ciel_want.specs.Followers.{FollowerIs};
ghost use Rattle.ciel_want.specs.Waited.{Whole, same_id};

use crate::anew::{anew, is_same};
use crate::change;
use crate::follow::{first_row, row_desc};
use crate::nodes::{find_live, node_for};
use ciel_name::name::Namer;
use ciel_table::refusal::Learn;
use ciel_table::row::RowId;
use ciel_table::table::Table;
use ciel_table::wait::Wait;
use ciel_want_marks::marks::Marks;
use sky_base::at::At;
use sky_base::name::Name;
use sky_base::object::{Desc1, Named, TaskId};
use sky_base::text::Memory;
use std::alloc::Global;
use std::marker::Model;

/// A table, the name of the main call, the tasks that are out, and what is kept of those that can run. Contracts see `ReadySeen`.
pub struct Ready<P: At> {
    alloc: Global,
    table: Table<P>,
    main: Name,
    out: Vec<TaskId>,
    // None where they don't tell all: they are made anew when they are asked for.
    marks: Option<Marks>,
    // The row that was looked for last.
    near: RowId,
}

// Written by hand, so that a table that is let go of is one call and not a list of fields.
impl<P: At + Drop> Drop for Ready<P> {
    fn drop(self) {
        let Ready {
            alloc: _,
            table: _,
            main: _,
            out: _,
            marks: _,
            near: _,
        } = self;
    }
}

impl<P: At> Model for Ready<P> {
    ghost use Rattle.std.specs.Coded.{codes};
    ghost use Rattle.std.specs.Prelude.{IfSome};
    ghost use Rattle.sky_base.specs.Code.{val_code, vals_code, pairs_code};
    ghost use Rattle.ciel_want_ready.specs.Fits.{FitsOut};
    ghost use Rattle.ciel_want_ready.specs.Seen.{ReadySeen};

    ghost Value = { ReadySeen P };

    ghost coded = { Prim.hlevel (codes, val_code, vals_code, pairs_code) };

    ghost view = { λ r. record { table = r.table; main = r.main; out = r.out.items } };

    ghost invariant = { λ r. IfSome r.marks (λ m. FitsOut r.main r.table r.out.items m) };
}

impl<P: At + Drop> Ready<P> {
    /// A table with no rows, which takes so many, and nothing out.
    ///
    /// Answers `Memory` for want of memory.
    pub fn open(alloc: Global, main: Name, limit: u32) -> Result<Ready<P>, Memory>
        ensures empty { IfOk result (λ r. r ≡ record {
          table = record { limit = limit; rows = []; shown = []; saved = []; gone = [] };
          main =
              main;
          out = [];
        }) }
    {
        let table = Table::open(alloc, limit)?;
        Ok(Ready {
            alloc,
            table,
            main,
            out: Vec::new(alloc),
            marks: None,
            near: 0,
        })
    }

    /// The table.
    pub fn table(&self) -> &Table<P>
        ensures table { result.now ≡ self.now.table }
    {
        &self.table
    }

    /// The tasks that are out.
    pub fn out(&self) -> &[TaskId]
        ensures out { result.now ≡ self.now.out }
    {
        self.out.as_slice()
    }

    /// Learns a description, as `Table::learn` does, with the same answers.
    pub fn learn<N: Namer>(&mut self, named: &Named, namer: &N) -> Result<RowId, Learn>
        ensures row { IfOk result (λ id. learn_answer named.now self.old.table ≡ Ok id) }
        ensures refused { IfErr result (λ e. Refuses e (learn_answer named.now self.old.table ≡ Err e)) }
        ensures found { IfOk result (λ id. find named.now.name self.new.table ≡ Some id) }
        ensures learned { OnOk result (self.new ≡ with_table self.old (learned (N.digest namer.now) named.now self.old.table)) }
        ensures kept { OnErr result (self.new ≡ self.old) }
    {
        let held = self.table.len();
        let marks = self.marks.take();
        match self.table.learn(named, namer) {
            Ok(row) => {
                self.marks = change::learned(&self.table, self.out.as_slice(), marks, held, row);
                Ok(row)
            }
            Err(refusal) => {
                self.marks = marks;
                Err(refusal)
            }
        }
    }

    /// Adds a place of the object of a name. After `Memory` nothing has changed.
    pub fn add_place(&mut self, name: &Name, place: P) -> Result<(), Memory>
        requires known { Known self.old.table name.now }
        requires here { Here self.old.table.gone (P.at place) }
        ensures placed { OnOk result (self.new ≡ with_table self.old (placed name.now place self.old.table)) }
        ensures kept { OnErr result (self.new ≡ self.old) }
    {
        let (row, was) = find_live(&self.table, &mut self.near, name);
        let marks = self.marks.take();
        match self.table.add_place(name, place) {
            Ok(()) => {
                self.marks = change::placed(marks, was, row);
                Ok(())
            }
            Err(refusal) => {
                self.marks = marks;
                Err(refusal)
            }
        }
    }

    /// Adds a saved wait of a task; an earlier one at its worker goes. After `Memory` nothing has changed.
    pub fn save_wait(&mut self, task: &TaskId, wait: Wait<P>) -> Result<(), Memory>
        requires later { IsAbove wait.j (waits_of task.now self.old.table) }
        requires here { Here self.old.table.gone (P.at wait.place) }
        ensures saved { OnOk result (self.new ≡ with_table self.old (saved P.at task.now wait self.old.table)) }
        ensures kept { OnErr result (self.new ≡ self.old) }
    {
        let node = node_for(&self.table, &mut self.near, task);
        let marks = self.marks.take();
        match self.table.save_wait(task, wait) {
            Ok(()) => {
                self.marks = change::saved(marks, node);
                Ok(())
            }
            Err(refusal) => {
                self.marks = marks;
                Err(refusal)
            }
        }
    }

    /// Takes all places and saved waits at a worker away. What can run is searched anew when it is asked for next. It takes no memory.
    pub fn drop_worker(&mut self, worker: u32)
        ensures dropped { self.new ≡ with_table self.old (dropped P.at worker self.old.table) }
    {
        self.marks = None;
        self.table.drop_worker(worker);
    }

    /// A task is out from now on. After `Memory` nothing has changed.
    pub fn start(&mut self, task: &TaskId) -> Result<(), Memory>
        ensures started { OnOk result (self.new ≡ with_out self.old task.now) }
        ensures kept { OnErr result (self.new ≡ self.old) }
    {
        if self.out.reserve(1).is_err() {
            return Err(Memory);
        }
        let node = node_for(&self.table, &mut self.near, task);
        let marks = self.marks.take();
        self.out.push_reserved(*task);
        self.marks = change::started(marks, node);
        Ok(())
    }

    /// A task is out no longer.
    pub fn close(&mut self, task: &TaskId)
        ensures closed { self.new ≡ without self.old task.now }
    {
        let node = node_for(&self.table, &mut self.near, task);
        let marks = self.marks.take();
        take_off(&mut self.out, task);
        self.marks = change::closed(self.alloc, &self.table, &self.main, marks, node);
    }

    /// How many tasks can run.
    ///
    /// Answers `Memory` for want of memory.
    pub fn count(&mut self) -> Result<usize, Memory>
        requires whole { Whole self.old.main self.old.table }
        ensures count { IfOk result (λ n. CanRunMany self.old n) }
        ensures same { self.new ≡ self.old }
    {
        let marks = self.take_marks()?;
        let count = many(&marks);
        self.marks = Some(marks);
        Ok(count)
    }

    /// The k-th of the tasks that can run, from 0, in the order of their least rows, the root task last.
    ///
    /// Answers `Memory` for want of memory.
    pub fn nth(&mut self, k: usize) -> Result<TaskId, Memory>
        requires whole { Whole self.old.main self.old.table }
        requires within { (n : ℕ) × CanRunMany self.old n × (k < n) }
        ensures task { IfOk result (λ task. CanRunAt self.old k task) }
        ensures same { self.new ≡ self.old }
    {
        let marks = self.take_marks()?;
        let task = task_at(&self.table, &mut self.near, &marks, k);
        self.marks = Some(marks);
        Ok(task)
    }

    /// The executor's task that follows a task: the first, in the order of least rows, that is reached and isn't out and reads one thing
    /// once, which the task makes. By the description of its first output; `None` where there is none. It costs as much as there are
    /// tasks that wait for what the task makes, and, where some of that is live already, as there are tasks that can run.
    ///
    /// Answers `Memory` for want of memory.
    pub fn follower(&mut self, task: &TaskId) -> Result<Option<Desc1>, Memory>
        requires whole { Whole self.old.main self.old.table }
        ensures follower { IfOk result (λ o. ExecsAtStart self.old.table → FollowerIs self.old.main self.old.table self.old.out task.now o) }
        ensures same { self.new ≡ self.old }
    {
        let marks = self.take_marks()?;
        let row = first_row(&self.table, &marks, self.near, task);
        self.marks = Some(marks);
        row_desc(&self.table, row)
    }

    // The marks, made anew where they don't tell all.
    fn take_marks(&mut self) -> Result<Marks, Memory>
        requires whole { Whole self.old.main self.old.table }
        ensures fits { IfOk result (λ m. FitsOut self.old.main self.old.table self.old.out m) }
        ensures same { self.new ≡ self.old }
    {
        match self.marks.take() {
            Some(marks) => Ok(marks),
            None => anew(self.alloc, &self.table, &self.main, self.out.as_slice()),
        }
    }
}

// Takes a task off a list.
fn take_off(tasks: &mut Vec<TaskId>, task: &TaskId)
    ensures { tasks.new.items ≡ filter (λ x. not (same_id task.now x)) tasks.old.items }
{
    tasks.retain(|other| !is_same(task, other));
}

// How many nodes can run.
fn many(marks: &Marks) -> usize
    ensures many { result ≡ many_of marks.now }
    ensures rising { Rising marks.now.list }
{
    let listed = marks.list().len();
    if marks.root_runs() {
        listed + 1
    } else {
        listed
    }
}

// The task of the k-th node that can run.
fn task_at<P: At + Drop>(table: &Table<P>, near: &mut RowId, marks: &Marks, k: usize) -> TaskId
    requires rows { (k : ℕ) (r : ℕ) → slice_get marks.now.list k ≡ Some r → r < length table.now.rows }
    ensures task { result ≡ runs_at table.now marks.now k }
    ensures rising { Rising marks.now.list }
{
    let list = marks.list();
    if k < list.len() {
        *near = list[k];
        table.row(list[k]).task
    } else {
        TaskId::Show
    }
}
