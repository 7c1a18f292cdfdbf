//! Which tasks are out, with a flag for each row.

ghost use Rattle.std.specs.Prelude.{◌≡◌, ◌<◌, ℕ, IfOk, IfSome, Some, false, length, replicate, slice_get};
ghost use Rattle.ciel_table.specs.Named.{IsOnce};
ghost use Rattle.ciel_table.specs.Seen.{row_name};
ghost use Rattle.ciel_want.specs.Board.{IsSet, Outs, task_at};
ghost use Rattle.ciel_want.specs.Waited.{is_in, same_id};
ghost use Rattle.sky_base.specs.declared.object.TaskId.{TaskId};

use ciel_table::table::Table;
use sky_base::at::At;
use sky_base::object::TaskId;
use sky_base::text::Memory;
use std::alloc::Global;

/// The tasks that are out; a flag for each row whose name is the name of one; whether the root task is out.
#[derive(Drop)]
pub(crate) struct Out<'a> {
    tasks: &'a [TaskId],
    rows: Vec<bool>,
    show: bool,
}

/// A flag for each row, none of them set.
pub(crate) fn no_flags(alloc: Global, rows: usize) -> Result<Vec<bool>, Memory>
    ensures { IfOk result (λ fs. fs.items ≡ replicate rows false) }
{
    let mut flags = Vec::new(alloc);
    match flags.resize(rows, false) {
        Ok(()) => Ok(flags),
        Err(_) => Err(Memory),
    }
}

/// Whether it is the root task.
fn is_root(task: &TaskId) -> bool
    ensures { result ≡ same_id TaskId.Show task.now }
{
    matches!(task, TaskId::Show)
}

/// Sets the flag of the row of a task's name.
fn flag<P: At + Drop>(table: &Table<P>, rows: &mut Vec<bool>, task: &TaskId)
    requires once { IsOnce row_name table.now.rows }
    requires long { length rows.old.items ≡ length table.now.rows }
    ensures long { length rows.new.items ≡ length table.now.rows }
    ensures set { (e : ℕ) → e < length table.now.rows
        → IsSet (same_id (task_at table.now (Some e)) task.now) (slice_get rows.old.items e) (slice_get rows.new.items e) }
{
    if let TaskId::Of(name) = task {
        match table.find(name) {
            Some(row) => rows[row as usize] = true,
            None => {}
        }
    }
}

impl<'a> Out<'a> {
    /// These tasks.
    pub(crate) fn of<P: At + Drop>(
        alloc: Global,
        table: &Table<P>,
        tasks: &'a [TaskId],
    ) -> Result<Out<'a>, Memory>
        ensures tasks { IfOk result (λ o. o.tasks.now ≡ tasks.now) }
        ensures outs { IfOk result (λ o. Outs table.now tasks.now o.rows.items o.show) }
    {
        let mut rows = no_flags(alloc, table.len() as usize)?;
        let mut show = false;
        for i in 0..tasks.len() {
            show = show || is_root(&tasks[i]);
            flag(table, &mut rows, &tasks[i]);
        }
        Ok(Out { tasks, rows, show })
    }

    /// Whether the task of this row's name is out; of none, whether the root task is.
    pub(crate) fn has<P: At + Drop>(&self, table: &Table<P>, row: Option<u32>) -> bool
        requires outs { Outs table.now self.now.tasks.now self.now.rows.items self.now.show }
        requires row { IfSome row (λ e. e < length table.now.rows) }
        ensures { result ≡ is_in self.now.tasks.now (task_at table.now row) }
    {
        match row {
            None => self.show,
            Some(row) => self.rows[row as usize],
        }
    }
}
