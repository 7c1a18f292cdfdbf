//! The order of tasks: that of their least rows, the root task last.

ghost use Rattle.std.specs.Prelude.{◌≡◌, ◌<◌, ◌++◌, ◌∷◌, [], IfOk, OnOk, Some, cond, length};
ghost use Rattle.ciel_journal.specs.Graph.{Picks};
ghost use Rattle.ciel_want.specs.Board.{IsFlagged, cleared, is_set, maker_at, task_row};
ghost use Rattle.ciel_want.specs.Waited.{tasks_in_order};

use crate::needs::own_row;
use ciel_table::table::Table;
use sky_base::at::At;
use sky_base::object::TaskId;
use sky_base::text::Memory;
use std::alloc::Global;

/// Puts a task at the end.
fn add(tasks: &mut Vec<TaskId>, task: TaskId) -> Result<(), Memory>
    ensures { OnOk result (tasks.new.items ≡ tasks.old.items ++ task ∷ []) }
{
    match tasks.push(task) {
        Ok(()) => Ok(()),
        Err(_) => Err(Memory),
    }
}

/// Lists the task of a row, if its flag is set, and takes the flag away.
fn list<P: At + Drop>(
    table: &Table<P>,
    flags: &mut Vec<bool>,
    tasks: &mut Vec<TaskId>,
    row: u32,
) -> Result<(), Memory>
    requires held { row < length table.now.rows }
    requires long { length flags.old.items ≡ length table.now.rows }
    ensures tasks { OnOk result (tasks.new.items
        ≡ cond (is_set flags.old.items (task_row table.now (maker_at table.now (Some row))))
        (tasks.old.items ++ maker_at table.now (Some row) ∷ []) tasks.old.items) }
    ensures flags { OnOk result (flags.new.items ≡ cleared (task_row table.now (maker_at table.now (Some row))) flags.old.items) }
{
    let Some(own) = own_row(table, row) else {
        return Ok(());
    };
    let is_new = flags[own as usize];
    flags[own as usize] = false;
    if is_new {
        add(tasks, table.row(row).task)?;
    }
    Ok(())
}

/// The tasks whose flags are set, each at its least row, and the root task if it is asked for.
pub(crate) fn in_order<P: At + Drop>(
    alloc: Global,
    table: &Table<P>,
    mut flags: Vec<bool>,
    root: bool,
) -> Result<Vec<TaskId>, Memory>
    requires long { length flags.items ≡ length table.now.rows }
    ensures { IfOk result (λ ts. Picks (IsFlagged table.now flags.items root) (tasks_in_order table.now) ts.items) }
{
    let mut tasks = Vec::new(alloc);
    for row in 0..table.len() {
        list(table, &mut flags, &mut tasks, row)?;
    }
    if root {
        add(&mut tasks, TaskId::Show)?;
        return Ok(tasks);
    }
    Ok(tasks)
}
