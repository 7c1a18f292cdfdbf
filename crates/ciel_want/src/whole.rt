//! The test of what the calls ask of a table.

ghost use Rattle.std.specs.Prelude.{◌≡◌, ◌↔◌, IfOk, true};
ghost use Rattle.ciel_want.specs.Board.{all_known, row_whole, rows_whole, task_known, whole};
ghost use Rattle.ciel_want.specs.Waited.{Whole, first_refs, needs};

use crate::needs::row_named;
use ciel_table::row::Row;
use ciel_table::table::Table;
use sky_base::at::At;
use sky_base::name::Name;
use sky_base::object::{Desc1, TaskId};
use sky_base::text::Memory;
use std::alloc::Global;

/// Whether each of the names has a row.
fn all_known<P: At + Drop>(table: &Table<P>, names: &[Name]) -> bool
    ensures { result ≡ all_known table.now names.now }
{
    for i in 0..names.len() {
        if table.find(&names[i]).is_none() {
            return false;
        }
    }
    true
}

/// Whether all has rows that the task of a description waits for before it starts.
fn known_at_start<P: At + Drop>(
    alloc: Global,
    table: &Table<P>,
    desc: &Desc1,
) -> Result<bool, Memory>
    ensures { IfOk result (λ b. b ≡ all_known table.now (first_refs desc.now)) }
{
    match desc {
        Desc1::Exec { args, .. } => {
            let refs = args.refs(alloc)?;
            Ok(all_known(table, refs.as_slice()))
        }
        _ => Ok(true),
    }
}

/// Whether all has rows that a task waits for.
fn needs_known<P: At + Drop>(
    alloc: Global,
    table: &Table<P>,
    main: &Name,
    task: &TaskId,
) -> Result<bool, Memory>
    ensures { IfOk result (λ b. b ≡ all_known table.now (needs main.now table.now task.now)) }
{
    if let Some(wait) = table.last_wait(task) {
        return Ok(all_known(table, wait.refs.as_slice()));
    }
    match task {
        TaskId::Show => Ok(all_known(table, &[*main])),
        TaskId::Of(name) => match row_named(table, name) {
            Some(row) => {
                let known = known_at_start(alloc, table, &row.desc)?;
                Ok(known)
            }
            None => Ok(true),
        },
    }
}

/// Whether the name of a task has a row.
fn task_known<P: At + Drop>(table: &Table<P>, task: &TaskId) -> bool
    ensures { result ≡ task_known table.now task.now }
{
    match task {
        TaskId::Show => false,
        TaskId::Of(name) => table.find(name).is_some(),
    }
}

/// Whether a row is an input's, or its task has a row, as has all that it waits for.
fn row_whole<P: At + Drop>(
    alloc: Global,
    table: &Table<P>,
    main: &Name,
    row: &Row<P>,
) -> Result<bool, Memory>
    ensures { IfOk result (λ b. b ≡ row_whole main.now table.now row.now) }
{
    if let Desc1::Input { .. } = &row.desc {
        return Ok(true);
    }
    if !task_known(table, &row.task) {
        return Ok(false);
    }
    let known = needs_known(alloc, table, main, &row.task)?;
    Ok(known)
}

/// The same of each row.
fn rows_whole<P: At + Drop>(alloc: Global, table: &Table<P>, main: &Name) -> Result<bool, Memory>
    ensures { IfOk result (λ b. b ≡ rows_whole main.now table.now table.now.rows) }
{
    for id in 0..table.len() {
        if !row_whole(alloc, table, main, table.row(id))? {
            return Ok(false);
        }
    }
    Ok(true)
}

/// Whether all has rows that the root task and the tasks of the rows wait for, as `wanted`, `runnable` and `circle` ask of
/// a table.
///
/// Answers `Memory` for want of memory.
pub fn is_whole<P: At + Drop>(alloc: Global, table: &Table<P>, main: &Name) -> Result<bool, Memory>
    ensures whole { IfOk result (λ b. (b ≡ true) ↔ Whole main.now table.now) }
{
    if !needs_known(alloc, table, main, &TaskId::Show)? {
        return Ok(false);
    }
    let whole = rows_whole(alloc, table, main)?;
    Ok(whole)
}
