//! What a task waits for and isn't live, by numbers of rows.

ghost use Rattle.std.specs.Prelude.{◌≡◌, ◌<◌, ◌++◌, ◌∷◌, [], IfOk, IfSome, MatchOption, None, OnOk, Some, length, slice_get};
ghost use Rattle.std.specs.Option.{option_and_then};
ghost use Rattle.ciel_table.specs.Seen.{row_named};
ghost use Rattle.ciel_want.specs.Board.{blocker, blockers_of, blocking, maker_at, task_at, task_row, with_some};
ghost use Rattle.ciel_want.specs.Waited.{first_needs, first_refs, needs};

use ciel_table::row::Row;
use ciel_table::table::Table;
use sky_base::at::At;
use sky_base::name::Name;
use sky_base::object::{Desc1, TaskId};
use sky_base::text::Memory;
use std::alloc::Global;

/// The row of a name.
pub(crate) fn row_named<'a, P: At + Drop>(table: &'a Table<P>, name: &Name) -> Option<&'a Row<P>>
    ensures { MatchOption result (row_named name.now table.now ≡ None) (λ r. row_named name.now table.now ≡ Some r.now) }
{
    match table.find(name) {
        Some(id) => Some(table.row(id)),
        None => None,
    }
}

/// The row of a task's name; none for the root task.
pub(crate) fn task_row<P: At + Drop>(table: &Table<P>, task: &TaskId) -> Option<u32>
    ensures { result ≡ task_row table.now task.now }
{
    match task {
        TaskId::Show => None,
        TaskId::Of(name) => table.find(name),
    }
}

/// The row of the task of a row. That is mostly the row itself, which isn't looked up then.
pub(crate) fn own_row<P: At + Drop>(table: &Table<P>, row: u32) -> Option<u32>
    requires held { row < length table.now.rows }
    ensures { result ≡ task_row table.now (maker_at table.now (Some row)) }
{
    let held = table.row(row);
    match &held.task {
        TaskId::Of(name) if *name == held.name => Some(row),
        task => task_row(table, task),
    }
}

/// The row of the task that makes what a row names, unless that is live.
fn blocking<P: At + Drop>(table: &Table<P>, row: u32) -> Option<u32>
    requires held { row < length table.now.rows }
    ensures { result ≡ option_and_then (blocking table.now) (slice_get table.now.rows row) }
{
    if table.row(row).is_live() {
        None
    } else {
        own_row(table, row)
    }
}

/// The row of the task that makes a name which isn't live.
fn blocker<P: At + Drop>(table: &Table<P>, name: &Name) -> Option<u32>
    ensures { result ≡ blocker table.now name.now }
{
    match table.find(name) {
        Some(row) => blocking(table, row),
        None => None,
    }
}

/// Puts a number at the end.
pub(crate) fn push(rows: &mut Vec<u32>, row: u32) -> Result<(), Memory>
    ensures { OnOk result (rows.new.items ≡ rows.old.items ++ row ∷ []) }
{
    match rows.push(row) {
        Ok(()) => Ok(()),
        Err(_) => Err(Memory),
    }
}

/// Puts a number at the end, if there is one.
fn push_some(rows: &mut Vec<u32>, row: Option<u32>) -> Result<(), Memory>
    ensures { OnOk result (rows.new.items ≡ rows.old.items ++ with_some row []) }
{
    match row {
        Some(row) => push(rows, row),
        None => Ok(()),
    }
}

/// The rows of the tasks that make those of the names which aren't live.
#[tactic(auto, using(crate::proofs::WaitedRows::with_split))]
fn blockers_of<P: At + Drop>(
    alloc: Global,
    table: &Table<P>,
    names: &[Name],
) -> Result<Vec<u32>, Memory>
    ensures { IfOk result (λ es. es.items ≡ blockers_of table.now names.now) }
{
    let mut rows = Vec::new(alloc);
    for i in 0..names.len() {
        let row = blocker(table, &names[i]);
        push_some(&mut rows, row)?;
    }
    Ok(rows)
}

/// What the task of a description waits for before it starts.
fn first_blockers<P: At + Drop>(
    alloc: Global,
    table: &Table<P>,
    desc: &Desc1,
) -> Result<Vec<u32>, Memory>
    ensures { IfOk result (λ es. es.items ≡ blockers_of table.now (first_refs desc.now)) }
{
    match desc {
        Desc1::Exec { args, .. } => {
            let refs = args.refs(alloc)?;
            let rows = blockers_of(alloc, table, refs.as_slice())?;
            Ok(rows)
        }
        _ => Ok(Vec::new(alloc)),
    }
}

/// The task of a row's name; of none the root task.
fn task_at<P: At + Drop>(table: &Table<P>, row: Option<u32>) -> TaskId
    requires row { IfSome row (λ e. e < length table.now.rows) }
    ensures { result ≡ task_at table.now row }
{
    match row {
        None => TaskId::Show,
        Some(row) => TaskId::Of(table.row(row).name),
    }
}

/// The same before a task's first saved wait.
fn blockers_at_start<P: At + Drop>(
    alloc: Global,
    table: &Table<P>,
    main: &Name,
    row: Option<u32>,
) -> Result<Vec<u32>, Memory>
    requires row { IfSome row (λ e. e < length table.now.rows) }
    ensures { IfOk result (λ es. es.items ≡ blockers_of table.now (first_needs main.now table.now (task_at table.now row))) }
{
    match row {
        None => {
            let rows = blockers_of(alloc, table, &[*main])?;
            Ok(rows)
        }
        Some(row) => {
            let rows = first_blockers(alloc, table, &table.row(row).desc)?;
            Ok(rows)
        }
    }
}

/// The rows of the tasks that make what the task of a row's name waits for and isn't live; of none, what the root task waits for.
pub(crate) fn blockers<P: At + Drop>(
    alloc: Global,
    table: &Table<P>,
    main: &Name,
    row: Option<u32>,
) -> Result<Vec<u32>, Memory>
    requires row { IfSome row (λ e. e < length table.now.rows) }
    ensures { IfOk result (λ es. es.items ≡ blockers_of table.now (needs main.now table.now (task_at table.now row))) }
{
    match table.last_wait(&task_at(table, row)) {
        Some(wait) => {
            let rows = blockers_of(alloc, table, wait.refs.as_slice())?;
            Ok(rows)
        }
        None => {
            let rows = blockers_at_start(alloc, table, main, row)?;
            Ok(rows)
        }
    }
}
