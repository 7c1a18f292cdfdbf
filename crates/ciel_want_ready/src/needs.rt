//! What a node waits for and isn't live, by rows.

ghost use Rattle.std.specs.Prelude.{◌≡◌, ◌<◌, IfOk, IfSome, None, Some, length};
ghost use Rattle.ciel_want_ready.specs.Fits.{dead_rows};
ghost use Rattle.ciel_want.specs.Board.{task_at};
ghost use Rattle.ciel_want.specs.Waited.{first_needs, first_refs, needs};

use ciel_table::table::Table;
use ciel_want_marks::numbers::Numbers;
use sky_base::at::At;
use sky_base::name::Name;
use sky_base::object::{Desc1, TaskId};
use sky_base::text::Memory;
use std::alloc::Global;

/// The rows of those of the names that aren't live; none where a name has no row.
fn dead_rows<P: At + Drop>(
    alloc: Global,
    table: &Table<P>,
    names: &[Name],
) -> Result<Option<Numbers>, Memory>
    ensures { IfOk result (λ o. o ≡ dead_rows table.now names.now) }
{
    let mut rows = Numbers::new(alloc);
    for i in 0..names.len() {
        let Some(row) = table.find(&names[i]) else {
            return Ok(None);
        };
        if !table.row(row).is_live() {
            rows.push(row)?;
        }
    }
    Ok(Some(rows))
}

/// Of what the task of a description waits for before it starts.
fn dead_first<P: At + Drop>(
    alloc: Global,
    table: &Table<P>,
    desc: &Desc1,
) -> Result<Option<Numbers>, Memory>
    ensures { IfOk result (λ o. o ≡ dead_rows table.now (first_refs desc.now)) }
{
    match desc {
        Desc1::Exec { args, .. } => {
            let refs = args.refs(alloc)?;
            let rows = dead_rows(alloc, table, refs.as_slice())?;
            Ok(rows)
        }
        _ => Ok(Some(Numbers::new(alloc))),
    }
}

/// Before a task's first saved wait.
fn dead_at_start<P: At + Drop>(
    alloc: Global,
    table: &Table<P>,
    main: &Name,
    row: Option<u32>,
) -> Result<Option<Numbers>, Memory>
    requires row { IfSome row (λ e. e < length table.now.rows) }
    ensures { IfOk result (λ o. o ≡ dead_rows table.now (first_needs main.now table.now (task_at table.now row))) }
{
    match row {
        None => {
            let rows = dead_rows(alloc, table, &[*main])?;
            Ok(rows)
        }
        Some(row) => {
            let rows = dead_first(alloc, table, &table.row(row).desc)?;
            Ok(rows)
        }
    }
}

/// The task of a row's name; of none the root task.
fn task_at<P: At + Drop>(table: &Table<P>, row: Option<u32>) -> TaskId
    requires row { IfSome row (λ e. e < length table.now.rows) }
    ensures { result ≡ task_at table.now row }
{
    match row {
        None => TaskId::Show,
        Some(row) => TaskId::Of(table.row(row).name),
    }
}

/// Of what the task of a row's name waits for, or of none the root task, the rows of the names that aren't live; none where a name has
/// no row.
pub(crate) fn dead_needs<P: At + Drop>(
    alloc: Global,
    table: &Table<P>,
    main: &Name,
    row: Option<u32>,
) -> Result<Option<Numbers>, Memory>
    requires row { IfSome row (λ e. e < length table.now.rows) }
    ensures { IfOk result (λ o. o ≡ dead_rows table.now (needs main.now table.now (task_at table.now row))) }
{
    match table.last_wait(&task_at(table, row)) {
        Some(wait) => {
            let rows = dead_rows(alloc, table, wait.refs.as_slice())?;
            Ok(rows)
        }
        None => {
            let rows = dead_at_start(alloc, table, main, row)?;
            Ok(rows)
        }
    }
}
