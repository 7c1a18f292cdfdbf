//! A walk from the root task, from each task on to the first name that it waits for and isn't live, until a name comes again.

ghost use Rattle.std.specs.Prelude.{◌≡◌, ◌<◌, [], ◌∷◌, ℕ, List, Some, IfNone, IfOk, IfSome, drop, false, length, nat_eq, slice_get};
ghost use Rattle.std.specs.List.{list_any};
ghost use Rattle.ciel_want.specs.Search.{Among, IsCircle, SomeMet};
ghost use Rattle.ciel_want.specs.Board.{first_unmet, live_at, maker_at, names_at, rows_of, row_leads};
ghost use Rattle.ciel_want.specs.Marked.{AllBelow};
ghost use Rattle.ciel_want.specs.Waited.{first_refs, needs};

use crate::flags::no_flags;
use crate::needs::{push, row_named};
use ciel_table::table::Table;
use sky_base::at::At;
use sky_base::name::Name;
use sky_base::names::Names;
use sky_base::object::{Desc1, TaskId};
use sky_base::text::Memory;
use std::alloc::Global;

/// The row of a name that isn't live.
fn unmet_row<P: At + Drop>(table: &Table<P>, name: &Name) -> Option<u32>
    ensures { result ≡ first_unmet table.now (name.now ∷ []) }
{
    match table.find(name) {
        Some(row) => if table.row(row).is_live() {
            None
        } else {
            Some(row)
        },
        None => None,
    }
}

/// The row of the first of the names that isn't live.
fn first_of<P: At + Drop>(table: &Table<P>, names: &[Name]) -> Option<u32>
    ensures { result ≡ first_unmet table.now names.now }
{
    for i in 0..names.len() {
        if let Some(row) = unmet_row(table, &names[i]) {
            return Some(row);
        }
    }
    None
}

/// The row of the first name that the task of a description waits for before it starts and isn't live.
fn first_at_start<P: At + Drop>(
    alloc: Global,
    table: &Table<P>,
    desc: &Desc1,
) -> Result<Option<u32>, Memory>
    ensures { IfOk result (λ o. o ≡ first_unmet table.now (first_refs desc.now)) }
{
    match desc {
        Desc1::Exec { args, .. } => {
            let refs = args.refs(alloc)?;
            Ok(first_of(table, refs.as_slice()))
        }
        _ => Ok(None),
    }
}

/// The row of the first name that a task waits for and isn't live.
fn first_blocked<P: At + Drop>(
    alloc: Global,
    table: &Table<P>,
    main: &Name,
    task: &TaskId,
) -> Result<Option<u32>, Memory>
    ensures { IfOk result (λ o. o ≡ first_unmet table.now (needs main.now table.now task.now)) }
{
    if let Some(wait) = table.last_wait(task) {
        return Ok(first_of(table, wait.refs.as_slice()));
    }
    match task {
        TaskId::Show => Ok(first_of(table, &[*main])),
        TaskId::Of(name) => match row_named(table, name) {
            Some(row) => {
                let first = first_at_start(alloc, table, &row.desc)?;
                Ok(first)
            }
            None => Ok(None),
        },
    }
}

/// Where a row stands in a list.
fn place_of(rows: &[u32], row: u32) -> Option<usize>
    ensures there { IfSome result (λ i. slice_get rows.now i ≡ Some row) }
    ensures inside { IfSome result (λ i. i < length rows.now) }
    ensures missing { IfNone result (list_any (nat_eq row) rows.now ≡ false) }
{
    for i in 0..rows.len() {
        if row == rows[i] {
            return Some(i);
        }
    }
    None
}

/// The names of rows.
fn names_of<P: At + Drop>(alloc: Global, table: &Table<P>, rows: &[u32]) -> Result<Names, Memory>
    requires below { AllBelow (length table.now.rows) rows.now }
    ensures { IfOk result (λ ns. ns ≡ names_at table.now rows.now) }
{
    let mut names = Names::new(alloc);
    for i in 0..rows.len() {
        let row = rows[i];
        names.push(table.row(row).name)?;
    }
    Ok(names)
}

/// The names of the rows of a trail, from the place of a row on.
fn names_from<P: At + Drop>(
    alloc: Global,
    table: &Table<P>,
    trail: &[u32],
    row: u32,
) -> Result<Names, Memory>
    requires below { AllBelow (length table.now.rows) trail.now }
    requires there { Among row trail.now }
    ensures { IfOk result (λ ns. (i : ℕ) × (slice_get trail.now i ≡ Some row) × (ns ≡ names_at table.now (drop i trail.now))) }
{
    match place_of(trail, row) {
        Some(i) => {
            let names = names_of(alloc, table, &trail[i..])?;
            Ok(names)
        }
        None => unreachable!(),
    }
}

/// Goes from the root task to the first name that it waits for and isn't live, from its task on to the next, and so on. Where
/// a name comes again, that is a circle of waits. `None` where a task is come to that waits for nothing that isn't live.
pub(crate) fn follow<P: At + Drop>(
    alloc: Global,
    table: &Table<P>,
    main: &Name,
) -> Result<Option<Names>, Memory>
    ensures circle { IfOk result (λ o. IfSome o
        (λ ns. (es : List ℕ) × IsCircle (row_leads main.now table.now) (live_at table.now) es × (ns ≡ names_at table.now es))) }
    ensures met { IfOk result (λ o. IfNone o (SomeMet (row_leads main.now table.now) (live_at table.now))) }
{
    let mut flags = no_flags(alloc, table.len() as usize)?;
    let mut trail: Vec<u32> = Vec::new(alloc);
    let mut next = first_blocked(alloc, table, main, &TaskId::Show)?;
    'walk: while let Some(row) = next {
        if flags[row as usize] {
            let names = names_from(alloc, table, &trail, row)?;
            return Ok(Some(names));
        }
        push(&mut trail, row)?;
        flags[row as usize] = true;
        next = first_blocked(alloc, table, main, &table.row(row).task)?;
    }
    Ok(None)
}
