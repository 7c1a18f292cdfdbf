//! The search backward from the root task.

ghost use Rattle.std.specs.Prelude.{◌≡◌, ◌<◌, ◌++◌, ◌∷◌, ◌&&◌, [], ℕ, IfOk, IfSome, OnOk, Some, length, not, slice_get};
ghost use Rattle.sky_base.specs.declared.object.TaskId.{TaskId};
ghost use Rattle.ciel_want.specs.Search.{LedTo, news};
ghost use Rattle.ciel_want.specs.Board.{Outs, can_run_test, is_none, leads, never, task_at};
ghost use Rattle.ciel_want.specs.Marked.{AllBelow, Flagged, Marked};
ghost use Rattle.ciel_want.specs.Waited.{is_in};

use crate::flags::{Out, no_flags};
use crate::needs::{blockers, push};
use ciel_table::table::Table;
use sky_base::at::At;
use sky_base::name::Name;
use sky_base::text::Memory;
use std::alloc::Global;

/// What a search reaches: a flag for each row, whether its task is reached; another, whether it is reached and can run; and
/// whether the root task can run.
#[derive(Drop)]
pub(crate) struct Found {
    pub(crate) reached: Vec<bool>,
    pub(crate) ready: Vec<bool>,
    pub(crate) root: bool,
}

/// The rows to which the task of a row's name leads: those of the tasks that make what it waits for and isn't live. A task
/// that is out leads nowhere.
fn leads<P: At + Drop>(
    alloc: Global,
    table: &Table<P>,
    main: &Name,
    out: &Out<'_>,
    row: Option<u32>,
) -> Result<Vec<u32>, Memory>
    requires out { Outs table.now out.now.tasks.now out.now.rows.items out.now.show }
    requires row { IfSome row (λ e. e < length table.now.rows) }
    ensures { IfOk result (λ es. es.items ≡ leads table.now main.now out.now.tasks.now row) }
{
    if out.has(table, row) {
        return Ok(Vec::new(alloc));
    }
    let rows = blockers(alloc, table, main, row)?;
    Ok(rows)
}

/// Whether the task of a row's name, which leads to these rows, isn't out and leads nowhere.
fn is_ready<P: At + Drop>(table: &Table<P>, out: &Out<'_>, row: Option<u32>, leads: &[u32]) -> bool
    requires out { Outs table.now out.now.tasks.now out.now.rows.items out.now.show }
    requires row { IfSome row (λ e. e < length table.now.rows) }
    ensures { result ≡ not (is_in out.now.tasks.now (task_at table.now row)) && is_none leads.now }
{
    !out.has(table, row) && leads.is_empty()
}

/// Adds a row to both lists, if it is new. A flag says whether a row was seen.
fn add_row(
    seen: &mut Vec<u32>,
    todo: &mut Vec<u32>,
    flags: &mut Vec<bool>,
    row: u32,
) -> Result<(), Memory>
    requires marked { Marked flags.old.items seen.old.items }
    requires below { row < length flags.old.items }
    ensures seen { OnOk result (seen.new.items ≡ seen.old.items ++ news seen.old.items (row ∷ [])) }
    ensures todo { OnOk result (todo.new.items ≡ todo.old.items ++ news seen.old.items (row ∷ [])) }
    ensures marked { OnOk result (Marked flags.new.items seen.new.items) }
    ensures long { length flags.new.items ≡ length flags.old.items }
{
    if flags[row as usize] {
        return Ok(());
    }
    push(seen, row)?;
    push(todo, row)?;
    flags[row as usize] = true;
    Ok(())
}

/// Adds what is new to both lists. A flag says whether a row was seen.
fn add_rows(
    seen: &mut Vec<u32>,
    todo: &mut Vec<u32>,
    flags: &mut Vec<bool>,
    found: &[u32],
) -> Result<(), Memory>
    requires marked { Marked flags.old.items seen.old.items }
    requires below { AllBelow (length flags.old.items) found.now }
    ensures seen { OnOk result (seen.new.items ≡ seen.old.items ++ news seen.old.items found.now) }
    ensures todo { OnOk result (todo.new.items ≡ todo.old.items ++ news seen.old.items found.now) }
    ensures marked { OnOk result (Marked flags.new.items seen.new.items) }
    ensures long { length flags.new.items ≡ length flags.old.items }
{
    for i in 0..found.len() {
        let row = found[i];
        add_row(seen, todo, flags, row)?;
    }
    Ok(())
}

/// The rows whose tasks are reached, and those of them that can run.
pub(crate) fn reached<P: At + Drop>(
    alloc: Global,
    table: &Table<P>,
    main: &Name,
    out: &Out<'_>,
) -> Result<Found, Memory>
    requires out { Outs table.now out.now.tasks.now out.now.rows.items out.now.show }
    ensures long { IfOk result (λ f. length f.reached.items ≡ length table.now.rows) }
    ensures all { IfOk result (λ f. (e : ℕ) → LedTo (leads table.now main.now out.now.tasks.now) never e → Flagged f.reached.items e) }
    ensures only { IfOk result (λ f. (e : ℕ) → Flagged f.reached.items e → LedTo (leads table.now main.now out.now.tasks.now) never e) }
    ensures ready_long { IfOk result (λ f. length f.ready.items ≡ length table.now.rows) }
    ensures ready { IfOk result (λ f. (e : ℕ) → LedTo (leads table.now main.now out.now.tasks.now) never e → slice_get f.ready.items e
        ≡ Some (can_run_test main.now table.now out.now.tasks.now (task_at table.now (Some e)))) }
    ensures ready_only { IfOk result (λ f. (e : ℕ) → Flagged f.ready.items e → LedTo (leads table.now main.now out.now.tasks.now) never e) }
    ensures root { IfOk result (λ f. f.root ≡ can_run_test main.now table.now out.now.tasks.now TaskId.Show) }
{
    let rows = table.len() as usize;
    let mut flags = no_flags(alloc, rows)?;
    let mut ready = no_flags(alloc, rows)?;
    let mut seen = Vec::new(alloc);
    let mut todo = Vec::new(alloc);
    let start = leads(alloc, table, main, out, None)?;
    let root = is_ready(table, out, None, &start);
    add_rows(&mut seen, &mut todo, &mut flags, &start)?;
    'search: while let Some(row) = todo.pop() {
        let found = leads(alloc, table, main, out, Some(row))?;
        ready[row as usize] = is_ready(table, out, Some(row), &found);
        add_rows(&mut seen, &mut todo, &mut flags, &found)?;
    }
    Ok(Found {
        reached: flags,
        ready,
        root,
    })
}
