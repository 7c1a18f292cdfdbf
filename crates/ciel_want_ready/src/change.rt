//! What a change of the table, or of what is out, makes of the marks. None where they don't tell all then, or there is no room.

ghost use Rattle.std.specs.Prelude.{◌≡◌, ◌<◌, IfSome, Some, length, slice_get};
ghost use Rattle.ciel_want_ready.specs.Changed.{ClosedFrom, LearnedFrom, LearnedWith, PlacedFrom, SavedFrom, StartedFrom};
ghost use Rattle.ciel_want_ready.specs.Fits.{Fits};
ghost use Rattle.ciel_table.specs.declared.row.Row.{Row};

use crate::anew::has;
use crate::nodes::node_of;
use crate::search::search;
use ciel_table::table::Table;
use ciel_want_marks::marks::Marks;
use sky_base::at::At;
use sky_base::name::Name;
use sky_base::object::TaskId;
use std::alloc::Global;

/// A row has a place more. It became live, unless it was so before.
pub(crate) fn placed(marks: Option<Marks>, was: bool, row: Option<u32>) -> Option<Marks>
    ensures { IfSome result (λ n. PlacedFrom marks was row n) }
{
    let mut marks = marks?;
    if was {
        return Some(marks);
    }
    match marks.place(row?) {
        Ok(true) => Some(marks),
        _ => None,
    }
}

/// One row more, at the end.
fn with_row<P: At + Drop>(
    table: &Table<P>,
    out: &[TaskId],
    mut marks: Marks,
    row: u32,
) -> Option<Marks>
    requires held { row < length table.now.rows }
    ensures { IfSome result (λ n. (r : Row P) × (slice_get table.now.rows row ≡ Some r) × LearnedWith table.now out.now r marks n) }
{
    let held = table.row(row);
    let maker = node_of(table, row, &held.task);
    if marks.is_long() {
        return None;
    }
    if has(out, &TaskId::Of(held.name)) {
        return None;
    }
    match marks.add(held.is_live(), maker) {
        Ok(true) => Some(marks),
        _ => None,
    }
}

/// A description is learned. It has a new row, unless it is one of those that were held before.
pub(crate) fn learned<P: At + Drop>(
    table: &Table<P>,
    out: &[TaskId],
    marks: Option<Marks>,
    held: u32,
    row: u32,
) -> Option<Marks>
    requires held { row < length table.now.rows }
    ensures { IfSome result (λ n. LearnedFrom table.now out.now marks held row n) }
{
    let marks = marks?;
    if row < held {
        return Some(marks);
    }
    with_row(table, out, marks, row)
}

/// A node is out.
pub(crate) fn started(marks: Option<Marks>, node: Option<u32>) -> Option<Marks>
    ensures { IfSome result (λ n. StartedFrom marks node n) }
{
    let mut marks = marks?;
    if marks.start(node?) {
        Some(marks)
    } else {
        None
    }
}

/// A node is out no longer.
pub(crate) fn closed<P: At + Drop>(
    alloc: Global,
    table: &Table<P>,
    main: &Name,
    marks: Option<Marks>,
    node: Option<u32>,
) -> Option<Marks>
    requires fits { IfSome marks (λ m. Fits main.now table.now m) }
    ensures { IfSome result (λ n. ClosedFrom main.now table.now marks node n) }
{
    let mut marks = marks?;
    let node = node?;
    if !marks.is_out(node) {
        return None;
    }
    match marks.close(node) {
        Ok(true) => match search(alloc, table, main, marks) {
            Ok(marks) => marks,
            Err(_) => None,
        },
        _ => None,
    }
}

/// A task has a later wait.
pub(crate) fn saved(marks: Option<Marks>, node: Option<u32>) -> Option<Marks>
    ensures { IfSome result (λ m. SavedFrom marks node m) }
{
    let marks = marks?;
    if marks.is_out(node?) {
        Some(marks)
    } else {
        None
    }
}
