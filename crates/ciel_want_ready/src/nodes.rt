//! Nodes of tasks: 0 is the root task, and each other one is the node after the row of its name.

ghost use Rattle.std.specs.Prelude.{◌≡◌, ◌<◌, IfSome, suc};
ghost use Rattle.std.specs.Option.{option_map};
ghost use Rattle.ciel_want_ready.specs.Fits.{node_for, node_of, row_of};
ghost use Rattle.ciel_table.specs.Seen.{find, is_live};
ghost use Rattle.ciel_table.specs.Sound.{TableSound};
ghost use Rattle.ciel_want.specs.Board.{task_row};

use ciel_table::table::Table;
use sky_base::at::At;
use sky_base::name::Name;
use sky_base::object::TaskId;

/// The row that a node stands for; none for the root task.
pub(crate) fn row_of(node: u32) -> Option<u32>
    ensures { result ≡ row_of node }
{
    if node == 0 { None } else { Some(node - 1) }
}

/// The row of a name, which is looked for at this row first.
fn find_from<P: At + Drop>(table: &Table<P>, near: u32, name: &Name) -> Option<u32>
    ensures { result ≡ find name.now table.now }
{
    if near < table.len() && table.row(near).name == *name {
        Some(near)
    } else {
        table.find(name)
    }
}

/// The row of a name, which is looked for at the row that was found last first: calls about one task come one after another.
fn find_near<P: At + Drop>(table: &Table<P>, near: &mut u32, name: &Name) -> Option<u32>
    ensures { result ≡ find name.now table.now }
{
    let found = find_from(table, *near, name);
    if let Some(row) = found {
        *near = row;
    }
    found
}

/// The row of a name, and whether it is live.
pub(crate) fn find_live<P: At + Drop>(
    table: &Table<P>,
    near: &mut u32,
    name: &Name,
) -> (Option<u32>, bool)
    ensures row { result.0 ≡ find name.now table.now }
    ensures live { result.1 ≡ is_live name.now table.now }
{
    match find_near(table, near, name) {
        Some(row) => (Some(row), table.row(row).is_live()),
        None => (None, false),
    }
}

/// The row of a task's name, which is looked for at this row first; none for the root task.
fn task_row<P: At + Drop>(table: &Table<P>, near: u32, task: &TaskId) -> Option<u32>
    ensures { result ≡ task_row table.now task.now }
{
    match task {
        TaskId::Show => None,
        TaskId::Of(name) => find_from(table, near, name),
    }
}

/// The node of a row, where there are so many.
fn node_after(row: Option<u32>, rows: u32) -> Option<u32>
    requires held { IfSome row (λ e. e < rows) }
    ensures { result ≡ option_map suc row }
{
    match row {
        Some(row) => Some(row + 1),
        None => None,
    }
}

/// The node of a task's row, if it has one, which is looked for at this row first; the root task has none.
pub(crate) fn node_of<P: At + Drop>(table: &Table<P>, near: u32, task: &TaskId) -> Option<u32>
    ensures { result ≡ node_of table.now task.now }
{
    let row = task_row(table, near, task);
    node_after(row, table.len())
}

/// The node that stands for a task, if its name has a row; and what holds of every table.
pub(crate) fn node_for<P: At + Drop>(table: &Table<P>, near: &mut u32, task: &TaskId) -> Option<u32>
    ensures node { result ≡ node_for table.now task.now }
    ensures sound { TableSound P.at table.now }
{
    let rows = table.len();
    match task {
        TaskId::Show => Some(0),
        TaskId::Of(name) => node_after(find_near(table, near, name), rows),
    }
}
