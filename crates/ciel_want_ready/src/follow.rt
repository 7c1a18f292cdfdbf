//! The executor's task that follows a task: it reads one thing once, which the task makes.

ghost use Rattle.std.specs.Prelude.{◌≡◌, ◌↔◌, ◌<◌, ℕ, IfOk, IfSome, None, Some, length, true, false};
ghost use Rattle.ciel_journal.specs.Job.{In};
ghost use Rattle.ciel_want_marks.specs.Lists.{at, entry, flag};
ghost use Rattle.ciel_want_ready.specs.Following.{Better, MayFollow, Near, NodeFollows, RowReads, Runs, Waits, lesser, row_desc, task_desc};
ghost use Rattle.ciel_table.specs.Seen.{is_input};
ghost use Rattle.ciel_want.specs.Followers.{ReadsOne};
ghost use Rattle.ciel_want.specs.Waited.{maker};

use crate::anew::is_same;
use crate::nodes::{node_of, row_of};
use crate::reads::{Reads, what_is_read};
use ciel_table::table::Table;
use ciel_want_marks::marks::Marks;
use sky_base::at::At;
use sky_base::name::Name;
use sky_base::object::{Desc1, TaskId};
use sky_base::text::Memory;

fn is_input(desc: &Desc1) -> bool
    ensures { result ≡ is_input desc.now }
{
    matches!(desc, Desc1::Input { .. })
}

// Whether a task makes what a name names.
fn makes<P: At + Drop>(table: &Table<P>, task: &TaskId, name: &Name) -> bool
    ensures { (result ≡ true) ↔ maker table.now name.now ≡ Some task.now }
{
    match table.find(name) {
        Some(row) => {
            let held = table.row(row);
            !is_input(&held.desc) && is_same(&held.task, task)
        }
        None => false,
    }
}

// Whether it is an executor's description that reads one thing, once, which the task makes.
fn reads_one<P: At + Drop>(table: &Table<P>, task: &TaskId, desc: &Desc1) -> bool
    ensures { (result ≡ true) ↔ ReadsOne table.now task.now desc.now }
{
    match desc {
        Desc1::Exec { args, .. } => match what_is_read(args) {
            Reads::One(name) => makes(table, task, &name),
            _ => false,
        },
        _ => false,
    }
}

// Whether a row's is one, and the task of its name has no saved wait.
fn row_reads<P: At + Drop>(table: &Table<P>, task: &TaskId, row: u32) -> bool
    requires held { row < length table.now.rows }
    ensures { (result ≡ true) ↔ RowReads table.now task.now row }
{
    let held = table.row(row);
    reads_one(table, task, &held.desc) && table.last_wait(&TaskId::Of(held.name)).is_none()
}

// Whether a node's is one, and the node is wanted and not out.
fn follows<P: At + Drop>(table: &Table<P>, marks: &Marks, task: &TaskId, node: u32) -> bool
    ensures { (result ≡ true) ↔ NodeFollows table.now task.now marks.now node }
{
    match row_of(node) {
        Some(row) => { row < table.len() && marks.is_active(node) && row_reads(table, task, row) }
        None => false,
    }
}

// The lesser of a row that is held, if there is one, and this one.
fn lesser(best: Option<u32>, row: u32) -> Option<u32>
    ensures { result ≡ lesser best row }
{
    match best {
        Some(held) => Some(held.min(row)),
        None => Some(row),
    }
}

// A node is looked at.
fn look_at<P: At + Drop>(
    table: &Table<P>,
    marks: &Marks,
    task: &TaskId,
    best: Option<u32>,
    node: u32,
) -> Option<u32>
    ensures { Better table.now task.now marks.now (λ v. v ≡ node) best result }
{
    if !follows(table, marks, task, node) {
        return best;
    }
    match marks.least(node) {
        Some(row) => lesser(best, row),
        None => best,
    }
}

// The nodes that wait for a row are, if it isn't live.
fn look_waiting<P: At + Drop>(
    table: &Table<P>,
    marks: &Marks,
    task: &TaskId,
    best: Option<u32>,
    row: u32,
) -> Option<u32>
    ensures { Better table.now task.now marks.now (λ v. Waits marks.now row v) best result }
{
    if marks.is_live(row) {
        return best;
    }
    let nodes = marks.watchers(row);
    let mut all = best;
    for i in 0..nodes.len() {
        all = look_at(table, marks, task, all, nodes[i]);
    }
    all
}

// Those that wait for one of these rows are.
fn look_at_rows<P: At + Drop>(
    table: &Table<P>,
    marks: &Marks,
    task: &TaskId,
    rows: &[u32],
) -> Option<u32>
    ensures { Better table.now task.now marks.now (λ v. (r : ℕ) × In r rows.now × Waits marks.now r v) None result }
{
    let mut all = None;
    for i in 0..rows.len() {
        all = look_waiting(table, marks, task, all, rows[i]);
    }
    all
}

// The node that makes a row is, if one does.
fn look_at_maker<P: At + Drop>(
    table: &Table<P>,
    marks: &Marks,
    task: &TaskId,
    best: Option<u32>,
    row: u32,
) -> Option<u32>
    ensures { Better table.now task.now marks.now (λ v. entry marks.now.makers row ≡ Some v) best result }
{
    match marks.maker(row) {
        Some(node) => look_at(table, marks, task, best, node),
        None => best,
    }
}

// The nodes that can run are.
fn look_at_list<P: At + Drop>(
    table: &Table<P>,
    marks: &Marks,
    task: &TaskId,
    best: Option<u32>,
) -> Option<u32>
    ensures { Better table.now task.now marks.now (λ v. Runs marks.now v) best result }
{
    let list = marks.list();
    let mut all = best;
    for i in 0..list.len() {
        all = look_at_maker(table, marks, task, all, list[i]);
    }
    all
}

// Whether one of these rows is live.
fn some_live(marks: &Marks, rows: &[u32]) -> bool
    ensures { result ≡ false → (r : ℕ) → In r rows.now → flag marks.now.live r ≡ true → ⊥ }
{
    for i in 0..rows.len() {
        if marks.is_live(rows[i]) {
            return true;
        }
    }
    false
}

// The least row of those that follow a task, which this node stands for.
fn first_of<P: At + Drop>(table: &Table<P>, marks: &Marks, task: &TaskId, node: u32) -> Option<u32>
    ensures { Better table.now task.now marks.now (λ v. Near marks.now node v) None result }
{
    let rows = marks.makes(node);
    let best = look_at_rows(table, marks, task, rows);
    if some_live(marks, rows) {
        look_at_list(table, marks, task, best)
    } else {
        best
    }
}

/// The least row of the tasks that follow a task.
pub(crate) fn first_row<P: At + Drop>(
    table: &Table<P>,
    marks: &Marks,
    near: u32,
    task: &TaskId,
) -> Option<u32>
    ensures { Better table.now task.now marks.now (λ v. MayFollow table.now task.now marks.now v) None result }
{
    match node_of(table, near, task) {
        Some(node) => first_of(table, marks, task, node),
        None => None,
    }
}

// The description of the row of a task's name.
fn task_desc<P: At + Drop>(table: &Table<P>, task: &TaskId) -> Result<Option<Desc1>, Memory>
    ensures { IfOk result (λ o. o ≡ task_desc table.now task.now) }
{
    match task {
        TaskId::Of(name) => match table.find(name) {
            Some(row) => {
                let desc = table.row(row).desc.copy()?;
                Ok(Some(desc))
            }
            None => Ok(None),
        },
        TaskId::Show => Ok(None),
    }
}

/// That of the task of a row.
pub(crate) fn row_desc<P: At + Drop>(
    table: &Table<P>,
    row: Option<u32>,
) -> Result<Option<Desc1>, Memory>
    requires held { IfSome row (λ e. e < length table.now.rows) }
    ensures { IfOk result (λ o. o ≡ row_desc table.now row) }
{
    match row {
        Some(row) => {
            let desc = task_desc(table, &table.row(row).task)?;
            Ok(desc)
        }
        None => Ok(None),
    }
}
