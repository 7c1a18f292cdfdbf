//! The marks of a table, from nothing.

ghost use Rattle.std.specs.Prelude.{◌≡◌, ◌<◌, ◌^◌, ◌∷◌, ◌++◌, [], IfOk, OnOk, length};
ghost use Rattle.ciel_want_ready.specs.Fits.{FitsOut, lives, makers, outs};
ghost use Rattle.ciel_want.specs.Waited.{Whole, is_in, same_id};

use crate::nodes::node_of;
use crate::search::search;
use ciel_table::table::Table;
use ciel_want_marks::marks::Marks;
use sky_base::at::At;
use sky_base::name::Name;
use sky_base::object::TaskId;
use sky_base::text::Memory;
use std::alloc::Global;

fn push<T: Drop>(items: &mut Vec<T>, item: T) -> Result<(), Memory>
    ensures { OnOk result (items.new.items ≡ items.old.items ++ item ∷ []) }
{
    match items.push(item) {
        Ok(()) => Ok(()),
        Err(_) => Err(Memory),
    }
}

/// Which rows are live.
fn lives<P: At + Drop>(alloc: Global, table: &Table<P>) -> Result<Vec<bool>, Memory>
    ensures lives { IfOk result (λ fs. fs.items ≡ lives table.now) }
    ensures few { IfOk result (λ fs. length fs.items < 2 ^ 32) }
{
    let mut flags = Vec::new(alloc);
    for row in 0..table.len() {
        push(&mut flags, table.row(row).is_live())?;
    }
    Ok(flags)
}

/// The node that makes each row.
fn makers<P: At + Drop>(alloc: Global, table: &Table<P>) -> Result<Vec<Option<u32>>, Memory>
    ensures { IfOk result (λ ns. ns.items ≡ makers table.now) }
{
    let mut nodes = Vec::new(alloc);
    for row in 0..table.len() {
        let node = node_of(table, row, &table.row(row).task);
        push(&mut nodes, node)?;
    }
    Ok(nodes)
}

/// Whether two tasks are one.
pub(crate) fn is_same(a: &TaskId, b: &TaskId) -> bool
    ensures { result ≡ same_id a.now b.now }
{
    match (a, b) {
        (TaskId::Show, TaskId::Show) => true,
        (TaskId::Of(n), TaskId::Of(m)) => *n == *m,
        _ => false,
    }
}

/// Whether a task is one of these.
pub(crate) fn has(tasks: &[TaskId], task: &TaskId) -> bool
    ensures { result ≡ is_in tasks.now task.now }
{
    for i in 0..tasks.len() {
        if is_same(task, &tasks[i]) {
            return true;
        }
    }
    false
}

/// Which nodes' tasks are among these.
fn outs<P: At + Drop>(
    alloc: Global,
    table: &Table<P>,
    tasks: &[TaskId],
) -> Result<Vec<bool>, Memory>
    ensures { IfOk result (λ fs. fs.items ≡ outs table.now tasks.now) }
{
    let mut flags = Vec::new(alloc);
    push(&mut flags, has(tasks, &TaskId::Show))?;
    for row in 0..table.len() {
        let task = TaskId::Of(table.row(row).name);
        push(&mut flags, has(tasks, &task))?;
    }
    Ok(flags)
}

/// The marks of a table where these tasks are out.
pub(crate) fn anew<P: At + Drop>(
    alloc: Global,
    table: &Table<P>,
    main: &Name,
    tasks: &[TaskId],
) -> Result<Marks, Memory>
    requires whole { Whole main.now table.now }
    ensures { IfOk result (λ m. FitsOut main.now table.now tasks.now m) }
{
    let live = lives(alloc, table)?;
    let makers = makers(alloc, table)?;
    let out = outs(alloc, table, tasks)?;
    let Some(begun) = Marks::begin(alloc, live, makers, out)? else {
        unreachable!()
    };
    match search(alloc, table, main, begun)? {
        Some(marks) => Ok(marks),
        None => unreachable!(),
    }
}
