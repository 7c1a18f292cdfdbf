//! What is wanted, what can run, and circles.

ghost use Rattle.std.specs.Prelude.{◌≡◌, [], IfNone, IfOk, IfSome};
ghost use Rattle.std.specs.List.{IsDistinct};
ghost use Rattle.sky_base.specs.Val.{same_text};
ghost use Rattle.sky_base.specs.declared.object.TaskId.{TaskId};
ghost use Rattle.ciel_journal.specs.Graph.{Circle, Led, Picks, Runnable};
ghost use Rattle.ciel_want.specs.Waited.{Whole, graph, tasks_in_order};

use crate::flags::Out;
use crate::follow::follow;
use crate::order::in_order;
use crate::search::reached;
use ciel_table::table::Table;
use sky_base::at::At;
use sky_base::name::Name;
use sky_base::names::Names;
use sky_base::object::TaskId;
use sky_base::text::Memory;
use std::alloc::Global;

/// The wanted tasks: those that are reached backward from the root task through what each waits for and isn't live. They
/// stand in the order of their least rows, the root task last.
///
/// Answers `Memory` for want of memory.
pub fn wanted<P: At + Drop>(
    alloc: Global,
    table: &Table<P>,
    main: &Name,
) -> Result<Vec<TaskId>, Memory>
    requires whole { Whole main.now table.now }
    ensures wanted { IfOk result (λ ts. Picks (Led (graph main.now table.now [])) (tasks_in_order table.now) ts.items) }
{
    let out = Out::of(alloc, table, &[])?;
    let found = reached(alloc, table, main, &out)?;
    let tasks = in_order(alloc, table, found.reached, true)?;
    Ok(tasks)
}

/// The tasks that can run: reached, where a task that is out isn't searched through; not out; and all that they wait for is
/// live. They stand in the same order.
///
/// Answers `Memory` for want of memory.
pub fn runnable<P: At + Drop>(
    alloc: Global,
    table: &Table<P>,
    main: &Name,
    out: &[TaskId],
) -> Result<Vec<TaskId>, Memory>
    requires whole { Whole main.now table.now }
    ensures runnable { IfOk result (λ ts. Picks (Runnable (graph main.now table.now out.now)) (tasks_in_order table.now) ts.items) }
{
    let out = Out::of(alloc, table, out)?;
    let found = reached(alloc, table, main, &out)?;
    let tasks = in_order(alloc, table, found.ready, found.root)?;
    Ok(tasks)
}

/// A circle of waits, where nothing is out: distinct names that aren't live, the task of each of which is wanted and waits
/// for the next one, and the last one's for the first. `None` exactly where a wanted task can run: elsewhere there is a
/// circle.
///
/// Answers `Memory` for want of memory.
pub fn circle<P: At + Drop>(
    alloc: Global,
    table: &Table<P>,
    main: &Name,
) -> Result<Option<Names>, Memory>
    requires whole { Whole main.now table.now }
    ensures circle { IfOk result (λ o. IfSome o (λ ns. Circle (graph main.now table.now []) ns)) }
    ensures distinct { IfOk result (λ o. IfSome o (λ ns. IsDistinct same_text ns)) }
    ensures stuck { IfOk result (λ o. IfSome o (λ _. (task : TaskId) → Runnable (graph main.now table.now []) task → ⊥)) }
    ensures none { IfOk result (λ o. IfNone o ((task : TaskId) × Runnable (graph main.now table.now []) task)) }
{
    let ready = runnable(alloc, table, main, &[])?;
    if ready.is_empty() {
        let names = follow(alloc, table, main)?;
        return Ok(names);
    }
    Ok(None)
}
