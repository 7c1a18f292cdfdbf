//! The performance of an order.

ghost use Rattle.std.specs.Prelude.{◌≡◌, IfOk, length};
ghost use Rattle.sky_base.specs.JobView.{job_view};
ghost use Rattle.ciel_task_call.specs.Onward.{IsRead};
ghost use Rattle.ciel_gate.specs.Entered.{IsEntered};
ghost use Rattle.ciel_task_crew.specs.Performs.{PerformsSafely};
ghost use Rattle.ciel_task_exec.specs.Orders.{OrderSound};
ghost use Rattle.ciel_task_exec.specs.Performs.{Performs};
ghost use Rattle.ciel_task_exec.specs.Places.{PlacesSound};
ghost use Rattle.ciel_task_exec.specs.Shop.{InputsInOrder};
ghost use Rattle.ciel_task.specs.Told.{Tells};

use ciel_gate::gate::Gate;
use ciel_name::name::Namer;
use ciel_store::seats::Eye;
use ciel_task_call::task::run_task;
use ciel_task_exec::order::run_order;
use ciel_task_exec::report::Report;
use ciel_task_exec::shop::Shop;
use ciel_task_exec::task_order_order::Order;
use sky_base::kit::Kit;
use sky_base::object::Desc1;
use sky_base::text::Memory;
use std::alloc::Global;
use std::sync::Wait;

/// Performs an order at its worker. The gate is entered with the task first, and left last, also where there is no memory.
///
/// A call or the root task goes on from its saved stack or from its start, through every wait whose objects the order brings along, up
/// to its end or to the first other wait, where it is frozen. An executor's task is run once on its inputs.
///
/// Answers `Memory` for want of memory. The eye is then as it was. What was copied or made may lie on the worker's shelf, where no report
/// names it.
pub fn perform<K: Kit, N: Namer, G: Gate, R: Wait>(
    rt: &R,
    alloc: Global,
    order: &Order,
    shop: &Shop<K, N>,
    gate: &mut G,
    eye: &mut Eye,
) -> Result<Report, Memory>
    requires sound { OrderSound (N.digest shop.now.namer) shop.now.shelves (job_view shop.now.job).script (length (job_view shop.now.job).inputs)
        order.now }
    requires inputs { InputsInOrder (job_view shop.now.job) }
    requires read { IsRead (job_view shop.now.job).script }
    requires eye { eye.old.of ≡ shop.now.shelves.of }
    ensures entered { IsEntered (G.entered gate.old) order.now.task (G.entered gate.new) }
    ensures of { eye.new.of ≡ eye.old.of }
    ensures performs { IfOk result (Performs (N.digest shop.now.namer) (job_view shop.now.job) (K.gives shop.now.kit) order.now) }
    ensures places { IfOk result (PlacesSound shop.now.shelves order.now.worker (job_view shop.now.job).script) }
    ensures safely { IfOk result (PerformsSafely (N.digest shop.now.namer) shop.now.shelves (job_view shop.now.job).script order.now) }
    ensures tells { IfOk result (Tells (N.digest shop.now.namer) shop.now.shelves (job_view shop.now.job).script (job_view shop.now.job).inputs
        order.now eye.new) }
{
    gate.enter(&order.task);
    let report = run(rt, alloc, order, shop, eye);
    gate.leave(&order.task);
    report
}

// By the kind of its task.
fn run<K: Kit, N: Namer, R: Wait>(
    rt: &R,
    alloc: Global,
    order: &Order,
    shop: &Shop<K, N>,
    eye: &mut Eye,
) -> Result<Report, Memory>
    requires sound { OrderSound (N.digest shop.now.namer) shop.now.shelves (job_view shop.now.job).script (length (job_view shop.now.job).inputs)
        order.now }
    requires inputs { InputsInOrder (job_view shop.now.job) }
    requires read { IsRead (job_view shop.now.job).script }
    requires eye { eye.old.of ≡ shop.now.shelves.of }
    ensures of { eye.new.of ≡ eye.old.of }
    ensures performs { IfOk result (Performs (N.digest shop.now.namer) (job_view shop.now.job) (K.gives shop.now.kit) order.now) }
    ensures places { IfOk result (PlacesSound shop.now.shelves order.now.worker (job_view shop.now.job).script) }
    ensures safely { IfOk result (PerformsSafely (N.digest shop.now.namer) shop.now.shelves (job_view shop.now.job).script order.now) }
    ensures tells { IfOk result (Tells (N.digest shop.now.namer) shop.now.shelves (job_view shop.now.job).script (job_view shop.now.job).inputs
        order.now eye.new) }
{
    match &order.desc {
        Some(
            Desc1::Exec {
                executor,
                args,
                outputs,
                ..
            },
        ) => {
            let report = run_order(rt, alloc, shop, order, executor, args, *outputs, eye)?;
            Ok(report)
        }
        _ => {
            let report = run_task(rt, alloc, shop, order, eye)?;
            Ok(report)
        }
    }
}
