//! The seats of the workers: each has a gate, an eye, and the report that is kept of its order.

ghost use Rattle.std.specs.Prelude.{◌≡◌, ◌<◌, ℕ, None, IfOk, IsSome, MatchOption, length, slice_index_or};
ghost use Rattle.sky_base.specs.JobView.{job_view};
ghost use Rattle.ciel_task.specs.Onward.{IsRead};
ghost use Rattle.ciel_gate.specs.Entered.{IsEntered};
ghost use Rattle.ciel_task_order.specs.Shop.{InputsInOrder};
ghost use Rattle.ciel_task.specs.Crews.{Answers, Takes};

use ciel_gate::gate::Gate;
use ciel_name::name::Namer;
use ciel_store::seats::Eye;
use ciel_task::perform::perform;
use ciel_task_order::order::Order;
use ciel_task_order::report::Report;
use ciel_task_order::shop::Shop;
use sky_base::kit::Kit;
use sky_base::text::Memory;
use std::alloc::Global;
use std::snapshot::Snapshot;
use std::sync::Wait;

/// A report that wasn't handed out yet, with the order that it is of.
#[derive(Drop)]
pub(crate) struct Kept {
    pub report: Report,
    pub of: Snapshot<Order>,
}

/// The first worker of which a report is kept. It takes no memory.
pub(crate) fn first_kept(kept: &[Option<Kept>]) -> Option<usize>
    ensures { MatchOption result ((k : ℕ) → slice_index_or kept.now k None ≡ None)
        (λ i. (i < length kept.now) × IsSome (slice_index_or kept.now i None)) }
{
    for worker in 0..kept.len() {
        if kept[worker].is_some() {
            return Some(worker);
        }
    }
    None
}

/// Performs an order with its worker's gate and eye. The gate has entered the task, also where there was no memory.
///
/// Answers `Memory` for want of memory.
pub(crate) fn perform_one<K: Kit, N: Namer, G: Gate, R: Wait>(
    rt: &R,
    alloc: Global,
    shop: &Shop<K, N>,
    order: &Order,
    gate: &mut G,
    eye: &mut Eye,
) -> Result<Kept, Memory>
    requires takes { Takes K.gives N.digest shop.now order.now }
    requires inputs { InputsInOrder (job_view shop.now.job) }
    requires read { IsRead (job_view shop.now.job).script }
    requires eye { eye.old.of ≡ shop.now.shelves.of }
    ensures entered { IsEntered (G.entered gate.old) order.now.task (G.entered gate.new) }
    ensures of { eye.new.of ≡ eye.old.of }
    ensures order { IfOk result (λ x. x.of.value ≡ order.now) }
    ensures answers { IfOk result (λ x. Answers K.gives N.digest shop.now order.now x.report) }
{
    let of = Snapshot::of(order);
    let report = perform(rt, alloc, order, shop, gate, eye)?;
    Ok(Kept { report, of })
}
