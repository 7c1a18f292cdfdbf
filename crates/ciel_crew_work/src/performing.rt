//! What a worker's thread does with an order.

ghost use Rattle.std.specs.Prelude.{◌≡◌, IfOk};
ghost use Rattle.sky_base.specs.JobView.{job_view};
ghost use Rattle.ciel_task.specs.Onward.{IsRead};
ghost use Rattle.ciel_gate.specs.Entered.{IsEntered};
ghost use Rattle.ciel_task_order.specs.Shop.{InputsInOrder};
ghost use Rattle.ciel_task.specs.Crews.{Answers, Takes};

use ciel_crew_lanes::work::Work;
use ciel_gate::gate::Gate;
use ciel_name::name::Namer;
use ciel_store::seats::Eye;
use ciel_task::perform::perform;
use ciel_task_order::order::Order;
use ciel_task_order::report::Report;
use ciel_task_order::shop::Shop;
use sky_base::kit::Kit;
use sky_base::text::Memory;
use std::alloc::Global;
use std::marker::PhantomData;
use std::sync::{Arc, Wait};

/// A worker's gate and eye.
#[derive(Drop)]
pub struct Tools<G> {
    pub gate: G,
    pub eye: Eye,
}

/// An order, with its worker's gate and eye and the shop.
#[derive(Drop)]
pub struct Job<K, N, G, R> {
    pub rt: R,
    pub alloc: Global,
    pub shop: Arc<Shop<K, N>, Global>,
    pub order: Order,
    pub tools: Tools<G>,
}

/// The report, or want of memory, with the order that it is of, the gate and the eye.
#[derive(Drop)]
pub struct Done<G> {
    pub order: Order,
    pub report: Result<Report, Memory>,
    pub tools: Tools<G>,
}

/// The work of a lane: it performs an order.
pub struct Performing<K, N, G, R> {
    of: PhantomData<(K, N, G, R)>,
}

impl<K: Kit + Drop, N: Namer + Drop, G: Gate, R: Wait + Drop> Work for Performing<K, N, G, R> {
    type In = Job<K, N, G, R>;

    type Out = Done<G>;

    ghost use Rattle.ciel_crew_work.specs.Crewed.{CanBeDone, IsDoneOf};

    ghost takes = { λ job. CanBeDone K.gives N.digest job };

    ghost fits = { λ job done. IsDoneOf K.gives N.digest G.entered job done };

    fn work(job: Job<K, N, G, R>) -> Done<G> {
        let Job {
            rt,
            alloc,
            shop,
            order,
            mut tools,
        } = job;
        let report = performed(&rt, alloc, &shop, &order, &mut tools);
        Done {
            order,
            report,
            tools,
        }
    }
}

/// Performs an order with its worker's gate and eye.
///
/// Answers `Memory` for want of memory. The gate has entered the task then too, and the eye is as it was. What was copied or made may lie
/// on the worker's shelf, where no report names it.
pub fn performed<K: Kit, N: Namer, G: Gate, R: Wait>(
    rt: &R,
    alloc: Global,
    shop: &Shop<K, N>,
    order: &Order,
    tools: &mut Tools<G>,
) -> Result<Report, Memory>
    requires takes { Takes K.gives N.digest shop.now order.now }
    requires inputs { InputsInOrder (job_view shop.now.job) }
    requires read { IsRead (job_view shop.now.job).script }
    requires eye { tools.old.eye.of ≡ shop.now.shelves.of }
    ensures entered { IsEntered (G.entered tools.old.gate) order.now.task (G.entered tools.new.gate) }
    ensures of { tools.new.eye.of ≡ tools.old.eye.of }
    ensures answers { IfOk result (Answers K.gives N.digest shop.now order.now) }
{
    let report = perform(rt, alloc, order, shop, &mut tools.gate, &mut tools.eye)?;
    Ok(report)
}
