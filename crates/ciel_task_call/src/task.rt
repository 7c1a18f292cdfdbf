//! The order of a call or of the root task.

ghost use Rattle.std.specs.Prelude.{◌≡◌, ◌<◌, [], IfOk, length};
ghost use Rattle.sky_base.specs.JobView.{job_view};
ghost use Rattle.ciel_task_call.specs.Onward.{IsRead};
ghost use Rattle.sky_state.specs.StateView.{stand_of, spawned_of};
ghost use Rattle.ciel_table.specs.Inside.{IsIndex};
ghost use Rattle.ciel_task_order.specs.Orders.{OrderSound};
ghost use Rattle.ciel_task_order.specs.Performs.{Performs};
ghost use Rattle.ciel_task_order.specs.Places.{PlacesSound};
ghost use Rattle.ciel_task_order.specs.Shop.{InputsInOrder};
ghost use Rattle.ciel_task_inputs.specs.Lies.{held_name};
ghost use Rattle.ciel_master_safe.specs.Performs.{PerformsSafely};
ghost use Rattle.ciel_task_call.specs.Begins.{BeginsAt, HasState};
ghost use Rattle.ciel_task_call.specs.Ends.{CameSo, StepOf, told_copies};
ghost use Rattle.ciel_task_call.specs.Runs.{Ran, WentThrough};

use crate::begin::{Begun, begin};
use crate::brought::{Brought, Lost};
use crate::copied::Copied;
use crate::end::{end_of, missing, stack_name};
use crate::step::Step;
use crate::through::run_through;
use ciel_name::name::Namer;
use ciel_name_law::read::read_all;
use ciel_store::seats::Eye;
use ciel_task_inputs::places::Places;
use ciel_task_order::block::Held;
use ciel_task_order::order::Order;
use ciel_task_order::report::Report;
use ciel_task_order::shop::Shop;
use sky_base::kit::Kit;
use sky_base::text::Memory;
use sky_state::state::State;
use std::alloc::Global;
use std::sync::Wait;

/// Performs an order of a call or of the root task: from its stack or its start it goes on through each wait whose objects the order
/// brings along, up to its end or the first other wait. An object, or the stack of that wait, is put on the worker's shelf and told in
/// the report.
///
/// Answers `Memory` for want of memory. The eye is then as it was. Copies, and the object of the call, may lie on the worker's shelf, where
/// no report names them.
pub fn run_task<K: Kit, N: Namer, R: Wait>(
    rt: &R,
    alloc: Global,
    shop: &Shop<K, N>,
    order: &Order,
    eye: &mut Eye,
) -> Result<Report, Memory>
    requires sound { OrderSound (N.digest shop.now.namer) shop.now.shelves (job_view shop.now.job).script (length (job_view shop.now.job).inputs)
        order.now }
    requires read { IsRead (job_view shop.now.job).script }
    requires inputs { InputsInOrder (job_view shop.now.job) }
    requires state { HasState order.now.desc }
    requires eye { eye.old.of ≡ shop.now.shelves.of }
    ensures of { eye.new.of ≡ eye.old.of }
    ensures performs { IfOk result (Performs (N.digest shop.now.namer) (job_view shop.now.job) (K.gives shop.now.kit) order.now) }
    ensures places { IfOk result (PlacesSound shop.now.shelves order.now.worker (job_view shop.now.job).script) }
    ensures safely { IfOk result (PerformsSafely (N.digest shop.now.namer) shop.now.shelves (job_view shop.now.job).script order.now) }
    ensures ran { IfOk result (Ran (N.digest shop.now.namer) shop.now.shelves (job_view shop.now.job).script (job_view shop.now.job).inputs
        order.now eye.new) }
{
    let report = run(rt, alloc, shop, order, eye)?;
    Ok(report)
}

// The run of the order, and its report.
fn run<K, N: Namer, R: Wait>(
    rt: &R,
    alloc: Global,
    shop: &Shop<K, N>,
    order: &Order,
    eye: &mut Eye,
) -> Result<Report, Memory>
    requires sound { OrderSound (N.digest shop.now.namer) shop.now.shelves (job_view shop.now.job).script (length (job_view shop.now.job).inputs)
        order.now }
    requires read { IsRead (job_view shop.now.job).script }
    requires state { HasState order.now.desc }
    requires eye { eye.old.of ≡ shop.now.shelves.of }
    ensures of { eye.new.of ≡ eye.old.of }
    ensures ran { IfOk result (Ran (N.digest shop.now.namer) shop.now.shelves (job_view shop.now.job).script (job_view shop.now.job).inputs
        order.now eye.new) }
{
    match begin(alloc, shop, order, eye)? {
        Begun::State(state) => {
            let report = go_on(rt, alloc, shop, order, state, eye)?;
            Ok(report)
        }
        Begun::Lost(loss) => {
            let name = stack_name(order);
            Ok(missing(alloc, &shop.shelves, order, name, loss, eye))
        }
    }
}

// The task goes on from this state.
fn go_on<K, N: Namer, R: Wait>(
    rt: &R,
    alloc: Global,
    shop: &Shop<K, N>,
    order: &Order,
    mut state: State,
    eye: &mut Eye,
) -> Result<Report, Memory>
    requires sound { OrderSound (N.digest shop.now.namer) shop.now.shelves (job_view shop.now.job).script (length (job_view shop.now.job).inputs)
        order.now }
    requires read { IsRead (job_view shop.now.job).script }
    requires begins { BeginsAt (job_view shop.now.job).script order.now (stand_of state) }
    requires spawned { spawned_of state ≡ [] }
    requires eye { eye.old.of ≡ shop.now.shelves.of }
    ensures of { eye.new.of ≡ eye.old.of }
    ensures ran { IfOk result (Ran (N.digest shop.now.namer) shop.now.shelves (job_view shop.now.job).script (job_view shop.now.job).inputs
        order.now eye.new) }
{
    let held = Places::new(alloc, order.inputs.as_slice());
    let mut copied = Copied::new(alloc);
    let went = through(rt, alloc, shop, order, &held, &mut state, eye, &mut copied)?;
    match went {
        Ok(step) => {
            let report = came_to(rt, alloc, shop, order, step, state, copied.items)?;
            Ok(report)
        }
        Err(lost) => Ok(missing(alloc, &shop.shelves, order, lost.name, lost.loss, eye)),
    }
}

// The task goes through its waits as far as the order brings along what it waits for. What was copied is noted.
fn through<'a, 'h, K, N: Namer, R: Wait>(
    rt: &'a R,
    alloc: Global,
    shop: &'a Shop<K, N>,
    order: &'a Order,
    held: &'a Places<'h>,
    state: &mut State,
    eye: &'a mut Eye,
    copied: &'a mut Copied,
) -> Result<Result<Step, Lost>, Memory>
    requires sound { OrderSound (N.digest shop.now.namer) shop.now.shelves (job_view shop.now.job).script (length (job_view shop.now.job).inputs)
        order.now }
    requires read { IsRead (job_view shop.now.job).script }
    requires list { held.now ≡ order.now.inputs.items }
    requires begins { BeginsAt (job_view shop.now.job).script order.now (stand_of state.old) }
    requires spawned { spawned_of state.old ≡ [] }
    requires eye { eye.old.of ≡ shop.now.shelves.of }
    requires none { copied.old.items.items ≡ [] }
    requires empty { IsIndex held_name copied.old.places [] }
    ensures of { eye.new.of ≡ eye.old.of }
    ensures went { IfOk result (λ r. WentThrough (N.digest shop.now.namer) shop.now.shelves (job_view shop.now.job).script
        (job_view shop.now.job).inputs order.now (stand_of state.old) (stand_of state.new) (spawned_of state.new) eye.new r
        copied.new.items.items) }
{
    let numbered = shop.job.numbered();
    let mut finder = Brought {
        rt,
        job: &shop.job,
        shelves: &shop.shelves,
        worker: order.worker,
        held,
        eye,
        copied,
    };
    let went = run_through(alloc, &numbered, state, &mut finder, &shop.namer)?;
    Ok(went)
}

// The report of a run that came to this step, with the state after it and what was copied.
fn came_to<K, N: Namer, R: Wait>(
    rt: &R,
    alloc: Global,
    shop: &Shop<K, N>,
    order: &Order,
    step: Step,
    mut state: State,
    copied: Vec<Held>,
) -> Result<Report, Memory>
    requires worker { order.now.worker < length shop.now.shelves.rows }
    requires step { StepOf order.now.task step }
    ensures { IfOk result (CameSo shop.now.shelves order.now step (stand_of state) (spawned_of state) copied.items) }
{
    let copied = at_end(alloc, &step, copied);
    let spawned = state.take_spawned(alloc).into_vec();
    read_all(spawned.as_slice());
    let end = end_of(
        rt,
        alloc,
        &shop.shelves,
        order.worker,
        &order.task,
        step,
        &state,
    )?;
    Ok(Report {
        number: order.number,
        worker: order.worker,
        task: order.task,
        spawned,
        copied,
        end,
    })
}

// What was copied is told at the end of a task alone.
fn at_end(alloc: Global, step: &Step, copied: Vec<Held>) -> Vec<Held>
    ensures { result.items ≡ told_copies step.now copied.items }
{
    match step {
        Step::Waits => Vec::new(alloc),
        _ => copied,
    }
}
