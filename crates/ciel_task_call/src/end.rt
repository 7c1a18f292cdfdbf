//! What a report tells of the end of a run.

ghost use Rattle.std.specs.Prelude.{◌≡◌, ◌<◌, [], ℕ, IfOk, List, length};
ghost use Rattle.sky_state.specs.Pending.{stand_wait};
ghost use Rattle.sky_state.specs.StateView.{stand_of, spawned_of};
ghost use Rattle.ciel_master_board.specs.Sound.{own_name};
ghost use Rattle.ciel_task_order.specs.Views.{P};
ghost use Rattle.ciel_task_call.specs.Ends.{EndIs, IsCall, IsMade, IsOneMade, LiesAt, SavedSo, StepOf, TellsMissing};

use crate::step::Step;
use ciel_name::name::mark;
use ciel_name::object::object_bytes;
use ciel_store::loss::Loss;
use ciel_store::seats::Eye;
use ciel_store::shelves::{Place, Shelves};
use ciel_task_order::block::Block;
use ciel_task_order::order::Order;
use ciel_task_order::report::{End, Made, Report};
use sky_base::name::Name;
use sky_base::object::{Object, TaskId};
use sky_base::text::Memory;
use sky_frozen_bytes::frozen::freeze;
use sky_state::state::State;
use std::alloc::Global;
use std::sync::Wait;

/// The end of a run that came to this step, with the state after it: an object or a stack is put on the worker's shelf.
///
/// Answers `Memory` for want of memory. An object that nothing names may then lie on the worker's shelf.
pub fn end_of<R: Wait>(
    rt: &R,
    alloc: Global,
    shelves: &Shelves<Block>,
    worker: u32,
    task: &TaskId,
    step: Step,
    state: &State,
) -> Result<End, Memory>
    requires worker { worker < length shelves.now.rows }
    requires spawned { spawned_of state.now ≡ [] }
    requires step { StepOf task.now step }
    ensures { IfOk result (EndIs shelves.now worker task.now step (stand_of state.now)) }
{
    match step {
        Step::Ended(object) => {
            let made = put_object(rt, alloc, shelves, worker, task, object)?;
            let end = one_made(alloc, made)?;
            Ok(end)
        }
        Step::Waits => {
            let end = put_stack(rt, alloc, shelves, worker, state)?;
            Ok(end)
        }
        Step::Shown(shown) => Ok(End::Shown(shown)),
    }
}

// Puts the object of a call on the worker's shelf.
fn put_object<R: Wait>(
    rt: &R,
    alloc: Global,
    shelves: &Shelves<Block>,
    worker: u32,
    task: &TaskId,
    object: Object,
) -> Result<Made, Memory>
    requires worker { worker < length shelves.now.rows }
    requires task { IsCall task.now }
    ensures { IfOk result (IsMade shelves.now worker task.now object) }
{
    let name = match task {
        TaskId::Of(name) => *name,
        TaskId::Show => unreachable!(),
    };
    let mark = mark(object_bytes(alloc, &object)?.as_slice());
    let place = put(rt, shelves, worker, Block::Object(object))?;
    Ok(Made { name, place, mark })
}

// An end with one output.
fn one_made(alloc: Global, made: Made) -> Result<End, Memory>
    ensures { IfOk result (IsOneMade made) }
{
    let mut outputs = Vec::new(alloc);
    let Ok(()) = outputs.push(made) else {
        return Err(Memory);
    };
    Ok(End::Made(outputs))
}

// Puts the stack of a task at a wait on the worker's shelf.
fn put_stack<R: Wait>(
    rt: &R,
    alloc: Global,
    shelves: &Shelves<Block>,
    worker: u32,
    state: &State,
) -> Result<End, Memory>
    requires worker { worker < length shelves.now.rows }
    requires spawned { spawned_of state.now ≡ [] }
    ensures { IfOk result (SavedSo shelves.now worker (stand_of state.now)) }
{
    let stack = freeze(alloc, state)?;
    let mark = mark(stack.bytes());
    let refs = state.pending(alloc)?;
    let holds = state.holds(alloc)?;
    let frozen = put(rt, shelves, worker, Block::Frozen(stack))?;
    Ok(End::Saved {
        frozen,
        j: wait(state),
        refs,
        holds,
        mark,
    })
}

// How many waits or waves there were.
fn wait(state: &State) -> u32
    ensures { result ≡ stand_wait (stand_of state.now) }
{
    match state {
        State::Run(run) => run.waits,
        State::Show { value: _, wave } => *wave,
    }
}

// Puts a block on the worker's shelf.
fn put<R: Wait>(
    rt: &R,
    shelves: &Shelves<Block>,
    worker: u32,
    block: Block,
) -> Result<Place<Block>, Memory>
    requires worker { worker < length shelves.now.rows }
    ensures { IfOk result (LiesAt shelves.now worker block) }
{
    match shelves.put(rt, worker, block) {
        Ok(place) => Ok(place),
        Err(_) => Err(Memory),
    }
}

/// The name that stands for the stack of an order's task where that is missing: the task's, of the root task the main call's.
pub fn stack_name(order: &Order) -> Name
    ensures { (digest : List ℕ → List ℕ) → result ≡ own_name digest (λ (p : P). p.worker) order.now.main order.now.task }
{
    match &order.task {
        TaskId::Show => order.main,
        TaskId::Of(name) => *name,
    }
}

/// The report of a run for which the object of this name, or the stack, lay at a worker that is lost.
pub fn missing(
    alloc: Global,
    shelves: &Shelves<Block>,
    order: &Order,
    name: Name,
    loss: Loss,
    eye: &mut Eye,
) -> Report
    requires { eye.old.of ≡ shelves.now.of }
    ensures report { TellsMissing order.now name loss eye.old result }
    ensures same { eye.new ≡ eye.old }
{
    let seen = Some(shelves.show(eye));
    Report {
        number: order.number,
        worker: order.worker,
        task: order.task,
        spawned: Vec::new(alloc),
        copied: Vec::new(alloc),
        end: End::Missing { name, loss, seen },
    }
}
