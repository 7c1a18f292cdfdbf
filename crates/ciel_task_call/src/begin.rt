//! From what a task goes on: its saved stack, or its start.

ghost use Rattle.std.specs.Prelude.{◌≡◌, [], IfOk, length};
ghost use Rattle.sky_base.specs.JobView.{job_view};
ghost use Rattle.sky_state.specs.Fits.{Fits};
ghost use Rattle.sky_state.specs.StateView.{stand_of, spawned_of};
ghost use Rattle.ciel_store.specs.Seen.{IsPlaceOf};
ghost use Rattle.ciel_task_order.specs.Orders.{OrderSound};
ghost use Rattle.ciel_task_call.specs.Begins.{BegunSo, CanStartAt, HasState, IsStack, IsStartOf, ThawedSo};

use crate::start::start_call;
use ciel_name::name::Namer;
use ciel_store::loss::Loss;
use ciel_store::seats::Eye;
use ciel_store::shelves::{Place, Shelves};
use ciel_task_order::block::Block;
use ciel_task_order::order::Order;
use ciel_task_order::shop::Shop;
use sky_base::object::Desc1;
use sky_base::text::Memory;
use sky_machine_code::code::Code;
use sky_state::state::State;
use std::alloc::Global;

/// The state from which a task goes on, or the loss of the worker on whose shelf its stack lay.
#[derive(Drop)]
pub enum Begun {
    State(State),
    Lost(Loss),
}

/// The state from which the task of an order goes on, which is a call or the root task.
///
/// Answers `Memory` for want of memory. The eye is then as it was.
pub(crate) fn begin<K, N: Namer>(
    alloc: Global,
    shop: &Shop<K, N>,
    order: &Order,
    eye: &mut Eye,
) -> Result<Begun, Memory>
    requires sound { OrderSound (N.digest shop.now.namer) shop.now.shelves (job_view shop.now.job).script (length (job_view shop.now.job).inputs)
        order.now }
    requires state { HasState order.now.desc }
    requires eye { eye.old.of ≡ shop.now.shelves.of }
    ensures of { eye.new.of ≡ eye.old.of }
    ensures begun { IfOk result (BegunSo (job_view shop.now.job).script order.now eye.new) }
{
    match &order.saved {
        Some(place) => {
            let begun = thaw(alloc, &shop.shelves, place, eye)?;
            Ok(begun)
        }
        None => {
            let numbered = shop.job.numbered();
            let state = start(alloc, &numbered.code, order)?;
            Ok(Begun::State(state))
        }
    }
}

// The state whose stack lies there.
fn thaw(
    alloc: Global,
    shelves: &Shelves<Block>,
    place: &Place<Block>,
    eye: &mut Eye,
) -> Result<Begun, Memory>
    requires place { IsPlaceOf shelves.now place.now }
    requires stack { IsStack place.now.at.value }
    requires eye { eye.old.of ≡ shelves.now.of }
    ensures of { eye.new.of ≡ eye.old.of }
    ensures thawed { IfOk result (ThawedSo place.now eye.new) }
{
    match shelves.fetch(place, eye) {
        Ok(Block::Frozen(stack)) => {
            let state = stack.thaw(alloc)?;
            Ok(Begun::State(state))
        }
        Ok(Block::Object(_)) => unreachable!(),
        Err(gone) => Ok(Begun::Lost(gone.loss)),
    }
}

// The state of the task at its start.
fn start(alloc: Global, code: &Code<'_>, order: &Order) -> Result<State, Memory>
    requires start { CanStartAt code.now order.now.desc }
    ensures start { IfOk result (λ s. IsStartOf code.now order.now.main order.now.desc (stand_of s)) }
    ensures fits { IfOk result (λ s. Fits code.now (stand_of s)) }
    ensures spawned { IfOk result (λ s. spawned_of s ≡ []) }
{
    match &order.desc {
        Some(desc) => match desc {
            Desc1::Call { fun, caught, args } => {
                let state = start_call(alloc, code, fun, caught, args)?;
                Ok(state)
            }
            _ => unreachable!(),
        },
        None => Ok(State::start_show(order.main)),
    }
}
