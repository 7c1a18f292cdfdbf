//! The Start that comes next.

ghost use Rattle.std.specs.Prelude.{◌≡◌, ◌<◌, ◌+◌, ◌*◌, IfNone, IfOk, IfSome, OnOk, false, length, true};
ghost use Rattle.ciel_journal.specs.Entries.{Entry};
ghost use Rattle.ciel_journal.specs.Turns.{state_after};
ghost use Rattle.ciel_log_replay.specs.Between.{Between, job_of};
ghost use Rattle.ciel_log_replay.specs.Next.{CanBeNext, OnlyNext};
ghost use Rattle.ciel_log_replay.specs.Steps.{HasStarted, IsNextStart};
ghost use Rattle.ciel_master.specs.Orders.{ready_of};
ghost use Rattle.ciel_master_board.specs.Board.{idle_of, task_key};
ghost use Rattle.ciel_master_board.specs.Driving.{Picked, Quiet, RestsNow};
ghost use Rattle.ciel_master_board.specs.Moves.{order_for, started};
ghost use Rattle.ciel_master_law.specs.Ends.{worker_of};
ghost use Rattle.ciel_run_drive.specs.Kept.{Kept};
ghost use Rattle.ciel_task_order.specs.Views.{order_view, out_view};
ghost use Rattle.ciel_want_ready.specs.Seen.{CanRunMany};

use ciel_master::master::Master;
use ciel_master_safe::{orders_are_safe, turns_come_to_an_end};
use ciel_name::name::Namer;
use ciel_run_drive::draws::pick;
use ciel_run_drive::turn::start_at;
use ciel_task_order::order::Order;
use ciel_task_order::shop::Shop;
use sky_base::kit::Kit;
use sky_base::object::TaskId;
use sky_base::text::Memory;

/// Whether a Start with this number, of this task from this wait at this worker, is the one that comes next where no loss is due. If it
/// is, it is made: the order stands in the list, and the generator has made two draws more. If it isn't, and another Start comes next, that
/// one was made, and the replay is to be given up.
///
/// Where a run's history is followed: if it is, each driven journal that goes on from the one before goes on with this Start; if it isn't,
/// none does.
///
/// Answers `Memory` for want of memory.
pub fn take_start<K: Kit + Drop, N: Namer + Drop>(
    master: &mut Master<K, N>,
    shop: &Shop<K, N>,
    out: &mut [Option<Order>],
    state: &mut u64,
    number: u64,
    worker: u32,
    from: u32,
    task: &TaskId,
) -> Result<bool, Memory>
    requires between { Between K.gives N.digest shop.now master.old out.old state.old }
    requires quiet { Quiet master.old.board }
    ensures between { OnOk result (Between K.gives N.digest shop.now master.new out.new state.new) }
    ensures taken { IfOk result (λ t. t ≡ true → IsNextStart master.old.board number worker from task.now) }
    ensures refused { IfOk result (λ t. t ≡ false → IsNextStart master.old.board number worker from task.now → ⊥) }
    ensures started { IfOk result (λ t. t ≡ true → HasStarted master.old.board master.new.board out.old out.new task.now worker) }
    ensures model { OnOk result (Kept K.gives N.digest shop.now true master.old out.old state.old → Kept K.gives N.digest shop.now true master.new out.new state.new) }
    ensures must { IfOk result (λ t. t ≡ true → Kept K.gives N.digest shop.now true master.old out.old state.old
        → OnlyNext (job_of K.gives N.digest shop.now) master.old.board.plan master.old.board.journal (Entry.Start number worker (task_key task.now) from)) }
    ensures cause { IfOk result (λ t. t ≡ false → Kept K.gives N.digest shop.now true master.old out.old state.old
        → CanBeNext (job_of K.gives N.digest shop.now) master.old.board.plan master.old.board.journal (Entry.Start number worker (task_key task.now) from) → ⊥) }
{
    orders_are_safe();
    turns_come_to_an_end();
    let next = start_next(master, state)?;
    let order = match next {
        Some(order) => order,
        None => return Ok(false),
    };
    let taken = is_start(&order, number, worker, from, task);
    let at = order.worker as usize;
    out[at] = Some(order);
    Ok(taken)
}

// Makes the Start that comes next where no loss is due, if one does.
fn start_next<K: Kit + Drop, N: Namer + Drop>(
    master: &mut Master<K, N>,
    state: &mut u64,
) -> Result<Option<Order>, Memory>
    requires going { master.old.board.stopped ≡ false }
    requires quiet { Quiet master.old.board }
    requires draws { state.old ≡ state_after master.old.board.plan.seed (2 * master.old.board.starts) }
    ensures picked { IfOk result (λ r. IfSome r (λ o. Picked master.old.board o.task o.worker)) }
    ensures order { IfOk result (λ r. IfSome r (λ o. order_view o ≡ order_for worker_of master.old.board o.task o.worker)) }
    ensures started { IfOk result (λ r. IfSome r (λ o. master.new ≡ record master.old { board = started worker_of master.old.board o.task o.worker })) }
    ensures draws { IfOk result (λ r. IfSome r (λ o. state.new ≡ state_after master.old.board.plan.seed (2 * (master.old.board.starts + 1)))) }
    ensures rests { IfOk result (λ r. IfNone r (RestsNow master.old.board)) }
    ensures same { IfOk result (λ r. IfNone r (master.new ≡ master.old)) }
    ensures undrawn { IfOk result (λ r. IfNone r (state.new ≡ state.old)) }
{
    let idle = master.idle()?;
    if idle.is_empty() {
        return Ok(None);
    }
    let count = master.count()?;
    if count == 0 {
        return Ok(None);
    }
    let order = start_drawn(master, state, count, idle.as_slice())?;
    Ok(Some(order))
}

// Makes the Start that two draws choose, of those that are possible.
fn start_drawn<K: Kit + Drop, N: Namer + Drop>(
    master: &mut Master<K, N>,
    state: &mut u64,
    count: usize,
    idle: &[u32],
) -> Result<Order, Memory>
    requires going { master.old.board.stopped ≡ false }
    requires quiet { Quiet master.old.board }
    requires count { CanRunMany (ready_of master.old.board) count }
    requires some_task { 0 < count }
    requires idle { idle.now ≡ idle_of master.old.board }
    requires some_worker { 0 < length idle.now }
    requires draws { state.old ≡ state_after master.old.board.plan.seed (2 * master.old.board.starts) }
    ensures picked { IfOk result (λ o. Picked master.old.board o.task o.worker) }
    ensures order { IfOk result (λ o. order_view o ≡ order_for worker_of master.old.board o.task o.worker) }
    ensures started { IfOk result (λ o. master.new ≡ record master.old { board = started worker_of master.old.board o.task o.worker }) }
    ensures draws { OnOk result (state.new ≡ state_after master.old.board.plan.seed (2 * (master.old.board.starts + 1))) }
{
    let place = pick(state, count);
    let worker = pick(state, idle.len());
    let order = start_at(master, place, idle[worker])?;
    Ok(order)
}

// Whether it is the order of this Start.
fn is_start(order: &Order, number: u64, worker: u32, from: u32, task: &TaskId) -> bool
    ensures is { result ≡ true → out_view order.now ≡ record { number = number; worker = worker; task = task.now; from = from } }
    ensures other { result ≡ false → out_view order.now ≡ record { number = number; worker = worker; task = task.now; from = from } → ⊥ }
{
    order.number == number && order.worker == worker && order.from == from && order.task == *task
}
