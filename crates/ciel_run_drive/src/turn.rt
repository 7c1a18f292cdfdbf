//! The turns of a run: a loss, a start, a report, or the end.

ghost use Rattle.std.specs.Prelude.{◌≡◌, ◌≢◌, ◌<◌, ℕ, [], IfErr, IfOk, None, OnErr, OnOk, Some, false, length, slice_set, true};
ghost use Rattle.ciel_master_board.specs.Board.{idle_of};
ghost use Rattle.ciel_master_board.specs.Driving.{CanRun, Quiet, RestsNow};
ghost use Rattle.ciel_master_board.specs.Moves.{order_for, started};
ghost use Rattle.ciel_task_crew.specs.Calls.{sent};
ghost use Rattle.ciel_task_crew.specs.Crews.{Takes, TellsTask, order_at};
ghost use Rattle.ciel_master_law.specs.Ends.{worker_of};
ghost use Rattle.ciel_run_drive.specs.Ended.{Ended};
ghost use Rattle.ciel_run_drive.specs.Kept.{Kept, left};
ghost use Rattle.ciel_run_drive.specs.Moved.{Does, Ends};
ghost use Rattle.ciel_run_drive.specs.Told.{ToldOn};
ghost use Rattle.ciel_run_drive.specs.Working.{IsSentOf, Working};
ghost use Rattle.ciel_journal.specs.Job.{In};
ghost use Rattle.ciel_journal.specs.Turns.{FirstDue};
ghost use Rattle.ciel_task_order.specs.Views.{order_view};
ghost use Rattle.ciel_master.specs.Orders.{ready_of};
ghost use Rattle.ciel_want_ready.specs.Seen.{CanRunAt, CanRunMany};
ghost use Rattle.ciel_master.specs.declared.stop.RunEnd.{RunEnd as End};

use crate::draws::pick;
use ciel_master::master::Master;
use ciel_master::stop::{Now, RunEnd, Stop};
use ciel_name::name::Namer;
use ciel_task_crew::crew::Crew;
use ciel_task_crew::{orders_are_safe, rows_stay, tasks_stay, turns_come_to_an_end};
use ciel_task_order::order::Order;
use sky_base::kit::Kit;
use sky_base::object::Desc1;
use sky_base::text::Memory;

/// Carries out a loss.
fn lose_one<K: Kit + Drop, N: Namer + Drop, C: Crew<K = K, N = N>>(
    master: &mut Master<K, N>,
    crew: &C,
    state: u64,
    loss: u32,
)
    requires working { Working K.gives N.digest (C.shop crew.now) (C.is_sound crew.now) master.old (C.out crew.now) }
    requires due { (worker : ℕ) × FirstDue master.old.board.plan.losses master.old.board.closes master.old.board.table.gone loss worker }
    ensures working { Working K.gives N.digest (C.shop crew.now) (C.is_sound crew.now) master.new (C.out crew.now) }
    ensures model { Kept K.gives N.digest (C.shop crew.now) (C.is_sound crew.now) master.old (C.out crew.now) state
        → Kept K.gives N.digest (C.shop crew.now) (C.is_sound crew.now) master.new (C.out crew.now) state }
    ensures less { left master.new (C.out crew.now) < left master.old (C.out crew.now) }
    ensures plan { master.new.board.plan ≡ master.old.board.plan }
    ensures told { ToldOn master.old.board.journal master.new.board.journal (C.told crew.now) (C.told crew.now) }
    ensures does { Does K.gives N.digest (C.shop crew.now)
        (Kept K.gives N.digest (C.shop crew.now) (C.is_sound crew.now) master.old (C.out crew.now) state) C.goes
        (C.record_of crew.now) master.old.board (C.record_of crew.now) master.new.board }
{
    rows_stay();
    turns_come_to_an_end();
    tasks_stay();
    master.lose(loss);
}

/// Starts the task at a place among those that can run. After `Memory` the master is as it was.
pub fn start_at<K: Drop, N: Namer + Drop>(
    master: &mut Master<K, N>,
    place: usize,
    worker: u32,
) -> Result<Order, Memory>
    requires going { master.old.board.stopped ≡ false }
    requires within { (n : ℕ) × CanRunMany (ready_of master.old.board) n × (place < n) }
    requires idle { In worker (idle_of master.old.board) }
    ensures task { IfOk result (λ o. CanRunAt (ready_of master.old.board) place o.task) }
    ensures order { IfOk result (λ o. order_view o ≡ order_for worker_of master.old.board o.task worker) }
    ensures started { IfOk result (λ o. master.new ≡ record master.old { board = started worker_of master.old.board o.task worker }) }
    ensures kept { OnErr result (master.new ≡ master.old) }
{
    let task = master.nth(place)?;
    let order = master.start(&task, worker)?;
    Ok(order)
}

/// Tells the crew which task follows that of an order that is out, if one does.
fn hint_at<K: Kit + Drop, N: Namer + Drop, C: Crew<K = K, N = N>>(
    master: &mut Master<K, N>,
    crew: &mut C,
    order: &Order,
) -> Result<(), Memory>
    requires going { master.old.board.stopped ≡ false }
    requires sound { C.is_sound crew.old ≡ true }
    requires out { IsSentOf N.digest (C.shop crew.old) master.old.board order.now }
    ensures master { master.new ≡ master.old }
    ensures shop { C.shop crew.new ≡ C.shop crew.old }
    ensures sound { OnOk result (C.is_sound crew.new ≡ true) }
    ensures out { C.out crew.new ≡ C.out crew.old }
    ensures told { C.told crew.new ≡ C.told crew.old }
    ensures stays { C.stays crew.new ≡ C.stays crew.old }
    ensures recorded { C.record_of crew.new ≡ C.record_of crew.old }
{
    match master.follower(order)? {
        Some(consumer) => crew.hint(order, &consumer),
        None => Ok(()),
    }
}

/// Sends the order of a start, with a hint before where it is an executor's and a task follows.
fn send_order<K: Kit + Drop, N: Namer + Drop, C: Crew<K = K, N = N>>(
    master: &mut Master<K, N>,
    crew: &mut C,
    order: Order,
) -> Result<(), Memory>
    requires going { master.old.board.stopped ≡ false }
    requires out { IsSentOf N.digest (C.shop crew.old) master.old.board order }
    requires sound { C.is_sound crew.old ≡ true }
    requires worker { order.worker < length (C.out crew.old) }
    requires free { order_at (C.out crew.old) order.worker ≡ None }
    requires takes { Takes K.gives N.digest (C.shop crew.old) order }
    ensures master { master.new ≡ master.old }
    ensures shop { C.shop crew.new ≡ C.shop crew.old }
    ensures sound { OnOk result (C.is_sound crew.new ≡ true) }
    ensures out { OnOk result (C.out crew.new ≡ slice_set (C.out crew.old) order.worker (Some order)) }
    ensures told { OnOk result (TellsTask order (C.told crew.old) (C.told crew.new)) }
    ensures stays { C.stays crew.new ≡ C.stays crew.old }
    ensures goes { OnOk result (C.goes (C.record_of crew.old) (sent order) (C.record_of crew.new)) }
{
    if let Some(Desc1::Exec { .. }) = &order.desc {
        hint_at(master, crew, &order)?;
    }
    crew.send(order)?;
    Ok(())
}

/// Starts the task that one draw picks at the worker that the next picks, and sends its order.
fn start_one<K: Kit + Drop, N: Namer + Drop, C: Crew<K = K, N = N>>(
    master: &mut Master<K, N>,
    crew: &mut C,
    state: &mut u64,
    count: usize,
    idle: &[u32],
) -> Result<(), RunEnd>
    requires working { Working K.gives N.digest (C.shop crew.old) (C.is_sound crew.old) master.old (C.out crew.old) }
    requires quiet { Quiet master.old.board }
    requires count { CanRunMany (ready_of master.old.board) count }
    requires some_task { 0 < count }
    requires idle { idle.now ≡ idle_of master.old.board }
    requires some_worker { 0 < length idle.now }
    ensures working { OnOk result (Working K.gives N.digest (C.shop crew.new) (C.is_sound crew.new) master.new (C.out crew.new)) }
    ensures model { OnOk result (Kept K.gives N.digest (C.shop crew.old) (C.is_sound crew.old) master.old (C.out crew.old) state.old
        → Kept K.gives N.digest (C.shop crew.new) (C.is_sound crew.new) master.new (C.out crew.new) state.new) }
    ensures less { OnOk result (left master.new (C.out crew.new) < left master.old (C.out crew.old)) }
    ensures plan { OnOk result (master.new.board.plan ≡ master.old.board.plan) }
    ensures told { OnOk result (ToldOn master.old.board.journal master.new.board.journal (C.told crew.old) (C.told crew.new)) }
    ensures does { OnOk result (Does K.gives N.digest (C.shop crew.old)
        (Kept K.gives N.digest (C.shop crew.old) (C.is_sound crew.old) master.old (C.out crew.old) state.old) C.goes
        (C.record_of crew.old) master.old.board (C.record_of crew.new) master.new.board) }
    ensures shop { C.shop crew.new ≡ C.shop crew.old }
    ensures stays { C.stays crew.new ≡ C.stays crew.old }
    ensures memory { IfErr result (λ e. e ≡ End.Memory) }
    ensures end { IfErr result (λ e. Kept K.gives N.digest (C.shop crew.old) (C.is_sound crew.old) master.old (C.out crew.old) state.old
        → Ended K.gives N.digest (C.shop crew.old) master.old.board.plan master.new.board.journal e) }
{
    orders_are_safe();
    turns_come_to_an_end();
    let place = pick(state, count);
    let worker = pick(state, idle.len());
    let order = match start_at(master, place, idle[worker]) {
        Ok(order) => order,
        Err(_) => return Err(RunEnd::Memory),
    };
    match send_order(master, crew, order) {
        Ok(()) => Ok(()),
        Err(_) => Err(RunEnd::Memory),
    }
}

/// Takes one report. One whose order isn't out any more is thrown away.
fn take_one<K: Kit + Drop, N: Namer + Drop, C: Crew<K = K, N = N>>(
    master: &mut Master<K, N>,
    crew: &mut C,
    state: u64,
) -> Result<(), RunEnd>
    requires working { Working K.gives N.digest (C.shop crew.old) (C.is_sound crew.old) master.old (C.out crew.old) }
    requires rests { RestsNow master.old.board }
    requires some_out { 0 < length master.old.board.orders }
    ensures working { OnOk result (Working K.gives N.digest (C.shop crew.new) (C.is_sound crew.new) master.new (C.out crew.new)) }
    ensures model { OnOk result (Kept K.gives N.digest (C.shop crew.old) (C.is_sound crew.old) master.old (C.out crew.old) state
        → Kept K.gives N.digest (C.shop crew.new) (C.is_sound crew.new) master.new (C.out crew.new) state) }
    ensures less { OnOk result (left master.new (C.out crew.new) < left master.old (C.out crew.old)) }
    ensures plan { OnOk result (master.new.board.plan ≡ master.old.board.plan) }
    ensures told { OnOk result (ToldOn master.old.board.journal master.new.board.journal (C.told crew.old) (C.told crew.new)) }
    ensures does { OnOk result (Does K.gives N.digest (C.shop crew.old)
        (Kept K.gives N.digest (C.shop crew.old) (C.is_sound crew.old) master.old (C.out crew.old) state) C.goes
        (C.record_of crew.old) master.old.board (C.record_of crew.new) master.new.board) }
    ensures shop { C.shop crew.new ≡ C.shop crew.old }
    ensures stays { C.stays crew.new ≡ C.stays crew.old }
    ensures end { IfErr result (λ e. Kept K.gives N.digest (C.shop crew.old) (C.is_sound crew.old) master.old (C.out crew.old) state
        → Ended K.gives N.digest (C.shop crew.old) master.old.board.plan master.new.board.journal e) }
    ensures sound { IfErr result (λ e. e ≢ End.Memory → C.is_sound crew.new ≡ true) }
    ensures last { IfErr result (λ e. e ≢ End.Memory → ToldOn master.old.board.journal master.new.board.journal (C.told crew.old) (C.told crew.new)) }
    ensures ends { IfErr result (λ e. Ends K.gives N.digest (C.shop crew.old)
        (Kept K.gives N.digest (C.shop crew.old) (C.is_sound crew.old) master.old (C.out crew.old) state) C.goes
        (C.record_of crew.old) master.old.board (C.record_of crew.new) master.new.board.journal e) }
{
    rows_stay();
    turns_come_to_an_end();
    tasks_stay();
    let report = match crew.next() {
        Ok(report) => report,
        Err(_) => return Err(RunEnd::Memory),
    };
    if !master.is_out(report.number) {
        return Ok(());
    }
    match master.accept(report) {
        Ok(Now::Goes) => Ok(()),
        Ok(Now::Answer(text)) => Err(RunEnd::Answer(text)),
        Ok(Now::Fault(fault)) => Err(RunEnd::Fault(fault)),
        Err(Stop::NameClash { kept, given }) => Err(RunEnd::NameClash { kept, given }),
        Err(Stop::TooMany { held, given }) => Err(RunEnd::TooMany { held, given }),
        Err(Stop::Memory) => Err(RunEnd::Memory),
    }
}

/// The end where nothing is out and nothing can run.
fn come_round<K: Kit + Drop, N: Namer + Drop, C: Crew<K = K, N = N>>(
    master: &Master<K, N>,
    crew: &C,
    state: u64,
) -> RunEnd
    requires working { Working K.gives N.digest (C.shop crew.now) (C.is_sound crew.now) master.now (C.out crew.now) }
    requires none_out { master.now.board.orders ≡ [] }
    requires none_runs { CanRun master.now.board [] }
    ensures end { Kept K.gives N.digest (C.shop crew.now) (C.is_sound crew.now) master.now (C.out crew.now) state
        → Ended K.gives N.digest (C.shop crew.now) master.now.board.plan master.now.board.journal result }
    ensures ends { Ends K.gives N.digest (C.shop crew.now)
        (Kept K.gives N.digest (C.shop crew.now) (C.is_sound crew.now) master.now (C.out crew.now) state) C.goes
        (C.record_of crew.now) master.now.board (C.record_of crew.now) master.now.board.journal result }
{
    match master.circle() {
        Ok(Some(names)) => RunEnd::Endless(names),
        Ok(None) => unreachable!(),
        Err(_) => RunEnd::Memory,
    }
}

/// One turn.
pub(crate) fn turn<K: Kit + Drop, N: Namer + Drop, C: Crew<K = K, N = N>>(
    master: &mut Master<K, N>,
    crew: &mut C,
    state: &mut u64,
) -> Result<(), RunEnd>
    requires working { Working K.gives N.digest (C.shop crew.old) (C.is_sound crew.old) master.old (C.out crew.old) }
    ensures working { OnOk result (Working K.gives N.digest (C.shop crew.new) (C.is_sound crew.new) master.new (C.out crew.new)) }
    ensures model { OnOk result (Kept K.gives N.digest (C.shop crew.old) (C.is_sound crew.old) master.old (C.out crew.old) state.old
        → Kept K.gives N.digest (C.shop crew.new) (C.is_sound crew.new) master.new (C.out crew.new) state.new) }
    ensures less { OnOk result (left master.new (C.out crew.new) < left master.old (C.out crew.old)) }
    ensures plan { OnOk result (master.new.board.plan ≡ master.old.board.plan) }
    ensures told { OnOk result (ToldOn master.old.board.journal master.new.board.journal (C.told crew.old) (C.told crew.new)) }
    ensures does { OnOk result (Does K.gives N.digest (C.shop crew.old)
        (Kept K.gives N.digest (C.shop crew.old) (C.is_sound crew.old) master.old (C.out crew.old) state.old) C.goes
        (C.record_of crew.old) master.old.board (C.record_of crew.new) master.new.board) }
    ensures shop { C.shop crew.new ≡ C.shop crew.old }
    ensures stays { C.stays crew.new ≡ C.stays crew.old }
    ensures end { IfErr result (λ e. Kept K.gives N.digest (C.shop crew.old) (C.is_sound crew.old) master.old (C.out crew.old) state.old
        → Ended K.gives N.digest (C.shop crew.old) master.old.board.plan master.new.board.journal e) }
    ensures sound { IfErr result (λ e. e ≢ End.Memory → C.is_sound crew.new ≡ true) }
    ensures last { IfErr result (λ e. e ≢ End.Memory → ToldOn master.old.board.journal master.new.board.journal (C.told crew.old) (C.told crew.new)) }
    ensures ends { IfErr result (λ e. Ends K.gives N.digest (C.shop crew.old)
        (Kept K.gives N.digest (C.shop crew.old) (C.is_sound crew.old) master.old (C.out crew.old) state.old) C.goes
        (C.record_of crew.old) master.old.board (C.record_of crew.new) master.new.board.journal e) }
{
    if let Some(loss) = master.due() {
        lose_one(master, crew, *state, loss);
        return Ok(());
    }
    if master.all_lost() {
        return Err(RunEnd::AllLost);
    }
    let idle = match master.idle() {
        Ok(idle) => idle,
        Err(_) => return Err(RunEnd::Memory),
    };
    if idle.is_empty() {
        return take_one(master, crew, *state);
    }
    let count = match master.count() {
        Ok(count) => count,
        Err(_) => return Err(RunEnd::Memory),
    };
    if count > 0 {
        return start_one(master, crew, state, count, idle.as_slice());
    }
    if master.is_at_rest() {
        return Err(come_round(master, crew, *state));
    }
    take_one(master, crew, *state)
}
