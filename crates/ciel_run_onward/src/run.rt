//! The run of a job that goes on from where its log stands, over each kind of crew.

ghost use Rattle.std.specs.Prelude.{◌≡◌, ◌≢◌, ◌≤◌, ◌<◌, Err, None, length, map, true};
ghost use Rattle.std.specs.Arc.{arc_value};
ghost use Rattle.sky_base.specs.JobView.{job_view};
ghost use Rattle.ciel_run_job.specs.Kinds.{IsFor, IsOverLines};
ghost use Rattle.ciel_run_job.specs.Onward.{IsRead};
ghost use Rattle.ciel_journal.specs.Job.{Each};
ghost use Rattle.ciel_log_law.specs.Logging.{most};
ghost use Rattle.ciel_log_law.specs.Seen.{plan_view};
ghost use Rattle.ciel_log_law.specs.Views.{entry_view};
ghost use Rattle.ciel_log_law.specs.RunEnd.{RunEnd};
ghost use Rattle.ciel_log_law.specs.Ended.{EndsSo};
ghost use Rattle.ciel_log_law.specs.Kept.{Kept};
ghost use Rattle.ciel_log_law.specs.RunDriveTold.{ToldOn};
ghost use Rattle.ciel_log_law.specs.Working.{Working};
ghost use Rattle.ciel_log_law.specs.Told.{LogContinued};
ghost use Rattle.ciel_log_law.specs.LogState.{LogState as State};
ghost use Rattle.ciel_log_file.specs.Sending.{CanSend, nobody, sent_to};
ghost use Rattle.ciel_run_logged.specs.Keeping.{IfOver, Keeps};
ghost use Rattle.ciel_task_crew.specs.Crews.{FadesEach, Takes};
ghost use Rattle.ciel_task_crew.specs.Seen.{AllLook};
ghost use Rattle.ciel_run_onward.specs.Gates.{LeavesOpen, ToldSince};
ghost use Rattle.ciel_run_onward.specs.Onward.{Stood, WorksOn};
ghost use Rattle.ciel_task_order.specs.Shop.{InputsInOrder};

use crate::gates::send_all;
use ciel_gate::gate::Gate;
use ciel_io::keep::Keep;
use ciel_log_law::drive::drive;
use ciel_log_law::law::log_continues;
use ciel_log_law::logged::{Closed, Logged};
use ciel_log_law::master::Master;
use ciel_log_law::plan::RunPlan;
use ciel_log_law::state::LogState;
use ciel_master::stop::RunEnd;
use ciel_name::name::Namer;
use ciel_run_job::channels::Channels;
use ciel_run_job::hands::Hands;
use ciel_run_job::inline::Inline;
use ciel_run_job::opening::Opened;
use ciel_run_job::run::Ran;
use ciel_run_job::steal::Steal;
use ciel_run_job::streams::Streams;
use ciel_run_logged::run::{Begins, RanLogged, another_eye, handed_back, no_run};
use ciel_store::seats::Eye;
use ciel_task_crew::crew::Crew;
use ciel_task_order::order::Order;
use ciel_task_order::shop::Shop;
use sky_base::kit::Kit;
use sky_base::text::Memory;
use std::alloc::Global;
use std::snapshot::Snapshot;
use std::sync::{Arc, Wait};
use std::thread::Threads;

/// Where a run goes on: the orders that are out, the end, where the log has one, the state of the generator of draws, and the log that is kept.
#[derive(Drop)]
pub struct Onward {
    pub out: Vec<Order>,
    pub end: Option<RunEnd>,
    pub draws: u64,
    pub log: Begins,
}

/// Goes on with the run on these hands with these gates, which are those of its workers, and gives them back.
///
/// There are 1 to 64 workers, and at most 64 threads are shared. The end is `Memory` for want of memory. The gates may then have entered tasks.
pub fn run_onward<K, N, G, D, R>(
    rt: R,
    alloc: Global,
    hands: Hands,
    opened: Opened<K, N>,
    gates: Vec<G>,
    plan: Snapshot<RunPlan>,
    keep: &mut D,
    onward: Onward,
) -> (RanLogged, Vec<G>)
where
    K: Kit + Send + Sync + Drop + 'static,
    N: Namer + Send + Sync + Drop + 'static,
    G: Gate + Send + 'static,
    D: Keep,
    R: Threads + Wait + Copy + Send + Drop + 'static,
    requires read { IsRead (job_view (arc_value opened.shop).job).script }
    requires inputs { InputsInOrder (job_view (arc_value opened.shop).job) }
    requires wide { (0 < plan.value.workers) × (plan.value.workers ≤ 64) }
    requires of { AllLook (arc_value opened.shop) opened.eyes.items }
    requires many { length opened.eyes.items ≡ plan.value.workers }
    requires gates { length gates.items ≡ plan.value.workers }
    requires plan { opened.master.board.plan ≡ plan_view plan.value }
    requires hands { IsFor (K.gives (arc_value opened.shop).kit) hands }
    requires held { onward.log.held ≤ most }
    requires takes { Each (Takes K.gives N.digest (arc_value opened.shop)) onward.out.items }
    requires sends { CanSend (nobody plan.value.workers) onward.out.items }
    requires left { LeavesOpen opened.master.board.journal onward.out.items }
    requires works { WorksOn K.gives N.digest (arc_value opened.shop) opened.master (sent_to (nobody plan.value.workers) onward.out.items) onward.end }
    ensures end { Stood K.gives N.digest (arc_value opened.shop) opened.master (sent_to (nobody plan.value.workers) onward.out.items) onward.end onward.draws
        → EndsSo (N.digest (arc_value opened.shop).namer) (job_view (arc_value opened.shop).job) (K.gives (arc_value opened.shop).kit)
        (plan_view plan.value) (map entry_view result.0.ran.journal.items) result.0.ran.end }
    ensures told { result.0.ran.end ≢ RunEnd.Memory → ToldSince opened.master.board.journal (map entry_view result.0.ran.journal.items)
        (map G.entered gates.items) (map G.entered result.1.items) }
    ensures keeps { result.0.ran.end ≢ RunEnd.Memory → Keeps onward.log.path onward.log.held
        (record { files = D.files keep.old; asked = D.asked keep.old; faults = D.faults keep.old })
        (record { files = D.files keep.new; asked = D.asked keep.new; faults = D.faults keep.new }) result.0.state }
    ensures written { Stood K.gives N.digest (arc_value opened.shop) opened.master (sent_to (nobody plan.value.workers) onward.out.items) onward.end
        onward.draws → IfOver result.0.ran.end (LogContinued (N.digest (arc_value opened.shop).namer) (job_view (arc_value opened.shop).job)
        (K.gives (arc_value opened.shop).kit) (plan_view plan.value) onward.log.path onward.log.held (D.files keep.old) (D.files keep.new)
        opened.master.board.journal (map entry_view result.0.ran.journal.items) result.0.state) }
{
    match hands {
        Hands::Caller => {
            let back = in_this_thread(rt, alloc, opened, gates, plan, keep, onward);
            back
        }
        Hands::Own => {
            let back = on_threads(rt, alloc, opened, gates, plan, keep, onward);
            back
        }
        Hands::Streamed => {
            let back = on_streams(rt, alloc, opened, gates, plan, keep, onward);
            back
        }
        Hands::Shared(threads) => {
            let back = on_shared(rt, alloc, threads, opened, gates, plan, keep, onward);
            back
        }
    }
}

/// Runs on over a crew of threads with these gates, and hands them back.
fn on_threads<K, N, G, D, R>(
    rt: R,
    alloc: Global,
    opened: Opened<K, N>,
    gates: Vec<G>,
    plan: Snapshot<RunPlan>,
    keep: &mut D,
    onward: Onward,
) -> (RanLogged, Vec<G>)
where
    K: Kit + Send + Sync + Drop + 'static,
    N: Namer + Send + Sync + Drop + 'static,
    G: Gate + Send + 'static,
    D: Keep,
    R: Threads + Wait + Copy + Send + Drop + 'static,
    requires read { IsRead (job_view (arc_value opened.shop).job).script }
    requires inputs { InputsInOrder (job_view (arc_value opened.shop).job) }
    requires wide { (0 < plan.value.workers) × (plan.value.workers ≤ 64) }
    requires of { AllLook (arc_value opened.shop) opened.eyes.items }
    requires many { length opened.eyes.items ≡ plan.value.workers }
    requires gates { length gates.items ≡ plan.value.workers }
    requires plan { opened.master.board.plan ≡ plan_view plan.value }
    requires held { onward.log.held ≤ most }
    requires takes { Each (Takes K.gives N.digest (arc_value opened.shop)) onward.out.items }
    requires sends { CanSend (nobody plan.value.workers) onward.out.items }
    requires left { LeavesOpen opened.master.board.journal onward.out.items }
    requires works { WorksOn K.gives N.digest (arc_value opened.shop) opened.master (sent_to (nobody plan.value.workers) onward.out.items) onward.end }
    ensures end { Stood K.gives N.digest (arc_value opened.shop) opened.master (sent_to (nobody plan.value.workers) onward.out.items) onward.end onward.draws
        → EndsSo (N.digest (arc_value opened.shop).namer) (job_view (arc_value opened.shop).job) (K.gives (arc_value opened.shop).kit)
        (plan_view plan.value) (map entry_view result.0.ran.journal.items) result.0.ran.end }
    ensures told { result.0.ran.end ≢ RunEnd.Memory → ToldSince opened.master.board.journal (map entry_view result.0.ran.journal.items)
        (map G.entered gates.items) (map G.entered result.1.items) }
    ensures keeps { result.0.ran.end ≢ RunEnd.Memory → Keeps onward.log.path onward.log.held
        (record { files = D.files keep.old; asked = D.asked keep.old; faults = D.faults keep.old })
        (record { files = D.files keep.new; asked = D.asked keep.new; faults = D.faults keep.new }) result.0.state }
    ensures written { Stood K.gives N.digest (arc_value opened.shop) opened.master (sent_to (nobody plan.value.workers) onward.out.items) onward.end
        onward.draws → IfOver result.0.ran.end (LogContinued (N.digest (arc_value opened.shop).namer) (job_view (arc_value opened.shop).job)
        (K.gives (arc_value opened.shop).kit) (plan_view plan.value) onward.log.path onward.log.held (D.files keep.old) (D.files keep.new)
        opened.master.board.journal (map entry_view result.0.ran.journal.items) result.0.state) }
{
    let Opened {
        shop,
        master,
        mut eyes,
    } = opened;
    let eye = another_eye(&shop, &mut eyes);
    let Ok(shared) = Arc::try_clone(&shop) else {
        return (no_run(alloc), gates);
    };
    match Channels::open(rt, alloc, shop, gates, eyes) {
        Ok(crew) => run_over(alloc, master, crew, shared, eye, keep, onward),
        Err((gates, Memory)) => (no_run(alloc), gates),
    }
}

/// Runs on over so many threads, which all workers share, with these gates, and hands them back.
fn on_shared<K, N, G, D, R>(
    rt: R,
    alloc: Global,
    threads: u32,
    opened: Opened<K, N>,
    gates: Vec<G>,
    plan: Snapshot<RunPlan>,
    keep: &mut D,
    onward: Onward,
) -> (RanLogged, Vec<G>)
where
    K: Kit + Send + Sync + Drop + 'static,
    N: Namer + Send + Sync + Drop + 'static,
    G: Gate + Send + 'static,
    D: Keep,
    R: Threads + Wait + Copy + Send + Drop + 'static,
    requires read { IsRead (job_view (arc_value opened.shop).job).script }
    requires inputs { InputsInOrder (job_view (arc_value opened.shop).job) }
    requires wide { (0 < plan.value.workers) × (plan.value.workers ≤ 64) }
    requires of { AllLook (arc_value opened.shop) opened.eyes.items }
    requires many { length opened.eyes.items ≡ plan.value.workers }
    requires gates { length gates.items ≡ plan.value.workers }
    requires plan { opened.master.board.plan ≡ plan_view plan.value }
    requires threads { threads ≤ 64 }
    requires held { onward.log.held ≤ most }
    requires takes { Each (Takes K.gives N.digest (arc_value opened.shop)) onward.out.items }
    requires sends { CanSend (nobody plan.value.workers) onward.out.items }
    requires left { LeavesOpen opened.master.board.journal onward.out.items }
    requires works { WorksOn K.gives N.digest (arc_value opened.shop) opened.master (sent_to (nobody plan.value.workers) onward.out.items) onward.end }
    ensures end { Stood K.gives N.digest (arc_value opened.shop) opened.master (sent_to (nobody plan.value.workers) onward.out.items) onward.end onward.draws
        → EndsSo (N.digest (arc_value opened.shop).namer) (job_view (arc_value opened.shop).job) (K.gives (arc_value opened.shop).kit)
        (plan_view plan.value) (map entry_view result.0.ran.journal.items) result.0.ran.end }
    ensures told { result.0.ran.end ≢ RunEnd.Memory → ToldSince opened.master.board.journal (map entry_view result.0.ran.journal.items)
        (map G.entered gates.items) (map G.entered result.1.items) }
    ensures keeps { result.0.ran.end ≢ RunEnd.Memory → Keeps onward.log.path onward.log.held
        (record { files = D.files keep.old; asked = D.asked keep.old; faults = D.faults keep.old })
        (record { files = D.files keep.new; asked = D.asked keep.new; faults = D.faults keep.new }) result.0.state }
    ensures written { Stood K.gives N.digest (arc_value opened.shop) opened.master (sent_to (nobody plan.value.workers) onward.out.items) onward.end
        onward.draws → IfOver result.0.ran.end (LogContinued (N.digest (arc_value opened.shop).namer) (job_view (arc_value opened.shop).job)
        (K.gives (arc_value opened.shop).kit) (plan_view plan.value) onward.log.path onward.log.held (D.files keep.old) (D.files keep.new)
        opened.master.board.journal (map entry_view result.0.ran.journal.items) result.0.state) }
{
    let Opened {
        shop,
        master,
        mut eyes,
    } = opened;
    let eye = another_eye(&shop, &mut eyes);
    let Ok(shared) = Arc::try_clone(&shop) else {
        return (no_run(alloc), gates);
    };
    match Steal::open(rt, alloc, shop, gates, eyes, threads) {
        Ok(crew) => run_over(alloc, master, crew, shared, eye, keep, onward),
        Err((gates, Memory)) => (no_run(alloc), gates),
    }
}

/// Runs on over a crew of threads that begin on what is still made, with these gates, and hands them back.
fn on_streams<K, N, G, D, R>(
    rt: R,
    alloc: Global,
    opened: Opened<K, N>,
    gates: Vec<G>,
    plan: Snapshot<RunPlan>,
    keep: &mut D,
    onward: Onward,
) -> (RanLogged, Vec<G>)
where
    K: Kit + Send + Sync + Drop + 'static,
    N: Namer + Send + Sync + Drop + 'static,
    G: Gate + Send + 'static,
    D: Keep,
    R: Threads + Wait + Copy + Send + Drop + 'static,
    requires read { IsRead (job_view (arc_value opened.shop).job).script }
    requires inputs { InputsInOrder (job_view (arc_value opened.shop).job) }
    requires wide { (0 < plan.value.workers) × (plan.value.workers ≤ 64) }
    requires of { AllLook (arc_value opened.shop) opened.eyes.items }
    requires many { length opened.eyes.items ≡ plan.value.workers }
    requires gates { length gates.items ≡ plan.value.workers }
    requires plan { opened.master.board.plan ≡ plan_view plan.value }
    requires flow { IsOverLines (K.gives (arc_value opened.shop).kit) }
    requires held { onward.log.held ≤ most }
    requires takes { Each (Takes K.gives N.digest (arc_value opened.shop)) onward.out.items }
    requires sends { CanSend (nobody plan.value.workers) onward.out.items }
    requires left { LeavesOpen opened.master.board.journal onward.out.items }
    requires works { WorksOn K.gives N.digest (arc_value opened.shop) opened.master (sent_to (nobody plan.value.workers) onward.out.items) onward.end }
    ensures end { Stood K.gives N.digest (arc_value opened.shop) opened.master (sent_to (nobody plan.value.workers) onward.out.items) onward.end onward.draws
        → EndsSo (N.digest (arc_value opened.shop).namer) (job_view (arc_value opened.shop).job) (K.gives (arc_value opened.shop).kit)
        (plan_view plan.value) (map entry_view result.0.ran.journal.items) result.0.ran.end }
    ensures told { result.0.ran.end ≢ RunEnd.Memory → ToldSince opened.master.board.journal (map entry_view result.0.ran.journal.items)
        (map G.entered gates.items) (map G.entered result.1.items) }
    ensures keeps { result.0.ran.end ≢ RunEnd.Memory → Keeps onward.log.path onward.log.held
        (record { files = D.files keep.old; asked = D.asked keep.old; faults = D.faults keep.old })
        (record { files = D.files keep.new; asked = D.asked keep.new; faults = D.faults keep.new }) result.0.state }
    ensures written { Stood K.gives N.digest (arc_value opened.shop) opened.master (sent_to (nobody plan.value.workers) onward.out.items) onward.end
        onward.draws → IfOver result.0.ran.end (LogContinued (N.digest (arc_value opened.shop).namer) (job_view (arc_value opened.shop).job)
        (K.gives (arc_value opened.shop).kit) (plan_view plan.value) onward.log.path onward.log.held (D.files keep.old) (D.files keep.new)
        opened.master.board.journal (map entry_view result.0.ran.journal.items) result.0.state) }
{
    let Opened {
        shop,
        master,
        mut eyes,
    } = opened;
    let eye = another_eye(&shop, &mut eyes);
    let Ok(shared) = Arc::try_clone(&shop) else {
        return (no_run(alloc), gates);
    };
    match Streams::open(rt, alloc, shop, gates, eyes) {
        Ok(crew) => run_over(alloc, master, crew, shared, eye, keep, onward),
        Err((gates, Memory)) => (no_run(alloc), gates),
    }
}

/// Runs on in this thread with these gates, and hands them back.
fn in_this_thread<K, N, G, D, R>(
    rt: R,
    alloc: Global,
    opened: Opened<K, N>,
    gates: Vec<G>,
    plan: Snapshot<RunPlan>,
    keep: &mut D,
    onward: Onward,
) -> (RanLogged, Vec<G>)
where
    K: Kit + Drop,
    N: Namer + Drop,
    G: Gate,
    D: Keep,
    R: Wait + Drop,
    requires read { IsRead (job_view (arc_value opened.shop).job).script }
    requires inputs { InputsInOrder (job_view (arc_value opened.shop).job) }
    requires wide { (0 < plan.value.workers) × (plan.value.workers ≤ 64) }
    requires of { AllLook (arc_value opened.shop) opened.eyes.items }
    requires many { length opened.eyes.items ≡ plan.value.workers }
    requires gates { length gates.items ≡ plan.value.workers }
    requires plan { opened.master.board.plan ≡ plan_view plan.value }
    requires held { onward.log.held ≤ most }
    requires takes { Each (Takes K.gives N.digest (arc_value opened.shop)) onward.out.items }
    requires sends { CanSend (nobody plan.value.workers) onward.out.items }
    requires left { LeavesOpen opened.master.board.journal onward.out.items }
    requires works { WorksOn K.gives N.digest (arc_value opened.shop) opened.master (sent_to (nobody plan.value.workers) onward.out.items) onward.end }
    ensures end { Stood K.gives N.digest (arc_value opened.shop) opened.master (sent_to (nobody plan.value.workers) onward.out.items) onward.end onward.draws
        → EndsSo (N.digest (arc_value opened.shop).namer) (job_view (arc_value opened.shop).job) (K.gives (arc_value opened.shop).kit)
        (plan_view plan.value) (map entry_view result.0.ran.journal.items) result.0.ran.end }
    ensures told { result.0.ran.end ≢ RunEnd.Memory → ToldSince opened.master.board.journal (map entry_view result.0.ran.journal.items)
        (map G.entered gates.items) (map G.entered result.1.items) }
    ensures keeps { result.0.ran.end ≢ RunEnd.Memory → Keeps onward.log.path onward.log.held
        (record { files = D.files keep.old; asked = D.asked keep.old; faults = D.faults keep.old })
        (record { files = D.files keep.new; asked = D.asked keep.new; faults = D.faults keep.new }) result.0.state }
    ensures written { Stood K.gives N.digest (arc_value opened.shop) opened.master (sent_to (nobody plan.value.workers) onward.out.items) onward.end
        onward.draws → IfOver result.0.ran.end (LogContinued (N.digest (arc_value opened.shop).namer) (job_view (arc_value opened.shop).job)
        (K.gives (arc_value opened.shop).kit) (plan_view plan.value) onward.log.path onward.log.held (D.files keep.old) (D.files keep.new)
        opened.master.board.journal (map entry_view result.0.ran.journal.items) result.0.state) }
{
    let Opened {
        shop,
        master,
        mut eyes,
    } = opened;
    let eye = another_eye(&shop, &mut eyes);
    let Ok(shared) = Arc::try_clone(&shop) else {
        return (no_run(alloc), gates);
    };
    match Inline::open(rt, alloc, shop, gates, eyes) {
        Ok(crew) => run_over(alloc, master, crew, shared, eye, keep, onward),
        Err((gates, Memory)) => (no_run(alloc), gates),
    }
}

/// Sends a crew the orders that are out, and drives it on, unless the log has the end; then the crew is closed.
fn run_over<K: Kit + Drop, N: Namer + Drop, C: Crew<K = K, N = N>, D: Keep>(
    alloc: Global,
    master: Master<K, N>,
    mut crew: C,
    shop: Arc<Shop<K, N>, Global>,
    eye: Eye,
    keep: &mut D,
    onward: Onward,
) -> (RanLogged, Vec<C::Gate>)
    requires sound { C.is_sound crew ≡ true }
    requires shop { C.shop crew ≡ arc_value shop }
    requires eye { eye.of ≡ (arc_value shop).shelves.of }
    requires held { onward.log.held ≤ most }
    requires takes { Each (Takes K.gives N.digest (C.shop crew)) onward.out.items }
    requires sends { CanSend (C.out crew) onward.out.items }
    requires left { LeavesOpen master.board.journal onward.out.items }
    requires works { WorksOn K.gives N.digest (C.shop crew) master (sent_to (C.out crew) onward.out.items) onward.end }
    ensures end { Stood K.gives N.digest (C.shop crew) master (sent_to (C.out crew) onward.out.items) onward.end onward.draws
        → EndsSo (N.digest (C.shop crew).namer) (job_view (C.shop crew).job) (K.gives (C.shop crew).kit) master.board.plan
        (map entry_view result.0.ran.journal.items) result.0.ran.end }
    ensures told { result.0.ran.end ≢ RunEnd.Memory → ToldSince master.board.journal (map entry_view result.0.ran.journal.items) (C.told crew)
        (map C.Gate.entered result.1.items) }
    ensures keeps { result.0.ran.end ≢ RunEnd.Memory → Keeps onward.log.path onward.log.held
        (record { files = D.files keep.old; asked = D.asked keep.old; faults = D.faults keep.old })
        (record { files = D.files keep.new; asked = D.asked keep.new; faults = D.faults keep.new }) result.0.state }
    ensures written { Stood K.gives N.digest (C.shop crew) master (sent_to (C.out crew) onward.out.items) onward.end onward.draws
        → IfOver result.0.ran.end (LogContinued (N.digest (C.shop crew).namer) (job_view (C.shop crew).job) (K.gives (C.shop crew).kit)
        master.board.plan onward.log.path onward.log.held (D.files keep.old) (D.files keep.new) master.board.journal
        (map entry_view result.0.ran.journal.items) result.0.state) }
{
    let Onward {
        out,
        end,
        draws,
        log,
    } = onward;
    match send_all(&mut crew, out) {
        Ok(()) => {}
        Err(Memory) => return over(master, crew, RunEnd::Memory),
    }
    match end {
        Some(end) => over(master, crew, end),
        None => drive_on(alloc, master, crew, draws, shop, eye, keep, log),
    }
}

/// A run that ended without being driven: its crew is closed, and its log stands as it is.
fn over<K: Kit + Drop, N: Namer + Drop, C: Crew<K = K, N = N>>(
    master: Master<K, N>,
    crew: C,
    end: RunEnd,
) -> (RanLogged, Vec<C::Gate>)
    ensures end { result.0.ran.end ≡ end }
    ensures journal { map entry_view result.0.ran.journal.items ≡ master.board.journal }
    ensures whole { result.0.state ≡ State.Whole }
    ensures told { C.is_sound crew ≡ true → FadesEach (C.told crew) (map C.Gate.entered result.1.items) }
{
    let gates = crew.close();
    let journal = master.into_journal();
    (
        RanLogged {
            ran: Ran { end, journal },
            state: LogState::Whole,
        },
        gates,
    )
}

/// Drives a crew on, with one around it that keeps the log, to the end of its run, and closes it. `draws` is the state of the generator of draws.
fn drive_on<K: Kit + Drop, N: Namer + Drop, C: Crew<K = K, N = N>, D: Keep>(
    alloc: Global,
    mut master: Master<K, N>,
    crew: C,
    draws: u64,
    shop: Arc<Shop<K, N>, Global>,
    eye: Eye,
    keep: &mut D,
    log: Begins,
) -> (RanLogged, Vec<C::Gate>)
    requires working { Working K.gives N.digest (C.shop crew) (C.is_sound crew) master (C.out crew) }
    requires shop { C.shop crew ≡ arc_value shop }
    requires eye { eye.of ≡ (arc_value shop).shelves.of }
    requires held { log.held ≤ most }
    ensures end { Kept K.gives N.digest (C.shop crew) (C.is_sound crew) master (C.out crew) draws
        → EndsSo (N.digest (C.shop crew).namer) (job_view (C.shop crew).job) (K.gives (C.shop crew).kit) master.board.plan
        (map entry_view result.0.ran.journal.items) result.0.ran.end }
    ensures told { result.0.ran.end ≢ RunEnd.Memory → ToldOn master.board.journal (map entry_view result.0.ran.journal.items) (C.told crew)
        (map C.Gate.entered result.1.items) }
    ensures keeps { result.0.ran.end ≢ RunEnd.Memory → Keeps log.path log.held
        (record { files = D.files keep.old; asked = D.asked keep.old; faults = D.faults keep.old })
        (record { files = D.files keep.new; asked = D.asked keep.new; faults = D.faults keep.new }) result.0.state }
    ensures written { Kept K.gives N.digest (C.shop crew) (C.is_sound crew) master (C.out crew) draws
        → IfOver result.0.ran.end (LogContinued (N.digest (C.shop crew).namer) (job_view (C.shop crew).job) (K.gives (C.shop crew).kit)
        master.board.plan log.path log.held (D.files keep.old) (D.files keep.new) master.board.journal
        (map entry_view result.0.ran.journal.items) result.0.state) }
{
    log_continues::<K, N, C>();
    let Begins { path, held } = log;
    let mut crew = Logged::open(alloc, crew, shop, eye, keep, path, held);
    let end = drive(&mut master, &mut crew, draws);
    let Closed {
        inner,
        keep: lent,
        state,
    } = crew.into_parts();
    let _kept = handed_back(lent);
    let gates = inner.close();
    let journal = master.into_journal();
    (
        RanLogged {
            ran: Ran { end, journal },
            state,
        },
        gates,
    )
}
