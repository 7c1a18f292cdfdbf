//! The run of a job with a log: the crew of a run with a crew around it that puts a record behind the log of what is sent and handed out.

ghost use Rattle.std.specs.Prelude.{◌≡◌, ◌≢◌, ◌≤◌, ◌<◌, ◌^◌, ℕ, [], drop, length, map};
ghost use Rattle.std.specs.Arc.{arc_value};
ghost use Rattle.sky_base.specs.JobView.{job_view};
ghost use Rattle.ciel_run_job.specs.Kinds.{IsFor, IsOverLines};
ghost use Rattle.ciel_run_job.specs.Onward.{IsRead};
ghost use Rattle.ciel_journal.specs.Job.{Each};
ghost use Rattle.ciel_task_crew.specs.Seen.{AllLook};
ghost use Rattle.ciel_log_law.specs.Logging.{most};
ghost use Rattle.ciel_log_law.specs.Logs.{LogWritten};
ghost use Rattle.ciel_log_law.specs.Seen.{plan_view};
ghost use Rattle.ciel_log_law.specs.Views.{entry_view};
ghost use Rattle.ciel_log_law.specs.RunEnd.{RunEnd};
ghost use Rattle.ciel_log_law.specs.Ended.{EndsSo};
ghost use Rattle.ciel_log_law.specs.Kept.{Kept};
ghost use Rattle.ciel_log_law.specs.RunDriveTold.{ToldBy};
ghost use Rattle.ciel_log_law.specs.Working.{Working};
ghost use Rattle.ciel_run_logged.specs.Keeping.{IfOver, Keeps};
ghost use Rattle.ciel_run_job.specs.Opened.{IsOpened};
ghost use Rattle.ciel_run_job.specs.Told.{told_of};
ghost use Rattle.ciel_task_order.specs.Shop.{InputsInOrder};

use ciel_gate::gate::Gate;
use ciel_io::keep::Keep;
use ciel_log_law::drive::drive;
use ciel_log_law::law::log_tells_journal;
use ciel_log_law::logged::{Closed, Logged};
use ciel_log_law::master::Master;
use ciel_log_law::plan::RunPlan;
use ciel_log_law::state::LogState;
use ciel_name::name::Namer;
use ciel_run_job::channels::Channels;
use ciel_run_job::hands::Hands;
use ciel_run_job::inline::Inline;
use ciel_run_job::opening::Opened;
use ciel_run_job::run::{Begun, Ran, begin, not_begun, put_back};
use ciel_run_job::steal::Steal;
use ciel_run_job::streams::Streams;
use ciel_store::seats::Eye;
use ciel_task_crew::crew::Crew;
use ciel_task_order::shop::Shop;
use sky_base::job::Job;
use sky_base::kit::Kit;
use sky_base::text::{Memory, Txt};
use sky_parse_law::law::functions_are_orderly;
use std::alloc::Global;
use std::snapshot::Snapshot;
use std::sync::{Arc, Wait};
use std::thread::Threads;

/// What a run with a log came to: how it ended, its journal, and how the log stands.
#[derive(Drop)]
pub struct RanLogged {
    pub ran: Ran,
    pub state: LogState,
}

/// A log that was begun: at which path, and how many bytes it has.
#[derive(Drop)]
pub struct Begins {
    pub path: Txt,
    pub held: u64,
}

/// Runs a job as `run_job` does, and puts a record behind the log of each order before it is sent, and of each report before it is handed
/// out. Where the log can't, the run goes on without it.
///
/// There are 1 to 64 workers, and at most 64 threads are shared. The end is `Memory` for want of memory. The workers' gates may then have
/// entered tasks, and the others may be gone.
pub fn run_logged<K, N, G, D, R>(
    rt: R,
    alloc: Global,
    job: Job,
    kit: K,
    namer: N,
    gates: &mut Vec<G>,
    plan: RunPlan,
    hands: Hands,
    keep: &mut D,
    log: Begins,
) -> RanLogged
where
    K: Kit + Send + Sync + Drop + 'static,
    N: Namer + Send + Sync + Drop + 'static,
    G: Gate + Send + 'static,
    D: Keep,
    R: Threads + Wait + Copy + Send + Drop + 'static,
    requires read { IsRead (job_view job).script }
    requires inputs { InputsInOrder (job_view job) }
    requires keys { length job.script.keys < 2 ^ 32 }
    requires workers { (0 < plan.workers) × (plan.workers ≤ 64) }
    requires gates { plan.workers ≤ length gates.old.items }
    requires losses { Each (λ (loss : ℕ × ℕ). loss.1 < plan.workers) plan.losses }
    requires held { log.held ≤ most }
    requires hands { IsFor (K.gives kit) hands }
    ensures end { EndsSo (N.digest namer) (job_view job) (K.gives kit) (plan_view plan) (map entry_view result.ran.journal.items) result.ran.end }
    ensures told { result.ran.end ≢ RunEnd.Memory
        → ToldBy (map entry_view result.ran.journal.items) (told_of G.entered plan.workers gates.old.items)
        (told_of G.entered plan.workers gates.new.items) }
    ensures others { result.ran.end ≢ RunEnd.Memory → drop plan.workers gates.new.items ≡ drop plan.workers gates.old.items }
    ensures all { result.ran.end ≢ RunEnd.Memory → length gates.new.items ≡ length gates.old.items }
    ensures keeps { result.ran.end ≢ RunEnd.Memory → Keeps log.path log.held
        (record { files = D.files keep.old; asked = D.asked keep.old; faults = D.faults keep.old })
        (record { files = D.files keep.new; asked = D.asked keep.new; faults = D.faults keep.new }) result.state }
    ensures written { IfOver result.ran.end (LogWritten (N.digest namer) (job_view job) (K.gives kit) (plan_view plan) log.path log.held (D.files keep.old)
        (D.files keep.new) (map entry_view result.ran.journal.items) result.state) }
{
    let Ok(begun) = begin(alloc, job, kit, namer, gates, plan) else {
        return no_run(alloc);
    };
    let Begun {
        opened,
        own,
        others,
        plan,
        seed,
    } = begun;
    let (logged, back) = on_crew(rt, alloc, hands, opened, own, plan, seed, keep, log);
    let RanLogged { ran, state } = logged;
    let (ran, all) = put_back(ran, back, others);
    *gates = all;
    RanLogged { ran, state }
}

/// A run that didn't begin, for want of memory. Nothing was put behind its log.
pub fn no_run(alloc: Global) -> RanLogged
    ensures end { result.ran.end ≡ RunEnd.Memory }
    ensures empty { result.ran.journal.items ≡ [] }
{
    RanLogged {
        ran: not_begun(alloc),
        state: LogState::Whole,
    }
}

/// Runs what was opened on these hands with these gates, and gives them back.
fn on_crew<K, N, G, D, R>(
    rt: R,
    alloc: Global,
    hands: Hands,
    opened: Opened<K, N>,
    gates: Vec<G>,
    plan: Snapshot<RunPlan>,
    seed: u64,
    keep: &mut D,
    log: Begins,
) -> (RanLogged, Vec<G>)
where
    K: Kit + Send + Sync + Drop + 'static,
    N: Namer + Send + Sync + Drop + 'static,
    G: Gate + Send + 'static,
    D: Keep,
    R: Threads + Wait + Copy + Send + Drop + 'static,
    requires opened { IsOpened N.digest plan.value (arc_value opened.shop) opened.master opened.eyes.items }
    requires read { IsRead (job_view (arc_value opened.shop).job).script }
    requires inputs { InputsInOrder (job_view (arc_value opened.shop).job) }
    requires seed { seed ≡ plan.value.seed }
    requires gates { length gates.items ≡ plan.value.workers }
    requires workers { (0 < plan.value.workers) × (plan.value.workers ≤ 64) }
    requires held { log.held ≤ most }
    requires hands { IsFor (K.gives (arc_value opened.shop).kit) hands }
    ensures end { EndsSo (N.digest (arc_value opened.shop).namer) (job_view (arc_value opened.shop).job) (K.gives (arc_value opened.shop).kit)
        (plan_view plan.value) (map entry_view result.0.ran.journal.items) result.0.ran.end }
    ensures told { result.0.ran.end ≢ RunEnd.Memory
        → ToldBy (map entry_view result.0.ran.journal.items) (map G.entered gates.items) (map G.entered result.1.items) }
    ensures all { result.0.ran.end ≢ RunEnd.Memory → length result.1.items ≡ length gates.items }
    ensures keeps { result.0.ran.end ≢ RunEnd.Memory → Keeps log.path log.held
        (record { files = D.files keep.old; asked = D.asked keep.old; faults = D.faults keep.old })
        (record { files = D.files keep.new; asked = D.asked keep.new; faults = D.faults keep.new }) result.0.state }
    ensures written { IfOver result.0.ran.end (LogWritten (N.digest (arc_value opened.shop).namer) (job_view (arc_value opened.shop).job)
        (K.gives (arc_value opened.shop).kit) (plan_view plan.value) log.path log.held (D.files keep.old) (D.files keep.new)
        (map entry_view result.0.ran.journal.items) result.0.state) }
{
    match hands {
        Hands::Caller => {
            let back = in_this_thread(rt, alloc, opened, gates, plan, seed, keep, log);
            back
        }
        Hands::Own => {
            let back = on_threads(rt, alloc, opened, gates, plan, seed, keep, log);
            back
        }
        Hands::Streamed => {
            let back = on_streams(rt, alloc, opened, gates, plan, seed, keep, log);
            back
        }
        Hands::Shared(threads) => {
            let back = on_shared(rt, alloc, threads, opened, gates, plan, seed, keep, log);
            back
        }
    }
}

/// Runs what was opened on a crew of threads with these gates, and hands them back.
fn on_threads<K, N, G, D, R>(
    rt: R,
    alloc: Global,
    opened: Opened<K, N>,
    gates: Vec<G>,
    plan: Snapshot<RunPlan>,
    seed: u64,
    keep: &mut D,
    log: Begins,
) -> (RanLogged, Vec<G>)
where
    K: Kit + Send + Sync + Drop + 'static,
    N: Namer + Send + Sync + Drop + 'static,
    G: Gate + Send + 'static,
    D: Keep,
    R: Threads + Wait + Copy + Send + Drop + 'static,
    requires opened { IsOpened N.digest plan.value (arc_value opened.shop) opened.master opened.eyes.items }
    requires read { IsRead (job_view (arc_value opened.shop).job).script }
    requires inputs { InputsInOrder (job_view (arc_value opened.shop).job) }
    requires seed { seed ≡ plan.value.seed }
    requires gates { length gates.items ≡ plan.value.workers }
    requires workers { (0 < plan.value.workers) × (plan.value.workers ≤ 64) }
    requires held { log.held ≤ most }
    ensures end { EndsSo (N.digest (arc_value opened.shop).namer) (job_view (arc_value opened.shop).job) (K.gives (arc_value opened.shop).kit)
        (plan_view plan.value) (map entry_view result.0.ran.journal.items) result.0.ran.end }
    ensures told { result.0.ran.end ≢ RunEnd.Memory
        → ToldBy (map entry_view result.0.ran.journal.items) (map G.entered gates.items) (map G.entered result.1.items) }
    ensures all { result.0.ran.end ≢ RunEnd.Memory → length result.1.items ≡ length gates.items }
    ensures keeps { result.0.ran.end ≢ RunEnd.Memory → Keeps log.path log.held
        (record { files = D.files keep.old; asked = D.asked keep.old; faults = D.faults keep.old })
        (record { files = D.files keep.new; asked = D.asked keep.new; faults = D.faults keep.new }) result.0.state }
    ensures written { IfOver result.0.ran.end (LogWritten (N.digest (arc_value opened.shop).namer) (job_view (arc_value opened.shop).job)
        (K.gives (arc_value opened.shop).kit) (plan_view plan.value) log.path log.held (D.files keep.old) (D.files keep.new)
        (map entry_view result.0.ran.journal.items) result.0.state) }
{
    functions_are_orderly();
    let Opened {
        shop,
        master,
        mut eyes,
    } = opened;
    let eye = another_eye(&shop, &mut eyes);
    let Ok(shared) = Arc::try_clone(&shop) else {
        return (no_run(alloc), gates);
    };
    match Channels::open(rt, alloc, shop, gates, eyes) {
        Ok(crew) => run_over(alloc, master, crew, seed, shared, eye, keep, log),
        Err((gates, Memory)) => (no_run(alloc), gates),
    }
}

/// Runs what was opened on so many threads, which all workers share, with these gates, and hands them back.
fn on_shared<K, N, G, D, R>(
    rt: R,
    alloc: Global,
    threads: u32,
    opened: Opened<K, N>,
    gates: Vec<G>,
    plan: Snapshot<RunPlan>,
    seed: u64,
    keep: &mut D,
    log: Begins,
) -> (RanLogged, Vec<G>)
where
    K: Kit + Send + Sync + Drop + 'static,
    N: Namer + Send + Sync + Drop + 'static,
    G: Gate + Send + 'static,
    D: Keep,
    R: Threads + Wait + Copy + Send + Drop + 'static,
    requires opened { IsOpened N.digest plan.value (arc_value opened.shop) opened.master opened.eyes.items }
    requires read { IsRead (job_view (arc_value opened.shop).job).script }
    requires inputs { InputsInOrder (job_view (arc_value opened.shop).job) }
    requires seed { seed ≡ plan.value.seed }
    requires gates { length gates.items ≡ plan.value.workers }
    requires workers { (0 < plan.value.workers) × (plan.value.workers ≤ 64) }
    requires held { log.held ≤ most }
    requires threads { threads ≤ 64 }
    ensures end { EndsSo (N.digest (arc_value opened.shop).namer) (job_view (arc_value opened.shop).job) (K.gives (arc_value opened.shop).kit)
        (plan_view plan.value) (map entry_view result.0.ran.journal.items) result.0.ran.end }
    ensures told { result.0.ran.end ≢ RunEnd.Memory
        → ToldBy (map entry_view result.0.ran.journal.items) (map G.entered gates.items) (map G.entered result.1.items) }
    ensures all { result.0.ran.end ≢ RunEnd.Memory → length result.1.items ≡ length gates.items }
    ensures keeps { result.0.ran.end ≢ RunEnd.Memory → Keeps log.path log.held
        (record { files = D.files keep.old; asked = D.asked keep.old; faults = D.faults keep.old })
        (record { files = D.files keep.new; asked = D.asked keep.new; faults = D.faults keep.new }) result.0.state }
    ensures written { IfOver result.0.ran.end (LogWritten (N.digest (arc_value opened.shop).namer) (job_view (arc_value opened.shop).job)
        (K.gives (arc_value opened.shop).kit) (plan_view plan.value) log.path log.held (D.files keep.old) (D.files keep.new)
        (map entry_view result.0.ran.journal.items) result.0.state) }
{
    functions_are_orderly();
    let Opened {
        shop,
        master,
        mut eyes,
    } = opened;
    let eye = another_eye(&shop, &mut eyes);
    let Ok(shared) = Arc::try_clone(&shop) else {
        return (no_run(alloc), gates);
    };
    match Steal::open(rt, alloc, shop, gates, eyes, threads) {
        Ok(crew) => run_over(alloc, master, crew, seed, shared, eye, keep, log),
        Err((gates, Memory)) => (no_run(alloc), gates),
    }
}

/// Runs what was opened on a crew of threads that begin on what is still made, with these gates, and hands them back.
fn on_streams<K, N, G, D, R>(
    rt: R,
    alloc: Global,
    opened: Opened<K, N>,
    gates: Vec<G>,
    plan: Snapshot<RunPlan>,
    seed: u64,
    keep: &mut D,
    log: Begins,
) -> (RanLogged, Vec<G>)
where
    K: Kit + Send + Sync + Drop + 'static,
    N: Namer + Send + Sync + Drop + 'static,
    G: Gate + Send + 'static,
    D: Keep,
    R: Threads + Wait + Copy + Send + Drop + 'static,
    requires opened { IsOpened N.digest plan.value (arc_value opened.shop) opened.master opened.eyes.items }
    requires read { IsRead (job_view (arc_value opened.shop).job).script }
    requires inputs { InputsInOrder (job_view (arc_value opened.shop).job) }
    requires seed { seed ≡ plan.value.seed }
    requires gates { length gates.items ≡ plan.value.workers }
    requires workers { (0 < plan.value.workers) × (plan.value.workers ≤ 64) }
    requires held { log.held ≤ most }
    requires flow { IsOverLines (K.gives (arc_value opened.shop).kit) }
    ensures end { EndsSo (N.digest (arc_value opened.shop).namer) (job_view (arc_value opened.shop).job) (K.gives (arc_value opened.shop).kit)
        (plan_view plan.value) (map entry_view result.0.ran.journal.items) result.0.ran.end }
    ensures told { result.0.ran.end ≢ RunEnd.Memory
        → ToldBy (map entry_view result.0.ran.journal.items) (map G.entered gates.items) (map G.entered result.1.items) }
    ensures all { result.0.ran.end ≢ RunEnd.Memory → length result.1.items ≡ length gates.items }
    ensures keeps { result.0.ran.end ≢ RunEnd.Memory → Keeps log.path log.held
        (record { files = D.files keep.old; asked = D.asked keep.old; faults = D.faults keep.old })
        (record { files = D.files keep.new; asked = D.asked keep.new; faults = D.faults keep.new }) result.0.state }
    ensures written { IfOver result.0.ran.end (LogWritten (N.digest (arc_value opened.shop).namer) (job_view (arc_value opened.shop).job)
        (K.gives (arc_value opened.shop).kit) (plan_view plan.value) log.path log.held (D.files keep.old) (D.files keep.new)
        (map entry_view result.0.ran.journal.items) result.0.state) }
{
    functions_are_orderly();
    let Opened {
        shop,
        master,
        mut eyes,
    } = opened;
    let eye = another_eye(&shop, &mut eyes);
    let Ok(shared) = Arc::try_clone(&shop) else {
        return (no_run(alloc), gates);
    };
    match Streams::open(rt, alloc, shop, gates, eyes) {
        Ok(crew) => run_over(alloc, master, crew, seed, shared, eye, keep, log),
        Err((gates, Memory)) => (no_run(alloc), gates),
    }
}

/// Runs what was opened in this thread with these gates, and hands them back.
fn in_this_thread<K, N, G, D, R>(
    rt: R,
    alloc: Global,
    opened: Opened<K, N>,
    gates: Vec<G>,
    plan: Snapshot<RunPlan>,
    seed: u64,
    keep: &mut D,
    log: Begins,
) -> (RanLogged, Vec<G>)
where
    K: Kit + Drop,
    N: Namer + Drop,
    G: Gate,
    D: Keep,
    R: Wait + Drop,
    requires opened { IsOpened N.digest plan.value (arc_value opened.shop) opened.master opened.eyes.items }
    requires read { IsRead (job_view (arc_value opened.shop).job).script }
    requires inputs { InputsInOrder (job_view (arc_value opened.shop).job) }
    requires seed { seed ≡ plan.value.seed }
    requires gates { length gates.items ≡ plan.value.workers }
    requires workers { (0 < plan.value.workers) × (plan.value.workers ≤ 64) }
    requires held { log.held ≤ most }
    ensures end { EndsSo (N.digest (arc_value opened.shop).namer) (job_view (arc_value opened.shop).job) (K.gives (arc_value opened.shop).kit)
        (plan_view plan.value) (map entry_view result.0.ran.journal.items) result.0.ran.end }
    ensures told { result.0.ran.end ≢ RunEnd.Memory
        → ToldBy (map entry_view result.0.ran.journal.items) (map G.entered gates.items) (map G.entered result.1.items) }
    ensures all { result.0.ran.end ≢ RunEnd.Memory → length result.1.items ≡ length gates.items }
    ensures keeps { result.0.ran.end ≢ RunEnd.Memory → Keeps log.path log.held
        (record { files = D.files keep.old; asked = D.asked keep.old; faults = D.faults keep.old })
        (record { files = D.files keep.new; asked = D.asked keep.new; faults = D.faults keep.new }) result.0.state }
    ensures written { IfOver result.0.ran.end (LogWritten (N.digest (arc_value opened.shop).namer) (job_view (arc_value opened.shop).job)
        (K.gives (arc_value opened.shop).kit) (plan_view plan.value) log.path log.held (D.files keep.old) (D.files keep.new)
        (map entry_view result.0.ran.journal.items) result.0.state) }
{
    functions_are_orderly();
    let Opened {
        shop,
        master,
        mut eyes,
    } = opened;
    let eye = another_eye(&shop, &mut eyes);
    let Ok(shared) = Arc::try_clone(&shop) else {
        return (no_run(alloc), gates);
    };
    match Inline::open(rt, alloc, shop, gates, eyes) {
        Ok(crew) => run_over(alloc, master, crew, seed, shared, eye, keep, log),
        Err((gates, Memory)) => (no_run(alloc), gates),
    }
}

/// An eye for the log, beside those of the workers.
pub fn another_eye<K, N: Namer>(shop: &Shop<K, N>, eyes: &mut Vec<Eye>) -> Eye
    requires some { 0 < length eyes.old.items }
    requires look { AllLook shop.now eyes.old.items }
    ensures of { result.of ≡ shop.now.shelves.of }
    ensures same { eyes.new.items ≡ eyes.old.items }
{
    shop.shelves.another(&mut eyes[0])
}

/// Drives a crew, with one around it that keeps the log, to the end of its run, and closes it. `seed` is that of the master's plan.
fn run_over<K: Kit + Drop, N: Namer + Drop, C: Crew<K = K, N = N>, D: Keep>(
    alloc: Global,
    mut master: Master<K, N>,
    crew: C,
    seed: u64,
    shop: Arc<Shop<K, N>, Global>,
    eye: Eye,
    keep: &mut D,
    log: Begins,
) -> (RanLogged, Vec<C::Gate>)
    requires kept { Kept K.gives N.digest (C.shop crew) (C.is_sound crew) master (C.out crew) seed }
    requires working { Working K.gives N.digest (C.shop crew) (C.is_sound crew) master (C.out crew) }
    requires first { master.board.journal ≡ [] }
    requires shop { C.shop crew ≡ arc_value shop }
    requires eye { eye.of ≡ (arc_value shop).shelves.of }
    requires held { log.held ≤ most }
    ensures end { EndsSo (N.digest (C.shop crew).namer) (job_view (C.shop crew).job) (K.gives (C.shop crew).kit) master.board.plan
        (map entry_view result.0.ran.journal.items) result.0.ran.end }
    ensures told { result.0.ran.end ≢ RunEnd.Memory
        → ToldBy (map entry_view result.0.ran.journal.items) (C.told crew) (map C.Gate.entered result.1.items) }
    ensures keeps { result.0.ran.end ≢ RunEnd.Memory → Keeps log.path log.held
        (record { files = D.files keep.old; asked = D.asked keep.old; faults = D.faults keep.old })
        (record { files = D.files keep.new; asked = D.asked keep.new; faults = D.faults keep.new }) result.0.state }
    ensures written { IfOver result.0.ran.end (LogWritten (N.digest (C.shop crew).namer) (job_view (C.shop crew).job)
        (K.gives (C.shop crew).kit) master.board.plan log.path log.held (D.files keep.old) (D.files keep.new)
        (map entry_view result.0.ran.journal.items) result.0.state) }
{
    log_tells_journal::<K, N, C>();
    let Begins { path, held } = log;
    let mut crew = Logged::open(alloc, crew, shop, eye, keep, path, held);
    let end = drive(&mut master, &mut crew, seed);
    let Closed {
        inner,
        keep: lent,
        state,
    } = crew.into_parts();
    let _kept = handed_back(lent);
    let gates = inner.close();
    let journal = master.into_journal();
    (
        RanLogged {
            ran: Ran { end, journal },
            state,
        },
        gates,
    )
}

/// The keeper that was lent, handed back.
pub fn handed_back<D>(lent: &mut D) -> &mut D
    ensures same { result ≡ lent.entry }
{
    lent
}
