//! The run of a job: on hands of the caller's choice, or in the caller's own thread.

ghost use Rattle.std.specs.Prelude.{[], ◌≡◌, ◌≢◌, ◌≤◌, ◌⊎◌, ◌++◌, ◌<◌, ◌^◌, ℕ, IfOk, drop, length, map, take};
ghost use Rattle.std.specs.Arc.{arc_value};
ghost use Rattle.sky_base.specs.JobView.{job_view};
ghost use Rattle.ciel_crew_channels.specs.Onward.{IsRead};
ghost use Rattle.ciel_crew_choice.specs.Kinds.{IsFor, IsOverLines};
ghost use Rattle.ciel_journal.specs.Job.{Each};
ghost use Rattle.ciel_run_drive.specs.Working.{Working};
ghost use Rattle.ciel_run_drive.specs.Ended.{EndsSo};
ghost use Rattle.ciel_run_drive.specs.Kept.{Kept};
ghost use Rattle.ciel_run_drive.specs.Seen.{plan_view};
ghost use Rattle.ciel_run_drive.specs.Views.{entry_view};
ghost use Rattle.ciel_run_drive.specs.RunEnd.{RunEnd};
ghost use Rattle.ciel_task_order.specs.Shop.{InputsInOrder};
ghost use Rattle.ciel_run_job.specs.Opened.{IsOpened, ShopOf};
ghost use Rattle.ciel_run_drive.specs.Told.{ToldBy};
ghost use Rattle.ciel_run_job.specs.Told.{told_of};

use crate::gates::{put_behind, set_aside};
use crate::opening::{Opened, open};
use ciel_crew_channels::channels::Channels;
use ciel_crew_choice::hands::Hands;
use ciel_crew_inline::inline::Inline;
use ciel_flow::streams::Streams;
use ciel_gate::gate::Gate;
use ciel_name::name::Namer;
use ciel_run_drive::crew::Crew;
use ciel_run_drive::drive::drive;
use ciel_run_drive::entry::Entry;
use ciel_run_drive::master::Master;
use ciel_run_drive::plan::RunPlan;
use ciel_run_drive::stop::RunEnd;
use ciel_steal::steal::Steal;
use sky_base::job::Job;
use sky_base::kit::Kit;
use sky_base::text::Memory;
use sky_parse_law::law::functions_are_orderly;
use std::alloc::Global;
use std::mem;
use std::snapshot::Snapshot;
use std::sync::Wait;
use std::thread::Threads;

/// What a run came to: how it ended, and its journal.
#[derive(Drop)]
pub struct Ran {
    pub end: RunEnd,
    pub journal: Vec<Entry>,
}

/// Runs a job on as many workers as the plan has, each with its gate, to the end of the run, on these hands. The first gates are the workers',
/// and the others stay as they are.
///
/// There are 1 to 64 workers, and at most 64 threads are shared. The end is `Memory` for want of memory. The workers' gates may then have
/// entered tasks, and the others may be gone.
pub fn run_job<K, N, G, R>(
    rt: R,
    alloc: Global,
    job: Job,
    kit: K,
    namer: N,
    gates: &mut Vec<G>,
    plan: RunPlan,
    hands: Hands,
) -> Ran
where
    K: Kit + Send + Sync + Drop + 'static,
    N: Namer + Send + Sync + Drop + 'static,
    G: Gate + Send + 'static,
    R: Threads + Wait + Copy + Send + Drop + 'static,
    requires read { IsRead (job_view job).script }
    requires inputs { InputsInOrder (job_view job) }
    requires keys { length job.script.keys < 2 ^ 32 }
    requires workers { (0 < plan.workers) × (plan.workers ≤ 64) }
    requires gates { plan.workers ≤ length gates.old.items }
    requires losses { Each (λ (loss : ℕ × ℕ). loss.1 < plan.workers) plan.losses }
    requires hands { IsFor (K.gives kit) hands }
    ensures end { EndsSo (N.digest namer) (job_view job) (K.gives kit) (plan_view plan) (map entry_view result.journal.items) result.end }
    ensures told { result.end ≢ RunEnd.Memory → ToldBy (map entry_view result.journal.items) (told_of G.entered plan.workers gates.old.items)
        (told_of G.entered plan.workers gates.new.items) }
    ensures others { result.end ≢ RunEnd.Memory → drop plan.workers gates.new.items ≡ drop plan.workers gates.old.items }
    ensures all { result.end ≢ RunEnd.Memory → length gates.new.items ≡ length gates.old.items }
{
    let Ok(begun) = begin(alloc, job, kit, namer, gates, plan) else {
        return not_begun(alloc);
    };
    let Begun {
        opened,
        own,
        others,
        plan,
        seed,
    } = begun;
    let (ran, back) = on_crew(rt, alloc, hands, opened, own, plan, seed);
    let (ran, all) = put_back(ran, back, others);
    *gates = all;
    ran
}

/// The same in the caller's thread alone, for any number of workers: each order is performed where it is sent.
///
/// There are 1 to 64 workers. The end is `Memory` for want of memory. The workers' gates may then have entered tasks, and the others may be
/// gone.
pub fn run_inline<K, N, G, R>(
    rt: R,
    alloc: Global,
    job: Job,
    kit: K,
    namer: N,
    gates: &mut Vec<G>,
    plan: RunPlan,
) -> Ran
where
    K: Kit + Drop,
    N: Namer + Drop,
    G: Gate,
    R: Wait + Drop,
    requires read { IsRead (job_view job).script }
    requires inputs { InputsInOrder (job_view job) }
    requires keys { length job.script.keys < 2 ^ 32 }
    requires workers { (0 < plan.workers) × (plan.workers ≤ 64) }
    requires gates { plan.workers ≤ length gates.old.items }
    requires losses { Each (λ (loss : ℕ × ℕ). loss.1 < plan.workers) plan.losses }
    ensures end { EndsSo (N.digest namer) (job_view job) (K.gives kit) (plan_view plan) (map entry_view result.journal.items) result.end }
    ensures told { result.end ≢ RunEnd.Memory → ToldBy (map entry_view result.journal.items) (told_of G.entered plan.workers gates.old.items)
        (told_of G.entered plan.workers gates.new.items) }
    ensures others { result.end ≢ RunEnd.Memory → drop plan.workers gates.new.items ≡ drop plan.workers gates.old.items }
    ensures all { result.end ≢ RunEnd.Memory → length gates.new.items ≡ length gates.old.items }
{
    let Ok(begun) = begin(alloc, job, kit, namer, gates, plan) else {
        return not_begun(alloc);
    };
    let Begun {
        opened,
        own,
        others,
        plan,
        seed,
    } = begun;
    let (ran, back) = in_this_thread(rt, alloc, opened, own, plan, seed);
    let (ran, all) = put_back(ran, back, others);
    *gates = all;
    ran
}

/// A run that can begin: what was opened, with the gates of its workers, and the others beside them.
#[derive(Drop)]
pub struct Begun<K, N: Namer, G: Drop> {
    pub opened: Opened<K, N>,
    pub own: Vec<G>,
    pub others: Vec<G>,
    pub plan: Snapshot<RunPlan>,
    pub seed: u64,
}

/// Opens a run, and takes the gates for it.
///
/// Answers `Memory` for want of memory.
pub fn begin<K: Drop, N: Namer + Drop, G: Drop>(
    alloc: Global,
    job: Job,
    kit: K,
    namer: N,
    gates: &mut Vec<G>,
    plan: RunPlan,
) -> Result<Begun<K, N, G>, Memory>
    requires keys { length job.script.keys < 2 ^ 32 }
    requires workers { (0 < plan.workers) × (plan.workers ≤ 64) }
    requires gates { plan.workers ≤ length gates.old.items }
    requires losses { Each (λ (loss : ℕ × ℕ). loss.1 < plan.workers) plan.losses }
    ensures plan { IfOk result (λ b. (b.plan.value ≡ plan) × (b.seed ≡ plan.seed)) }
    ensures shop { IfOk result (λ b. ShopOf job kit namer (arc_value b.opened.shop)) }
    ensures opened { IfOk result (λ b. IsOpened N.digest plan (arc_value b.opened.shop) b.opened.master b.opened.eyes.items) }
    ensures own { IfOk result (λ b. b.own.items ≡ take plan.workers gates.old.items) }
    ensures others { IfOk result (λ b. b.others.items ≡ drop plan.workers gates.old.items) }
{
    let workers = plan.workers as usize;
    let seed = plan.seed;
    let planned = Snapshot::of(&plan);
    let opened = open(alloc, job, kit, namer, plan)?;
    let others = set_aside(gates, workers)?;
    let own = mem::replace(gates, Vec::new(alloc));
    Ok(Begun {
        opened,
        own,
        others,
        plan: planned,
        seed,
    })
}

/// Puts the other gates back behind the workers'. Where there is no memory for it, the run ends so.
pub fn put_back<G: Drop>(ran: Ran, mut gates: Vec<G>, mut others: Vec<G>) -> (Ran, Vec<G>)
    ensures journal { result.0.journal ≡ ran.journal }
    ensures end { (result.0.end ≡ ran.end) ⊎ (result.0.end ≡ RunEnd.Memory) }
    ensures gates { result.0.end ≢ RunEnd.Memory → result.1.items ≡ gates.items ++ others.items }
{
    match put_behind(&mut gates, &mut others) {
        Ok(()) => (ran, gates),
        Err(Memory) => {
            let Ran { journal, .. } = ran;
            let end = RunEnd::Memory;
            (Ran { end, journal }, gates)
        }
    }
}

/// A run that didn't begin, for want of memory.
pub fn not_begun(alloc: Global) -> Ran
    ensures end { result.end ≡ RunEnd.Memory }
    ensures empty { result.journal.items ≡ [] }
{
    Ran {
        end: RunEnd::Memory,
        journal: Vec::new(alloc),
    }
}

/// Runs what was opened on these hands with these gates, and gives them back.
fn on_crew<K, N, G, R>(
    rt: R,
    alloc: Global,
    hands: Hands,
    opened: Opened<K, N>,
    gates: Vec<G>,
    plan: Snapshot<RunPlan>,
    seed: u64,
) -> (Ran, Vec<G>)
where
    K: Kit + Send + Sync + Drop + 'static,
    N: Namer + Send + Sync + Drop + 'static,
    G: Gate + Send + 'static,
    R: Threads + Wait + Copy + Send + Drop + 'static,
    requires opened { IsOpened N.digest plan.value (arc_value opened.shop) opened.master opened.eyes.items }
    requires read { IsRead (job_view (arc_value opened.shop).job).script }
    requires inputs { InputsInOrder (job_view (arc_value opened.shop).job) }
    requires seed { seed ≡ plan.value.seed }
    requires gates { length gates.items ≡ plan.value.workers }
    requires workers { (0 < plan.value.workers) × (plan.value.workers ≤ 64) }
    requires hands { IsFor (K.gives (arc_value opened.shop).kit) hands }
    ensures end { EndsSo (N.digest (arc_value opened.shop).namer) (job_view (arc_value opened.shop).job) (K.gives (arc_value opened.shop).kit)
        (plan_view plan.value) (map entry_view result.0.journal.items) result.0.end }
    ensures told { result.0.end ≢ RunEnd.Memory
        → ToldBy (map entry_view result.0.journal.items) (map G.entered gates.items) (map G.entered result.1.items) }
    ensures all { result.0.end ≢ RunEnd.Memory → length result.1.items ≡ length gates.items }
{
    match hands {
        Hands::Caller => {
            let back = in_this_thread(rt, alloc, opened, gates, plan, seed);
            back
        }
        Hands::Own => {
            let back = on_threads(rt, alloc, opened, gates, plan, seed);
            back
        }
        Hands::Streamed => {
            let back = on_streams(rt, alloc, opened, gates, plan, seed);
            back
        }
        Hands::Shared(threads) => {
            let back = on_shared(rt, alloc, threads, opened, gates, plan, seed);
            back
        }
    }
}

/// Runs what was opened on a crew of threads with these gates, and hands them back.
fn on_threads<K, N, G, R>(
    rt: R,
    alloc: Global,
    opened: Opened<K, N>,
    gates: Vec<G>,
    plan: Snapshot<RunPlan>,
    seed: u64,
) -> (Ran, Vec<G>)
where
    K: Kit + Send + Sync + Drop + 'static,
    N: Namer + Send + Sync + Drop + 'static,
    G: Gate + Send + 'static,
    R: Threads + Wait + Copy + Send + Drop + 'static,
    requires opened { IsOpened N.digest plan.value (arc_value opened.shop) opened.master opened.eyes.items }
    requires read { IsRead (job_view (arc_value opened.shop).job).script }
    requires inputs { InputsInOrder (job_view (arc_value opened.shop).job) }
    requires seed { seed ≡ plan.value.seed }
    requires gates { length gates.items ≡ plan.value.workers }
    requires workers { (0 < plan.value.workers) × (plan.value.workers ≤ 64) }
    ensures end { EndsSo (N.digest (arc_value opened.shop).namer) (job_view (arc_value opened.shop).job) (K.gives (arc_value opened.shop).kit)
        (plan_view plan.value) (map entry_view result.0.journal.items) result.0.end }
    ensures told { result.0.end ≢ RunEnd.Memory
        → ToldBy (map entry_view result.0.journal.items) (map G.entered gates.items) (map G.entered result.1.items) }
    ensures all { result.0.end ≢ RunEnd.Memory → length result.1.items ≡ length gates.items }
{
    functions_are_orderly();
    let Opened { shop, master, eyes } = opened;
    match Channels::open(rt, alloc, shop, gates, eyes) {
        Ok(crew) => run_over(master, crew, seed),
        Err((gates, Memory)) => (not_begun(alloc), gates),
    }
}

/// Runs what was opened on so many threads, which all workers share, with these gates, and hands them back.
fn on_shared<K, N, G, R>(
    rt: R,
    alloc: Global,
    threads: u32,
    opened: Opened<K, N>,
    gates: Vec<G>,
    plan: Snapshot<RunPlan>,
    seed: u64,
) -> (Ran, Vec<G>)
where
    K: Kit + Send + Sync + Drop + 'static,
    N: Namer + Send + Sync + Drop + 'static,
    G: Gate + Send + 'static,
    R: Threads + Wait + Copy + Send + Drop + 'static,
    requires opened { IsOpened N.digest plan.value (arc_value opened.shop) opened.master opened.eyes.items }
    requires read { IsRead (job_view (arc_value opened.shop).job).script }
    requires inputs { InputsInOrder (job_view (arc_value opened.shop).job) }
    requires seed { seed ≡ plan.value.seed }
    requires gates { length gates.items ≡ plan.value.workers }
    requires workers { (0 < plan.value.workers) × (plan.value.workers ≤ 64) }
    requires threads { threads ≤ 64 }
    ensures end { EndsSo (N.digest (arc_value opened.shop).namer) (job_view (arc_value opened.shop).job) (K.gives (arc_value opened.shop).kit)
        (plan_view plan.value) (map entry_view result.0.journal.items) result.0.end }
    ensures told { result.0.end ≢ RunEnd.Memory
        → ToldBy (map entry_view result.0.journal.items) (map G.entered gates.items) (map G.entered result.1.items) }
    ensures all { result.0.end ≢ RunEnd.Memory → length result.1.items ≡ length gates.items }
{
    functions_are_orderly();
    let Opened { shop, master, eyes } = opened;
    match Steal::open(rt, alloc, shop, gates, eyes, threads) {
        Ok(crew) => run_over(master, crew, seed),
        Err((gates, Memory)) => (not_begun(alloc), gates),
    }
}

/// Runs what was opened on a crew of threads that begin on what is still made, with these gates, and hands them back.
fn on_streams<K, N, G, R>(
    rt: R,
    alloc: Global,
    opened: Opened<K, N>,
    gates: Vec<G>,
    plan: Snapshot<RunPlan>,
    seed: u64,
) -> (Ran, Vec<G>)
where
    K: Kit + Send + Sync + Drop + 'static,
    N: Namer + Send + Sync + Drop + 'static,
    G: Gate + Send + 'static,
    R: Threads + Wait + Copy + Send + Drop + 'static,
    requires opened { IsOpened N.digest plan.value (arc_value opened.shop) opened.master opened.eyes.items }
    requires read { IsRead (job_view (arc_value opened.shop).job).script }
    requires inputs { InputsInOrder (job_view (arc_value opened.shop).job) }
    requires seed { seed ≡ plan.value.seed }
    requires gates { length gates.items ≡ plan.value.workers }
    requires workers { (0 < plan.value.workers) × (plan.value.workers ≤ 64) }
    requires flow { IsOverLines (K.gives (arc_value opened.shop).kit) }
    ensures end { EndsSo (N.digest (arc_value opened.shop).namer) (job_view (arc_value opened.shop).job) (K.gives (arc_value opened.shop).kit)
        (plan_view plan.value) (map entry_view result.0.journal.items) result.0.end }
    ensures told { result.0.end ≢ RunEnd.Memory
        → ToldBy (map entry_view result.0.journal.items) (map G.entered gates.items) (map G.entered result.1.items) }
    ensures all { result.0.end ≢ RunEnd.Memory → length result.1.items ≡ length gates.items }
{
    functions_are_orderly();
    let Opened { shop, master, eyes } = opened;
    match Streams::open(rt, alloc, shop, gates, eyes) {
        Ok(crew) => run_over(master, crew, seed),
        Err((gates, Memory)) => (not_begun(alloc), gates),
    }
}

/// Runs what was opened in this thread with these gates, and hands them back.
fn in_this_thread<K, N, G, R>(
    rt: R,
    alloc: Global,
    opened: Opened<K, N>,
    gates: Vec<G>,
    plan: Snapshot<RunPlan>,
    seed: u64,
) -> (Ran, Vec<G>)
where
    K: Kit + Drop,
    N: Namer + Drop,
    G: Gate,
    R: Wait + Drop,
    requires opened { IsOpened N.digest plan.value (arc_value opened.shop) opened.master opened.eyes.items }
    requires read { IsRead (job_view (arc_value opened.shop).job).script }
    requires inputs { InputsInOrder (job_view (arc_value opened.shop).job) }
    requires seed { seed ≡ plan.value.seed }
    requires gates { length gates.items ≡ plan.value.workers }
    requires workers { (0 < plan.value.workers) × (plan.value.workers ≤ 64) }
    ensures end { EndsSo (N.digest (arc_value opened.shop).namer) (job_view (arc_value opened.shop).job) (K.gives (arc_value opened.shop).kit)
        (plan_view plan.value) (map entry_view result.0.journal.items) result.0.end }
    ensures told { result.0.end ≢ RunEnd.Memory
        → ToldBy (map entry_view result.0.journal.items) (map G.entered gates.items) (map G.entered result.1.items) }
    ensures all { result.0.end ≢ RunEnd.Memory → length result.1.items ≡ length gates.items }
{
    functions_are_orderly();
    let Opened { shop, master, eyes } = opened;
    match Inline::open(rt, alloc, shop, gates, eyes) {
        Ok(crew) => run_over(master, crew, seed),
        Err((gates, Memory)) => (not_begun(alloc), gates),
    }
}

/// Drives a crew to the end of its run, and closes it. `seed` is that of the master's plan.
pub fn run_over<K: Kit + Drop, N: Namer + Drop, C: Crew<K = K, N = N>>(
    mut master: Master<K, N>,
    mut crew: C,
    seed: u64,
) -> (Ran, Vec<C::Gate>)
    requires kept { Kept K.gives N.digest (C.shop crew) (C.is_sound crew) master (C.out crew) seed }
    requires working { Working K.gives N.digest (C.shop crew) (C.is_sound crew) master (C.out crew) }
    requires first { master.board.journal ≡ [] }
    ensures end { EndsSo (N.digest (C.shop crew).namer) (job_view (C.shop crew).job) (K.gives (C.shop crew).kit) master.board.plan
        (map entry_view result.0.journal.items) result.0.end }
    ensures told { result.0.end ≢ RunEnd.Memory → ToldBy (map entry_view result.0.journal.items) (C.told crew) (map C.Gate.entered result.1.items) }
{
    let end = drive(&mut master, &mut crew, seed);
    let gates = crew.close();
    let journal = master.into_journal();
    (Ran { end, journal }, gates)
}
