//! The run of a job by rounds.

ghost use Rattle.std.specs.Prelude.{◌≡◌, ◌≢◌, ◌≤◌, ◌<◌, ◌^◌, ℕ, drop, length, map};
ghost use Rattle.std.specs.Arc.{arc_value};
ghost use Rattle.sky_base.specs.JobView.{job_view};
ghost use Rattle.ciel_journal.specs.Job.{Each};
ghost use Rattle.ciel_run_drive.specs.Ended.{EndsSo};
ghost use Rattle.ciel_run_drive.specs.RunEnd.{RunEnd};
ghost use Rattle.ciel_run_drive.specs.Seen.{plan_view};
ghost use Rattle.ciel_run_drive.specs.Told.{ToldBy};
ghost use Rattle.ciel_run_drive.specs.Views.{entry_view};
ghost use Rattle.ciel_run_job.specs.Onward.{IsRead};
ghost use Rattle.ciel_run_job.specs.Opened.{IsOpened};
ghost use Rattle.ciel_run_job.specs.Told.{told_of};
ghost use Rattle.ciel_task_order.specs.Shop.{InputsInOrder};

use ciel_crew_rounds::rounds::Rounds;
use ciel_gate::gate::Gate;
use ciel_name::name::Namer;
use ciel_run_drive::plan::RunPlan;
use ciel_run_job::opening::Opened;
use ciel_run_job::run::{Begun, Ran, begin, not_begun, put_back, run_over};
use sky_base::job::Job;
use sky_base::kit::Kit;
use sky_base::text::Memory;
use sky_parse_law::law::functions_are_orderly;
use std::alloc::Global;
use std::snapshot::Snapshot;
use std::sync::Wait;
use std::thread::Threads;

/// Runs a job as `run_job` does, by rounds, for any number of workers, each with a thread where one can be had. The orders that were sent are performed beside one
/// another where a report is asked for and none is kept, and the reports are taken by rising worker: so the journal doesn't depend on which
/// of the threads is first. No clause says that.
///
/// There are 1 to 64 workers. The end is `Memory` for want of memory. The workers' gates may then have entered tasks, and the others may be
/// gone.
pub fn run_rounds<K, N, G, R>(
    rt: R,
    alloc: Global,
    job: Job,
    kit: K,
    namer: N,
    gates: &mut Vec<G>,
    plan: RunPlan,
) -> Ran
where
    K: Kit + Send + Sync + Drop + 'static,
    N: Namer + Send + Sync + Drop + 'static,
    G: Gate + Send + 'static,
    R: Threads + Wait + Copy + Send + Drop + 'static,
    requires read { IsRead (job_view job).script }
    requires inputs { InputsInOrder (job_view job) }
    requires keys { length job.script.keys < 2 ^ 32 }
    requires workers { (0 < plan.workers) × (plan.workers ≤ 64) }
    requires gates { plan.workers ≤ length gates.old.items }
    requires losses { Each (λ (loss : ℕ × ℕ). loss.1 < plan.workers) plan.losses }
    ensures end { EndsSo (N.digest namer) (job_view job) (K.gives kit) (plan_view plan) (map entry_view result.journal.items) result.end }
    ensures told { result.end ≢ RunEnd.Memory → ToldBy (map entry_view result.journal.items) (told_of G.entered plan.workers gates.old.items)
        (told_of G.entered plan.workers gates.new.items) }
    ensures others { result.end ≢ RunEnd.Memory → drop plan.workers gates.new.items ≡ drop plan.workers gates.old.items }
    ensures all { result.end ≢ RunEnd.Memory → length gates.new.items ≡ length gates.old.items }
{
    let Ok(begun) = begin(alloc, job, kit, namer, gates, plan) else {
        return not_begun(alloc);
    };
    let Begun {
        opened,
        own,
        others,
        plan,
        seed,
    } = begun;
    let (ran, back) = by_rounds(rt, alloc, opened, own, plan, seed);
    let (ran, all) = put_back(ran, back, others);
    *gates = all;
    ran
}

/// Runs what was opened by rounds with these gates, and hands them back.
fn by_rounds<K, N, G, R>(
    rt: R,
    alloc: Global,
    opened: Opened<K, N>,
    gates: Vec<G>,
    plan: Snapshot<RunPlan>,
    seed: u64,
) -> (Ran, Vec<G>)
where
    K: Kit + Send + Sync + Drop + 'static,
    N: Namer + Send + Sync + Drop + 'static,
    G: Gate + Send + 'static,
    R: Threads + Wait + Copy + Send + Drop + 'static,
    requires opened { IsOpened N.digest plan.value (arc_value opened.shop) opened.master opened.eyes.items }
    requires read { IsRead (job_view (arc_value opened.shop).job).script }
    requires inputs { InputsInOrder (job_view (arc_value opened.shop).job) }
    requires seed { seed ≡ plan.value.seed }
    requires gates { length gates.items ≡ plan.value.workers }
    requires workers { (0 < plan.value.workers) × (plan.value.workers ≤ 64) }
    ensures end { EndsSo (N.digest (arc_value opened.shop).namer) (job_view (arc_value opened.shop).job) (K.gives (arc_value opened.shop).kit)
        (plan_view plan.value) (map entry_view result.0.journal.items) result.0.end }
    ensures told { result.0.end ≢ RunEnd.Memory
        → ToldBy (map entry_view result.0.journal.items) (map G.entered gates.items) (map G.entered result.1.items) }
    ensures all { result.0.end ≢ RunEnd.Memory → length result.1.items ≡ length gates.items }
{
    functions_are_orderly();
    let Opened { shop, master, eyes } = opened;
    match Rounds::open(rt, alloc, shop, gates, eyes) {
        Ok(crew) => run_over(master, crew, seed),
        Err((gates, Memory)) => (not_begun(alloc), gates),
    }
}
