// Each task is run between its gate's entrance and exit: a gate is entered and left once for each Start at its worker, also where there is
// no memory for the task, and what an executor does comes after the entrance and before the exit.

ghost use Rattle.std.specs.Prelude.{◌≡◌, ◌<◌, ◌≤◌, IfOk, length};

use crate::counting::{answers, job};
use crate::watch::{Flags, Watch, Watched};
use ciel_master::entry::Entry;
use ciel_master::stop::RunEnd;
use ciel_name::name::Sha1Namer;
use ciel_run_job_tests::hands::Hands;
use ciel_run_job_tests::job::plan;
use ciel_run_job_tests::run::{Ran, run_job};
use std::alloc::Global;
use std::process::Abort;
use std::sync::{Arc, Wait};
use std::test::Fail;
use std::thread::Threads;

// The gates of two workers.
fn gates(alloc: Global, flags: &Arc<Flags>) -> Result<Vec<Watch>, Fail>
    ensures { IfOk result (λ gates. length gates.items ≡ 2) }
{
    let one = Watch::new(flags)?;
    let other = Watch::new(flags)?;
    let Ok(mut gates) = Vec::with_capacity(alloc, 2) else {
        return Err(Fail::from("memory"));
    };
    gates.push_reserved(one);
    gates.push_reserved(other);
    Ok(gates)
}

// The run of the word count on so many workers with this kit and these gates.
fn ran<R: Threads + Wait + Copy + Send + Drop + 'static>(
    rt: R,
    alloc: Global,
    workers: u32,
    kit: Watched,
    gates: &mut Vec<Watch>,
) -> Result<Ran, Fail>
    requires gates { length gates.old.items ≡ 2 }
    requires workers { (0 < workers) × (workers ≤ 2) }
{
    let job = job(alloc)?;
    let plan = plan(alloc, workers);
    let hands = Hands::of(workers, None, false);
    Ok(run_job(rt, alloc, job, kit, Sha1Namer, gates, plan, hands))
}

// How many tasks were started at a worker.
fn starts(journal: &[Entry], at: u32) -> u64 {
    let mut count = 0u64;
    for entry in journal {
        if let Entry::Start { worker, .. } = entry
            && *worker == at
        {
            count = count.saturating_add(1);
        }
    }
    count
}

// Whether each gate was entered and left once for each Start at its worker.
fn have_seen(gates: &[Watch], journal: &[Entry]) -> bool {
    let mut at = 0u32;
    for gate in gates {
        if !gate.has_seen(starts(journal, at)) {
            return false;
        }
        at = at.saturating_add(1);
    }
    true
}

// The end of the run on so many workers with this kit, where the gates set these flags.
fn end<R: Abort + Threads + Wait + Copy + Send + Drop + 'static>(
    rt: R,
    alloc: Global,
    workers: u32,
    kit: Watched,
    flags: &Arc<Flags>,
) -> Result<RunEnd, Fail>
    requires workers { (0 < workers) × (workers ≤ 2) }
{
    let mut gates = gates(alloc, flags)?;
    let Ran { end, journal } = ran(rt, alloc, workers, kit, &mut gates)?;
    assert_eq!(rt; gates.len(), 2);
    assert!(rt; have_seen(gates.as_slice(), journal.as_slice()));
    assert!(rt; flags.are_over());
    Ok(end)
}

// The kit looks at the flags that the gates set.
fn within<R: Abort + Threads + Wait + Copy + Send + Drop + 'static>(
    rt: R,
    alloc: Global,
    workers: u32,
) -> Result<(), Fail>
    requires workers { (0 < workers) × (workers ≤ 2) }
{
    let flags = Flags::new(alloc)?;
    let kit = Watched::new(&flags)?;
    let end = end(rt, alloc, workers, kit, &flags)?;
    assert!(rt; answers(&end));
    Ok(())
}

// A kit with flags of its own, which none sets, so that it has no memory for a task.
fn forgetful(alloc: Global) -> Result<Watched, Fail> {
    let flags = Flags::new(alloc)?;
    Watched::new(&flags)
}

fn without_memory<R: Abort + Threads + Wait + Copy + Send + Drop + 'static>(
    rt: R,
    alloc: Global,
    workers: u32,
) -> Result<(), Fail>
    requires workers { (0 < workers) × (workers ≤ 2) }
{
    let flags = Flags::new(alloc)?;
    let kit = forgetful(alloc)?;
    let end = end(rt, alloc, workers, kit, &flags)?;
    assert!(rt; matches!(end, RunEnd::Memory));
    Ok(())
}

#[test]
fn one_worker_runs_tasks_between_entrance_and_exit(rt: HostRuntime) -> Result<(), Fail> {
    within(rt, rt.alloc(), 1)
}

#[test]
fn two_workers_run_tasks_between_entrance_and_exit(rt: HostRuntime) -> Result<(), Fail> {
    within(rt, rt.alloc(), 2)
}

#[test]
fn one_worker_leaves_where_there_is_no_memory(rt: HostRuntime) -> Result<(), Fail> {
    without_memory(rt, rt.alloc(), 1)
}

#[test]
fn two_workers_leave_where_there_is_no_memory(rt: HostRuntime) -> Result<(), Fail> {
    without_memory(rt, rt.alloc(), 2)
}
