// Two tasks that are performed at the same time: each worker's gate waits until the other's task was entered. With one worker, and
// in one thread, they are not: the gate that is first waits in vain.

ghost use Rattle.std.specs.Prelude.{◌≡◌, ◌<◌, ◌≤◌, IfOk, length};

use crate::counting::{FIRST, SECOND, answers, job};
use ciel_gate::meeting::Meeting;
use ciel_master::entry::Entry;
use ciel_name::name::Sha1Namer;
use ciel_run_job_tests::hands::Hands;
use ciel_run_job_tests::job::plan;
use ciel_run_job_tests::run::{Ran, run_inline, run_job};
use line_kit::kit::LineKit;
use sky_base::name::Name;
use sky_base::object::TaskId;
use std::alloc::Global;
use std::process::Abort;
use std::sync::Wait;
use std::test::Fail;
use std::thread::Threads;

// So many turns does a gate wait for the other, and so many where it waits in vain.
static LIMIT: u32 = 1_000_000_000;

static FEW: u32 = 1_000;

// The gates of two workers, which wait for each other at these two tasks.
fn gates(alloc: Global, limit: u32) -> Result<Vec<Meeting>, Fail>
    ensures { IfOk result (λ gates. length gates.items ≡ 2) }
{
    let (one, other) = Meeting::pair(
        alloc,
        TaskId::Of(Name::short(FIRST)),
        TaskId::Of(Name::short(SECOND)),
        limit,
    )?;
    let Ok(mut gates) = Vec::with_capacity(alloc, 2) else {
        return Err(Fail::from("memory"));
    };
    gates.push_reserved(one);
    gates.push_reserved(other);
    Ok(gates)
}

// The run of the word count on so many workers with these gates, with streams or without.
fn ran<R: Threads + Wait + Copy + Send + Drop + 'static>(
    rt: R,
    alloc: Global,
    workers: u32,
    streamed: bool,
    gates: &mut Vec<Meeting>,
) -> Result<Ran, Fail>
    requires gates { length gates.old.items ≡ 2 }
    requires workers { (0 < workers) × (workers ≤ 2) }
{
    let job = job(alloc)?;
    let plan = plan(alloc, workers);
    let hands = Hands::of(workers, None, streamed);
    Ok(run_job(rt, alloc, job, LineKit, Sha1Namer, gates, plan, hands))
}

// The same on two workers in this thread.
fn ran_inline<R: Wait + Drop>(rt: R, alloc: Global, gates: &mut Vec<Meeting>) -> Result<Ran, Fail>
    requires gates { length gates.old.items ≡ 2 }
{
    let job = job(alloc)?;
    let plan = plan(alloc, 2);
    Ok(run_inline(rt, alloc, job, LineKit, Sha1Namer, gates, plan))
}

// How many of the gates have met.
fn met(gates: &[Meeting]) -> usize {
    let mut count = 0usize;
    for gate in gates {
        if gate.met() {
            count = count.saturating_add(1);
        }
    }
    count
}

// So many gates meet, on so many workers, each of which waits so many turns.
fn meets<R: Abort + Threads + Wait + Copy + Send + Drop + 'static>(
    rt: R,
    alloc: Global,
    workers: u32,
    streamed: bool,
    limit: u32,
    many: usize,
) -> Result<(), Fail>
    requires workers { (0 < workers) × (workers ≤ 2) }
{
    let mut gates = gates(alloc, limit)?;
    let ran = ran(rt, alloc, workers, streamed, &mut gates)?;
    assert!(rt; answers(&ran.end));
    assert_eq!(rt; met(gates.as_slice()), many);
    Ok(())
}

#[test]
fn two_tasks_are_performed_at_the_same_time(rt: HostRuntime) -> Result<(), Fail> {
    meets(rt, rt.alloc(), 2, false, LIMIT, 2)
}

#[test]
fn two_tasks_are_performed_at_the_same_time_beside_streams(rt: HostRuntime) -> Result<(), Fail> {
    meets(rt, rt.alloc(), 2, true, LIMIT, 2)
}

#[test]
fn one_worker_performs_one_task_after_the_other(rt: HostRuntime) -> Result<(), Fail> {
    meets(rt, rt.alloc(), 1, false, FEW, 1)
}

// The worker that was the first to start one of the two tasks.
fn first_worker(journal: &[Entry]) -> Option<u32> {
    for entry in journal {
        if let Entry::Start { worker, task, .. } = entry
            && (*task == TaskId::Of(Name::short(FIRST))
                || *task == TaskId::Of(Name::short(SECOND)))
        {
            return Some(*worker);
        }
    }
    None
}

// Whether the gate of this worker has met the other.
fn has_met(gates: &[Meeting], worker: usize) -> bool {
    match gates.get(worker) {
        Some(gate) => gate.met(),
        None => false,
    }
}

#[test]
fn in_one_thread_the_first_gate_meets_none(rt: HostRuntime) -> Result<(), Fail> {
    let mut gates = gates(rt.alloc(), FEW)?;
    let ran = ran_inline(rt, rt.alloc(), &mut gates)?;
    assert!(&rt; answers(&ran.end));
    let Some(first) = first_worker(ran.journal.as_slice()) else {
        return Err(Fail::from("none was started"));
    };
    assert!(&rt; !has_met(gates.as_slice(), first as usize));
    assert_eq!(&rt; met(gates.as_slice()), 1);
    Ok(())
}
