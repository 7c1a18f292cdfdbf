// Two tasks that are performed at the same time: each worker's gate waits until the other's task was entered. Over one thread they are not:
// the gate that is first waits in vain. Over none they aren't either, and the caller works.

ghost use Rattle.std.specs.Prelude.{◌≡◌, ◌≤◌, [], IfOk, length};

use crate::counting::{IN_TWO, job};
use ciel_gate::meeting::Meeting;
use ciel_master::plan::{Losses, RunPlan};
use ciel_master::stop::RunEnd;
use ciel_name::name::Sha1Namer;
use ciel_run_job::hands::Hands;
use ciel_run_job::run::{Ran, run_job};
use line_kit::kit::LineKit;
use sky_base::name::Name;
use sky_base::object::TaskId;
use std::alloc::Global;
use std::process::Abort;
use std::sync::Wait;
use std::test::Fail;
use std::thread::Threads;

// The name of the task that counts the first part, the line `b`.
static FIRST: [u8; 20] = [
    202, 99, 153, 149, 252, 96, 10, 92, 192, 152, 39, 87, 113, 104, 39, 133, 34, 165, 98, 54,
];

// The name of the task that counts the second part, the line `a`.
static SECOND: [u8; 20] = [
    14, 11, 165, 156, 150, 224, 186, 198, 8, 27, 105, 125, 73, 94, 243, 172, 41, 173, 93, 58,
];

// The gates of two workers, which wait for each other at these two tasks, so many turns.
fn pair(alloc: Global, limit: u32) -> Result<Vec<Meeting>, Fail>
    ensures { IfOk result (λ gates. length gates.items ≡ 2) }
{
    let (one, other) = Meeting::pair(
        alloc,
        TaskId::Of(Name::short(FIRST)),
        TaskId::Of(Name::short(SECOND)),
        limit,
    )?;
    let Ok(mut gates) = Vec::with_capacity(alloc, 2) else {
        return Err(Fail::from("memory"));
    };
    gates.push_reserved(one);
    gates.push_reserved(other);
    Ok(gates)
}

// Two workers, none of which is lost.
fn plan(alloc: Global) -> RunPlan
    ensures { (result.workers ≡ 2) × (result.losses ≡ []) }
{
    RunPlan {
        workers: 2,
        seed: 0,
        losses: Losses::of(Vec::new(alloc)),
    }
}

fn answers(end: &RunEnd) -> bool {
    match end {
        RunEnd::Answer(bytes) => bytes.as_slice() == b"1 a\n1 b\n".as_slice(),
        _ => false,
    }
}

// How many of the gates have met.
fn met(gates: &[Meeting]) -> usize {
    let mut count = 0usize;
    for gate in gates {
        if gate.met() {
            count = count.saturating_add(1);
        }
    }
    count
}

// Over so many threads so many gates meet.
fn meets<R: Abort + Threads + Wait + Copy + Send + Drop + 'static>(
    rt: R,
    alloc: Global,
    threads: u32,
    limit: u32,
    many: usize,
) -> Result<(), Fail>
    requires threads { threads ≤ 64 }
{
    let job = job(alloc, IN_TWO, "b\na\n")?;
    let mut gates = pair(alloc, limit)?;
    let plan = plan(alloc);
    let hands = Hands::Shared(threads);
    let Ran { end, .. } = run_job(rt, alloc, job, LineKit, Sha1Namer, &mut gates, plan, hands);
    assert!(rt; answers(&end));
    assert_eq!(rt; met(gates.as_slice()), many);
    Ok(())
}

#[test]
fn two_threads_perform_two_tasks_at_the_same_time(rt: HostRuntime) -> Result<(), Fail> {
    meets(rt, rt.alloc(), 2, 1_000_000_000, 2)
}

#[test]
fn one_thread_performs_one_task_after_the_other(rt: HostRuntime) -> Result<(), Fail> {
    meets(rt, rt.alloc(), 1, 1_000, 1)
}

#[test]
fn with_no_thread_the_caller_performs_them(rt: HostRuntime) -> Result<(), Fail> {
    meets(rt, rt.alloc(), 0, 1_000, 1)
}
