// The two squares: the order of the starts with one worker, and the same objects whatever number of workers there is, whichever is
// lost, and on threads.

ghost use Rattle.std.specs.Prelude.{◌<◌, ◌≤◌, ℕ};
ghost use Rattle.ciel_journal.specs.Job.{Each};

use crate::job::{gates, job, losing, plan};
use crate::journal::{MAIN, OF_FOUR, OF_THREE, count_objects, objects_are_right, starts_are};
use ciel_master::plan::RunPlan;
use ciel_master::stop::RunEnd;
use ciel_name::name::Sha1Namer;
use ciel_run_job::hands::Hands;
use ciel_run_job::run::{Ran, run_inline, run_job};
use line_kit::kit::LineKit;
use sky_base::name::Name;
use sky_base::object::TaskId;
use std::alloc::Global;
use std::process::Abort;
use std::sync::Wait;
use std::test::Fail;
use std::thread::Threads;

// The run in this thread, by this plan.
fn ran<R: Wait + Drop>(rt: R, alloc: Global, plan: RunPlan) -> Result<Ran, Fail>
    requires workers { (0 < plan.workers) × (plan.workers ≤ 5) }
    requires losses { Each (λ (loss : ℕ × ℕ). loss.1 < plan.workers) plan.losses }
{
    let job = job(alloc)?;
    let mut gates = gates(alloc)?;
    Ok(run_inline(rt, alloc, job, LineKit, Sha1Namer, &mut gates, plan))
}

fn is_sum(end: &RunEnd) -> bool {
    match end {
        RunEnd::Answer(bytes) => bytes.as_slice() == b"25\n".as_slice(),
        _ => false,
    }
}

// It comes to the sum, by the right objects.
fn is_right(rt: &impl Abort, ran: &Ran) {
    assert!(rt; is_sum(&ran.end));
    assert!(rt; objects_are_right(ran.journal.as_slice()));
    assert!(rt; count_objects(ran.journal.as_slice()) >= 3);
}

// The task of the call of this name.
fn call(name: [u8; 20]) -> TaskId {
    TaskId::Of(Name::short(name))
}

#[test]
fn one_worker_starts_them_in_turn(rt: HostRuntime) -> Result<(), Fail> {
    let starts = [
        (call(MAIN), 0),
        (call(OF_THREE), 0),
        (call(MAIN), 1),
        (call(OF_FOUR), 0),
        (call(MAIN), 2),
        (TaskId::Show, 0),
    ];
    let ran = ran(rt, rt.alloc(), plan(rt.alloc(), 1))?;
    is_right(&rt, &ran);
    assert_eq!(&rt; count_objects(ran.journal.as_slice()), 3);
    assert!(&rt; starts_are(ran.journal.as_slice(), starts.as_slice()));
    Ok(())
}

#[test]
fn one_thread_serves_any_number_of_workers(rt: HostRuntime) -> Result<(), Fail> {
    for workers in [2, 5] {
        let ran = ran(rt, rt.alloc(), plan(rt.alloc(), workers))?;
        is_right(&rt, &ran);
    }
    Ok(())
}

#[test]
fn what_is_lost_is_made_again(rt: HostRuntime) -> Result<(), Fail> {
    for after in 0..7 {
        for worker in 0..2 {
            let plan = losing(rt.alloc(), after, worker)?;
            let ran = ran(rt, rt.alloc(), plan)?;
            is_right(&rt, &ran);
        }
    }
    Ok(())
}

fn ran_on_threads<R: Threads + Wait + Copy + Send + Drop + 'static>(
    rt: R,
    alloc: Global,
) -> Result<Ran, Fail> {
    let job = job(alloc)?;
    let mut gates = gates(alloc)?;
    let plan = plan(alloc, 2);
    Ok(run_job(
        rt,
        alloc,
        job,
        LineKit,
        Sha1Namer,
        &mut gates,
        plan,
        Hands::Own,
    ))
}

#[test]
fn threads_make_the_same_objects(rt: HostRuntime) -> Result<(), Fail> {
    let ran = ran_on_threads(rt, rt.alloc())?;
    is_right(&rt, &ran);
    Ok(())
}
