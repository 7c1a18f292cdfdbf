// The word count in three parts on five workers that share two threads, where none is lost and where one is.

ghost use Rattle.std.specs.Prelude.{◌≡◌, ◌<◌, ◌∷◌, [], ℕ, IfOk, length};
ghost use Rattle.ciel_journal.specs.Job.{Each};

use crate::counting::{IN_THREE, job};
use ciel_gate::recorder::Recorder;
use ciel_master::entry::Entry;
use ciel_master::plan::{Losses, RunPlan};
use ciel_master::stop::RunEnd;
use ciel_name::name::Sha1Namer;
use ciel_run_job::hands::Hands;
use ciel_run_job::run::{Ran, run_job};
use line_kit::kit::LineKit;
use sky_base::object::TaskId;
use std::alloc::Global;
use std::process::Abort;
use std::sync::Wait;
use std::test::Fail;
use std::thread::Threads;

// The gates of five workers, each with room for so many tasks.
fn recorders(alloc: Global) -> Result<Vec<Recorder>, Fail>
    ensures { IfOk result (λ gates. length gates.items ≡ 5) }
{
    let mut gates = Vec::new(alloc);
    for _ in 0..5 {
        gates.push(Recorder::new(alloc, 40)?)?;
    }
    if gates.len() != 5 {
        return Err(Fail::from("gates"));
    }
    Ok(gates)
}

// Five workers, none of which is lost.
fn keeping(alloc: Global) -> RunPlan
    ensures { (result.workers ≡ 5) × (result.losses ≡ []) }
{
    RunPlan {
        workers: 5,
        seed: 0,
        losses: Losses::of(Vec::new(alloc)),
    }
}

// Five workers, of which this one is lost after so many tasks.
fn losing(alloc: Global, after: u32, worker: u32) -> Result<RunPlan, Fail>
    ensures { IfOk result (λ plan. (plan.workers ≡ 5) × (plan.losses ≡ (after, worker) ∷ [])) }
{
    let mut losses = Vec::new(alloc);
    losses.push((after, worker))?;
    Ok(RunPlan {
        workers: 5,
        seed: 0,
        losses: Losses::of(losses),
    })
}

// The tasks that were started at a worker.
fn started(alloc: Global, journal: &[Entry], at: u32) -> Result<Vec<TaskId>, Fail> {
    let mut tasks = Vec::new(alloc);
    for entry in journal {
        if let Entry::Start { worker, task, .. } = entry
            && *worker == at
        {
            tasks.push(*task)?;
        }
    }
    Ok(tasks)
}

// Whether each gate tells the tasks that were started at its worker.
fn all_tell(alloc: Global, journal: &[Entry], gates: &[Recorder]) -> Result<bool, Fail> {
    let mut at = 0u32;
    for gate in gates {
        let tasks = started(alloc, journal, at)?;
        if gate.tasks() != tasks.as_slice() {
            return Ok(false);
        }
        at = at.saturating_add(1);
    }
    Ok(at == 5)
}

fn answers(end: &RunEnd) -> bool {
    match end {
        RunEnd::Answer(bytes) => bytes.as_slice() == b"1 a\n2 b\n".as_slice(),
        _ => false,
    }
}

// The run by this plan answers, and the gates tell what it started.
fn is_right<R: Abort + Threads + Wait + Copy + Send + Drop + 'static>(
    rt: R,
    alloc: Global,
    plan: RunPlan,
) -> Result<(), Fail>
    requires workers { plan.workers ≡ 5 }
    requires losses { Each (λ (loss : ℕ × ℕ). loss.1 < plan.workers) plan.losses }
{
    let job = job(alloc, IN_THREE, "b\na\nb\n")?;
    let mut gates = recorders(alloc)?;
    let hands = Hands::Shared(2);
    let Ran { end, journal } = run_job(rt, alloc, job, LineKit, Sha1Namer, &mut gates, plan, hands);
    assert!(rt; answers(&end));
    let told = all_tell(alloc, journal.as_slice(), gates.as_slice())?;
    assert!(rt; told);
    Ok(())
}

#[test]
fn five_workers_share_two_threads(rt: HostRuntime) -> Result<(), Fail> {
    is_right(rt, rt.alloc(), keeping(rt.alloc()))
}

#[test]
fn what_is_lost_is_made_again(rt: HostRuntime) -> Result<(), Fail> {
    for after in 0..7 {
        for worker in 0..5 {
            let plan = losing(rt.alloc(), after, worker)?;
            is_right(rt, rt.alloc(), plan)?;
        }
    }
    Ok(())
}
