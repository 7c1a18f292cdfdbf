// Runs by rounds: with one seed the journal is the same each time, and the answer is that of the run in one thread.

ghost use Rattle.std.specs.Prelude.{◌≡◌, ◌^◌, ◌<◌, ◌≤◌, [], IfOk, length};
ghost use Rattle.sky_base.specs.JobView.{job_view};
ghost use Rattle.ciel_run_job.specs.Onward.{IsRead};
ghost use Rattle.ciel_task_order.specs.Shop.{InputsInOrder};

use crate::same::are_same;
use ciel_gate::open::Open;
use ciel_master::plan::{Losses, RunPlan};
use ciel_master::stop::RunEnd;
use ciel_name::name::Sha1Namer;
use ciel_run_job::run::{Ran, run_inline};
use ciel_run_rounds::run::run_rounds;
use line_kit::kit::LineKit;
use sky_base::job::{Inputs, Job};
use sky_base::script::Texts;
use sky_machine_test_scripts::script::script_over;
use std::alloc::Global;
use std::sync::Wait;
use std::test::Fail;
use std::thread::Threads;

// The sum of the squares of the numbers below 8, by eight tasks.
fn job(alloc: Global) -> Result<Job, Fail>
    ensures read { IfOk result (λ job. IsRead (job_view job).script) }
    ensures inputs { IfOk result (λ job. InputsInOrder (job_view job)) }
    ensures keys { IfOk result (λ job. length job.script.keys < 2 ^ 32) }
{
    let text = concat!(
        "function f(x) { return x * x; } rs = []; i = 0; ",
        "while (i < 8) { rs += spawn(f, [i]); i += 1; } ",
        "s = 0; for (r in rs) { s += *r; } return s;",
    );
    let script = script_over(alloc, text, Texts::of(Vec::new(alloc)))?;
    Ok(Job {
        script,
        inputs: Inputs::of(Vec::new(alloc)),
    })
}

// Three workers, none of which is lost.
fn plan(alloc: Global, seed: u64) -> RunPlan
    ensures { (result.workers ≡ 3) × (result.losses ≡ []) }
{
    RunPlan {
        workers: 3,
        seed,
        losses: Losses::of(Vec::new(alloc)),
    }
}

fn gates(alloc: Global) -> Result<Vec<Open>, Fail>
    ensures { IfOk result (λ gates. length gates.items ≡ 3) }
{
    match Vec::from_elem(alloc, Open, 3) {
        Ok(gates) => Ok(gates),
        Err(_) => Err(Fail::from("memory")),
    }
}

// The run by rounds with this seed.
fn ran<R: Threads + Wait + Copy + Send + Drop + 'static>(
    rt: R,
    alloc: Global,
    seed: u64,
) -> Result<Ran, Fail> {
    let job = job(alloc)?;
    let mut gates = gates(alloc)?;
    let plan = plan(alloc, seed);
    Ok(run_rounds(rt, alloc, job, LineKit, Sha1Namer, &mut gates, plan))
}

// The same in one thread.
fn ran_inline<R: Wait + Drop>(rt: R, alloc: Global, seed: u64) -> Result<Ran, Fail> {
    let job = job(alloc)?;
    let mut gates = gates(alloc)?;
    let plan = plan(alloc, seed);
    Ok(run_inline(rt, alloc, job, LineKit, Sha1Namer, &mut gates, plan))
}

fn is_sum(end: &RunEnd) -> bool {
    match end {
        RunEnd::Answer(bytes) => bytes.as_slice() == b"140\n".as_slice(),
        _ => false,
    }
}

#[test]
fn one_seed_has_one_journal(rt: HostRuntime) -> Result<(), Fail> {
    for seed in 0..4 {
        let one = ran(rt, rt.alloc(), seed)?;
        let other = ran(rt, rt.alloc(), seed)?;
        assert!(&rt; are_same(one.journal.as_slice(), other.journal.as_slice()));
        assert!(&rt; is_sum(&one.end) && is_sum(&other.end));
    }
    Ok(())
}

#[test]
fn the_answer_is_that_of_one_thread(rt: HostRuntime) -> Result<(), Fail> {
    for seed in 0..4 {
        let one = ran(rt, rt.alloc(), seed)?;
        let other = ran_inline(rt, rt.alloc(), seed)?;
        assert!(&rt; is_sum(&one.end) && is_sum(&other.end));
    }
    Ok(())
}

#[test]
fn seeds_have_journals_of_their_own(rt: HostRuntime) -> Result<(), Fail> {
    let one = ran(rt, rt.alloc(), 0)?;
    let other = ran(rt, rt.alloc(), 1)?;
    assert!(&rt; !are_same(one.journal.as_slice(), other.journal.as_slice()));
    Ok(())
}
