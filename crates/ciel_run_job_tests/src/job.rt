// The two squares, and the plans of their runs.

ghost use Rattle.std.specs.Prelude.{◌≡◌, ◌^◌, ◌<◌, ◌∷◌, [], IfOk, length};
ghost use Rattle.sky_base.specs.JobView.{job_view};
ghost use Rattle.ciel_run_job.specs.Onward.{IsRead};
ghost use Rattle.ciel_task_order.specs.Shop.{InputsInOrder};

use ciel_gate::open::Open;
use ciel_master::plan::{Losses, RunPlan};
use sky_base::job::{Inputs, Job};
use sky_base::script::Texts;
use sky_machine_test_scripts::script::script_over;
use std::alloc::Global;
use std::test::Fail;

/// The sum of the squares of 3 and of 4, by two tasks.
pub fn job(alloc: Global) -> Result<Job, Fail>
    ensures read { IfOk result (λ job. IsRead (job_view job).script) }
    ensures inputs { IfOk result (λ job. InputsInOrder (job_view job)) }
    ensures keys { IfOk result (λ job. length job.script.keys < 2 ^ 32) }
{
    let text = concat!(
        "function f(x) { return x * x; } ",
        "a = spawn(f, [3]); b = spawn(f, [4]); return *a + *b;",
    );
    let script = script_over(alloc, text, Texts::of(Vec::new(alloc)))?;
    Ok(Job {
        script,
        inputs: Inputs::of(Vec::new(alloc)),
    })
}

/// So many workers, none of which is lost.
pub fn plan(alloc: Global, workers: u32) -> RunPlan
    ensures { (result.workers ≡ workers) × (result.losses ≡ []) }
{
    RunPlan {
        workers,
        seed: 0,
        losses: Losses::of(Vec::new(alloc)),
    }
}

/// Two workers, of which this one is lost after so many tasks.
pub fn losing(alloc: Global, after: u32, worker: u32) -> Result<RunPlan, Fail>
    ensures { IfOk result (λ plan. (plan.workers ≡ 2) × (plan.losses ≡ (after, worker) ∷ [])) }
{
    let mut losses = Vec::new(alloc);
    losses.push((after, worker))?;
    Ok(RunPlan {
        workers: 2,
        seed: 0,
        losses: Losses::of(losses),
    })
}

/// Gates for five workers.
pub fn gates(alloc: Global) -> Result<Vec<Open>, Fail>
    ensures { IfOk result (λ gates. length gates.items ≡ 5) }
{
    match Vec::from_elem(alloc, Open, 5) {
        Ok(gates) => Ok(gates),
        Err(_) => Err(Fail::from("memory")),
    }
}
