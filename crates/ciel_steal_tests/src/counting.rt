//! The word count in parts.

ghost use Rattle.std.specs.Prelude.{◌≡◌, ◌<◌, ◌^◌, ℕ, IfOk, List, length, map};
ghost use Rattle.sky_base.specs.JobView.{job_view};
ghost use Rattle.ciel_run_job.specs.Onward.{IsRead};
ghost use Rattle.ciel_task_order.specs.Shop.{InputsInOrder};

use sky_base::job::{Inputs, Job};
use sky_base::script::Texts;
use sky_base::text::{Bytes, Txt};
use sky_machine_test_scripts::script::script_over;
use std::alloc::Global;
use std::test::Fail;

/// In three parts.
pub(crate) static IN_THREE: &str = concat!(
    "ps = spawn_exec(\"split\", {\"in\": ref(\"t\")}, 3); ts = []; for (p in ps) ",
    "{ ts += spawn_exec(\"tally\", {\"in\": p}, 1)[0]; } ",
    "return spawn_exec(\"sum\", {\"in\": ts}, 1)[0];",
);

/// In two.
pub(crate) static IN_TWO: &str = concat!(
    "ps = spawn_exec(\"split\", {\"in\": ref(\"t\")}, 2); ts = []; for (p in ps) ",
    "{ ts += spawn_exec(\"tally\", {\"in\": p}, 1)[0]; } ",
    "return spawn_exec(\"sum\", {\"in\": ts}, 1)[0];",
);

// The one input, with its name.
fn inputs(alloc: Global, input: &str) -> Result<(Texts, Inputs), Fail>
    ensures named { IfOk result (λ r. map (λ (x : List ℕ × List ℕ). x.0) r.1 ≡ r.0) }
    ensures one { IfOk result (λ r. length r.0 ≡ 1) }
{
    let mut keys = Vec::new(alloc);
    keys.push(Txt::new(alloc, "t")?)?;
    let mut items = Vec::new(alloc);
    items.push((
        Txt::new(alloc, "t")?,
        Bytes::new(alloc, Vec::from_slice(alloc, input.as_bytes())?)?,
    ))?;
    Ok((Texts::of(keys), Inputs::of(items)))
}

/// The job of this script over this input.
pub(crate) fn job(alloc: Global, script: &str, input: &str) -> Result<Job, Fail>
    ensures read { IfOk result (λ job. IsRead (job_view job).script) }
    ensures inputs { IfOk result (λ job. InputsInOrder (job_view job)) }
    ensures keys { IfOk result (λ job. length job.script.keys < 2 ^ 32) }
{
    let (keys, inputs) = inputs(alloc, input)?;
    let script = script_over(alloc, script, keys)?;
    Ok(Job { script, inputs })
}
