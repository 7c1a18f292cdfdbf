// The word count in two parts, whose two tasks that count can run at the same time.

ghost use Rattle.std.specs.Prelude.{◌≡◌, ◌<◌, ◌^◌, ℕ, IfOk, List, length, map};
ghost use Rattle.sky_base.specs.JobView.{job_view};
ghost use Rattle.ciel_run_job_tests.specs.Onward.{IsRead};
ghost use Rattle.ciel_task_order.specs.Shop.{InputsInOrder};

use ciel_master::stop::RunEnd;
use ciel_run_job_tests::script::script_over;
use sky_base::job::{Inputs, Job};
use sky_base::script::Texts;
use sky_base::text::{Bytes, Txt};
use std::alloc::Global;
use std::test::Fail;

/// The name of the task that counts the first part, the line `b`.
pub(crate) static FIRST: [u8; 20] = [
    202, 99, 153, 149, 252, 96, 10, 92, 192, 152, 39, 87, 113, 104, 39, 133, 34, 165, 98, 54,
];

/// The name of the task that counts the second part, the line `a`.
pub(crate) static SECOND: [u8; 20] = [
    14, 11, 165, 156, 150, 224, 186, 198, 8, 27, 105, 125, 73, 94, 243, 172, 41, 173, 93, 58,
];

// The one input, with its name.
fn inputs(alloc: Global) -> Result<(Texts, Inputs), Fail>
    ensures named { IfOk result (λ r. map (λ (x : List ℕ × List ℕ). x.0) r.1 ≡ r.0) }
    ensures one { IfOk result (λ r. length r.0 ≡ 1) }
{
    let mut keys = Vec::new(alloc);
    keys.push(Txt::new(alloc, "t")?)?;
    let mut items = Vec::new(alloc);
    items.push((
        Txt::new(alloc, "t")?,
        Bytes::new(alloc, b"b\na\n".as_slice().to_vec(alloc)?)?,
    ))?;
    Ok((Texts::of(keys), Inputs::of(items)))
}

/// The word count in two parts.
pub(crate) fn job(alloc: Global) -> Result<Job, Fail>
    ensures read { IfOk result (λ job. IsRead (job_view job).script) }
    ensures inputs { IfOk result (λ job. InputsInOrder (job_view job)) }
    ensures keys { IfOk result (λ job. length job.script.keys < 2 ^ 32) }
{
    let text = concat!(
        "ps = spawn_exec(\"split\", {\"in\": ref(\"t\")}, 2); ts = []; for (p in ps) ",
        "{ ts += spawn_exec(\"tally\", {\"in\": p}, 1)[0]; } ",
        "return spawn_exec(\"sum\", {\"in\": ts}, 1)[0];",
    );
    let (keys, inputs) = inputs(alloc)?;
    let script = script_over(alloc, text, keys)?;
    Ok(Job { script, inputs })
}

/// Whether a run ended with both lines and how often each occurs.
pub(crate) fn answers(end: &RunEnd) -> bool {
    match end {
        RunEnd::Answer(bytes) => bytes.as_slice() == b"1 a\n1 b\n".as_slice(),
        _ => false,
    }
}
