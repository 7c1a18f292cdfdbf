// The run of a job over the crew with streams, which is asked how many orders it answered with what was computed ahead.

ghost use Rattle.std.specs.Prelude.{◌≡◌, ◌<◌, ◌≤◌, ◌^◌, ◌∷◌, [], ℕ, List, IfOk, length, map};
ghost use Rattle.std.specs.Arc.{arc_value};
ghost use Rattle.sky_base.specs.JobView.{job_view};
ghost use Rattle.ciel_journal.specs.Job.{Each};
ghost use Rattle.ciel_run_job.specs.Kinds.{IsOverLines};
ghost use Rattle.ciel_run_job.specs.Onward.{IsRead};
ghost use Rattle.ciel_run_job.specs.Opened.{IsOpened};
ghost use Rattle.ciel_task_order.specs.Shop.{InputsInOrder};

use ciel_flow::crew::Crew;
use ciel_flow::streams::Streams;
use ciel_gate::gate::Gate;
use ciel_gate::open::Open;
use ciel_master::plan::{Losses, RunPlan};
use ciel_master::stop::RunEnd;
use ciel_name::name::{Namer, Sha1Namer};
use ciel_run_drive::drive::drive;
use ciel_run_job::opening::Opened;
use ciel_run_job::run::{Begun, begin};
use line_flow::kit::FlowKit;
use sky_base::job::{Inputs, Job};
use sky_base::kit::Kit;
use sky_base::script::Texts;
use sky_base::text::{Bytes, Txt};
use sky_machine_test_scripts::script::script_over;
use sky_parse_law::law::functions_are_orderly;
use std::alloc::Global;
use std::snapshot::Snapshot;
use std::sync::Wait;
use std::test::Fail;
use std::thread::Threads;

// The one input, with its name.
fn inputs(alloc: Global, input: &[u8]) -> Result<(Texts, Inputs), Fail>
    ensures named { IfOk result (λ r. map (λ (x : List ℕ × List ℕ). x.0) r.1 ≡ r.0) }
    ensures one { IfOk result (λ r. length r.0 ≡ 1) }
{
    let mut keys = Vec::new(alloc);
    keys.push(Txt::new(alloc, "t")?)?;
    let mut items = Vec::new(alloc);
    items.push((
        Txt::new(alloc, "t")?,
        Bytes::new(alloc, Vec::from_slice(alloc, input)?)?,
    ))?;
    Ok((Texts::of(keys), Inputs::of(items)))
}

// The job of this script over this input.
fn job(alloc: Global, script: &str, input: &[u8]) -> Result<Job, Fail>
    ensures read { IfOk result (λ job. IsRead (job_view job).script) }
    ensures inputs { IfOk result (λ job. InputsInOrder (job_view job)) }
    ensures keys { IfOk result (λ job. length job.script.keys < 2 ^ 32) }
{
    let (keys, inputs) = inputs(alloc, input)?;
    let script = script_over(alloc, script, keys)?;
    Ok(Job { script, inputs })
}

// So many workers, none of which is lost.
pub(crate) fn keeping(alloc: Global, workers: u32) -> RunPlan
    ensures { (result.workers ≡ workers) × (result.losses ≡ []) }
{
    RunPlan {
        workers,
        seed: 0,
        losses: Losses::of(Vec::new(alloc)),
    }
}

// Three workers, of which this one is lost after so many tasks.
pub(crate) fn losing(alloc: Global, after: u32, worker: u32) -> Result<RunPlan, Fail>
    ensures { IfOk result (λ plan. (plan.workers ≡ 3) × (plan.losses ≡ (after, worker) ∷ [])) }
{
    let mut losses = Vec::new(alloc);
    losses.push((after, worker))?;
    Ok(RunPlan {
        workers: 3,
        seed: 0,
        losses: Losses::of(losses),
    })
}

// Gates for so many workers.
fn gates(alloc: Global, workers: u32) -> Result<Vec<Open>, Fail>
    ensures { IfOk result (λ gates. length gates.items ≡ workers) }
{
    let mut gates = Vec::new(alloc);
    for _worker in 0..workers {
        gates.push(Open)?;
    }
    Ok(gates)
}

/// How a run ended, and how many of its orders were answered with what was computed ahead.
#[derive(Drop)]
pub(crate) struct Came {
    pub(crate) end: RunEnd,
    pub(crate) followed: u64,
}

// Runs what was opened over a crew with streams.
fn counted<K, N, G, R>(
    rt: R,
    alloc: Global,
    opened: Opened<K, N>,
    gates: Vec<G>,
    plan: Snapshot<RunPlan>,
    seed: u64,
) -> Result<Came, Fail>
where
    K: Kit + Send + Sync + Drop + 'static,
    N: Namer + Send + Sync + Drop + 'static,
    G: Gate + Send + 'static,
    R: Threads + Wait + Copy + Send + Drop + 'static,
    requires opened { IsOpened N.digest plan.value (arc_value opened.shop) opened.master opened.eyes.items }
    requires read { IsRead (job_view (arc_value opened.shop).job).script }
    requires inputs { InputsInOrder (job_view (arc_value opened.shop).job) }
    requires gates { length gates.items ≡ plan.value.workers }
    requires workers { (0 < plan.value.workers) × (plan.value.workers ≤ 64) }
    requires flow { IsOverLines (K.gives (arc_value opened.shop).kit) }
{
    functions_are_orderly();
    let Opened {
        shop,
        mut master,
        eyes,
    } = opened;
    let Ok(mut crew) = Streams::open(rt, alloc, shop, gates, eyes) else {
        return Err(Fail::from("no crew"));
    };
    let end = drive(&mut master, &mut crew, seed);
    let followed = crew.followed();
    let _ = crew.close();
    Ok(Came { end, followed })
}

/// Runs a script over one input by this plan.
pub(crate) fn run<R: Threads + Wait + Copy + Send + Drop + 'static>(
    rt: R,
    alloc: Global,
    script: &str,
    input: &[u8],
    plan: RunPlan,
) -> Result<Came, Fail>
    requires workers { (0 < plan.workers) × (plan.workers ≤ 64) }
    requires losses { Each (λ (loss : ℕ × ℕ). loss.1 < plan.workers) plan.losses }
{
    let job = job(alloc, script, input)?;
    let mut gates = gates(alloc, plan.workers)?;
    let begun = begin(alloc, job, FlowKit, Sha1Namer, &mut gates, plan)?;
    let Begun {
        opened,
        own,
        plan,
        seed,
        ..
    } = begun;
    let came = counted(rt, alloc, opened, own, plan, seed)?;
    Ok(came)
}
