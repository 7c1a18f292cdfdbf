// A master that has started nothing, and the replay of a log by it.

ghost use Rattle.std.specs.Prelude.{◌≡◌, ◌<◌, ◌^◌, IfOk, true, length};
ghost use Rattle.std.specs.Arc.{arc_value};
ghost use Rattle.sky_base.specs.JobView.{job_view};
ghost use Rattle.ciel_log_file.specs.Sending.{nobody};
ghost use Rattle.ciel_run_drive.specs.Working.{Working};
ghost use Rattle.ciel_run_job.specs.Onward.{IsRead};
ghost use Rattle.ciel_task_order.specs.Shop.{InputsInOrder};

use crate::logs::HEADER;
use ciel_log_file::refusal::{LogRefusal, Replayed};
use ciel_log_file::replay::replay;
use ciel_master::plan::{Losses, RunPlan};
use ciel_name::name::{Namer, Sha1Namer};
use ciel_run_job::opening::{Opened, open};
use line_kit::kit::LineKit;
use sky_base::job::{Inputs, Job};
use sky_base::kit::Kit;
use sky_base::script::Texts;
use sky_machine_test_scripts::script::script_over;
use sky_parse_law::law::functions_are_orderly;
use std::alloc::Global;
use std::sync::Wait;
use std::test::Fail;

// The job of a script that returns 5.
fn job(alloc: Global) -> Result<Job, Fail>
    ensures read { IfOk result (λ job. IsRead (job_view job).script) }
    ensures inputs { IfOk result (λ job. InputsInOrder (job_view job)) }
    ensures keys { IfOk result (λ job. length job.script.keys < 2 ^ 32) }
{
    let script = script_over(alloc, "return 5;", Texts::of(Vec::new(alloc)))?;
    Ok(Job {
        script,
        inputs: Inputs::of(Vec::new(alloc)),
    })
}

// What its run by one worker begins with.
fn opened<K: Kit + Drop, N: Namer + Drop>(
    alloc: Global,
    kit: K,
    namer: N,
) -> Result<Opened<K, N>, Fail>
    ensures working { IfOk result (λ o. Working K.gives N.digest (arc_value o.shop) true o.master (nobody o.master.board.plan.workers)) }
    ensures first { IfOk result (λ o. o.master.board.starts ≡ 0) }
{
    functions_are_orderly();
    let plan = RunPlan {
        workers: 1,
        seed: 0,
        losses: Losses::of(Vec::new(alloc)),
    };
    let job = job(alloc)?;
    let opened = open(alloc, job, kit, namer, plan)?;
    Ok(opened)
}

// What comes of a log, with these executors and names.
fn replayed_with<K: Kit + Drop, N: Namer + Drop, R: Wait>(
    rt: &R,
    alloc: Global,
    kit: K,
    namer: N,
    log: &[u8],
) -> Result<Result<Replayed, LogRefusal>, Fail> {
    let mut opened = opened(alloc, kit, namer)?;
    let came = replay(
        rt,
        alloc,
        &mut opened.master,
        &opened.shop,
        log,
        HEADER.as_slice(),
    );
    Ok(came)
}

/// What comes of a log.
pub fn replayed<R: Wait>(
    rt: &R,
    alloc: Global,
    log: &[u8],
) -> Result<Result<Replayed, LogRefusal>, Fail> {
    let came = replayed_with(rt, alloc, LineKit, Sha1Namer, log)?;
    Ok(came)
}
