// The rows.

ghost use Rattle.std.specs.Prelude.{◌≡◌, ◌<◌, ◌≤◌, ℕ};
ghost use Rattle.ciel_journal.specs.Job.{Each};

use crate::run::{Came, keeping, losing, run};
use ciel_master::plan::RunPlan;
use ciel_master::stop::RunEnd;
use std::alloc::Global;
use std::process::Abort;
use std::sync::Wait;
use std::test::Fail;
use std::thread::Threads;

// The words of a text, and how often each stands there.
static COUNTED: &str = concat!(
    "w = spawn_exec(\"words\", {\"in\": ref(\"t\")}, 1)[0]; ",
    "return spawn_exec(\"tally\", {\"in\": w}, 1)[0];",
);

// The same through two more executors that hand out their lines.
static THROUGH: &str = concat!(
    "w = spawn_exec(\"words\", {\"in\": ref(\"t\")}, 1)[0]; ",
    "c = spawn_exec(\"cat\", {\"in\": w}, 1)[0]; ",
    "h = spawn_exec(\"head\", {\"in\": c, \"lines\": 1000}, 1)[0]; ",
    "return spawn_exec(\"tally\", {\"in\": h}, 1)[0];",
);

// The second of three parts.
static SECOND: &str = concat!(
    "ps = spawn_exec(\"deal\", {\"in\": ref(\"t\")}, 3); ",
    "return spawn_exec(\"tally\", {\"in\": ps[1]}, 1)[0];",
);

// A producer whose arguments are wrong.
static WRONG: &str = concat!(
    "w = spawn_exec(\"grep\", {\"in\": ref(\"t\")}, 1)[0]; ",
    "return spawn_exec(\"tally\", {\"in\": w}, 1)[0];",
);

fn answers(end: &RunEnd, bytes: &[u8]) -> bool {
    match end {
        RunEnd::Answer(answer) => answer.as_slice() == bytes,
        _ => false,
    }
}

// The run by this plan answers so, and so many orders were answered with what was computed ahead.
fn is_right<R: Abort + Threads + Wait + Copy + Send + Drop + 'static>(
    rt: R,
    script: &str,
    input: &[u8],
    plan: RunPlan,
    bytes: &[u8],
    ahead: Option<u64>,
    alloc: Global,
) -> Result<(), Fail>
    requires workers { (0 < plan.workers) × (plan.workers ≤ 64) }
    requires losses { Each (λ (loss : ℕ × ℕ). loss.1 < plan.workers) plan.losses }
{
    let Came { end, followed } = run(rt, alloc, script, input, plan)?;
    assert!(rt; answers(&end, bytes));
    assert!(rt; ahead.is_none() || ahead == Some(followed));
    Ok(())
}

#[test]
fn a_count_begins_while_the_words_are_cut(rt: HostRuntime) -> Result<(), Fail> {
    let alloc = rt.alloc();
    is_right(
        rt,
        COUNTED,
        b"b a b",
        keeping(alloc, 2),
        b"1 a\n2 b\n",
        Some(1),
        alloc,
    )
}

#[test]
fn one_worker_has_no_other(rt: HostRuntime) -> Result<(), Fail> {
    let alloc = rt.alloc();
    is_right(
        rt,
        COUNTED,
        b"b a b",
        keeping(alloc, 1),
        b"1 a\n2 b\n",
        Some(0),
        alloc,
    )
}

#[test]
fn what_was_computed_ahead_is_handed_on(rt: HostRuntime) -> Result<(), Fail> {
    let alloc = rt.alloc();
    is_right(
        rt,
        THROUGH,
        b"b a b",
        keeping(alloc, 3),
        b"1 a\n2 b\n",
        Some(3),
        alloc,
    )
}

#[test]
fn one_of_several_outputs_is_followed(rt: HostRuntime) -> Result<(), Fail> {
    let alloc = rt.alloc();
    is_right(
        rt,
        SECOND,
        b"a\nb\nc\nd\ne\n",
        keeping(alloc, 2),
        b"1 b\n1 e\n",
        Some(1),
        alloc,
    )
}

#[test]
fn a_stream_of_a_fault_leaves_nothing(rt: HostRuntime) -> Result<(), Fail> {
    let alloc = rt.alloc();
    let Came { end, followed } = run(rt, alloc, WRONG, b"b a b", keeping(alloc, 2))?;
    assert!(rt; !matches!(end, RunEnd::Answer(_)));
    assert!(rt; followed == 0);
    Ok(())
}

#[test]
fn what_is_lost_is_made_again(rt: HostRuntime) -> Result<(), Fail> {
    for after in 0..7 {
        for worker in 0..3 {
            let alloc = rt.alloc();
            let plan = losing(alloc, after, worker)?;
            is_right(rt, COUNTED, b"b a b", plan, b"1 a\n2 b\n", None, alloc)?;
        }
    }
    Ok(())
}
