// An object that is lost while the order that reads it is out: by rounds, the order is performed only after the loss.

ghost use Rattle.std.specs.Prelude.{◌≡◌, ◌∷◌, [], IfOk, length};

use crate::same::are_same;
use ciel_gate::open::Open;
use ciel_master::entry::Entry;
use ciel_master::plan::{Losses, RunPlan};
use ciel_master::stop::RunEnd;
use ciel_name::name::Sha1Namer;
use ciel_run_job::run::Ran;
use ciel_run_rounds::run::run_rounds;
use line_kit::kit::LineKit;
use sky_base::job::{Inputs, Job};
use sky_base::script::Texts;
use sky_machine_test_scripts::script::script_over;
use std::alloc::Global;
use std::sync::Wait;
use std::test::Fail;
use std::thread::Threads;

// The gates of two workers.
fn gates(alloc: Global) -> Result<Vec<Open>, Fail>
    ensures { IfOk result (λ gates. length gates.items ≡ 2) }
{
    match Vec::from_elem(alloc, Open, 2) {
        Ok(gates) => Ok(gates),
        Err(_) => Err(Fail::from("memory")),
    }
}

// The plan. By its draws the first call and what comes behind it run at worker 1, and then the calls of 5 and of 6 at both workers, in one
// round. When the report of worker 0 is taken, the call of `h` is sent there, and when that of worker 1 is, worker 1 is lost: six Starts are
// closed. Only then is the call of `h` performed.
fn plan(alloc: Global) -> Result<RunPlan, Fail>
    ensures { IfOk result (λ plan. (plan.workers ≡ 2) × (plan.losses ≡ (6, 1) ∷ [])) }
{
    let mut losses = Vec::new(alloc);
    losses.push((6, 1))?;
    Ok(RunPlan {
        workers: 2,
        seed: 4,
        losses: Losses::of(losses),
    })
}

fn ran<R: Threads + Wait + Copy + Send + Drop + 'static>(
    rt: R,
    alloc: Global,
) -> Result<Ran, Fail> {
    let text = concat!(
        "function f(x) { return x; } function h(r) { return *r + 1; } ",
        "a = spawn(f, [3]); x = *a; return [spawn(h, [a]), spawn(f, [5]), spawn(f, [6])];",
    );
    let script = script_over(alloc, text, Texts::of(Vec::new(alloc)))?;
    let job = Job {
        script,
        inputs: Inputs::of(Vec::new(alloc)),
    };
    let mut gates = gates(alloc)?;
    let plan = plan(alloc)?;
    Ok(run_rounds(rt, alloc, job, LineKit, Sha1Namer, &mut gates, plan))
}

// How many entries tell that something was missing with the one loss.
fn missed(journal: &[Entry]) -> usize {
    let mut count = 0usize;
    for entry in journal {
        if let Entry::Missed { lost: 0, .. } = entry {
            count = count.saturating_add(1);
        }
    }
    count
}

fn answers(end: &RunEnd) -> bool {
    match end {
        RunEnd::Answer(bytes) => bytes.as_slice() == b"[4,5,6]\n".as_slice(),
        _ => false,
    }
}

#[test]
fn what_is_missing_is_made_again(rt: HostRuntime) -> Result<(), Fail> {
    let one = ran(rt, rt.alloc())?;
    let other = ran(rt, rt.alloc())?;
    assert!(&rt; answers(&one.end));
    assert_eq!(&rt; missed(one.journal.as_slice()), 1);
    assert!(&rt; are_same(one.journal.as_slice(), other.journal.as_slice()));
    Ok(())
}
