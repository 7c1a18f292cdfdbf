// A run whose names clash: with a digest that gives every description one name, the second one is told, with the first.

ghost use Rattle.std.specs.Prelude.{◌≡◌, IfOk, length};

use ciel_gate::open::Open;
use ciel_master::plan::{Losses, RunPlan};
use ciel_master::stop::RunEnd;
use ciel_name::name::WeakNamer;
use ciel_run_job::hands::Hands;
use ciel_run_job::run::{Ran, run_job};
use line_kit::kit::LineKit;
use sky_base::job::{Inputs, Job};
use sky_base::script::Texts;
use sky_machine_test_scripts::script::script_over;
use std::alloc::Global;
use std::sync::Wait;
use std::test::Fail;
use std::thread::Threads;

// A gate for the one worker.
fn gates(alloc: Global) -> Result<Vec<Open>, Fail>
    ensures { IfOk result (λ gates. length gates.items ≡ 64) }
{
    match Vec::from_elem(alloc, Open, 64) {
        Ok(gates) => Ok(gates),
        Err(_) => Err(Fail::from("memory")),
    }
}

// The run of a script on one worker, where all descriptions have one name.
fn ran<R: Threads + Wait + Copy + Send + Drop + 'static>(
    rt: R,
    alloc: Global,
    text: &str,
) -> Result<Ran, Fail> {
    let script = script_over(alloc, text, Texts::of(Vec::new(alloc)))?;
    let mut gates = gates(alloc)?;
    let job = Job {
        script,
        inputs: Inputs::of(Vec::new(alloc)),
    };
    let plan = RunPlan {
        workers: 1,
        seed: 0,
        losses: Losses::of(Vec::new(alloc)),
    };
    Ok(run_job(
        rt,
        alloc,
        job,
        LineKit,
        WeakNamer(0),
        &mut gates,
        plan,
        Hands::Caller,
    ))
}

// The canonical bytes of the main call, and of the call `f` of 3.
static MAIN: [u8; 9] = [67, 0, 0, 0, 0, 0, 0, 0, 0];

static OF_THREE: [u8; 19] = [67, 0, 0, 0, 1, 102, 0, 0, 0, 1, 3, 0, 0, 0, 0, 0, 0, 0, 3];

fn clashes(end: &RunEnd) -> bool {
    match end {
        RunEnd::NameClash { kept, given } => kept.as_slice() == MAIN.as_slice()
            && given.as_slice() == OF_THREE.as_slice(),
        _ => false,
    }
}

#[test]
fn two_descriptions_of_one_name(rt: HostRuntime) -> Result<(), Fail> {
    let ran = ran(
        rt,
        rt.alloc(),
        "function f(x) { return x; } return *spawn(f, [3]);",
    )?;
    assert!(&rt; clashes(&ran.end));
    Ok(())
}

// Two equal spawns are one description, and it is the main call that clashes with it.
#[test]
fn equal_spawns_clash_with_the_main_call(rt: HostRuntime) -> Result<(), Fail> {
    let text = "function f(x) { return x; } a = spawn(f, [3]); b = spawn(f, [3]); return *a;";
    let ran = ran(rt, rt.alloc(), text)?;
    assert!(&rt; clashes(&ran.end));
    Ok(())
}

fn answers(end: &RunEnd) -> bool {
    match end {
        RunEnd::Answer(bytes) => bytes.as_slice() == b"7\n".as_slice(),
        _ => false,
    }
}

#[test]
fn one_description_has_its_answer(rt: HostRuntime) -> Result<(), Fail> {
    let ran = ran(rt, rt.alloc(), "return 7;")?;
    assert!(&rt; answers(&ran.end));
    Ok(())
}
