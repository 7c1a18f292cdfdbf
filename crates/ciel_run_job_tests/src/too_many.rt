// A run that makes one description more than there is room for: how many are held is told, and the one that is new.

ghost use Rattle.std.specs.Prelude.{◌≡◌, IfOk, length};

use ciel_gate::open::Open;
use ciel_master::plan::{Losses, RunPlan};
use ciel_master::stop::RunEnd;
use ciel_name::name::Sha1Namer;
use ciel_run_job::run::{Ran, run_inline};
use line_kit::kit::LineKit;
use sky_base::job::{Inputs, Job};
use sky_base::object::Desc1;
use sky_base::script::Texts;
use sky_base::text::Txt;
use sky_base::value::{Vals, Value};
use sky_machine_test_scripts::script::script_over;
use std::alloc::Global;
use std::sync::Wait;
use std::test::Fail;

fn gates(alloc: Global) -> Result<Vec<Open>, Fail>
    ensures { IfOk result (λ gates. length gates.items ≡ 1) }
{
    match Vec::from_elem(alloc, Open, 1) {
        Ok(gates) => Ok(gates),
        Err(_) => Err(Fail::from("memory")),
    }
}

// The run of a loop that spawns 65,536 calls, so that with the main call there are 65,537 descriptions.
fn ran<R: Wait + Drop>(rt: R, alloc: Global) -> Result<Ran, Fail> {
    let text = concat!(
        "function f(x) { return x; } i = 0; ",
        "while (i < 65536) { r = spawn(f, [i]); i += 1; } return *r;",
    );
    let script = script_over(alloc, text, Texts::of(Vec::new(alloc)))?;
    let mut gates = gates(alloc)?;
    let job = Job {
        script,
        inputs: Inputs::of(Vec::new(alloc)),
    };
    let plan = RunPlan {
        workers: 1,
        seed: 0,
        losses: Losses::of(Vec::new(alloc)),
    };
    Ok(run_inline(rt, alloc, job, LineKit, Sha1Namer, &mut gates, plan))
}

// Whether these are the arguments of the last call.
fn is_last(args: &Vals) -> bool {
    args.len() == 1 && matches!(args.as_slice().first(), Some(Value::Int(65_535)))
}

fn is_last_call(fun: &Txt, args: &Vals) -> bool {
    fun.as_str() == "f" && is_last(args)
}

fn tells(end: &RunEnd) -> bool {
    match end {
        RunEnd::TooMany {
            held,
            given: Desc1::Call { fun, args, .. },
        } => *held == 65_536 && is_last_call(fun, args),
        _ => false,
    }
}

#[test]
fn the_description_too_many_is_told(rt: HostRuntime) -> Result<(), Fail> {
    let ran = ran(rt, rt.alloc())?;
    assert!(&rt; tells(&ran.end));
    Ok(())
}
