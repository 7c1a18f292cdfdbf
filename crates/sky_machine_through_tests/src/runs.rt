// A task that goes through its waits.

ghost use Rattle.std.specs.Prelude.{◌≡◌, ◌≤◌, [], IfOk, length};
ghost use Rattle.sky_state.specs.Fits.{Fits};
ghost use Rattle.sky_state.specs.StateView.{stand_of};
ghost use Rattle.sky_machine.specs.Onward.{IsRead};
ghost use Rattle.sky_machine_through.specs.Found.{HasAll};
ghost use Rattle.sky_machine_through_tests.specs.Rows.{shelved};

use crate::finder::Shelf;
use ciel_name::name::Sha1Namer;
use sky_base::fault::{Fault, FaultKind};
use sky_base::object::Object;
use sky_base::value::Value;
use sky_machine::step::Step;
use sky_machine_numbers::code::Numbered;
use sky_machine_through::through::run_through;
use sky_state::shown::Shown;
use sky_state::state::State;
use std::alloc::Global;
use std::test::Fail;

/// What a task comes to: the number or the fault that a call ends with, the length of the text that the root task shows, a wait for
/// something that isn't there, or a refusal.
#[derive(Clone, Copy, PartialEq, Eq)]
pub enum Came {
    Int(i64),
    Fault(FaultKind, u32, u32),
    Other,
    Text(usize),
    Waits,
    Refused,
}

fn object(object: &Object) -> Came {
    match object {
        Object::Data(Value::Int(number)) => Came::Int(*number),
        Object::Fault(Fault { kind, line, col }) => Came::Fault(*kind, *line, *col),
        _ => Came::Other,
    }
}

fn answer(shown: &Shown) -> Came {
    match shown {
        Shown::Text(bytes) => Came::Text(bytes.as_slice().len()),
        Shown::Fault(Fault { kind, line, col }) => Came::Fault(*kind, *line, *col),
    }
}

fn step(step: &Step) -> Came {
    match step {
        Step::Ended(ended) => object(ended),
        Step::Waits => Came::Waits,
        Step::Shown(shown) => answer(shown),
    }
}

/// The task goes on, as far as all is found.
pub fn ran(
    alloc: Global,
    script: &Numbered,
    state: &mut State,
    shelf: &mut Shelf,
) -> Result<Came, Fail>
    requires same { script.now.nodes ≡ script.now.code }
    requires read { IsRead script.now.code }
    requires fits { Fits script.now.code (stand_of state.old) }
    requires found { HasAll (shelved shelf.old) (stand_of state.old) }
{
    match run_through(alloc, script, state, shelf, &Sha1Namer)? {
        Ok(came) => Ok(step(&came)),
        Err(_) => Ok(Came::Refused),
    }
}
