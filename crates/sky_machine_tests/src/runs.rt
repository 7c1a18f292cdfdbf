// The main call of a script, step by step.

ghost use Rattle.std.specs.Prelude.{◌≡◌, ◌≤◌, [], IfOk, length};
ghost use Rattle.sky_state.specs.Fits.{Fits};
ghost use Rattle.sky_state.specs.StateView.{stand_of};
ghost use Rattle.sky_machine.specs.Onward.{IsRead, AnswersSound};
ghost use Rattle.sky_machine_tests.specs.Rows.{FitsUnless};

use crate::made::{Ended, in_numbers};
use ciel_name::name::Sha1Namer;
use sky_base::object::Object;
use sky_machine::resume::resume;
use sky_machine::step::Step;
use sky_machine_numbers::code::Numbered;
use sky_state::state::State;
use std::alloc::Global;
use std::test::Fail;

/// The call begins, or goes on from its wait with these objects: its end, or none where it waits.
pub fn resumed(
    alloc: Global,
    script: &Numbered,
    state: &mut State,
    answers: &[Object],
) -> Result<Option<Ended>, Fail>
    requires same { script.now.nodes ≡ script.now.code }
    requires read { IsRead script.now.code }
    requires fits { Fits script.now.code (stand_of state.old) }
    requires answers { AnswersSound script.now.code answers.now }
    ensures { IfOk result (λ s. FitsUnless script.now.code (stand_of state.new) s) }
{
    match resume(alloc, script, state, answers, &Sha1Namer)? {
        Step::Ended(object) => Ok(Some(in_numbers(&object))),
        Step::Waits => Ok(None),
        Step::Shown(_) => Err(Fail::from("no call")),
    }
}
