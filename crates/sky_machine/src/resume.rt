//! A task goes on from its state.

ghost use Rattle.std.specs.Prelude.{◌≡◌, ◌≤◌, [], ℕ, IfOk, List, map};
ghost use Rattle.sky_base.specs.Kept.{Kept};
ghost use Rattle.sky_base.specs.ObjectView.{object_view};
ghost use Rattle.sky_base.specs.See.{most_waves};
ghost use Rattle.sky_base.specs.Tree.{Script};
ghost use Rattle.sky_base.specs.View.{view};
ghost use Rattle.sky_state.specs.Fits.{Fits, FitsRun, FitsShow};
ghost use Rattle.sky_state.specs.Stand.{Stand};
ghost use Rattle.sky_state.specs.StateView.{stand_of, spawned_of};
ghost use Rattle.sky_machine_waits.specs.Answers.{AnswersKept};
ghost use Rattle.sky_machine_resume.specs.Comes.{run_of};
ghost use Rattle.sky_machine.specs.Exactly.{Exactly, MakesExactly, FitsAfter, OneFurther};
ghost use Rattle.sky_machine.specs.Knows.{CameWith, KnowsNames};
ghost use Rattle.sky_machine.specs.Onward.{IsRead, AnswersSound, GrewSoundly};
ghost use Rattle.sky_machine.specs.Steps.{step_of, Resumed};

use crate::call::advance;
use crate::step::Step;
use ciel_name::name::Namer;
use sky_base::object::Object;
use sky_base::text::Memory;
use sky_base::value::Value;
use sky_machine_numbers::code::Numbered;
use sky_machine_resume::on as call;
use sky_machine_show::show;
use sky_state::state::{RunState, State};
use std::alloc::Global;

/// A task goes on from its state to its next wait or its end, with one object for each name that is pending, in order. A call ends
/// with an object, the root task with the job's answer. What a call makes is put at the end of what was spawned, each with its name.
/// After `Memory` the state may only be dropped.
///
/// Answers `Memory` for want of memory.
pub fn resume<'a, 'b, N: Namer>(
    alloc: Global,
    script: &'b Numbered<'a>,
    state: &mut State,
    answers: &[Object],
    namer: &'b N,
) -> Result<Step, Memory>
    requires same { script.now.nodes ≡ script.now.code }
    requires read { IsRead script.now.code }
    requires fits { Fits script.now.code (stand_of state.old) }
    requires answers { AnswersSound script.now.code answers.now }
    ensures comes { IfOk result (λ s. Exactly (N.digest namer.now) script.now.code (map object_view answers.now) (stand_of state.old)
        (stand_of state.new) s) }
    ensures made { IfOk result (λ s. MakesExactly (N.digest namer.now) script.now.code (map object_view answers.now) (stand_of state.old)
        (spawned_of state.old) (spawned_of state.new)) }
    ensures resumed { IfOk result (λ s. Resumed (N.digest namer.now) script.now.code (stand_of state.old) (stand_of state.new)
        (map object_view answers.now) s (spawned_of state.old) (spawned_of state.new)) }
    ensures fits { IfOk result (λ s. FitsAfter script.now.code (stand_of state.new) s) }
    ensures further { IfOk result (λ s. OneFurther (stand_of state.old) (stand_of state.new) s) }
    ensures sound { IfOk result (λ s. GrewSoundly (N.digest namer.now) script.now.code (spawned_of state.old) (spawned_of state.new)) }
    ensures known { IfOk result (λ s. KnowsNames (N.digest namer.now) (CameWith (stand_of state.old) (map object_view answers.now)) s
        (stand_of state.new) (spawned_of state.old) (spawned_of state.new)) }
{
    match state {
        State::Run(run) => {
            let step = of_call(alloc, script, run, answers, namer)?;
            Ok(step)
        }
        State::Show { value, wave } => {
            let step = of_root(alloc, value, wave, answers)?;
            Ok(step)
        }
    }
}

/// A call goes on.
fn of_call<'a, 'b, N: Namer>(
    alloc: Global,
    script: &'b Numbered<'a>,
    run: &mut RunState,
    answers: &[Object],
    namer: &'b N,
) -> Result<Step, Memory>
    requires same { script.now.nodes ≡ script.now.code }
    requires read { IsRead script.now.code }
    requires fits { FitsRun script.now.code (run_of run.old) }
    requires answers { AnswersSound script.now.code answers.now }
    ensures comes { IfOk result (λ s. Exactly (N.digest namer.now) script.now.code (map object_view answers.now) (Stand.run (run_of run.old))
        (Stand.run (run_of run.new)) s) }
    ensures made { IfOk result (λ s. MakesExactly (N.digest namer.now) script.now.code (map object_view answers.now) (Stand.run (run_of run.old))
        run.old.spawned run.new.spawned) }
    ensures resumed { IfOk result (λ s. Resumed (N.digest namer.now) script.now.code (Stand.run (run_of run.old)) (Stand.run (run_of run.new))
        (map object_view answers.now) s run.old.spawned run.new.spawned) }
    ensures fits { IfOk result (λ s. FitsAfter script.now.code (Stand.run (run_of run.new)) s) }
    ensures further { IfOk result (λ s. OneFurther (Stand.run (run_of run.old)) (Stand.run (run_of run.new)) s) }
    ensures sound { IfOk result (λ s. GrewSoundly (N.digest namer.now) script.now.code run.old.spawned run.new.spawned) }
    ensures known { IfOk result (λ s. KnowsNames (N.digest namer.now) (CameWith (Stand.run (run_of run.old)) (map object_view answers.now)) s
        (Stand.run (run_of run.new)) run.old.spawned run.new.spawned) }
{
    let came = advance(alloc, script, run, answers, namer)?;
    Ok(step(came))
}

/// The step of what a call came to.
fn step(came: call::Came) -> Step
    ensures { result ≡ step_of came }
{
    match came {
        call::Came::Ended(object) => Step::Ended(object),
        call::Came::Waits => Step::Waits,
    }
}

/// The root task goes on.
fn of_root(
    alloc: Global,
    value: &mut Value,
    wave: &mut u32,
    answers: &[Object],
) -> Result<Step, Memory>
    requires kept { Kept (view value.old) }
    requires wave { wave.old ≤ most_waves }
    requires answers { AnswersKept answers.now }
    ensures comes { IfOk result (λ s. (digest : List ℕ → List ℕ) (sc : Script)
        → Exactly digest sc (map object_view answers.now) (Stand.show_at (view value.old) wave.old) (Stand.show_at (view value.new) wave.new)
        s) }
    ensures resumed { IfOk result (λ s. (digest : List ℕ → List ℕ) (sc : Script)
        → Resumed digest sc (Stand.show_at (view value.old) wave.old) (Stand.show_at (view value.new) wave.new) (map object_view answers.now) s
        [] []) }
    ensures fits { IfOk result (λ s. (sc : Script) → FitsShow sc (view value.old) wave.old → AnswersSound sc answers.now
        → FitsAfter sc (Stand.show_at (view value.new) wave.new) s) }
    ensures further { IfOk result (λ s. OneFurther (Stand.show_at (view value.old) wave.old) (Stand.show_at (view value.new) wave.new) s) }
{
    match show::go_on(alloc, value, *wave, answers)? {
        show::Came::Shown(shown) => Ok(Step::Shown(shown)),
        show::Came::Next(next) => {
            *value = next;
            *wave += 1;
            Ok(Step::Waits)
        }
    }
}
