//! A call goes on from its state, whether it is at its start or at a wait.

ghost use Rattle.std.specs.Prelude.{◌≡◌, ◌<◌, ℕ, IfOk};
ghost use Rattle.sky_state.specs.Fits.{FitsRun};
ghost use Rattle.sky_machine_resume.specs.Comes.{run_of};
ghost use Rattle.sky_machine_resume.specs.Standing.{GoesOnAs, MakesAs};
ghost use Rattle.sky_machine.specs.Laws.{Stays};
ghost use Rattle.sky_machine.specs.Onward.{IsRead, AnswersSound, ComesOf, MakesOf, GrewSoundly};

use ciel_name::name::Namer;
use sky_base::object::Object;
use sky_base::text::Memory;
use sky_machine_numbers::code::Numbered;
use sky_machine_resume::on::{Came, go_on};
use sky_machine_resume::start::begin;
use sky_state::state::RunState;
use std::alloc::Global;

/// A call goes on from its state to its next wait or its end. At its start it waits for nothing; at a wait there is one object for
/// each name that is pending, in order. What it makes is put at the end of what was spawned, each with its name. After `Memory` the
/// state may only be dropped.
///
/// Answers `Memory` for want of memory.
pub fn advance<'a, 'b, N: Namer>(
    alloc: Global,
    script: &'b Numbered<'a>,
    run: &mut RunState,
    answers: &[Object],
    namer: &'b N,
) -> Result<Came, Memory>
    requires same { script.now.nodes ≡ script.now.code }
    requires read { IsRead script.now.code }
    requires fits { FitsRun script.now.code (run_of run.old) }
    requires answers { AnswersSound script.now.code answers.now }
    ensures comes { IfOk result (λ c. ComesOf (N.digest namer.now) script.now.code (run_of run.old) answers.now c (run_of run.new)) }
    ensures made { IfOk result (λ c. MakesOf (N.digest namer.now) script.now.code (run_of run.old) answers.now run.old.spawned run.new.spawned) }
    ensures stands { IfOk result (λ c. (j : ℕ) → GoesOnAs (N.digest namer.now) j script.now.code (run_of run.old) answers.now c (run_of run.new)) }
    ensures makes { IfOk result (λ c. (j : ℕ) → MakesAs (N.digest namer.now) j script.now.code (run_of run.old) answers.now run.old.spawned
        run.new.spawned) }
    ensures fits { IfOk result (λ c. Stays script.now.code c (run_of run.new)) }
    ensures sound { IfOk result (λ c. GrewSoundly (N.digest namer.now) script.now.code run.old.spawned run.new.spawned) }
{
    if run.waits == 0 {
        let came = from_start(alloc, script, run, answers, namer)?;
        Ok(came)
    } else {
        let came = from_wait(alloc, script, run, answers, namer)?;
        Ok(came)
    }
}

/// From its start.
fn from_start<'a, 'b, N: Namer>(
    alloc: Global,
    script: &'b Numbered<'a>,
    run: &mut RunState,
    answers: &[Object],
    namer: &'b N,
) -> Result<Came, Memory>
    requires read { IsRead script.now.code }
    requires fits { FitsRun script.now.code (run_of run.old) }
    requires start { run.old.waits ≡ 0 }
    ensures comes { IfOk result (λ c. ComesOf (N.digest namer.now) script.now.code (run_of run.old) answers.now c (run_of run.new)) }
    ensures made { IfOk result (λ c. MakesOf (N.digest namer.now) script.now.code (run_of run.old) answers.now run.old.spawned run.new.spawned) }
    ensures stands { IfOk result (λ c. (j : ℕ) → GoesOnAs (N.digest namer.now) j script.now.code (run_of run.old) answers.now c (run_of run.new)) }
    ensures makes { IfOk result (λ c. (j : ℕ) → MakesAs (N.digest namer.now) j script.now.code (run_of run.old) answers.now run.old.spawned
        run.new.spawned) }
    ensures fits { IfOk result (λ c. Stays script.now.code c (run_of run.new)) }
    ensures sound { IfOk result (λ c. GrewSoundly (N.digest namer.now) script.now.code run.old.spawned run.new.spawned) }
{
    let came = begin(alloc, script, run, namer)?;
    Ok(came)
}

/// From the wait at which it stands.
fn from_wait<'a, 'b, N: Namer>(
    alloc: Global,
    script: &'b Numbered<'a>,
    run: &mut RunState,
    answers: &[Object],
    namer: &'b N,
) -> Result<Came, Memory>
    requires same { script.now.nodes ≡ script.now.code }
    requires read { IsRead script.now.code }
    requires fits { FitsRun script.now.code (run_of run.old) }
    requires waits { 0 < run.old.waits }
    requires answers { AnswersSound script.now.code answers.now }
    ensures comes { IfOk result (λ c. ComesOf (N.digest namer.now) script.now.code (run_of run.old) answers.now c (run_of run.new)) }
    ensures made { IfOk result (λ c. MakesOf (N.digest namer.now) script.now.code (run_of run.old) answers.now run.old.spawned run.new.spawned) }
    ensures stands { IfOk result (λ c. (j : ℕ) → GoesOnAs (N.digest namer.now) j script.now.code (run_of run.old) answers.now c (run_of run.new)) }
    ensures makes { IfOk result (λ c. (j : ℕ) → MakesAs (N.digest namer.now) j script.now.code (run_of run.old) answers.now run.old.spawned
        run.new.spawned) }
    ensures fits { IfOk result (λ c. Stays script.now.code c (run_of run.new)) }
    ensures sound { IfOk result (λ c. GrewSoundly (N.digest namer.now) script.now.code run.old.spawned run.new.spawned) }
{
    let came = go_on(alloc, script, run, answers, namer)?;
    Ok(came)
}
