//! The waits whose objects are found are gone through.

ghost use Rattle.std.specs.Prelude.{◌≡◌, ◌<◌, suc, List, IfErr, IfOk, MatchOption, map, Some};
ghost use Rattle.sky_base.specs.Names.{known_of};
ghost use Rattle.sky_base.specs.ObjectView.{object_view};
ghost use Rattle.sky_base.specs.Val.{same_text};
ghost use Rattle.sky_state.specs.Fits.{Fits};
ghost use Rattle.sky_state.specs.Pending.{pending_in};
ghost use Rattle.sky_state.specs.StateView.{stand_of, spawned_of};
ghost use Rattle.sky_machine.specs.Exactly.{FitsAfter, gone_of};
ghost use Rattle.sky_machine.specs.Knows.{KnowsNames};
ghost use Rattle.sky_machine.specs.Onward.{IsRead, GrewSoundly};
ghost use Rattle.sky_machine_through.specs.Asked.{told_after};
ghost use Rattle.sky_machine_through.specs.Found.{AllFound, CameFrom, FoundIf, FindsSound, Further, GrewWhole, HasAll, SameKind, Turns, step_or};
ghost use Rattle.sky_machine_through.specs.Through.{GoesAsking};
ghost use Rattle.sky_machine_through.specs.Went.{GoesThrough};

use crate::find::Finds;
use ciel_name::name::Namer;
use sky_base::names::Names;
use sky_base::object::Object;
use sky_base::text::Memory;
use sky_machine::resume::resume;
use sky_machine::step::Step;
use sky_machine_numbers::code::Numbered;
use sky_state::state::State;
use std::alloc::Global;

/// A task goes on from its state through each wait at which all that it waits for is found, up to its end or the first wait for
/// something that isn't found. What it makes is put at the end of what was spawned, each with its name. At the first refusal of an
/// object it stops; after a refusal or `Memory` the state may only be dropped.
///
/// Answers `Memory` for want of memory.
pub fn run_through<'a, 'b, F: Finds, N: Namer>(
    alloc: Global,
    script: &'b Numbered<'a>,
    state: &mut State,
    finder: &mut F,
    namer: &'b N,
) -> Result<Result<Step, F::Refusal>, Memory>
    requires same { script.now.nodes ≡ script.now.code }
    requires read { IsRead script.now.code }
    requires fits { Fits script.now.code (stand_of state.old) }
    requires sound { FindsSound (F.finds finder.old) script.now.code }
    requires found { HasAll (F.finds finder.old) (stand_of state.old) }
    requires finder { F.ready finder.old }
    ensures through { IfOk result (λ r. IfOk r (λ s. GoesAsking (F.finds finder.old) (N.digest namer.now) script.now.code F.notes
        (F.told finder.old) (F.told finder.new) (stand_of state.old) (stand_of state.new) s (spawned_of state.old) (spawned_of state.new))) }
    ensures goes { IfOk result (λ r. IfOk r (λ s. GoesThrough (N.digest namer.now) script.now.code (F.finds finder.old) (stand_of state.old)
        (stand_of state.new) s (spawned_of state.old) (spawned_of state.new))) }
    ensures fits { IfOk result (λ r. IfOk r (λ s. FitsAfter script.now.code (stand_of state.new) s)) }
    ensures kind { IfOk result (λ r. IfOk r (λ s. SameKind (stand_of state.old) s (stand_of state.new))) }
    ensures further { IfOk result (λ r. IfOk r (λ s. Further (stand_of state.old) s (stand_of state.new))) }
    ensures made { IfOk result (λ r. IfOk r (λ s. GrewSoundly (N.digest namer.now) script.now.code (spawned_of state.old) (spawned_of state.new))) }
    ensures whole { IfOk result (λ r. IfOk r (λ s. GrewWhole (N.digest namer.now) (spawned_of state.old) (spawned_of state.new))) }
    ensures known { IfOk result (λ r. IfOk r (λ s. KnowsNames (N.digest namer.now) (CameFrom (F.finds finder.old) (stand_of state.old)) s
        (stand_of state.new) (spawned_of state.old) (spawned_of state.new))) }
    ensures finder { F.finds finder.new ≡ F.finds finder.old }
    ensures ready { IfOk result (λ _. F.ready finder.new) }
    ensures stays { F.stays finder.new ≡ F.stays finder.old }
    ensures refusal { IfOk result (λ r. IfErr r (F.refuses finder.new)) }
{
    let ran = loop_through(alloc, script, state, finder, namer)?;
    Ok(ran)
}

/// Turn after turn.
fn loop_through<'a, 'b, F: Finds, N: Namer>(
    alloc: Global,
    script: &'b Numbered<'a>,
    state: &mut State,
    finder: &mut F,
    namer: &'b N,
) -> Result<Result<Step, F::Refusal>, Memory>
    requires same { script.now.nodes ≡ script.now.code }
    requires read { IsRead script.now.code }
    requires fits { Fits script.now.code (stand_of state.old) }
    requires sound { FindsSound (F.finds finder.old) script.now.code }
    requires found { HasAll (F.finds finder.old) (stand_of state.old) }
    requires finder { F.ready finder.old }
    ensures through { IfOk result (λ r. IfOk r (λ s. GoesAsking (F.finds finder.old) (N.digest namer.now) script.now.code F.notes
        (F.told finder.old) (F.told finder.new) (stand_of state.old) (stand_of state.new) s (spawned_of state.old) (spawned_of state.new))) }
    ensures fits { IfOk result (λ r. IfOk r (λ s. FitsAfter script.now.code (stand_of state.new) s)) }
    ensures kind { IfOk result (λ r. IfOk r (λ s. SameKind (stand_of state.old) s (stand_of state.new))) }
    ensures further { IfOk result (λ r. IfOk r (λ s. Further (stand_of state.old) s (stand_of state.new))) }
    ensures made { IfOk result (λ r. IfOk r (λ s. GrewSoundly (N.digest namer.now) script.now.code (spawned_of state.old) (spawned_of state.new))) }
    ensures whole { IfOk result (λ r. IfOk r (λ s. GrewWhole (N.digest namer.now) (spawned_of state.old) (spawned_of state.new))) }
    ensures known { IfOk result (λ r. IfOk r (λ s. KnowsNames (N.digest namer.now) (CameFrom (F.finds finder.old) (stand_of state.old)) s
        (stand_of state.new) (spawned_of state.old) (spawned_of state.new))) }
    ensures finder { F.finds finder.new ≡ F.finds finder.old }
    ensures ready { IfOk result (λ _. F.ready finder.new) }
    ensures stays { F.stays finder.new ≡ F.stays finder.old }
    ensures refusal { IfOk result (λ r. IfErr r (F.refuses finder.new)) }
{
    'turns: loop {
        match turn(alloc, script, state, finder, namer)? {
            Ok(None) => {}
            Ok(Some(step)) => return Ok(Ok(step)),
            Err(refusal) => return Ok(Err(refusal)),
        }
    }
}

/// The task goes on once; without a step it has come to a wait at which all is found.
fn turn<'a, 'b, F: Finds, N: Namer>(
    alloc: Global,
    script: &'b Numbered<'a>,
    state: &mut State,
    finder: &mut F,
    namer: &'b N,
) -> Result<Result<Option<Step>, F::Refusal>, Memory>
    requires same { script.now.nodes ≡ script.now.code }
    requires read { IsRead script.now.code }
    requires fits { Fits script.now.code (stand_of state.old) }
    requires sound { FindsSound (F.finds finder.old) script.now.code }
    requires found { HasAll (F.finds finder.old) (stand_of state.old) }
    requires finder { F.ready finder.old }
    ensures turns { IfOk result (λ r. IfOk r (λ o. Turns (F.finds finder.old) (N.digest namer.now) script.now.code o (stand_of state.old)
        (stand_of state.new) (spawned_of state.old) (spawned_of state.new))) }
    ensures fits { IfOk result (λ r. IfOk r (λ o. MatchOption o (Fits script.now.code (stand_of state.new))
        (FitsAfter script.now.code (stand_of state.new)))) }
    ensures kind { IfOk result (λ r. IfOk r (λ o. SameKind (stand_of state.old) (step_or o) (stand_of state.new))) }
    ensures further { IfOk result (λ r. IfOk r (λ o. Further (stand_of state.old) (step_or o) (stand_of state.new))) }
    ensures falls { IfOk result (λ r. IfOk r (λ o. MatchOption o (gone_of (stand_of state.new) ≡ suc (gone_of (stand_of state.old)))
        (λ s. Unit {0}))) }
    ensures noted { IfOk result (λ r. IfOk r (λ o. F.told finder.new ≡ told_after F.notes (F.told finder.old)
        (pending_in same_text (stand_of state.old)))) }
    ensures whole { IfOk result (λ r. IfOk r (λ o. GrewWhole (N.digest namer.now) (spawned_of state.old) (spawned_of state.new))) }
    ensures made { IfOk result (λ r. IfOk r (λ o. GrewSoundly (N.digest namer.now) script.now.code (spawned_of state.old) (spawned_of state.new))) }
    ensures finder { F.finds finder.new ≡ F.finds finder.old }
    ensures ready { IfOk result (λ _. F.ready finder.new) }
    ensures stays { F.stays finder.new ≡ F.stays finder.old }
    ensures refusal { IfOk result (λ r. IfErr r (F.refuses finder.new)) }
{
    let names = state.pending(alloc)?;
    let answers = match find_all(alloc, finder, &names)? {
        Ok(answers) => answers,
        Err(refusal) => return Ok(Err(refusal)),
    };
    match resume(alloc, script, state, answers.as_slice(), namer)? {
        Step::Waits => {
            let goes = has_all(finder, &state.pending(alloc)?);
            if goes {
                return Ok(Ok(None));
            }
            Ok(Ok(Some(Step::Waits)))
        }
        Step::Ended(object) => Ok(Ok(Some(Step::Ended(object)))),
        Step::Shown(shown) => Ok(Ok(Some(Step::Shown(shown)))),
    }
}

/// The objects of the descriptions of these names, in order, up to the first refusal.
fn find_all<F: Finds>(
    alloc: Global,
    finder: &mut F,
    names: &Names,
) -> Result<Result<Vec<Object>, F::Refusal>, Memory>
    requires found { AllFound (F.finds finder.old) (known_of names.now) }
    requires finder { F.ready finder.old }
    ensures noted { IfOk result (λ r. IfOk r (λ os. F.told finder.new ≡ told_after F.notes (F.told finder.old) (known_of names.now))) }
    ensures objects { IfOk result (λ r. IfOk r (λ os. map (F.finds finder.old) (known_of names.now) ≡ map Some (map object_view os.items))) }
    ensures finder { F.finds finder.new ≡ F.finds finder.old }
    ensures ready { IfOk result (λ _. F.ready finder.new) }
    ensures stays { F.stays finder.new ≡ F.stays finder.old }
    ensures refusal { IfOk result (λ r. IfErr r (F.refuses finder.new)) }
{
    let mut objects = Vec::new(alloc);
    let mut rest = names.as_slice();
    'names: while let Some((name, more)) = rest.split_first() {
        match finder.find(alloc, name)? {
            Ok(object) => {
                let Ok(()) = objects.push(object) else {
                    return Err(Memory);
                };
            }
            Err(refusal) => return Ok(Err(refusal)),
        }
        rest = more;
    }
    Ok(Ok(objects))
}

/// Whether there is an object of each description of these names.
fn has_all<F: Finds>(finder: &F, names: &Names) -> bool
    requires { F.ready finder.now }
    ensures { FoundIf (F.finds finder.now) result (known_of names.now) }
{
    let mut rest = names.as_slice();
    'names: while let Some((name, more)) = rest.split_first() {
        if !finder.has(name) {
            return false;
        }
        rest = more;
    }
    true
}
