// The main call of a script, from bytes to bytes.

ghost use Rattle.std.specs.Prelude.{◌≡◌, IfOk};
ghost use Rattle.sky_base.specs.ObjectView.{object_view};
ghost use Rattle.sky_base.specs.Tree as logic;
ghost use Rattle.sky_base_law.specs.Sound.{SoundObject};
ghost use Rattle.sky_state.specs.Fits.{Fits};
ghost use Rattle.sky_state.specs.StateView.{stand_of};
ghost use Rattle.sky_machine.specs.Onward.{IsRead, AnswersSound};

use ciel_name::name::Sha1Namer;
use sky_base::object::Object;
use sky_base::script::Script;
use sky_base::text::Bytes;
use sky_base::value::Value;
use sky_frozen::fitting::Fitting;
use sky_frozen::read::read_frozen;
use sky_frozen_bytes::frozen::freeze;
use sky_machine::resume::resume;
use sky_machine::step::Step;
use sky_machine_numbers::code::{Numbered, number_script};
use sky_machine_test_scripts::script::script;
use sky_machine_test_scripts::start::start;
use sky_state::state::State;
use std::alloc::Global;
use std::test::Fail;

/// Lets go of what was made, and reads the state again from its bytes.
fn read_again(alloc: Global, fitting: &Fitting, state: &mut State) -> Result<(), Fail>
    ensures { IfOk result (λ _. Fits fitting.now (stand_of state.new)) }
{
    let _made = state.take_spawned(alloc);
    let frozen = freeze(alloc, state)?;
    let Ok(read) = read_frozen(alloc, frozen.bytes(), fitting) else {
        return Err(Fail::from("the bytes of a state are not read"));
    };
    *state = read.thaw(alloc)?;
    Ok(())
}

/// An object of these bytes.
fn object(alloc: Global, bytes: &[u8]) -> Result<Object, Fail>
    ensures { IfOk result (λ o. (sc : logic.Script) → SoundObject sc (object_view o)) }
{
    let bytes = Bytes::new(alloc, Vec::from_slice(alloc, bytes)?)?;
    Ok(Object::Bytes(bytes))
}

/// These bytes for each name for which the state waits.
fn objects(alloc: Global, state: &State, bytes: &[u8]) -> Result<Vec<Object>, Fail>
    ensures { IfOk result (λ os. (sc : logic.Script) → AnswersSound sc os.items) }
{
    let names = state.pending(alloc)?;
    let mut objects = Vec::new(alloc);
    for _name in names.as_slice() {
        objects.push(object(alloc, bytes)?)?;
    }
    Ok(objects)
}

/// The call goes on from its bytes, to its next wait or its end; the number that it ends with.
fn goes_on(
    alloc: Global,
    script: &Numbered,
    fitting: &Fitting,
    state: &mut State,
    bytes: &[u8],
) -> Result<Option<i64>, Fail>
    requires same { script.now.nodes ≡ script.now.code }
    requires fitting { fitting.now ≡ script.now.code }
    requires read { IsRead script.now.code }
{
    read_again(alloc, fitting, state)?;
    let given = objects(alloc, state, bytes)?;
    match resume(alloc, script, state, given.as_slice(), &Sha1Namer)? {
        Step::Waits => Ok(None),
        Step::Ended(object) => Ok(Some(number(&object)?)),
        Step::Shown(_) => Err(Fail::from("no call")),
    }
}

/// The number that the object is.
fn number(object: &Object) -> Result<i64, Fail> {
    match object {
        Object::Data(Value::Int(number)) => Ok(*number),
        _ => Err(Fail::from("no number")),
    }
}

/// The number of waits and the number that the main call ends with, where each object for which it waits has these bytes.
fn waits_and_end(
    alloc: Global,
    script: &Numbered,
    state: &mut State,
    bytes: &[u8],
) -> Result<(u32, i64), Fail>
    requires same { script.now.nodes ≡ script.now.code }
    requires read { IsRead script.now.code }
{
    let fitting = Fitting::new(alloc, script)?;
    for waits in 0..10 {
        match goes_on(alloc, script, &fitting, state, bytes)? {
            Some(number) => return Ok((waits, number)),
            None => {}
        }
    }
    Err(Fail::from("too many waits"))
}

/// The same for a script.
fn of_script(alloc: Global, script: &Script, bytes: &[u8]) -> Result<(u32, i64), Fail>
    requires { IsRead script.now }
{
    let tables = number_script(alloc, script)?;
    let numbered = tables.over(script);
    let mut state = start(alloc, script)?;
    let found = waits_and_end(alloc, &numbered, &mut state, bytes)?;
    Ok(found)
}

/// The same for a text.
pub fn of_text(alloc: Global, text: &str, bytes: &[u8]) -> Result<(u32, i64), Fail> {
    let script = script(alloc, text)?;
    let found = of_script(alloc, &script, bytes)?;
    Ok(found)
}
