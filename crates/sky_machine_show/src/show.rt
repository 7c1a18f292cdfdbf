// The root task goes on from a wave of the result.

ghost use Rattle.std.specs.Prelude.{◌≡◌, ◌≤◌, suc, IfOk, map, nat_lt};
ghost use Rattle.sky_base.specs.Kept.{Kept};
ghost use Rattle.sky_base.specs.ObjectView.{object_view};
ghost use Rattle.sky_base.specs.See.{most_waves};
ghost use Rattle.sky_base.specs.View.{view};
ghost use Rattle.sky_base.specs.Val.{refs};
ghost use Rattle.ciel_json.specs.Text.{text_of as writes};
ghost use Rattle.sky_base_law.specs.Tasks.{Each};
ghost use Rattle.sky_base_known.specs.Known.{KeptObject};
ghost use Rattle.sky_base_waves.specs.Wave.{last_at};
ghost use Rattle.sky_machine_show.specs.Shows.{came_view, next_of, shown_view, wave_if};
ghost use Rattle.sky_machine_show.specs.Standing.{FitsOn, GoesOnShown};

use crate::given::Given;
use sky_base::object::Object;
use sky_base::text::Memory;
use sky_base::value::Value;
use sky_base_waves::wave::{Turned, last_turn, turn};
use sky_state::shown::Shown;
use std::alloc::Global;

/// What the root task came to: the answer of the job, or the value of its next wave, at which it waits.
#[derive(Drop)]
pub enum Came {
    Shown(Shown),
    Next(Value),
}

/// The root task goes on from the wave at which it stands, with these objects for the names in its value, each name once and in
/// order: the job has its answer, or there is a next wave, which waits for something. A value that refers to nothing is the answer,
/// and no wave above 100 waits.
///
/// Answers `Memory` for want of memory.
pub fn go_on(alloc: Global, value: &Value, wave: u32, answers: &[Object]) -> Result<Came, Memory>
    requires kept { Kept (view value.now) }
    requires answers { Each (λ o. KeptObject (object_view o)) answers.now }
    ensures comes { IfOk result (λ c. next_of (map object_view answers.now) (view value.now) wave ≡ came_view c) }
    ensures stands { IfOk result (λ c. GoesOnShown (view value.now) wave (map object_view answers.now) c) }
    ensures fits { IfOk result (λ c. FitsOn (view value.now) wave (map object_view answers.now) c) }
{
    let came = from_wave(alloc, value, wave, answers)?;
    Ok(came)
}

/// The value is filled in, and what comes of it is waited for, or it is the answer.
fn from_wave(alloc: Global, value: &Value, wave: u32, answers: &[Object]) -> Result<Came, Memory>
    requires kept { Kept (view value.now) }
    requires answers { Each (λ o. KeptObject (object_view o)) answers.now }
    ensures { IfOk result (λ c. next_of (map object_view answers.now) (view value.now) wave ≡ came_view c) }
{
    let names = value.refs(alloc)?;
    let given = Given::new(alloc, names.as_slice(), answers)?;
    match turn(alloc, value, &given)? {
        Turned::Text(bytes) => Ok(Came::Shown(Shown::Text(bytes))),
        Turned::Fault(fault) => Ok(Came::Shown(Shown::Fault(fault))),
        Turned::Next(next) => {
            let came = at_next(alloc, wave, next)?;
            Ok(came)
        }
    }
}

/// The next wave waits for what its value refers to, or its value is the answer.
fn at_next(alloc: Global, wave: u32, next: Value) -> Result<Came, Memory>
    requires { Kept (view next) }
    ensures { IfOk result (λ c. wave_if (nat_lt most_waves (suc wave)) (view next) ≡ came_view c) }
{
    if wave >= 100 || next.refs(alloc)?.len() == 0 {
        let shown = last(alloc, &next)?;
        return Ok(Came::Shown(shown));
    }
    Ok(Came::Next(next))
}

/// The answer where the value refers to nothing, or its wave is above the last one.
fn last(alloc: Global, value: &Value) -> Result<Shown, Memory>
    requires { Kept (view value.now) }
    ensures { IfOk result (λ s. last_at (refs (view value.now)) (writes (view value.now)) ≡ shown_view s) }
{
    match last_turn(alloc, value)? {
        Turned::Text(bytes) => Ok(Shown::Text(bytes)),
        Turned::Fault(fault) => Ok(Shown::Fault(fault)),
        Turned::Next(_) => unreachable!(),
    }
}
