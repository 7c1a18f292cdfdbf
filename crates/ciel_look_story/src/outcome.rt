//! How an order ended, from the end of its report.

ghost use Rattle.std.specs.Prelude.{◌≡◌, IfOk, length, map};
ghost use Rattle.sky_base.specs.ObjectView.{object_view};
ghost use Rattle.ciel_log_read.specs.View.{end_view};
ghost use Rattle.ciel_look_told.specs.Told as told;
ghost use Rattle.ciel_look_told.specs.Told.{outcome, weight};
ghost use Rattle.ciel_look_story.specs.Story.{is_shown};
ghost use Rattle.ciel_look_told.specs.View.{outcome_view};

use ciel_log_read::record::LoggedEnd;
use ciel_look_told::told::Outcome;
use ciel_name::object::object_bytes;
use sky_base::names::Names;
use sky_base::object::Object;
use sky_base::text::Memory;
use sky_frozen_bytes::read::read_state;
use sky_frozen_bytes::refusal::ReadFrozen;
use std::alloc::Global;

/// Whether the root task has shown its result.
pub fn is_shown(end: &LoggedEnd) -> bool
    ensures { result ≡ is_shown (end_view end.now) }
{
    matches!(end, LoggedEnd::Answer(_) | LoggedEnd::Fault(_))
}

/// What is told of an end: the bytes of objects and stacks are weighed.
pub fn outcome_of(alloc: Global, end: &LoggedEnd) -> Result<Outcome, Memory>
    ensures outcome { IfOk result (λ o. outcome_view o ≡ outcome (end_view end.now)) }
{
    match end {
        LoggedEnd::Made(objects) => made(alloc, objects.as_slice()),
        LoggedEnd::Saved { j, stack } => saved(alloc, *j, stack.as_slice()),
        LoggedEnd::Answer(bytes) => Ok(Outcome::Answer(bytes.as_slice().len())),
        LoggedEnd::Fault(fault) => Ok(Outcome::Fault(*fault)),
        LoggedEnd::Missing { name, loss } => Ok(Outcome::Missing {
            name: *name,
            loss: *loss,
        }),
    }
}

/// Objects, weighed.
fn made(alloc: Global, objects: &[Object]) -> Result<Outcome, Memory>
    ensures outcome { IfOk result (λ o. outcome_view o ≡ told.made (map (λ o. weight (object_view o)) objects.now)) }
{
    let mut weights = Vec::new(alloc);
    for object in objects {
        let weight = weigh(alloc, object)?;
        let Ok(()) = weights.push(weight) else {
            return Err(Memory);
        };
    }
    Ok(Outcome::Made(weights))
}

/// How many bytes an object has behind the first one, which tells its kind.
fn weigh(alloc: Global, object: &Object) -> Result<usize, Memory>
    ensures weight { IfOk result (λ n. n ≡ weight (object_view object.now)) }
{
    match object {
        Object::Bytes(bytes) => Ok(bytes.as_slice().len()),
        other => {
            let bytes = object_bytes(alloc, other)?;
            Ok(bytes.as_slice().len().saturating_sub(1))
        }
    }
}

/// A wait with its stack, weighed, and what the stack waits for.
fn saved(alloc: Global, j: u32, stack: &[u8]) -> Result<Outcome, Memory>
    ensures outcome { IfOk result (λ o. outcome_view o ≡ told.saved j (length stack.now)) }
{
    let waits = waits_of(alloc, stack)?;
    Ok(Outcome::Saved {
        j,
        weight: stack.len(),
        waits,
    })
}

/// The names that the stack of these bytes waits for, none where the bytes are no stack's.
fn waits_of(alloc: Global, stack: &[u8]) -> Result<Names, Memory> {
    match read_state(alloc, stack) {
        Ok(state) => state.pending(alloc),
        Err(ReadFrozen::BadFrozen) => Ok(Names::new(alloc)),
        Err(ReadFrozen::Memory) => Err(Memory),
    }
}
