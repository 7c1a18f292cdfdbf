//! Bringing an object to the worker that needs it.

ghost use Rattle.std.specs.Prelude.{◌≡◌, ◌<◌, ◌++◌, [], ◌∷◌, Some, IfOk, MatchResult, length};
ghost use Rattle.sky_base.specs.JobView.{job_view};
ghost use Rattle.sky_base.specs.ObjectView.{object_view};
ghost use Rattle.sky_base_law.specs.Sound.{SoundObject};
ghost use Rattle.ciel_store.specs.Seen.{IsPlaceOf};
ghost use Rattle.ciel_task_order.specs.Orders.{SpotSound};
ghost use Rattle.ciel_task_inputs.specs.Lies.{CopiedSo, LostAt, is_elsewhere, lies_at, object_in};

use crate::fetch::fetch;
use ciel_store::seats::Eye;
use ciel_store::shelves::{Gone, Place, Shelves};
use ciel_task_order::block::{Block, Held, Spot};
use ciel_task_order::ready::ReadyJob;
use sky_base::object::Object;
use sky_base::text::Memory;
use std::sync::Wait;

/// The object that lies there, for a worker. Where it lay on another worker's shelf it is put on the own one too, and named at the end
/// of what was copied.
///
/// Answers `Memory` for want of memory. The eye and the list of what was copied are then as they were. A copy that nothing names may lie on
/// the worker's shelf.
pub fn bring<R: Wait>(
    rt: &R,
    job: &ReadyJob,
    shelves: &Shelves<Block>,
    worker: u32,
    held: &Held,
    eye: &mut Eye,
    copied: &mut Vec<Held>,
) -> Result<Result<Object, Gone>, Memory>
    requires spot { SpotSound shelves.now (job_view job.now).script (length (job_view job.now).inputs) held.now.at }
    requires eye { eye.old.of ≡ shelves.now.of }
    requires worker { worker < length shelves.now.rows }
    ensures of { eye.new.of ≡ eye.old.of }
    ensures object { IfOk result (λ r. MatchResult r (λ o. lies_at (job_view job.now).inputs held.now.at ≡ Some (object_view o))
        (λ gone. LostAt gone.loss held.now.at)) }
    ensures sound { IfOk result (λ r. IfOk r (λ o. SoundObject (job_view job.now).script (object_view o))) }
    ensures seen { IfOk result (λ r. MatchResult r (λ _. eye.new ≡ eye.old) (λ gone. eye.new.losses ≡ eye.old.losses ++ gone.loss ∷ [])) }
    ensures copied { IfOk result (λ r. MatchResult r
        (λ o. CopiedSo shelves.now worker held.now (object_view o) copied.old.items copied.new.items)
        (λ _. copied.new.items ≡ copied.old.items)) }
{
    match fetch(job, shelves, held, eye)? {
        Ok(object) => {
            if lies_elsewhere(worker, &held.at) {
                let place = put(rt, shelves, worker, &object)?;
                add(copied, held, place)?;
            }
            Ok(Ok(object))
        }
        Err(gone) => Ok(Err(gone)),
    }
}

// Whether it lies on another worker's shelf.
fn lies_elsewhere(worker: u32, at: &Spot) -> bool
    ensures { result ≡ is_elsewhere worker at.now }
{
    match at {
        Spot::Shelf(place) => place.worker() != worker,
        Spot::Input(_) => false,
    }
}

// Puts the object on the shelf.
fn put<R: Wait>(
    rt: &R,
    shelves: &Shelves<Block>,
    worker: u32,
    object: &Object,
) -> Result<Place<Block>, Memory>
    requires worker { worker < length shelves.now.rows }
    ensures place { IfOk result (λ p. IsPlaceOf shelves.now p) }
    ensures worker { IfOk result (λ p. p.worker ≡ worker) }
    ensures object { IfOk result (λ p. object_in p.at.value ≡ Some (object_view object.now)) }
{
    let block = Block::Object(object.copy()?);
    match shelves.put(rt, worker, block) {
        Ok(place) => Ok(place),
        Err(_) => Err(Memory),
    }
}

// Names what was copied.
fn add(copied: &mut Vec<Held>, held: &Held, place: Place<Block>) -> Result<(), Memory>
    ensures { IfOk result (λ _. copied.new.items ≡ copied.old.items ++ record { name = held.now.name; at = Spot.Shelf place } ∷ []) }
{
    let one = Held {
        name: held.name,
        at: Spot::Shelf(place),
    };
    match copied.push(one) {
        Ok(()) => Ok(()),
        Err(_) => Err(Memory),
    }
}
