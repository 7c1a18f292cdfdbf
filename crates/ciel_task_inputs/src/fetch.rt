//! Fetching an object from where it lies.

ghost use Rattle.std.specs.Prelude.{◌≡◌, ◌++◌, [], ◌∷◌, Some, IfOk, IsSome, MatchResult, length};
ghost use Rattle.sky_base.specs.JobView.{job_view};
ghost use Rattle.sky_base.specs.ObjectView.{object_view};
ghost use Rattle.sky_base_law.specs.Sound.{SoundObject};
ghost use Rattle.ciel_store.specs.Seen.{IsPlaceOf};
ghost use Rattle.ciel_task_order.specs.Orders.{SpotSound};
ghost use Rattle.ciel_task_inputs.specs.Lies.{LostAt, lies_at, object_in};

use ciel_store::seats::Eye;
use ciel_store::shelves::{Gone, Shelves};
use ciel_task_order::block::{Block, Held, Spot};
use ciel_task_order::ready::ReadyJob;
use sky_base::object::Object;
use sky_base::text::Memory;

/// The object that lies there: one on a worker's shelf, which is shared and not copied, or an input of the job; or the loss of the
/// worker at whose shelf it lies, where that was marked. An eye that has seen a loss of that worker gets that loss again.
///
/// Answers `Memory` for want of memory. The eye is then as it was.
pub fn fetch(
    job: &ReadyJob,
    shelves: &Shelves<Block>,
    held: &Held,
    eye: &mut Eye,
) -> Result<Result<Object, Gone>, Memory>
    requires spot { SpotSound shelves.now (job_view job.now).script (length (job_view job.now).inputs) held.now.at }
    requires eye { eye.old.of ≡ shelves.now.of }
    ensures of { eye.new.of ≡ eye.old.of }
    ensures object { IfOk result (λ r. MatchResult r (λ o. lies_at (job_view job.now).inputs held.now.at ≡ Some (object_view o))
        (λ gone. LostAt gone.loss held.now.at)) }
    ensures sound { IfOk result (λ r. IfOk r (λ o. SoundObject (job_view job.now).script (object_view o))) }
    ensures seen { IfOk result (λ r. MatchResult r (λ _. eye.new ≡ eye.old) (λ gone. eye.new.losses ≡ eye.old.losses ++ gone.loss ∷ [])) }
{
    match &held.at {
        Spot::Shelf(place) => match shelves.fetch(place, eye) {
            Ok(block) => Ok(Ok(object_in(block)?)),
            Err(gone) => Ok(Err(gone)),
        },
        Spot::Input(number) => match job.inputs().as_slice().get(*number as usize) {
            Some((_, bytes)) => Ok(Ok(Object::Bytes(bytes.share()?))),
            None => unreachable!(),
        },
    }
}

// The object that a block is.
fn object_in(block: &Block) -> Result<Object, Memory>
    requires { IsSome (object_in block.now) }
    ensures { IfOk result (λ o. object_in block.now ≡ Some (object_view o)) }
{
    match block {
        Block::Object(object) => {
            let object = object.copy()?;
            Ok(object)
        }
        Block::Frozen(_) => unreachable!(),
    }
}
