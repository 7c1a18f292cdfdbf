//! What an executor's task reads, of what an order brings along.

ghost use Rattle.std.specs.Prelude.{◌≡◌, ◌<◌, IfOk, length, map};
ghost use Rattle.ciel_json.specs.Text.{text_of as writes};
ghost use Rattle.sky_base.specs.JobView.{job_view};
ghost use Rattle.sky_base.specs.Name.{held_name};
ghost use Rattle.sky_base.specs.Names.{known_of};
ghost use Rattle.sky_base.specs.ObjectView.{object_view};
ghost use Rattle.sky_base.specs.Val.{refs};
ghost use Rattle.sky_base.specs.View.{view};
ghost use Rattle.sky_base_law.specs.Tasks.{Each, In};
ghost use Rattle.sky_base_exec.specs.Perform.{all_bytes, listed};
ghost use Rattle.sky_base_known.specs.Known.{KeptObject};
ghost use Rattle.ciel_task_order.specs.Given.{given_for};
ghost use Rattle.ciel_task_order.specs.Orders.{SpotSound, names_in};
ghost use Rattle.ciel_task_order.specs.declared.block.Held.{Held};
ghost use Rattle.ciel_task_exec.specs.Runs.{CopiedAlong, FoundSo, SawLoss};

use ciel_store::loss::Loss;
use ciel_store::seats::Eye;
use ciel_store::shelves::Shelves;
use ciel_task_inputs::gather::{Gathered, gather};
use ciel_task_inputs::index::index;
use ciel_task_order::block::{Block, Held};
use ciel_task_order::given::Given;
use ciel_task_order::ready::ReadyJob;
use sky_base::fault::Fault;
use sky_base::name::Name;
use sky_base::object::Object;
use sky_base::text::{Bytes, Memory};
use sky_base::value::Value;
use sky_base_exec::inputs::inputs;
use std::alloc::Global;
use std::sync::Wait;

/// What an executor's task reads: its inputs as bytes, or the first fault among them, with what was copied to the worker's shelf; or the
/// first name in its arguments whose object lay at a worker that is lost, with the loss.
#[derive(Drop)]
pub enum Found {
    All {
        inputs: Result<Vec<Bytes>, Fault>,
        copied: Vec<Held>,
    },
    Lost(Name, Loss),
}

/// Gathers what the names in the arguments refer to, for a worker.
///
/// Answers `Memory` for want of memory. The eye is then as it was. Copies that nothing names may lie on the worker's shelf.
pub(crate) fn find_inputs<R: Wait>(
    rt: &R,
    alloc: Global,
    job: &ReadyJob,
    shelves: &Shelves<Block>,
    worker: u32,
    held: &[Held],
    args: &Value,
    eye: &mut Eye,
) -> Result<Found, Memory>
    requires names { Each (λ d. In (held_name d) (names_in held.now)) (refs (view args.now)) }
    requires spots { Each (λ (h : Held). SpotSound shelves.now (job_view job.now).script (length (job_view job.now).inputs) h.at) held.now }
    requires eye { eye.old.of ≡ shelves.now.of }
    requires worker { worker < length shelves.now.rows }
    ensures of { eye.new.of ≡ eye.old.of }
    ensures found { IfOk result (FoundSo (job_view job.now).inputs held.now (view args.now)) }
    ensures copied { IfOk result (CopiedAlong shelves.now worker (job_view job.now).inputs held.now (view args.now)) }
    ensures seen { IfOk result (λ r. SawLoss r eye.old eye.new) }
{
    let names = args.refs(alloc)?;
    let index = index(alloc, held)?;
    let mut copied = Vec::new(alloc);
    let gathered = gather(
        rt,
        alloc,
        job,
        shelves,
        worker,
        held,
        &index,
        names.as_slice(),
        eye,
        &mut copied,
    )?;
    match gathered {
        Gathered::Lost(name, loss) => Ok(Found::Lost(name, loss)),
        Gathered::All(objects) => {
            let inputs = in_bytes(alloc, args, names.as_slice(), objects.as_slice())?;
            Ok(Found::All { inputs, copied })
        }
    }
}

// The inputs as bytes, where these objects are given for these names.
fn in_bytes(
    alloc: Global,
    args: &Value,
    names: &[Name],
    objects: &[Object],
) -> Result<Result<Vec<Bytes>, Fault>, Memory>
    requires objects { Each (λ o. KeptObject (object_view o)) objects.now }
    ensures { IfOk result (λ r. listed r ≡ all_bytes writes (given_for (known_of names.now) (map object_view objects.now)) (refs (view args.now))) }
{
    let given = Given::new(alloc, names, objects)?;
    let bytes = inputs(alloc, args, &given)?;
    Ok(bytes)
}
