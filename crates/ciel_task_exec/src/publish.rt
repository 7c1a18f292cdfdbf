//! The outputs of an executor's task, on a worker's shelf.

ghost use Rattle.std.specs.Prelude.{◌≡◌, ◌<◌, IfOk, length};
ghost use Rattle.ciel_name.specs.Object.{object_bytes};
ghost use Rattle.ciel_store.specs.Seen.{IsPlaceOf};
ghost use Rattle.sha1.specs.Sha1.{sha1};
ghost use Rattle.sky_base.specs.Name.{canon};
ghost use Rattle.sky_base.specs.ObjectView.{desc_view, object_view};
ghost use Rattle.sky_base.specs.Val.{out};
ghost use Rattle.sky_base.specs.View.{view};
ghost use Rattle.sky_base_exec.specs.Perform.{listed, output_of};
ghost use Rattle.ciel_task_exec.specs.Outputs.{AreOutputs, IsMade};

use ciel_name::name::{Namer, mark};
use ciel_name::object::{canon, object_bytes};
use ciel_store::shelves::{Place, Shelves};
use ciel_task_order::block::Block;
use ciel_task_order::report::Made;
use sha1::Sha1;
use sky_base::fault::Fault;
use sky_base::object::{Desc1, Object};
use sky_base::text::{Bytes, Memory, Txt};
use sky_base::value::Value;
use std::alloc::Global;
use std::sync::Wait;

/// Puts the outputs of a task on a worker's shelf, in order, each with its name and its mark.
///
/// Answers `Memory` for want of memory. Some of them may then lie on the shelf, where nothing names them.
pub(crate) fn publish<N: Namer, R: Wait>(
    rt: &R,
    alloc: Global,
    namer: &N,
    shelves: &Shelves<Block>,
    worker: u32,
    executor: &Txt,
    args: &Value,
    outputs: u32,
    made: &Result<Vec<Bytes>, Fault>,
) -> Result<Vec<Made>, Memory>
    requires worker { worker < length shelves.now.rows }
    requires all { IfOk (listed made.now) (λ bs. length bs ≡ outputs) }
    ensures { IfOk result (λ ms. AreOutputs (N.digest namer.now) shelves.now worker executor.now (view args.now) outputs (listed made.now) ms.items) }
{
    let mut published = Vec::new(alloc);
    for index in 0..outputs {
        let one = put_one(
            rt, alloc, namer, shelves, worker, executor, args, outputs, made, index,
        )?;
        let Ok(()) = published.push(one) else {
            return Err(Memory);
        };
    }
    Ok(published)
}

// Puts one output of the task on the shelf.
fn put_one<N: Namer, R: Wait>(
    rt: &R,
    alloc: Global,
    namer: &N,
    shelves: &Shelves<Block>,
    worker: u32,
    executor: &Txt,
    args: &Value,
    outputs: u32,
    made: &Result<Vec<Bytes>, Fault>,
    index: u32,
) -> Result<Made, Memory>
    requires worker { worker < length shelves.now.rows }
    requires index { IfOk (listed made.now) (λ bs. index < length bs) }
    ensures { IfOk result (λ m. IsMade (N.digest namer.now) shelves.now worker (out executor.now (view args.now) outputs index)
        (output_of (listed made.now) index) m) }
{
    let desc = Desc1::Exec {
        executor: executor.share()?,
        args: args.copy()?,
        outputs,
        index,
    };
    let object = output(made, index)?;
    let one = put(rt, alloc, namer, shelves, worker, &desc, object)?;
    Ok(one)
}

// An output as an object.
#[tactic(auto, using(sky_base_exec::proofs::Tells::ats))]
fn output(made: &Result<Vec<Bytes>, Fault>, index: u32) -> Result<Object, Memory>
    requires { IfOk (listed made.now) (λ bs. index < length bs) }
    ensures { IfOk result (λ o. object_view o ≡ output_of (listed made.now) index) }
{
    match made {
        Ok(outputs) => Ok(Object::Bytes(outputs[index as usize].share()?)),
        Err(fault) => Ok(Object::Fault(*fault)),
    }
}

// Puts the object of a description on the shelf.
fn put<N: Namer, R: Wait>(
    rt: &R,
    alloc: Global,
    namer: &N,
    shelves: &Shelves<Block>,
    worker: u32,
    desc: &Desc1,
    object: Object,
) -> Result<Made, Memory>
    requires worker { worker < length shelves.now.rows }
    ensures made { IfOk result (λ m. IsMade (N.digest namer.now) shelves.now worker (desc_view desc.now) (object_view object) m) }
{
    let name = namer.name(canon(alloc, desc)?.as_slice());
    let mark = mark_of(alloc, &object)?;
    match shelves.put(rt, worker, Block::Object(object)) {
        Ok(place) => Ok(Made { name, place, mark }),
        Err(_) => Err(Memory),
    }
}

// The digest of the bytes of an object. The bytes of an output are hashed where they lie, and take no second room.
fn mark_of(alloc: Global, object: &Object) -> Result<[u8; 20], Memory>
    ensures { IfOk result (λ m. m ≡ sha1 (object_bytes (object_view object.now))) }
{
    match object {
        Object::Bytes(bytes) => {
            let mut hash = Sha1::new();
            hash.update(b"B");
            hash.update(bytes.as_slice());
            Ok(hash.finalize())
        }
        _ => Ok(mark(object_bytes(alloc, object)?.as_slice())),
    }
}
