// The outputs of an executor task: all that are held become known together.

ghost use Rattle.std.specs.Prelude.{◌≡◌, ◌<◌, IfOk, length};
ghost use Rattle.sky_base.specs.ObjectView.{desc_view, object_view};
ghost use Rattle.sky_base.specs.View.{view};
ghost use Rattle.sky_base_known.specs.Known.{KeptObject};
ghost use Rattle.sky_base_exec.specs.Perform.{listed, output_of};
ghost use Rattle.sky_base_exec.specs.Outputs.{Keeps, InRoom, OnlyOf, KnownOf, OnlyOutputs, KnownOutputs};

use sky_base::fault::Fault;
use sky_base::object::{Desc1, Object};
use sky_base::text::{Bytes, Memory, Txt};
use sky_base::value::Value;
use sky_base_known::objects::Objects;
use sky_base_known::rows::Rows;

/// Makes each output of a task known, of those that are held and whose objects aren't known yet. What is known
/// stays. After `Memory` some of them may be known.
pub fn tell(
    rows: &Rows,
    objects: &mut Objects,
    executor: &Txt,
    args: &Value,
    outputs: u32,
    made: &Result<Vec<Bytes>, Fault>,
) -> Result<(), Memory>
    requires all { IfOk (listed made.now) (λ bs. length bs ≡ outputs) }
    ensures kept { Keeps objects.old objects.new }
    ensures only { OnlyOutputs rows.now executor.now (view args.now) outputs (listed made.now) outputs objects.old objects.new }
    ensures known { IfOk result (λ _. KnownOutputs rows.now executor.now (view args.now) outputs outputs objects.new) }
    ensures room { IfOk result (λ _. InRoom rows.now objects.old objects.new) }
{
    for index in 0..outputs {
        let desc = Desc1::Exec {
            executor: executor.share()?,
            args: args.copy()?,
            outputs,
            index,
        };
        put(rows, objects, &desc, output(made, index)?)?;
    }
    Ok(())
}

// An output as an object.
#[tactic(auto, using(crate::proofs::Tells::ats))]
fn output(made: &Result<Vec<Bytes>, Fault>, index: u32) -> Result<Object, Memory>
    requires { IfOk (listed made.now) (λ bs. index < length bs) }
    ensures object { IfOk result (λ o. object_view o ≡ output_of (listed made.now) index) }
    ensures kept { IfOk result (λ o. KeptObject (object_view o)) }
{
    match made {
        Ok(outputs) => Ok(Object::Bytes(outputs[index as usize].share()?)),
        Err(fault) => Ok(Object::Fault(*fault)),
    }
}

// Makes the object of a description known, where it is held and has none.
#[tactic(auto, using(crate::proofs::Tells::puts))]
fn put(rows: &Rows, objects: &mut Objects, desc: &Desc1, object: Object) -> Result<(), Memory>
    requires { KeptObject (object_view object) }
    ensures kept { Keeps objects.old objects.new }
    ensures only { OnlyOf rows.now (desc_view desc.now) (object_view object) objects.old objects.new }
    ensures known { IfOk result (λ _. KnownOf rows.now (desc_view desc.now) objects.new) }
    ensures room { IfOk result (λ _. InRoom rows.now objects.old objects.new) }
{
    let _held = rows.len();
    let Some(number) = rows.find(desc) else {
        return Ok(())
    };
    if objects.has(number) {
        return Ok(());
    }
    objects.set(number, object)?;
    Ok(())
}
