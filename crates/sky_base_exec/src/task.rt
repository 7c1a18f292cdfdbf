// What an executor task makes.

ghost use Rattle.std.specs.Prelude.{◌≡◌, IfOk, length};
ghost use Rattle.sky_base.specs.Kept.{Kept};
ghost use Rattle.sky_base.specs.Val.{refs};
ghost use Rattle.sky_base.specs.View.{view};
ghost use Rattle.ciel_json.specs.Text.{text_of as writes};
ghost use Rattle.sky_base_exec.specs.Perform.{listed, made};

use crate::inputs::inputs;
use crate::slots::slots;
use sky_base::fault::Fault;
use sky_base::kit::Kit;
use sky_base::text::{Bytes, Memory, Txt};
use sky_base::value::Value;
use sky_base_waves::known::Known;
use sky_base_waves::wave::no_place;
use std::alloc::Global;

/// What a task of this executor makes with these arguments, by one run of the kit: the bytes of each of its
/// outputs, or the fault that each of them is. The first faulty input, in order, is that fault; else it is
/// the kit's, with no place.
pub fn perform<K: Kit, O: Known>(
    alloc: Global,
    kit: &K,
    executor: &Txt,
    args: &Value,
    outputs: u32,
    objects: &O,
) -> Result<Result<Vec<Bytes>, Fault>, Memory>
    requires { Kept (view args.now) }
    ensures all { IfOk result (λ r. IfOk (listed r) (λ bs. length bs ≡ outputs)) }
    ensures made { IfOk result (λ r. listed r ≡ made (K.gives kit.now) writes (O.knows objects.now) executor.now (view args.now) outputs) }
{
    let inputs = match inputs(alloc, args, objects)? {
        Ok(inputs) => inputs,
        Err(fault) => return Ok(Err(fault)),
    };
    let args = slots(alloc, args)?;
    match kit.run(alloc, executor, &args, inputs.as_slice(), outputs)? {
        Ok(made) => Ok(Ok(made)),
        Err(kind) => Ok(Err(no_place(kind))),
    }
}
