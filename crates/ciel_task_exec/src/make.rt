//! What an executor makes of its inputs.

ghost use Rattle.std.specs.Prelude.{◌≡◌, IfOk, length};
ghost use Rattle.sky_base.specs.Kept.{Kept};
ghost use Rattle.sky_base.specs.View.{view};
ghost use Rattle.sky_base_exec.specs.Perform.{listed, made_of};

use sky_base::fault::Fault;
use sky_base::kit::Kit;
use sky_base::text::{Bytes, Memory, Txt};
use sky_base::value::Value;
use sky_base_exec::slots::slots;
use sky_base_waves::wave::no_place;
use std::alloc::Global;

/// The outputs of a task by one run of the kit on these inputs, or the fault that each of them is: that of the inputs, else the kit's.
///
/// Answers `Memory` for want of memory.
pub fn make<K: Kit>(
    alloc: Global,
    kit: &K,
    executor: &Txt,
    args: &Value,
    outputs: u32,
    inputs: &Result<Vec<Bytes>, Fault>,
) -> Result<Result<Vec<Bytes>, Fault>, Memory>
    requires { Kept (view args.now) }
    ensures all { IfOk result (λ r. IfOk (listed r) (λ bs. length bs ≡ outputs)) }
    ensures made { IfOk result (λ r. listed r ≡ made_of (K.gives kit.now) executor.now (view args.now) outputs (listed inputs.now)) }
{
    match inputs {
        Err(fault) => Ok(Err(*fault)),
        Ok(inputs) => {
            let args = slots(alloc, args)?;
            match kit.run(alloc, executor, &args, inputs.as_slice(), outputs)? {
                Ok(made) => Ok(Ok(made)),
                Err(kind) => Ok(Err(no_place(kind))),
            }
        }
    }
}
