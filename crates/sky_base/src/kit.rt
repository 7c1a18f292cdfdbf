// Executors.

use crate::fault::FaultKind;
use crate::text::{Bytes, Memory, Txt};
use crate::value::Value;
use std::alloc::Global;

/// A set of executors. What an executor gives depends on its name, its arguments, the bytes of its inputs
/// and the number of outputs that are asked for, and on nothing else.
pub trait Kit {
    ghost use Rattle.std.specs.Prelude.{◌≡◌, IfOk, false, Err, length};
    ghost use Rattle.sky_base.specs.KitView.{Gives, RunsSo};
    ghost use Rattle.sky_base.specs.View.{view};
    ghost use Rattle.sky_base.specs.declared.fault.FaultKind.{FaultKind as kind};

    /// What the executor gives: the bytes of each output, or a fault.
    ghost gives: { Self → Gives };

    /// Whether an executor has this name. It takes no memory.
    fn known(&self, executor: &Txt) -> bool
        ensures { result ≡ false → (args : _) (inputs : _) (n : _) → gives self.now executor.now args inputs n ≡ Err kind.BadExec };

    /// Runs the executor. `inputs` has the bytes of each reference in `args`, as often as it occurs, in
    /// order. Answers want of memory, or exactly what the executor gives.
    fn run(
        &self,
        alloc: Global,
        executor: &Txt,
        args: &Value,
        inputs: &[Bytes],
        outputs: u32,
    ) -> Result<Result<Vec<Bytes>, FaultKind>, Memory>
        ensures { IfOk result (λ r. RunsSo r (gives self.now executor.now (view args.now) inputs.now outputs)) };

    /// Where there is no fault there are as many outputs as were asked for.
    ghost counts: { (k : Self) (executor : _) (args : _) (inputs : _) (n : _)
        → IfOk (gives k executor args inputs n) (λ outputs. length outputs ≡ n) };
}
