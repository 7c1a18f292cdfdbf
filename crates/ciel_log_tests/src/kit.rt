// A kit that a shop can let go of: the executors over lines.

use line_kit::kit::LineKit;
use sky_base::fault::FaultKind;
use sky_base::kit::Kit;
use sky_base::text::{Bytes, Memory, Txt};
use sky_base::value::Value;
use std::alloc::Global;

/// The executors over lines.
#[derive(Drop)]
pub struct Lines;

impl Kit for Lines {
    ghost use Rattle.line_kit.specs.Gives.{gives as given};
    ghost use Rattle.line_kit.specs.Counts.{gives_counts};

    ghost gives = { λ _. given };

    ghost counts = { λ _. gives_counts };

    fn known(&self, executor: &Txt) -> bool {
        LineKit.known(executor)
    }

    fn run(
        &self,
        alloc: Global,
        executor: &Txt,
        args: &Value,
        inputs: &[Bytes],
        outputs: u32,
    ) -> Result<Result<Vec<Bytes>, FaultKind>, Memory> {
        LineKit.run(alloc, executor, args, inputs, outputs)
    }
}
