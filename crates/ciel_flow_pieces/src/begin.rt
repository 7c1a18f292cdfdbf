//! A stream of an executor's output.

ghost use Rattle.std.specs.Prelude.{◌≡◌, [], IfOk, Ok};

use crate::ends::{Follower, Producer, stream};
use sky_base::text::{Bytes, Txt};
use sky_base::value::Value;
use std::alloc::{AllocError, Global};
use std::marker::Brand;

/// The two ends of a stream of this output, where its inputs are at hand.
///
/// Answers `AllocError` for want of memory.
pub fn stream_of(
    alloc: Global,
    executor: &Txt,
    args: &Value,
    outputs: u32,
    index: u32,
    inputs: &[Bytes],
) -> Result<(Producer, Follower), AllocError>
    ensures { IfOk result (λ r. (r.0 ≡ record {
      source = record { executor = executor.now; args = args.now; outputs = outputs; index = index; inputs = Ok inputs.now };
      pieces = [];
    }) × (r.1 ≡ record {
      source = record { executor = executor.now; args = args.now; outputs = outputs; index = index; inputs = Ok inputs.now };
      pieces = [];
    })) }
{
    stream::<Brand, &[Bytes], ()>(alloc, executor, args, outputs, index, &inputs, &())
}
