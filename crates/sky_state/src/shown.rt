// What the root task shows at its end.

use sky_base::fault::Fault;
use sky_base::text::Bytes;

/// The answer of a job: the bytes of its result, or the fault that it means.
#[derive(Drop)]
pub enum Shown {
    Text(Bytes),
    Fault(Fault),
}
