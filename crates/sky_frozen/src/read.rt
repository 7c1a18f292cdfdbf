// Bytes from outside, read as a state that fits a script.

ghost use Rattle.std.specs.Prelude.{◌≡◌, IfOk, IfErr};
ghost use Rattle.sky_frozen_bytes.specs.Bytes.{frozen_bytes};
ghost use Rattle.sky_frozen_bytes.specs.Spelled.{StandSpelled, IfBad};
ghost use Rattle.sky_state.specs.Fits.{Fits};
ghost use Rattle.sky_frozen.specs.Checked.{NoneFits};

use crate::fitting::Fitting;
use crate::state::state_fits;
use sky_base::text::{Bytes, Memory};
use sky_frozen_bytes::frozen::Frozen;
use sky_frozen_bytes::read::read_state;
use sky_frozen_bytes::refusal::ReadFrozen;
use std::alloc::Global;

/// The frozen state that has these bytes and fits the script.
///
/// Answers `BadFrozen` exactly where no state that fits the script has them. Answers `Memory` for want of memory.
pub fn read_frozen(alloc: Global, bytes: &[u8], fitting: &Fitting) -> Result<Frozen, ReadFrozen>
    ensures bytes { IfOk result (λ f. frozen_bytes f ≡ bytes.now) }
    ensures spelled { IfOk result (λ f. StandSpelled f) }
    ensures fits { IfOk result (λ f. Fits fitting.now f) }
    ensures refused { IfErr result (λ e. IfBad e (NoneFits fitting.now bytes.now)) }
{
    let state = read_state(alloc, bytes)?;
    let Ok(fits) = state_fits(alloc, fitting, &state) else {
        return Err(ReadFrozen::Memory);
    };
    if !fits {
        return Err(ReadFrozen::BadFrozen);
    }
    let Ok(copy) = copied(alloc, bytes) else {
        return Err(ReadFrozen::Memory);
    };
    Ok(Frozen::of(state, copy))
}

// A copy of the bytes, which the frozen state keeps.
fn copied(alloc: Global, bytes: &[u8]) -> Result<Bytes, Memory>
    ensures { IfOk result (λ b. b ≡ bytes.now) }
{
    let Ok(copy) = Vec::from_slice(alloc, bytes) else {
        return Err(Memory);
    };
    let bytes = Bytes::new(alloc, copy)?;
    Ok(bytes)
}
