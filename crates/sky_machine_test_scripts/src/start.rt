//! The main call at its start.

ghost use Rattle.std.specs.Prelude.{◌≡◌, [], IfOk};
ghost use Rattle.sky_base.specs.Val.{same_text};
ghost use Rattle.sky_state.specs.Fits.{Fits};
ghost use Rattle.sky_state.specs.Pending.{pending_in};
ghost use Rattle.sky_state.specs.StateView.{stand_of};

use sky_base::script::Script;
use sky_base::text::Txt;
use sky_base::value::{Pairs, Vals};
use sky_state::state::State;
use std::alloc::Global;
use std::test::Fail;

/// The start of the main call of a script: it waits for nothing. Fails for want of memory.
pub fn start(alloc: Global, script: &Script) -> Result<State, Fail>
    ensures fits { IfOk result (λ s. Fits script.now (stand_of s)) }
    ensures waits { IfOk result (λ s. pending_in same_text (stand_of s) ≡ []) }
{
    let (main, caught, args) = (Txt::new(alloc, "")?, Pairs::new(alloc), Vals::new(alloc));
    let state = State::start_call(alloc, script, &main, &caught, &args)?;
    Ok(state)
}
