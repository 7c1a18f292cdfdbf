// A state with its bytes.

ghost use Rattle.std.specs.Prelude.{◌≡◌, [], IfOk};
ghost use Rattle.sky_frozen_bytes.specs.Bytes.{frozen_bytes};
ghost use Rattle.sky_state.specs.StateView.{stand_of, spawned_of};

use crate::copies::copy;
use crate::write::put_state;
use ciel_name::writer::Writer;
use sky_base::text::{Bytes, Memory};
use sky_state::state::State;
use std::alloc::Global;
use std::marker::Model;

/// A state that stands still, with its bytes. Contracts see the state.
#[derive(Drop)]
pub struct Frozen {
    state: State,
    bytes: Bytes,
}

impl Model for Frozen {
    ghost use Rattle.std.specs.Prelude.{◌≡◌, [], List, ℕ};
    ghost use Rattle.sky_state.specs.Stand.{Stand};
    ghost use Rattle.sky_state.specs.StateView.{stand_of, spawned_of};
    ghost use Rattle.sky_frozen_bytes.specs.Bytes.{frozen_bytes};
    ghost use Rattle.sky_frozen_bytes.specs.FrozenCode.{stand_code};

    ghost Value = { Stand (List ℕ) };

    ghost coded = { stand_code };

    ghost view = { λ f. stand_of f.state };

    ghost invariant = { λ f. (spawned_of f.state ≡ []) × (f.bytes ≡ frozen_bytes (stand_of f.state)) };
}

/// The state, frozen: a copy of it, and its bytes. It takes time and memory in the size of the state.
///
/// Answers `Memory` for want of memory.
pub fn freeze(alloc: Global, state: &State) -> Result<Frozen, Memory>
    requires { spawned_of state.now ≡ [] }
    ensures { IfOk result (λ f. f ≡ stand_of state.now) }
{
    let mut out = Writer::new(alloc);
    put_state(&mut out, state)?;
    Ok(Frozen {
        state: copy(alloc, state)?,
        bytes: out.finish(alloc)?,
    })
}

impl Frozen {
    /// A state that made nothing, with its bytes, which these are.
    pub fn of(state: State, bytes: Bytes) -> Frozen
        requires spawned { spawned_of state ≡ [] }
        requires bytes { bytes ≡ frozen_bytes (stand_of state) }
        ensures { result ≡ stand_of state }
    {
        Frozen { state, bytes }
    }

    /// The state that was frozen, with nothing made.
    ///
    /// Answers `Memory` for want of memory.
    pub fn thaw(&self, alloc: Global) -> Result<State, Memory>
        ensures state { IfOk result (λ s. stand_of s ≡ self.now) }
        ensures spawned { IfOk result (λ s. spawned_of s ≡ []) }
    {
        let state = copy(alloc, &self.state)?;
        Ok(state)
    }

    /// The bytes of the state: `K`, the byte 1, and the byte 0 for a run, 1 for the root task.
    ///
    /// A run has its count, its waits, the number of its frames and each frame, the bottom one first: its function's name
    /// as text (empty for the main body); the number of variables and each, its name as text and its value, in the order of the
    /// names; the number of values on the stack and each, the deepest first; the number of forms under way and for each
    /// its node and its step, the outermost first. The root task has its wave and the value. Numbers have four
    /// bytes, the highest first, and texts and values are as `ciel_name` writes them.
    pub fn bytes(&self) -> &[u8]
        ensures { result.now ≡ frozen_bytes self.now }
    {
        self.bytes.as_slice()
    }
}
