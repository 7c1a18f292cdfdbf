//! Stacks that were read: whether one is of a task, at a wait, and what it waits for and holds.

ghost use Rattle.std.specs.Prelude.{◌≡◌, IfNone, IfOk, IfSome, IsFalse, IsTrue};
ghost use Rattle.sky_frozen_bytes.specs.Bytes.{frozen_bytes};
ghost use Rattle.sky_frozen_bytes.specs.Spelled.{StandSpelled};
ghost use Rattle.sky_base.specs.Names.{known_of};
ghost use Rattle.sky_base.specs.Val.{same_text};
ghost use Rattle.sky_state.specs.Pending.{held_in, pending_in};
ghost use Rattle.sky_state.specs.StateView.{stand_of};
ghost use Rattle.ciel_master_safe.specs.Safe.{IsStackOf};
ghost use Rattle.ciel_log_fits.specs.Stacks.{IsAt, NoStackOf};

use sky_base::names::Names;
use sky_base::object::TaskId;
use sky_base::text::Memory;
use sky_frozen::fitting::Fitting;
use sky_frozen::read::read_frozen;
use sky_frozen_bytes::frozen::Frozen;
use sky_frozen_bytes::refusal::ReadFrozen;
use sky_state::state::State;
use std::alloc::Global;

/// A stack with the names that it waits for, and with those that it holds.
#[derive(Drop)]
pub struct Stack {
    pub frozen: Frozen,
    pub refs: Names,
    pub holds: Names,
}

/// The stack that has these bytes, if it fits the script, is of this task and stands at this wait.
///
/// Answers `None` exactly where no such stack has them. Answers `Memory` for want of memory.
pub fn read_stack(
    alloc: Global,
    fitting: &Fitting,
    task: &TaskId,
    wait: u32,
    bytes: &[u8],
) -> Result<Option<Stack>, Memory>
    ensures stack { IfOk result (λ o. IfSome o (λ s. IsStackOf fitting.now task.now wait s.refs s.holds s.frozen)) }
    ensures bytes { IfOk result (λ o. IfSome o (λ s. frozen_bytes s.frozen ≡ bytes.now)) }
    ensures spelled { IfOk result (λ o. IfSome o (λ s. StandSpelled s.frozen)) }
    ensures none { IfOk result (λ o. IfNone o (NoStackOf fitting.now task.now wait bytes.now)) }
{
    match read_frozen(alloc, bytes, fitting) {
        Ok(frozen) => {
            let stack = of_task(alloc, frozen, task, wait)?;
            Ok(stack)
        }
        Err(ReadFrozen::BadFrozen) => Ok(None),
        Err(ReadFrozen::Memory) => Err(Memory),
    }
}

/// The stack, if it is of this task and stands at this wait.
fn of_task(alloc: Global, frozen: Frozen, task: &TaskId, wait: u32) -> Result<Option<Stack>, Memory>
    ensures stack { IfOk result (λ o. IfSome o (λ s. IsAt task.now wait s.frozen)) }
    ensures frozen { IfOk result (λ o. IfSome o (λ s. s.frozen ≡ frozen)) }
    ensures refs { IfOk result (λ o. IfSome o (λ s. known_of s.refs ≡ pending_in same_text s.frozen)) }
    ensures holds { IfOk result (λ o. IfSome o (λ s. known_of s.holds ≡ held_in same_text s.frozen)) }
    ensures none { IfOk result (λ o. IfNone o (IsAt task.now wait frozen → ⊥)) }
{
    let state = frozen.thaw(alloc)?;
    if !is_at(&state, task, wait) {
        return Ok(None);
    }
    let refs = state.pending(alloc)?;
    let holds = state.holds(alloc)?;
    Ok(Some(Stack {
        frozen,
        refs,
        holds,
    }))
}

/// Whether a state is of this task and stands at this wait.
fn is_at(state: &State, task: &TaskId, wait: u32) -> bool
    ensures yes { IsTrue result → IsAt task.now wait (stand_of state.now) }
    ensures no { IsFalse result → IsAt task.now wait (stand_of state.now) → ⊥ }
{
    match (task, state) {
        (TaskId::Show, State::Show { wave, .. }) => *wave == wait,
        (TaskId::Of(_), State::Run(run)) => run.waits == wait,
        _ => false,
    }
}
