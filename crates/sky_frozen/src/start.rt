// Whether a stack is that of a call at its start.

ghost use Rattle.std.specs.Prelude.{IfOk, IsTrue, IsFalse};
ghost use Rattle.sky_state.specs.Fits.{StartFrame, IsStart};
ghost use Rattle.sky_state.specs.StandView.{frame_view};
ghost use Rattle.sky_frozen.specs.Ends.{BodyBegins};

use crate::fitting::Fitting;
use crate::starts::are_bound;
use sky_base::text::Memory;
use sky_machine_code::code::Body;
use sky_state::frame::Frame;
use sky_state::state::RunState;
use std::alloc::Global;

/// Whether the stack is a start: one frame at the beginning of its body, with nothing visited and no wait so far.
///
/// Answers `Memory` for want of memory.
pub(crate) fn is_start(alloc: Global, fitting: &Fitting, run: &RunState) -> Result<bool, Memory>
    ensures yes { IfOk result (λ b. IsTrue b → IsStart fitting.now
        (record { frames = run.now.frames; count = run.now.count; waits = run.now.waits })) }
    ensures no { IfOk result (λ b. IsFalse b → IsStart fitting.now
        (record { frames = run.now.frames; count = run.now.count; waits = run.now.waits }) → ⊥) }
{
    if run.count != 0 || run.waits != 0 {
        return Ok(false);
    }
    let [frame] = run.frames.as_slice() else {
        return Ok(false);
    };
    let begins = begins(alloc, fitting, frame)?;
    Ok(begins)
}

// Whether the frame stands at the beginning of its function's body, with the variables that are set there.
fn begins(alloc: Global, fitting: &Fitting, frame: &Frame) -> Result<bool, Memory>
    ensures yes { IfOk result (λ b. IsTrue b → StartFrame fitting.now (frame_view frame.now)) }
    ensures no { IfOk result (λ b. IsFalse b → StartFrame fitting.now (frame_view frame.now) → ⊥) }
{
    let Some(body) = fitting.code().body(&frame.fun) else {
        return Ok(false);
    };
    if !at_start(&body, frame) {
        return Ok(false);
    }
    let bound = are_bound(
        alloc,
        fitting.captures(),
        &frame.fun,
        body.params,
        &frame.vars,
    )?;
    Ok(bound)
}

// Whether the block of the body is all that is under way, at its first step, with no values kept.
fn at_start(body: &Body, frame: &Frame) -> bool
    ensures yes { IsTrue result → BodyBegins body.now.node (frame_view frame.now) }
    ensures no { IsFalse result → BodyBegins body.now.node (frame_view frame.now) → ⊥ }
{
    let [todo] = frame.todo.as_slice() else {
        return false;
    };
    todo.node == body.node && todo.step == 0 && frame.stack.as_slice().is_empty()
}
