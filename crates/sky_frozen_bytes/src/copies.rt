// Copies of states. Values are shared, so a copy takes time in the numbers of frames, of values on the stacks and of
// forms under way.

ghost use Rattle.std.specs.Prelude.{◌≡◌, [], IfOk};
ghost use Rattle.sky_state.specs.StandView.{frame_view, frames_view};
ghost use Rattle.sky_state.specs.StateView.{stand_of, spawned_of};

use sky_base::text::Memory;
use sky_base::value::Value;
use sky_state::frame::{Frame, Frames, Stack, Todos};
use sky_state::spawned::Spawned;
use sky_state::state::{RunState, State};
use std::alloc::Global;

/// An equal state, without what it made.
pub(crate) fn copy(alloc: Global, state: &State) -> Result<State, Memory>
    ensures state { IfOk result (λ s. stand_of s ≡ stand_of state.now) }
    ensures spawned { IfOk result (λ s. spawned_of s ≡ []) }
{
    match state {
        State::Run(run) => {
            let frames = copy_frames(alloc, run.frames.as_slice())?;
            Ok(State::Run(RunState {
                frames: Frames::of(frames),
                count: run.count,
                waits: run.waits,
                spawned: Spawned::new(alloc),
            }))
        }
        State::Show { value, wave } => Ok(State::Show {
            value: value.copy()?,
            wave: *wave,
        }),
    }
}

fn copy_frames(alloc: Global, frames: &[Frame]) -> Result<Vec<Frame>, Memory>
    ensures { IfOk result (λ fs. frames_view fs.items ≡ frames_view frames.now) }
{
    let mut copies = Vec::new(alloc);
    for frame in frames {
        let Ok(()) = copies.push(copy_frame(alloc, frame)?) else {
            return Err(Memory);
        };
    }
    Ok(copies)
}

fn copy_frame(alloc: Global, frame: &Frame) -> Result<Frame, Memory>
    ensures { IfOk result (λ f. frame_view f ≡ frame_view frame.now) }
{
    let stack = copy_values(alloc, frame.stack.as_slice())?;
    let Ok(todo) = Vec::from_slice(alloc, frame.todo.as_slice()) else {
        return Err(Memory);
    };
    Ok(Frame {
        fun: frame.fun.share()?,
        vars: frame.vars.copy()?,
        stack: Stack::of(stack),
        todo: Todos::of(todo),
    })
}

fn copy_values(alloc: Global, values: &[Value]) -> Result<Vec<Value>, Memory>
    ensures { IfOk result (λ vs. vs.items ≡ values.now) }
{
    let mut copies = Vec::new(alloc);
    for value in values {
        let Ok(()) = copies.push(value.copy()?) else {
            return Err(Memory);
        };
    }
    Ok(copies)
}
