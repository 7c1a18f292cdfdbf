// Whether the frames of a stack fit, each by itself and each with the one above it.

ghost use Rattle.std.specs.Prelude.{IsTrue, IsFalse};
ghost use Rattle.sky_base_law.specs.Sound.{IsFun};
ghost use Rattle.sky_base_law.specs.Tasks.{Each};
ghost use Rattle.sky_state.specs.Fits.{FitsFrame, FunsOf};
ghost use Rattle.sky_state.specs.StandView.{frame_view, frames_view};
ghost use Rattle.sky_frozen.specs.Ends.{EndsInCall, EndsInWait, FormsFit, ValuesFit};

use crate::fitting::Fitting;
use crate::values::{values_are_sound, vars_are_sound};
use sky_base::text::Txt;
use sky_frozen_fits::frames::{ends_in_call, ends_in_wait, entries_fit, on_body};
use sky_state::frame::Frame;

/// Whether each frame fits by itself.
pub(crate) fn frames_fit(fitting: &Fitting, frames: &[Frame]) -> bool
    ensures yes { IsTrue result → Each (FitsFrame fitting.now) (frames_view frames.now) }
    ensures no { IsFalse result → Each (FitsFrame fitting.now) (frames_view frames.now) → ⊥ }
{
    for frame in frames {
        if !frame_fits(fitting, frame) {
            return false;
        }
    }
    true
}

// Whether a frame fits by itself: it stands on the body of its function, its forms under way are parts of each other, the values on
// its stack are those that they keep, and all values in it are sound.
fn frame_fits(fitting: &Fitting, frame: &Frame) -> bool
    ensures yes { IsTrue result → FitsFrame fitting.now (frame_view frame.now) }
    ensures no { IsFalse result → FitsFrame fitting.now (frame_view frame.now) → ⊥ }
{
    forms_fit(fitting, frame) && values_fit(fitting, frame)
}

// The forms under way, with the values that they keep.
fn forms_fit(fitting: &Fitting, frame: &Frame) -> bool
    ensures yes { IsTrue result → FormsFit fitting.now (frame_view frame.now) }
    ensures no { IsFalse result → FormsFit fitting.now (frame_view frame.now) → ⊥ }
{
    let todo = frame.todo.as_slice();
    on_body(fitting.code(), &frame.fun, todo)
        && entries_fit(
            fitting.code(),
            fitting.nodes(),
            todo,
            frame.stack.as_slice(),
        )
}

// The variables and the values on the stack are sound.
fn values_fit(fitting: &Fitting, frame: &Frame) -> bool
    ensures yes { IsTrue result → ValuesFit fitting.now (frame_view frame.now) }
    ensures no { IsFalse result → ValuesFit fitting.now (frame_view frame.now) → ⊥ }
{
    vars_are_sound(fitting.captures(), frame.vars.as_slice())
        && values_are_sound(fitting.captures(), frame.stack.as_slice())
}

/// Whether each frame's function is one of the script; that of the bottom frame may be `main`, which has the empty name.
pub(crate) fn functions_fit(fitting: &Fitting, frames: &[Frame]) -> bool
    ensures yes { IsTrue result → FunsOf fitting.now (frames_view frames.now) }
    ensures no { IsFalse result → FunsOf fitting.now (frames_view frames.now) → ⊥ }
{
    let Some((bottom, further)) = frames.split_first() else {
        return true;
    };
    (bottom.fun.is_empty() || is_function(fitting, &bottom.fun)) && are_functions(fitting, further)
}

// Whether each frame's function is one of the script.
fn are_functions(fitting: &Fitting, frames: &[Frame]) -> bool
    ensures yes { IsTrue result → Each (λ f. IsFun fitting.now f.fun) (frames_view frames.now) }
    ensures no { IsFalse result → Each (λ f. IsFun fitting.now f.fun) (frames_view frames.now) → ⊥ }
{
    for frame in frames {
        if !is_function(fitting, &frame.fun) {
            return false;
        }
    }
    true
}

// Whether the script has a function of this name.
fn is_function(fitting: &Fitting, fun: &Txt) -> bool
    ensures yes { IsTrue result → IsFun fitting.now fun.now }
    ensures no { IsFalse result → IsFun fitting.now fun.now → ⊥ }
{
    fitting.code().program().find(fun).is_some()
}

/// Whether the last form of each frame is an open call.
pub(crate) fn all_end_in_calls(fitting: &Fitting, frames: &[Frame]) -> bool
    ensures yes { IsTrue result → Each (EndsInCall fitting.now) (frames_view frames.now) }
    ensures no { IsFalse result → Each (EndsInCall fitting.now) (frames_view frames.now) → ⊥ }
{
    for frame in frames {
        if !calls(fitting, frame) {
            return false;
        }
    }
    true
}

// Whether the last form of the frame is an open call.
fn calls(fitting: &Fitting, frame: &Frame) -> bool
    ensures yes { IsTrue result → EndsInCall fitting.now (frame_view frame.now) }
    ensures no { IsFalse result → EndsInCall fitting.now (frame_view frame.now) → ⊥ }
{
    ends_in_call(fitting.code(), fitting.nodes(), frame.todo.as_slice())
}

/// Whether the last form of the frame waits.
pub(crate) fn waits(fitting: &Fitting, frame: &Frame) -> bool
    ensures yes { IsTrue result → EndsInWait fitting.now (frame_view frame.now) }
    ensures no { IsFalse result → EndsInWait fitting.now (frame_view frame.now) → ⊥ }
{
    ends_in_wait(fitting.code(), fitting.nodes(), frame.todo.as_slice())
}
