// Whether a state fits a script.

ghost use Rattle.std.specs.Prelude.{◌≤◌, ◌<◌, IfOk, IsTrue, IsFalse, length};
ghost use Rattle.sky_base.specs.Res.{visits};
ghost use Rattle.sky_base.specs.Val.{refs};
ghost use Rattle.sky_base.specs.View.{view};
ghost use Rattle.sky_state.specs.Fits.{Before, Fits, FitsRun, FitsShow, Last};
ghost use Rattle.sky_state.specs.StandView.{frames_view};
ghost use Rattle.sky_state.specs.StateView.{stand_of};
ghost use Rattle.sky_frozen.specs.Ends.{EndsInCall, EndsInWait, Few, FramesFew, Stacked};

use crate::fitting::Fitting;
use crate::frames::{all_end_in_calls, frames_fit, functions_fit, waits};
use crate::start::is_start;
use crate::values::is_sound;
use sky_base::text::Memory;
use sky_base::value::Value;
use sky_base_scope::state::MOST_VISITS;
use sky_state::frame::Frame;
use sky_state::state::{RunState, State};
use std::alloc::Global;

/// The most bodies that are open at one time.
const MOST_FRAMES: usize = 64;

/// The greatest wave.
const MOST_WAVES: u32 = 100;

/// Whether the state fits the script, as `Fits` says: exactly where each form, value and number in it is one that the script allows
/// there. What it made is not asked. It takes time in the size of the state, and for each frame at most in that of the script.
///
/// Answers `Memory` for want of memory.
pub fn state_fits(alloc: Global, fitting: &Fitting, state: &State) -> Result<bool, Memory>
    ensures yes { IfOk result (λ b. IsTrue b → Fits fitting.now (stand_of state.now)) }
    ensures no { IfOk result (λ b. IsFalse b → Fits fitting.now (stand_of state.now) → ⊥) }
{
    match state {
        State::Run(run) => {
            let fits = run_fits(alloc, fitting, run)?;
            Ok(fits)
        }
        State::Show { value, wave } => {
            let fits = show_fits(alloc, fitting, value, *wave)?;
            Ok(fits)
        }
    }
}

// Whether a call's stack fits.
fn run_fits(alloc: Global, fitting: &Fitting, run: &RunState) -> Result<bool, Memory>
    ensures yes { IfOk result (λ b. IsTrue b → FitsRun fitting.now
        (record { frames = run.now.frames; count = run.now.count; waits = run.now.waits })) }
    ensures no { IfOk result (λ b. IsFalse b → FitsRun fitting.now
        (record { frames = run.now.frames; count = run.now.count; waits = run.now.waits }) → ⊥) }
{
    if !are_few(run) {
        return Ok(false);
    }
    if !stack_fits(fitting, run.frames.as_slice()) {
        return Ok(false);
    }
    if run.waits > 0 {
        return Ok(top_waits(fitting, run.frames.as_slice()));
    }
    let start = is_start(alloc, fitting, run)?;
    Ok(start)
}

// Whether there are 1 to 64 frames, at most a million visits, and at most as many waits.
fn are_few(run: &RunState) -> bool
    ensures yes { IsTrue result → Few (record { frames = run.now.frames; count = run.now.count; waits = run.now.waits }) }
    ensures no { IsFalse result → Few (record { frames = run.now.frames; count = run.now.count; waits = run.now.waits }) → ⊥ }
{
    some_frames(run.frames.as_slice()) && counts_fit(run.count, run.waits)
}

// Whether there are 1 to 64 frames.
#[tactic(auto, using(crate::proofs::Whole::as_many), unfolding(sky_base::specs::Res::others))]
fn some_frames(frames: &[Frame]) -> bool
    ensures yes { IsTrue result → FramesFew (frames_view frames.now) }
    ensures no { IsFalse result → FramesFew (frames_view frames.now) → ⊥ }
{
    if frames.len() == 0 {
        return false;
    }
    if frames.len() > MOST_FRAMES {
        return false;
    }
    true
}

// Whether there are at most a million visits, and at most as many waits.
#[tactic(auto, unfolding(sky_base::specs::Res::visits))]
fn counts_fit(count: u32, waits: u32) -> bool
    ensures yes { IsTrue result → (count ≤ visits) × (waits ≤ count) }
    ensures no { IsFalse result → count ≤ visits → waits ≤ count → ⊥ }
{
    if count > MOST_VISITS {
        return false;
    }
    if waits > count {
        return false;
    }
    true
}

// Whether each frame fits, and each but the top one ends in an open call.
fn stack_fits(fitting: &Fitting, frames: &[Frame]) -> bool
    ensures yes { IsTrue result → Stacked fitting.now (frames_view frames.now) }
    ensures no { IsFalse result → Stacked fitting.now (frames_view frames.now) → ⊥ }
{
    functions_fit(fitting, frames) && frames_fit(fitting, frames) && calls_fit(fitting, frames)
}

// Whether the last form of each frame but the top one is an open call.
fn calls_fit(fitting: &Fitting, frames: &[Frame]) -> bool
    ensures yes { IsTrue result → Before (EndsInCall fitting.now) (frames_view frames.now) }
    ensures no { IsFalse result → Before (EndsInCall fitting.now) (frames_view frames.now) → ⊥ }
{
    match frames.split_last() {
        None => true,
        Some((_, below)) => all_end_in_calls(fitting, below),
    }
}

// Whether the last form of the top frame waits.
fn top_waits(fitting: &Fitting, frames: &[Frame]) -> bool
    ensures yes { IsTrue result → Last (EndsInWait fitting.now) (frames_view frames.now) }
    ensures no { IsFalse result → Last (EndsInWait fitting.now) (frames_view frames.now) → ⊥ }
{
    match frames.split_last() {
        None => false,
        Some((top, _)) => waits(fitting, top),
    }
}

// Whether the result at a wave fits: the wave is at most 100, and the value is sound and refers to something.
fn show_fits(alloc: Global, fitting: &Fitting, value: &Value, wave: u32) -> Result<bool, Memory>
    ensures yes { IfOk result (λ b. IsTrue b → FitsShow fitting.now (view value.now) wave) }
    ensures no { IfOk result (λ b. IsFalse b → FitsShow fitting.now (view value.now) wave → ⊥) }
{
    if wave > MOST_WAVES {
        return Ok(false);
    }
    if !is_sound(fitting.captures(), value) {
        return Ok(false);
    }
    let refers = refers(alloc, value)?;
    Ok(refers)
}

// Whether the value refers to something.
#[tactic(auto, using(crate::proofs::Whole::references))]
fn refers(alloc: Global, value: &Value) -> Result<bool, Memory>
    ensures yes { IfOk result (λ b. IsTrue b → 0 < length (refs (view value.now))) }
    ensures no { IfOk result (λ b. IsFalse b → 0 < length (refs (view value.now)) → ⊥) }
{
    let names = value.refs(alloc)?;
    if names.len() == 0 {
        return Ok(false);
    }
    Ok(true)
}
