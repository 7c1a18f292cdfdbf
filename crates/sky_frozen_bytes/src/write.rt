// The bytes of states: numbers and counts of four bytes, texts behind their lengths, values as they are named by.

ghost use Rattle.std.specs.Prelude.{◌≡◌, ◌∷◌, ◌++◌, [], IfOk, flat_map};
ghost use Rattle.sky_base.specs.Name.{big_endian, bytes};
ghost use Rattle.sky_base.specs.View.{view};
ghost use Rattle.sky_frozen_bytes.specs.Bytes.{counted, todo_bytes, vars_bytes, frame_bytes, frozen_bytes};
ghost use Rattle.sky_state.specs.StandView.{todo_view, todos_view, stack_view, frame_view, frames_view};
ghost use Rattle.sky_state.specs.Stand.{Stand};
ghost use Rattle.sky_state.specs.StateView.{stand_of};

use ciel_name::write::{put_pairs, put_value};
use ciel_name::writer::Writer;
use sky_base::text::Memory;
use sky_base::value::Value;
use sky_state::frame::{Frame, Todo};
use sky_state::state::{RunState, State};

/// Writes a state; what it made and wasn't taken is no part of it.
pub(crate) fn put_state(out: &mut Writer, state: &State) -> Result<(), Memory>
    ensures { IfOk result (λ _. out.new ≡ out.old ++ frozen_bytes (stand_of state.now)) }
{
    match state {
        State::Run(run) => put_run(out, run),
        State::Show { value, wave } => put_show(out, value, *wave),
    }
}

#[tactic(auto, using(ciel_name::proofs::Numbers::appends))]
fn put_show(out: &mut Writer, value: &Value, wave: u32) -> Result<(), Memory>
    ensures { IfOk result (λ _. out.new ≡ out.old ++ frozen_bytes (Stand.show_at (view value.now) wave)) }
{
    out.raw(b"K\x01\x01")?;
    out.number(wave)?;
    put_value(out, value)
}

#[tactic(auto, using(ciel_name::proofs::Numbers::appends))]
fn put_run(out: &mut Writer, run: &RunState) -> Result<(), Memory>
    ensures { IfOk result (λ _. out.new ≡ out.old
        ++ frozen_bytes (Stand.run (record { frames = run.now.frames; count = run.now.count; waits = run.now.waits }))) }
{
    out.raw(b"K\x01\x00")?;
    out.number(run.count)?;
    out.number(run.waits)?;
    put_frames(out, run.frames.as_slice())?;
    Ok(())
}

#[tactic(auto, using(ciel_name::proofs::Numbers::appends))]
fn put_frames(out: &mut Writer, frames: &[Frame]) -> Result<(), Memory>
    ensures { IfOk result (λ _. out.new ≡ out.old ++ counted frame_bytes (frames_view frames.now)) }
{
    out.count(frames.len())?;
    for frame in frames {
        put_frame(out, frame)?;
    }
    Ok(())
}

#[tactic(auto, using(ciel_name::proofs::Numbers::appends))]
fn put_frame(out: &mut Writer, frame: &Frame) -> Result<(), Memory>
    ensures { IfOk result (λ _. out.new ≡ out.old ++ frame_bytes (frame_view frame.now)) }
{
    out.text(&frame.fun)?;
    put_pairs(out, &frame.vars)?;
    put_stack(out, frame.stack.as_slice())?;
    put_todos(out, frame.todo.as_slice())
}

#[tactic(auto, using(ciel_name::proofs::Numbers::appends))]
fn put_stack(out: &mut Writer, stack: &[Value]) -> Result<(), Memory>
    ensures { IfOk result (λ _. out.new ≡ out.old ++ counted bytes (stack_view stack.now)) }
{
    out.count(stack.len())?;
    for value in stack {
        put_value(out, value)?;
    }
    Ok(())
}

#[tactic(auto, using(ciel_name::proofs::Numbers::appends))]
fn put_todos(out: &mut Writer, todos: &[Todo]) -> Result<(), Memory>
    ensures { IfOk result (λ _. out.new ≡ out.old ++ counted todo_bytes (todos_view todos.now)) }
{
    out.count(todos.len())?;
    for todo in todos {
        put_todo(out, todo)?;
    }
    Ok(())
}

#[tactic(auto, using(ciel_name::proofs::Numbers::appends))]
fn put_todo(out: &mut Writer, todo: &Todo) -> Result<(), Memory>
    ensures { IfOk result (λ _. out.new ≡ out.old ++ todo_bytes (todo_view todo.now)) }
{
    out.number(todo.node)?;
    out.number(todo.step)
}
