// The state that has some bytes. Each state has one spelling, so bytes that are no state's spelling are refused. Nothing here
// calls itself: frames, values and forms stand one behind the other, and a value goes no deeper than its limit.

ghost use Rattle.std.specs.Prelude.{◌≡◌, ◌∷◌, [], IfOk, IfErr, IsTrue, IsFalse, MatchOption};
ghost use Rattle.ciel_name.specs.Spelled.{IsData, Refuses};
ghost use Rattle.sky_base.specs.Name.{bytes};
ghost use Rattle.sky_base.specs.View.{view, pairs_of};
ghost use Rattle.sky_frozen_bytes.specs.Bytes.{counted, todo_bytes, vars_bytes, frame_bytes, run_bytes, frozen_bytes};
ghost use Rattle.sky_frozen_bytes.specs.Codes.{ReadAs, NoneAs, Counted};
ghost use Rattle.sky_frozen_bytes.specs.Spelled.{TodoSpelled, EachKept, VarsSpelled, lists_bytes, ListsSpelled, FrameSpelled, RunSpelled, show_bytes};
ghost use Rattle.sky_frozen_bytes.specs.Spelled.{ShowSpelled, KindRead, NoKind, NoHead, StandSpelled, NoStand, IfBad};
ghost use Rattle.sky_state.specs.StandView.{todo_view, todos_view, stack_view, frame_view, frames_view};
ghost use Rattle.sky_state.specs.StateView.{stand_of, spawned_of};

use crate::refusal::ReadFrozen;
use ciel_name::read::{is_above, read_text, read_value};
use ciel_name::reader::Reader;
use ciel_name::refusal::Decode;
use sky_base::value::{MOST_DEPTH, MOST_SIZE, Pairs, Value};
use sky_state::frame::{Frame, Frames, Stack, Todo, Todos};
use sky_state::spawned::Spawned;
use sky_state::state::{RunState, State};
use std::alloc::Global;

/// A node and a step.
fn read_todo(reader: &mut Reader) -> Result<Todo, Decode>
    ensures read { IfOk result (λ t. ReadAs todo_bytes TodoSpelled reader.old (todo_view t) reader.new) }
    ensures refused { IfErr result (λ e. Refuses e (NoneAs todo_bytes TodoSpelled reader.old)) }
{
    let Some(node) = reader.number() else {
        return Err(Decode::NotValue);
    };
    let Some(step) = reader.number() else {
        return Err(Decode::NotValue);
    };
    Ok(Todo { node, step })
}

/// Forms under way, behind their number.
fn read_todos(alloc: Global, reader: &mut Reader) -> Result<Vec<Todo>, Decode>
    ensures read { IfOk result (λ ts. ReadAs (counted todo_bytes) (Counted TodoSpelled) reader.old (todos_view ts.items) reader.new) }
    ensures refused { IfErr result (λ e. Refuses e (NoneAs (counted todo_bytes) (Counted TodoSpelled) reader.old)) }
{
    let Some(count) = reader.number() else {
        return Err(Decode::NotValue);
    };
    let mut todos = Vec::new(alloc);
    for _todo in 0..count {
        let todo = match read_todo(reader) {
            Ok(todo) => todo,
            Err(refusal) => return Err(refusal),
        };
        let Ok(()) = todos.push(todo) else {
            return Err(Decode::Memory);
        };
    }
    Ok(todos)
}

/// A value within the limits of depth and size.
fn read_data(alloc: Global, reader: &mut Reader) -> Result<Value, Decode>
    ensures read { IfOk result (λ v. ReadAs bytes IsData reader.old (view v) reader.new) }
    ensures refused { IfErr result (λ e. Refuses e (NoneAs bytes IsData reader.old)) }
{
    match read_value(alloc, reader, MOST_DEPTH, MOST_SIZE) {
        Ok(value) => Ok(value),
        Err(refusal) => Err(refusal),
    }
}

/// Values, behind their number.
fn read_values(alloc: Global, reader: &mut Reader) -> Result<Vec<Value>, Decode>
    ensures read { IfOk result (λ vs. ReadAs (counted bytes) (Counted IsData) reader.old (stack_view vs.items) reader.new) }
    ensures refused { IfErr result (λ e. Refuses e (NoneAs (counted bytes) (Counted IsData) reader.old)) }
{
    let Some(count) = reader.number() else {
        return Err(Decode::NotValue);
    };
    let mut values = Vec::new(alloc);
    for _value in 0..count {
        let value = match read_data(alloc, reader) {
            Ok(value) => value,
            Err(refusal) => return Err(refusal),
        };
        let Ok(()) = values.push(value) else {
            return Err(Decode::Memory);
        };
    }
    Ok(values)
}

/// Variables, behind their number: names that rise, each with a value within the limits.
fn read_vars(alloc: Global, reader: &mut Reader) -> Result<Pairs, Decode>
    ensures read { IfOk result (λ ps. ReadAs vars_bytes VarsSpelled reader.old ps reader.new) }
    ensures refused { IfErr result (λ e. Refuses e (NoneAs vars_bytes VarsSpelled reader.old)) }
{
    let Some(count) = reader.number() else {
        return Err(Decode::NotValue);
    };
    let mut vars = Pairs::new(alloc);
    for _var in 0..count {
        let name = match read_text(alloc, reader) {
            Ok(name) => name,
            Err(refusal) => return Err(refusal),
        };
        if !is_above(&name, vars.as_slice()) {
            return Err(Decode::NotValue);
        }
        let value = match read_data(alloc, reader) {
            Ok(value) => value,
            Err(refusal) => return Err(refusal),
        };
        vars.insert(name, value)?;
    }
    Ok(vars)
}

/// The values and the forms under way of a frame.
fn read_lists(alloc: Global, reader: &mut Reader) -> Result<(Stack, Todos), Decode>
    ensures read { IfOk result (λ p. ReadAs lists_bytes ListsSpelled reader.old (p.0, p.1) reader.new) }
    ensures refused { IfErr result (λ e. Refuses e (NoneAs lists_bytes ListsSpelled reader.old)) }
{
    let stack = match read_values(alloc, reader) {
        Ok(stack) => stack,
        Err(refusal) => return Err(refusal),
    };
    let todo = match read_todos(alloc, reader) {
        Ok(todo) => todo,
        Err(refusal) => return Err(refusal),
    };
    Ok((Stack::of(stack), Todos::of(todo)))
}

/// A frame.
fn read_frame(alloc: Global, reader: &mut Reader) -> Result<Frame, Decode>
    ensures read { IfOk result (λ f. ReadAs frame_bytes FrameSpelled reader.old (frame_view f) reader.new) }
    ensures refused { IfErr result (λ e. Refuses e (NoneAs frame_bytes FrameSpelled reader.old)) }
{
    let fun = match read_text(alloc, reader) {
        Ok(fun) => fun,
        Err(refusal) => return Err(refusal),
    };
    let vars = match read_vars(alloc, reader) {
        Ok(vars) => vars,
        Err(refusal) => return Err(refusal),
    };
    let (stack, todo) = match read_lists(alloc, reader) {
        Ok(lists) => lists,
        Err(refusal) => return Err(refusal),
    };
    Ok(Frame {
        fun,
        vars,
        stack,
        todo,
    })
}

/// Frames, behind their number.
fn read_frames(alloc: Global, reader: &mut Reader) -> Result<Vec<Frame>, Decode>
    ensures read { IfOk result (λ fs. ReadAs (counted frame_bytes) (Counted FrameSpelled) reader.old (frames_view fs.items) reader.new) }
    ensures refused { IfErr result (λ e. Refuses e (NoneAs (counted frame_bytes) (Counted FrameSpelled) reader.old)) }
{
    let Some(count) = reader.number() else {
        return Err(Decode::NotValue);
    };
    let mut frames = Vec::new(alloc);
    for _frame in 0..count {
        let frame = match read_frame(alloc, reader) {
            Ok(frame) => frame,
            Err(refusal) => return Err(refusal),
        };
        let Ok(()) = frames.push(frame) else {
            return Err(Decode::Memory);
        };
    }
    Ok(frames)
}

/// The run of a call, with nothing made.
fn read_run(alloc: Global, reader: &mut Reader) -> Result<RunState, Decode>
    ensures read { IfOk result (λ r. ReadAs run_bytes RunSpelled reader.old (record { frames = r.frames; count = r.count; waits = r.waits })
        reader.new) }
    ensures spawned { IfOk result (λ r. r.spawned ≡ []) }
    ensures refused { IfErr result (λ e. Refuses e (NoneAs run_bytes RunSpelled reader.old)) }
{
    let Some(count) = reader.number() else {
        return Err(Decode::NotValue);
    };
    let Some(waits) = reader.number() else {
        return Err(Decode::NotValue);
    };
    let frames = match read_frames(alloc, reader) {
        Ok(frames) => frames,
        Err(refusal) => return Err(refusal),
    };
    Ok(RunState {
        frames: Frames::of(frames),
        count,
        waits,
        spawned: Spawned::new(alloc),
    })
}

/// The wave of the root task, and the value of the result.
fn read_show(alloc: Global, reader: &mut Reader) -> Result<(u32, Value), Decode>
    ensures read { IfOk result (λ p. ReadAs show_bytes ShowSpelled reader.old (p.0, view p.1) reader.new) }
    ensures refused { IfErr result (λ e. Refuses e (NoneAs show_bytes ShowSpelled reader.old)) }
{
    let Some(wave) = reader.number() else {
        return Err(Decode::NotValue);
    };
    let value = match read_data(alloc, reader) {
        Ok(value) => value,
        Err(refusal) => return Err(refusal),
    };
    Ok((wave, value))
}

/// A state of this kind, with nothing made.
fn read_kind(alloc: Global, reader: &mut Reader, kind: u8) -> Result<State, Decode>
    ensures read { IfOk result (λ s. KindRead kind reader.old (stand_of s) reader.new) }
    ensures spawned { IfOk result (λ s. spawned_of s ≡ []) }
    ensures refused { IfErr result (λ e. Refuses e (NoKind kind reader.old)) }
{
    match kind {
        0 => match read_run(alloc, reader) {
            Ok(run) => Ok(State::Run(run)),
            Err(refusal) => Err(refusal),
        },
        1 => match read_show(alloc, reader) {
            Ok((wave, value)) => Ok(State::Show { value, wave }),
            Err(refusal) => Err(refusal),
        },
        _ => Err(Decode::NotValue),
    }
}

/// The kind of a state whose bytes these are the first of.
fn read_head(reader: &mut Reader) -> Option<u8>
    ensures { MatchOption result (NoHead reader.old) (λ k. reader.old ≡ 75 ∷ 1 ∷ k ∷ reader.new) }
{
    let head = reader.array::<3>()?;
    if head[0] != 75 || head[1] != 1 {
        return None;
    }
    Some(head[2])
}

/// The state that has these bytes, with nothing made.
///
/// Answers `BadFrozen` exactly where no state has them whose values keep the limits of depth and size: where they end too early or
/// something follows, they don't begin with `K` and 1 and one of the two kinds, the names of variables don't rise, or what stands where a text or
/// a value is wanted is none. Whether the state fits a script isn't asked. Answers `Memory` for want of memory.
pub fn read_state(alloc: Global, bytes: &[u8]) -> Result<State, ReadFrozen>
    ensures bytes { IfOk result (λ s. frozen_bytes (stand_of s) ≡ bytes.now) }
    ensures spelled { IfOk result (λ s. StandSpelled (stand_of s)) }
    ensures spawned { IfOk result (λ s. spawned_of s ≡ []) }
    ensures refused { IfErr result (λ e. IfBad e (NoStand bytes.now)) }
{
    let mut reader = Reader::new(bytes);
    let Some(kind) = read_head(&mut reader) else {
        return Err(ReadFrozen::BadFrozen);
    };
    match read_kind(alloc, &mut reader, kind) {
        Ok(state) => {
            if reader.is_empty() {
                Ok(state)
            } else {
                Err(ReadFrozen::BadFrozen)
            }
        }
        Err(Decode::NotValue) => Err(ReadFrozen::BadFrozen),
        Err(Decode::Memory) => Err(ReadFrozen::Memory),
    }
}
