// States, their bytes, and the states again.

ghost use Rattle.std.specs.Prelude.{◌≡◌, [], IfOk};
ghost use Rattle.sky_state.specs.StateView.{spawned_of};

use sky_base::name::Name;
use sky_base::text::Txt;
use sky_base::value::{Pairs, Value};
use sky_frozen_bytes::frozen::freeze;
use sky_state::frame::{Frame, Frames, Stack, Todo, Todos};
use sky_state::spawned::Spawned;
use sky_state::state::{RunState, State};
use std::alloc::Global;
use std::process::Abort;
use std::test::Fail;

/// The run of the main body in one frame, with nothing made.
fn run(alloc: Global, frame: Frame, count: u32, waits: u32) -> Result<State, Fail>
    ensures { IfOk result (λ s. spawned_of s ≡ []) }
{
    let mut frames = Vec::new(alloc);
    frames.push(frame)?;
    let state = run_of(alloc, Frames::of(frames), count, waits);
    Ok(state)
}

/// The run of these frames, with nothing made.
pub fn run_of(alloc: Global, frames: Frames, count: u32, waits: u32) -> State
    ensures { spawned_of result ≡ [] }
{
    State::Run(RunState {
        frames,
        count,
        waits,
        spawned: Spawned::new(alloc),
    })
}

/// A frame of the main body.
fn frame(alloc: Global, vars: Pairs, stack: Vec<Value>, todo: &[Todo]) -> Result<Frame, Fail> {
    Ok(Frame {
        fun: Txt::new(alloc, "")?,
        vars,
        stack: Stack::of(stack),
        todo: Todos::of(Vec::from_slice(alloc, todo)?),
    })
}

/// The bytes of the state that the thawed one has.
fn bytes_of_thawed(alloc: Global, state: &State) -> Result<Vec<u8>, Fail>
    requires { spawned_of state.now ≡ [] }
{
    let thawed = freeze(alloc, state)?.thaw(alloc)?;
    let again = freeze(alloc, &thawed)?;
    Ok(Vec::from_slice(alloc, again.bytes())?)
}

/// The state has these bytes, and so has the one that is thawed.
pub fn freezes(rt: &impl Abort, alloc: Global, state: &State, want: &[u8]) -> Result<(), Fail>
    requires { spawned_of state.now ≡ [] }
{
    let frozen = freeze(alloc, state)?;
    assert!(rt; frozen.bytes() == want);
    assert!(rt; bytes_of_thawed(alloc, state)?.as_slice() == want);
    Ok(())
}

/// The start of a main body.
fn start(alloc: Global) -> Result<State, Fail>
    ensures { IfOk result (λ s. spawned_of s ≡ []) }
{
    let frame = frame(
        alloc,
        Pairs::new(alloc),
        Vec::new(alloc),
        &[Todo { node: 0, step: 0 }],
    )?;
    let state = run(alloc, frame, 0, 0)?;
    Ok(state)
}

#[test]
fn a_start_has_39_bytes(rt: HostRuntime) -> Result<(), Fail> {
    let want =
        b"K\x01\x00\0\0\0\0\0\0\0\0\0\0\0\x01\0\0\0\0\0\0\0\0\0\0\0\0\0\0\0\x01\0\0\0\0\0\0\0\0";
    freezes(&rt, rt.alloc(), &start(rt.alloc())?, want)
}

/// The variables `a` and `b`, which refer to these objects.
pub fn two(alloc: Global, first: Name, second: Name) -> Result<Pairs, Fail> {
    let mut vars = Pairs::new(alloc);
    vars.insert(Txt::new(alloc, "a")?, Value::Ref(first))?;
    vars.insert(Txt::new(alloc, "b")?, Value::Ref(second))?;
    Ok(vars)
}

static PLACES: [Todo; 4] = [
    Todo { node: 0, step: 3 },
    Todo { node: 11, step: 1 },
    Todo { node: 12, step: 1 },
    Todo { node: 13, step: 2 },
];

/// The main body of the sum of two squares, where it waits for the first.
fn waiting(alloc: Global, first: Name, second: Name) -> Result<State, Fail>
    ensures { IfOk result (λ s. spawned_of s ≡ []) }
{
    let mut stack = Vec::new(alloc);
    stack.push(Value::Ref(first))?;
    let frame = frame(alloc, two(alloc, first, second)?, stack, &PLACES)?;
    let state = run(alloc, frame, 13, 1)?;
    Ok(state)
}

/// Its bytes, where a reference begins with this byte.
pub fn squares(alloc: Global, kind: u8, first: &[u8], second: &[u8]) -> Result<Vec<u8>, Fail> {
    let mut bytes = Vec::new(alloc);
    bytes.extend_from_slice(
        b"K\x01\x00\0\0\0\x0d\0\0\0\x01\0\0\0\x01\0\0\0\0\0\0\0\x02\0\0\0\x01a",
    )?;
    bytes.push(kind)?;
    bytes.extend_from_slice(first)?;
    bytes.extend_from_slice(b"\0\0\0\x01b")?;
    bytes.push(kind)?;
    bytes.extend_from_slice(second)?;
    bytes.extend_from_slice(b"\0\0\0\x01")?;
    bytes.push(kind)?;
    bytes.extend_from_slice(first)?;
    bytes.extend_from_slice(
        b"\0\0\0\x04\0\0\0\0\0\0\0\x03\0\0\0\x0b\0\0\0\x01\0\0\0\x0c\0\0\0\x01\0\0\0\x0d\0\0\0\x02",
    )?;
    Ok(bytes)
}

#[test]
fn two_squares_that_wait_have_136_bytes(rt: HostRuntime) -> Result<(), Fail> {
    let (first, second) = ([1u8; 20], [2u8; 20]);
    let state = waiting(rt.alloc(), Name::short(first), Name::short(second))?;
    let want = squares(rt.alloc(), 8, &first, &second)?;
    assert_eq!(&rt; want.len(), 136);
    freezes(&rt, rt.alloc(), &state, want.as_slice())
}

#[test]
fn with_names_of_32_bytes_they_have_172(rt: HostRuntime) -> Result<(), Fail> {
    let (first, second) = ([1u8; 32], [2u8; 32]);
    let state = waiting(rt.alloc(), Name::long(first), Name::long(second))?;
    let want = squares(rt.alloc(), 9, &first, &second)?;
    assert_eq!(&rt; want.len(), 172);
    freezes(&rt, rt.alloc(), &state, want.as_slice())
}

#[test]
fn the_root_task_has_its_wave_and_its_value(rt: HostRuntime) -> Result<(), Fail> {
    let state = State::Show {
        value: Value::Ref(Name::short([7; 20])),
        wave: 2,
    };
    let want =
        b"K\x01\x01\0\0\0\x02\x08\x07\x07\x07\x07\x07\x07\x07\x07\x07\x07\x07\x07\x07\x07\x07\x07\x07\x07\x07\x07";
    freezes(&rt, rt.alloc(), &state, want)
}
