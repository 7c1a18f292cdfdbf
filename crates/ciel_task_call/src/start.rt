//! The start of a call, in the body that the tables of its script give for its name.

ghost use Rattle.std.specs.Prelude.{◌≡◌, [], ◌∷◌, IfOk};
ghost use Rattle.sky_state.specs.Fits.{Fits};
ghost use Rattle.sky_state.specs.Start.{CanStart, StartsCall};
ghost use Rattle.sky_state.specs.Stands.{StandsForCall};
ghost use Rattle.sky_state.specs.StateView.{stand_of, spawned_of};

use sky_base::text::{Memory, Txt};
use sky_base::value::{Pairs, Vals};
use sky_machine_code::code::Code;
use sky_state::frame::{Frame, Frames, Stack, Todo, Todos};
use sky_state::spawned::Spawned;
use sky_state::start::bound;
use sky_state::state::{RunState, State};
use std::alloc::Global;

/// The start of a call, as `State::start_call` makes it: here its body takes one question to the tables, and no walk over the script.
pub(crate) fn start_call(
    alloc: Global,
    code: &Code<'_>,
    fun: &Txt,
    caught: &Pairs,
    args: &Vals,
) -> Result<State, Memory>
    requires { CanStart code.now fun.now caught.now args.now }
    ensures start { IfOk result (λ s. StartsCall code.now fun.now caught.now args.now (stand_of s)) }
    ensures spawned { IfOk result (λ s. spawned_of s ≡ []) }
    ensures fits { IfOk result (λ s. Fits code.now (stand_of s)) }
    ensures stands { IfOk result (λ s. StandsForCall code.now fun.now caught.now args.now (stand_of s)) }
{
    let Some(body) = code.body(fun) else {
        unreachable!()
    };
    let vars = bound(caught, body.params, args)?;
    let run = at_start(alloc, fun, vars, body.node)?;
    Ok(State::Run(run))
}

// The run of a body, of which the first statement is next.
fn at_start(alloc: Global, fun: &Txt, vars: Pairs, node: u32) -> Result<RunState, Memory>
    ensures frames { IfOk result (λ r. r.frames ≡ record { fun = fun.now; vars = vars; stack = []; todo = record { node = node; step = 0 } ∷ [] }
        ∷ []) }
    ensures count { IfOk result (λ r. r.count ≡ 0) }
    ensures waits { IfOk result (λ r. r.waits ≡ 0) }
    ensures spawned { IfOk result (λ r. r.spawned ≡ []) }
{
    let mut todo = Vec::new(alloc);
    let Ok(()) = todo.push(Todo { node, step: 0 }) else {
        return Err(Memory);
    };
    let fun = fun.share()?;
    let mut frames = Vec::new(alloc);
    let Ok(()) = frames.push(Frame {
        fun,
        vars,
        stack: Stack::of(Vec::new(alloc)),
        todo: Todos::of(todo),
    }) else {
        return Err(Memory);
    };
    Ok(RunState {
        frames: Frames::of(frames),
        count: 0,
        waits: 0,
        spawned: Spawned::new(alloc),
    })
}
