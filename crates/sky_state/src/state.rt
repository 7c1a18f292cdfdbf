// A state: what stands of a task that can start, or that waits.

ghost use Rattle.std.specs.Prelude.{◌≡◌, [], ◌∷◌, ◌++◌, IfOk};
ghost use Rattle.sky_base.specs.Tree as tree;
ghost use Rattle.sky_base.specs.Val as logic;
ghost use Rattle.sky_base.specs.Val.{refs, vals_refs, pairs_refs, known, same_text};
ghost use Rattle.sky_base.specs.View.{view};
ghost use Rattle.sky_base.specs.Names.{known_of};
ghost use Rattle.sky_base.specs.Eval.{body_of};
ghost use Rattle.sky_state.specs.Fits.{Fits};
ghost use Rattle.sky_state.specs.Pending.{pending_in, held_in, frames_refs, stack_refs};
ghost use Rattle.sky_state.specs.Stand.{Stand};
ghost use Rattle.sky_state.specs.StandView.{frames_view, stack_view};
ghost use Rattle.sky_state.specs.Start.{CanStart, StartsCall};
ghost use Rattle.sky_state.specs.Stands.{StandsForCall, StandsForShow};
ghost use Rattle.sky_state.specs.StateView.{stand_of, spawned_of};

use crate::frame::{Frame, Frames, Stack, Todo, Todos};
use crate::spawned::Spawned;
use crate::start::{Body, bound, find_body};
use sky_base::name::Name;
use sky_base::names::Names;
use sky_base::script::Script;
use sky_base::text::{Memory, Txt};
use sky_base::value::{Pairs, Vals, Value};
use std::alloc::Global;
use std::mem;

/// The run of a call, at its start or at a wait.
#[derive(Drop)]
pub struct RunState {
    /// The bodies that are open, the bottom one first.
    pub frames: Frames,
    /// How many nodes were visited so far.
    pub count: u32,
    /// How many waits there were, the one at which it stands included; 0 at the start.
    pub waits: u32,
    /// What was made and not yet taken.
    pub spawned: Spawned,
}

/// What stands of a task: the run of a call, or for the root task the value of the result at a wave.
#[derive(Drop)]
pub enum State {
    Run(RunState),
    Show { value: Value, wave: u32 },
}

impl State {
    /// The start of a call: one frame, in which the first statement of the body is next and the captured pairs and
    /// the parameters are set.
    pub fn start_call(
        alloc: Global,
        script: &Script,
        fun: &Txt,
        caught: &Pairs,
        args: &Vals,
    ) -> Result<State, Memory>
        requires { CanStart script.now fun.now caught.now args.now }
        ensures start { IfOk result (λ s. StartsCall script.now fun.now caught.now args.now (stand_of s)) }
        ensures spawned { IfOk result (λ s. spawned_of s ≡ []) }
        ensures fits { IfOk result (λ s. Fits script.now (stand_of s)) }
        ensures stands { IfOk result (λ s. StandsForCall script.now fun.now caught.now args.now (stand_of s)) }
    {
        let body = find_body(script, fun);
        let vars = bound(caught, body.params, args)?;
        let run = at_start(alloc, fun, vars, body.node)?;
        Ok(State::Run(run))
    }

    /// The start of the root task: the value is the reference to the main call, at wave 0.
    pub fn start_show(main: Name) -> State
        ensures value { stand_of result ≡ Stand.show_at (logic.Val.ref (known main)) 0 }
        ensures spawned { spawned_of result ≡ [] }
        ensures fits { (script : tree.Script) → Fits script (stand_of result) }
        ensures stands { StandsForShow main (stand_of result) }
    {
        State::Show {
            value: Value::Ref(main),
            wave: 0,
        }
    }

    /// The names that the state waits for now, each once, in order: those in what the form that waits keeps, or in the
    /// value of the result. None for a state that was just started for a call.
    pub fn pending(&self, alloc: Global) -> Result<Names, Memory>
        ensures { IfOk result (λ names. known_of names ≡ pending_in same_text (stand_of self.now)) }
    {
        match self {
            State::Run(run) => last_refs(alloc, run.frames.as_slice()),
            State::Show { value, .. } => value.refs(alloc),
        }
    }

    /// The names in the values of the state, each once, in the order of their first places: the bottom frame first,
    /// in each frame its variables and then its stack.
    pub fn holds(&self, alloc: Global) -> Result<Names, Memory>
        ensures { IfOk result (λ names. known_of names ≡ held_in same_text (stand_of self.now)) }
    {
        match self {
            State::Run(run) => {
                let values = all_values(alloc, run.frames.as_slice())?;
                Value::List(values).refs(alloc)
            }
            State::Show { value, wave: _ } => value.refs(alloc),
        }
    }

    /// Hands out what was made and not yet taken, and leaves nothing. There is never anything for the root task. An
    /// empty list is made, which takes no memory.
    pub fn take_spawned(&mut self, alloc: Global) -> Spawned
        ensures taken { result ≡ spawned_of self.old }
        ensures left { spawned_of self.new ≡ [] }
        ensures state { stand_of self.new ≡ stand_of self.old }
    {
        match self {
            State::Run(run) => mem::replace(&mut run.spawned, Spawned::new(alloc)),
            State::Show { .. } => Spawned::new(alloc),
        }
    }
}

// The run of a body, of which the first statement is next.
fn at_start(alloc: Global, fun: &Txt, vars: Pairs, node: u32) -> Result<RunState, Memory>
    ensures frames { IfOk result (λ r. r.frames ≡ record { fun = fun.now; vars = vars; stack = []; todo = record { node = node; step = 0 } ∷ [] }
        ∷ []) }
    ensures count { IfOk result (λ r. r.count ≡ 0) }
    ensures waits { IfOk result (λ r. r.waits ≡ 0) }
    ensures spawned { IfOk result (λ r. r.spawned ≡ []) }
{
    let mut todo = Vec::new(alloc);
    let Ok(()) = todo.push(Todo { node, step: 0 }) else {
        return Err(Memory);
    };
    let fun = fun.share()?;
    let mut frames = Vec::new(alloc);
    let Ok(()) = frames.push(Frame {
        fun,
        vars,
        stack: Stack::of(Vec::new(alloc)),
        todo: Todos::of(todo),
    }) else {
        return Err(Memory);
    };
    Ok(RunState {
        frames: Frames::of(frames),
        count: 0,
        waits: 0,
        spawned: Spawned::new(alloc),
    })
}

// The names in the last value on the stack of the top frame.
fn last_refs(alloc: Global, frames: &[Frame]) -> Result<Names, Memory>
    ensures { IfOk result (λ names. known_of names
        ≡ pending_in same_text (Stand.run (record { frames = frames_view frames.now; count = 0; waits = 0 }))) }
{
    let Some(top) = frames.last() else {
        return Ok(Names::new(alloc));
    };
    match top.stack.as_slice().last() {
        Some(value) => value.refs(alloc),
        None => Ok(Names::new(alloc)),
    }
}

// All values of the frames, in order; the variables of a frame are one dictionary.
fn all_values(alloc: Global, frames: &[Frame]) -> Result<Vals, Memory>
    ensures { IfOk result (λ vs. vals_refs vs ≡ frames_refs (frames_view frames.now)) }
{
    let mut values = Vals::new(alloc);
    for frame in frames {
        add_variables(&mut values, &frame.vars)?;
        add_all(&mut values, frame.stack.as_slice())?;
    }
    Ok(values)
}

// Puts the variables at the end of the list, as a dictionary.
#[tactic(auto, using(crate::proofs::Gathers::pushes))]
fn add_variables(values: &mut Vals, vars: &Pairs) -> Result<(), Memory>
    ensures { IfOk result (λ _. vals_refs values.new ≡ vals_refs values.old ++ pairs_refs vars.now) }
{
    values.push(Value::Dict(vars.copy()?))?;
    Ok(())
}

// Puts the values at the end of the list.
fn add_all(values: &mut Vals, stack: &[Value]) -> Result<(), Memory>
    ensures { IfOk result (λ _. vals_refs values.new ≡ vals_refs values.old ++ stack_refs (stack_view stack.now)) }
{
    for value in stack {
        add(values, value)?;
    }
    Ok(())
}

// Puts a value at the end of the list; a copy of it takes constant time.
#[tactic(auto, using(crate::proofs::Gathers::pushes))]
fn add(values: &mut Vals, value: &Value) -> Result<(), Memory>
    ensures { IfOk result (λ _. vals_refs values.new ≡ vals_refs values.old ++ refs (view value.now)) }
{
    values.push(value.copy()?)?;
    Ok(())
}
