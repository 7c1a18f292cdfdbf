// The forms under way of a saved stack: frame by frame, and in each frame entry by entry, with the values that belong to each.

ghost use Rattle.std.specs.Prelude.{◌≡◌, ◌<◌, ◌≤◌, ◌+◌, ◌++◌, [], ◌∷◌, ℕ, List, Option, Some, IsSome, IfOk, IfSome, length, map};
ghost use Rattle.std.specs.Option.{option_map};
ghost use Rattle.sky_base.specs.Kept.{Kept};
ghost use Rattle.sky_base.specs.View.{view};
ghost use Rattle.sky_base_law.specs.Nodes.{node_at};
ghost use Rattle.sky_base_law.specs.Opened as saved;
ghost use Rattle.sky_machine_numbers.specs.Filled.{node_view};
ghost use Rattle.sky_machine_numbers.specs.Standing.{HasNode};
ghost use Rattle.sky_base_law.specs.Tasks.{Each};
ghost use Rattle.sky_base_scope.specs.Plain.{Pairs};
ghost use Rattle.sky_base_scope.specs.RunView.{KeptPairs};
ghost use Rattle.sky_machine_entries.specs.Config.{opened};
ghost use Rattle.sky_machine_entries.specs.Entries.{Form, entry_of, forms};
ghost use Rattle.sky_machine_entries.specs.Ready.{AllReady};
ghost use Rattle.sky_state.specs.Table as table;
ghost use Rattle.sky_state.specs.Table.{IsStep};
ghost use Rattle.sky_state.specs.Fits.{row_of, kept_in_all, FitsFrame, FitsRun};
ghost use Rattle.sky_state.specs.Chained.{Formed};
ghost use Rattle.sky_state.specs.StandView.{todo_view, todos_view, stack_view, frame_view, frames_view};
ghost use Rattle.sky_machine_open.specs.Spots.{call_of};
ghost use Rattle.sky_machine_restore.specs.Restoring.{call_above, call_last, form_at, own, others, todo_forms, frames_forms, after_these, top_vars};

use crate::few::few;
use crate::keeps::keeps;
use sky_base::text::Memory;
use sky_base::value::{Pairs, Value};
use sky_base_scope::state::State;
use sky_machine_code::code::Code;
use sky_machine_entries::entry::Entry;
use sky_machine_numbers::node::NodeRef;
use sky_machine_numbers::nodes::Nodes;
use sky_machine_open::node::open_node;
use sky_machine_open::postfix::Caller;
use sky_state::frame::{Frame, Todo};
use sky_state::state::RunState;
use std::alloc::Global;

/// A run that was saved at a wait: its forms under way, the outermost first, and the variables of its innermost body with the count
/// of visits.
#[derive(Drop)]
pub struct Restored<'a> {
    pub entries: Vec<Entry<'a>>,
    pub state: State,
}

/// Takes up a state that fits the script and waits. It takes time in the number of entries and of what stands before each in its
/// form; values are shared.
///
/// Answers `Memory` for want of memory.
pub fn restore<'a>(
    alloc: Global,
    code: &Code,
    nodes: &Nodes<'a>,
    run: &RunState,
) -> Result<Restored<'a>, Memory>
    requires nodes { nodes.now ≡ code.now }
    requires fits { FitsRun code.now (record { frames = run.now.frames; count = run.now.count; waits = run.now.waits }) }
    requires waits { 0 < run.now.waits }
    ensures forms { IfOk result (λ r. (ps : List ℕ) (f : List ℕ) (xs : Pairs) (g : Formed code.now ps f xs run.now.frames)
        → forms r.entries.items ≡ g.forms) }
    ensures vars { IfOk result (λ r. (ps : List ℕ) (f : List ℕ) (xs : Pairs) → Formed code.now ps f xs run.now.frames → r.state.vars ≡ xs) }
    ensures count { IfOk result (λ r. r.state.count ≡ run.now.count) }
    ensures ready { IfOk result (λ r. AllReady code.now r.entries.items) }
    ensures opened { IfOk result (λ r. opened (forms r.entries.items) + 1 ≡ length run.now.frames) }
{
    let frames = run.frames.as_slice();
    let entries = open_frames(alloc, code, nodes, frames)?;
    let vars = top_variables(code, frames)?;
    Ok(Restored {
        entries,
        state: State::of(vars, run.count),
    })
}

// The forms of these frames, the outermost first.
fn open_frames<'a>(
    alloc: Global,
    code: &Code,
    nodes: &Nodes<'a>,
    frames: &[Frame],
) -> Result<Vec<Entry<'a>>, Memory>
    requires nodes { nodes.now ≡ code.now }
    requires fits { Each (FitsFrame code.now) (frames_view frames.now) }
    requires opens { IsSome (frames_forms code.now (frames_view frames.now)) }
    ensures forms { IfOk result (λ es. frames_forms code.now (frames_view frames.now) ≡ Some (forms es.items)) }
    ensures ready { IfOk result (λ es. AllReady code.now es.items) }
{
    let mut entries = Vec::new(alloc);
    let mut rest = frames;
    while let Some((frame, above)) = rest.split_first() {
        open_frame(alloc, code, nodes, &mut entries, frame, above)?;
        rest = above;
    }
    Ok(entries)
}

// The forms of one frame, under these others.
fn open_frame<'a>(
    alloc: Global,
    code: &Code,
    nodes: &Nodes<'a>,
    entries: &mut Vec<Entry<'a>>,
    frame: &Frame,
    above: &[Frame],
) -> Result<(), Memory>
    requires nodes { nodes.now ≡ code.now }
    requires ready { AllReady code.now entries.old.items }
    requires fits { FitsFrame code.now (frame_view frame.now) }
    requires opens { IsSome (todo_forms code.now (call_above frame.now.vars (frames_view above.now)) frame.now.todo frame.now.stack (Some [])) }
    ensures forms { IfOk result (λ _. (more : Option (List Form))
        → after_these (forms entries.old.items) (todo_forms code.now (call_above frame.now.vars (frames_view above.now)) frame.now.todo
        frame.now.stack more) ≡ after_these (forms entries.new.items) more) }
    ensures ready { IfOk result (λ _. AllReady code.now entries.new.items) }
{
    let mut values = frame.stack.as_slice();
    let mut rest = frame.todo.as_slice();
    while let Some((todo, further)) = rest.split_first() {
        let call = caller(frame, above, further);
        let others = open_todo(alloc, code, nodes, entries, todo, values, call)?;
        values = others;
        rest = further;
    }
    Ok(())
}

// What an entry opened, if it is the last of its frame: the body of the frame above. It goes on with this frame's variables.
fn caller<'b>(frame: &'b Frame, above: &'b [Frame], further: &[Todo]) -> Option<Caller<'b>>
    ensures call { call_of result ≡ call_last (call_above frame.now.vars (frames_view above.now)) (todos_view further.now) }
    ensures kept { KeptPairs frame.now.vars → IfSome result (λ c. KeptPairs c.vars.now) }
{
    if !further.is_empty() {
        return None;
    }
    match above.first() {
        None => None,
        Some(body) => Some(Caller {
            fun: &body.fun,
            vars: &frame.vars,
        }),
    }
}

// The form of one entry, whose values are the first of these; gives the others.
fn open_todo<'a, 'b>(
    alloc: Global,
    code: &Code,
    nodes: &Nodes<'a>,
    entries: &mut Vec<Entry<'a>>,
    todo: &Todo,
    values: &'b [Value],
    call: Option<Caller>,
) -> Result<&'b [Value], Memory>
    requires nodes { nodes.now ≡ code.now }
    requires ready { AllReady code.now entries.old.items }
    requires step { IsStep (row_of code.now (todo_view todo.now)) }
    requires enough { table.keeps (row_of code.now (todo_view todo.now)) ≤ length values.now }
    requires kept { Each Kept (stack_view values.now) }
    requires caller { IfSome call (λ c. KeptPairs c.vars.now) }
    requires opens { IsSome (form_at code.now (todo_view todo.now) (own code.now (todo_view todo.now) (stack_view values.now)) (call_of call)) }
    ensures form { IfOk result (λ _. option_map (λ en. forms entries.old.items ++ en ∷ [])
        (form_at code.now (todo_view todo.now) (own code.now (todo_view todo.now) (stack_view values.now)) (call_of call.entry))
        ≡ Some (forms entries.new.items)) }
    ensures rest { IfOk result (λ vs. stack_view vs.now ≡ others code.now (todo_view todo.now) (stack_view values.now)) }
    ensures ready { IfOk result (λ _. AllReady code.now entries.new.items) }
{
    let Some(node) = nodes.at(todo.node) else {
        unreachable!()
    };
    let own = keeps(code, todo.node, &node, todo.step);
    few(code, todo.node, &node);
    let (kept, rest) = values.split_at(own);
    let entry = open_entry(alloc, code, todo.node, node, todo.step, kept, call)?;
    let Ok(()) = entries.push(entry) else {
        return Err(Memory);
    };
    Ok(rest)
}

// The form of a node at a step where there is one.
fn open_entry<'a>(
    alloc: Global,
    code: &Code,
    number: u32,
    node: NodeRef<'a>,
    step: u32,
    kept: &[Value],
    call: Option<Caller>,
) -> Result<Entry<'a>, Memory>
    requires has { HasNode (λ i. node_at code.now i) (node_view node) number }
    requires caller { IfSome call (λ c. KeptPairs c.vars.now) }
    requires opens { IsSome (saved.opened (node_view node) number step (stack_view kept.now) (call_of call)) }
    ensures { IfOk result (λ en. saved.opened (node_view node.entry) number step (stack_view kept.now) (call_of call.entry) ≡ Some (entry_of en)) }
{
    match open_node(alloc, code, number, node, step, kept, call)? {
        Some(entry) => Ok(entry),
        None => unreachable!(),
    }
}

// The variables of the innermost body.
fn top_variables(code: &Code, frames: &[Frame]) -> Result<Pairs, Memory>
    requires some { 0 < length frames.now }
    requires fits { Each (FitsFrame code.now) (frames_view frames.now) }
    ensures vars { IfOk result (λ xs. top_vars (frames_view frames.now) ≡ Some xs) }
    ensures kept { IfOk result KeptPairs }
{
    let Some(top) = frames.last() else {
        unreachable!()
    };
    let vars = top.vars.copy()?;
    Ok(vars)
}
