// Indices and calls, one after the other.

ghost use Rattle.std.specs.Prelude.{◌≡◌, ◌≤◌, ◌<◌, ◌+◌, ◌*◌, ℕ, List, Some, None, IfOk, IfErr, MatchOption, length};
ghost use Rattle.sky_base.specs.Kept.{Kept};
ghost use Rattle.sky_base.specs.View.{view};
ghost use Rattle.sky_base.specs.Tree.{Exp, Exps, exps_nodes};
ghost use Rattle.sky_base.specs.TreeView.{at, exps_view, steps_view};
ghost use Rattle.sky_base.specs.Res as logic;
ghost use Rattle.sky_base.specs.Res.{visits, others};
ghost use Rattle.sky_base.specs.Eval.{World, eval};
ghost use Rattle.sky_base_law.specs.Opened.{HasExp, HasExps, HasSteps};
ghost use Rattle.sky_base_law.specs.Nodes.{node_at};
ghost use Rattle.sky_base_scope.specs.Plain.{Vars};
ghost use Rattle.sky_base_scope.specs.RunView.{KeptVals, KeptPairs};
ghost use Rattle.sky_machine_entries.specs.Config.{Run, body_in, goes_on, rest_in, config, opened};
ghost use Rattle.sky_machine_entries.specs.Entries.{entry_of, forms};
ghost use Rattle.sky_machine_entries.specs.Falls.{GoesIn, GoesOut};
ghost use Rattle.sky_machine_entries.specs.Ready.{Ready, AllReady, Goes};
ghost use Rattle.sky_machine_calls.specs.Places.{args_from, steps_from, ArgsFit, StepsFit};

use crate::call::call;
use sky_base::fault::FaultKind;
use sky_base::op::{self, OpRefusal};
use sky_base::text::Memory;
use sky_base::tree::{Step, Sub};
use sky_base::value::{Vals, Value};
use sky_base_scope::state::State;
use sky_machine_code::code::Code;
use sky_machine_entries::control::{Control, End, fail};
use sky_machine_entries::entry::{Arg, Entry, InPostfix, Index, Open, PostfixFirst};
use sky_machine_entries::list::push;
use sky_machine_entries::visit::visit;
use std::alloc::Global;

/// Where indices and calls stand: their node, the step and the number of the next part, and those that are left.
#[derive(Drop)]
pub struct Postfix<'a> {
    pub node: u32,
    pub step: u128,
    pub next: u32,
    pub rest: &'a [Step],
}

// As many indices and calls as there are fit in memory.
fn how_many(rest: &[Step]) -> usize
    ensures { result ≡ length rest.now }
{
    rest.len()
}

/// Indices and calls: their first value is begun.
pub fn begin_postfix<'a>(
    code: &Code,
    entries: &mut Vec<Entry<'a>>,
    node: u32,
    first: &'a Sub,
    rest: &'a [Step],
) -> Result<Control<'a>, Memory>
    requires ready { AllReady code.now entries.old.items }
    requires has { HasExp (λ i. node_at code.now i) (Exp.postfix first.now (steps_view rest.now)) node }
    ensures same { IfOk result (λ c. (w : World (List ℕ)) (st : Vars) → config w entries.new.items c st
        ≡ rest_in w entries.old.items (eval w (body_in w (forms entries.old.items)) (Exp.postfix first.entry.now (steps_view rest.entry.now))
        node st)) }
    ensures ready { IfOk result (λ c. AllReady code.now entries.new.items) }
    ensures goes { IfOk result (λ c. Goes code.now c) }
    ensures opened { IfOk result (λ c. opened (forms entries.new.items) ≡ opened (forms entries.old.items)) }
    ensures falls { IfOk result (λ c. (count : ℕ) → count ≤ visits → GoesIn node count entries.old.items count entries.new.items c) }
{
    let part = code.inside(node);
    let e = first.get();
    let next = code.after_exp(part, e);
    let _end = code.after(node);
    let _steps = how_many(rest);
    push(
        entries,
        Entry::Postfix(InPostfix::First(PostfixFirst { node, next, rest })),
    )?;
    Ok(Control::Begin(part, e))
}

/// The arguments that are left; then the call.
pub fn next_arg<'a>(
    alloc: Global,
    code: &Code<'a>,
    state: &mut State,
    left: &mut u32,
    entries: &mut Vec<Entry<'a>>,
    arg: Arg<'a>,
) -> Result<Control<'a>, Memory>
    requires ready { AllReady code.now entries.old.items }
    requires room { opened (forms entries.old.items) + left.old ≡ others }
    requires within { state.old.count ≤ visits }
    requires args { HasExps (λ i. node_at code.now i) (exps_view arg.more.now) arg.next }
    requires steps { HasSteps (λ i. node_at code.now i) (steps_view arg.rest.now) (arg.next + exps_nodes (exps_view arg.more.now)) }
    requires fun { Kept (view arg.fun) }
    requires values { KeptVals arg.args }
    requires fits { ArgsFit arg.step (exps_view arg.more.now) (steps_view arg.rest.now) }
    ensures same { IfOk result (λ c. (w : World (List ℕ)) → w.script ≡ code.now → config w entries.new.items c state.new
        ≡ rest_in w entries.old.items (args_from w (body_in w (forms entries.old.items)) arg.entry state.old)) }
    ensures ready { IfOk result (λ c. AllReady code.now entries.new.items) }
    ensures goes { IfOk result (λ c. Goes code.now c) }
    ensures room { IfOk result (λ c. opened (forms entries.new.items) + left.new ≡ others) }
    ensures falls { IfOk result (λ c. GoesOut End.Goes state.old.count entries.old.items state.new.count entries.new.items c) }
{
    match arg.more.split_first() {
        None => {
            let control = call(alloc, code, state, left, entries, arg)?;
            Ok(control)
        }
        Some((first, more)) => {
            let node = arg.next;
            let after = code.after_exp(node, first);
            let mut arg = arg;
            arg.next = after;
            arg.more = more;
            push(entries, Entry::Postfix(InPostfix::Arg(arg)))?;
            Ok(Control::Begin(node, first))
        }
    }
}

/// The indices and calls that are left, with the value so far.
pub fn next_step<'a>(
    alloc: Global,
    code: &Code<'a>,
    state: &mut State,
    left: &mut u32,
    entries: &mut Vec<Entry<'a>>,
    postfix: Postfix<'a>,
    v: Value,
) -> Result<Control<'a>, Memory>
    requires ready { AllReady code.now entries.old.items }
    requires room { opened (forms entries.old.items) + left.old ≡ others }
    requires within { state.old.count ≤ visits }
    requires steps { HasSteps (λ i. node_at code.now i) (steps_view postfix.rest.now) postfix.next }
    requires kept { Kept (view v) }
    requires fits { StepsFit postfix.step (steps_view postfix.rest.now) }
    ensures same { IfOk result (λ c. (w : World (List ℕ)) → w.script ≡ code.now → config w entries.new.items c state.new
        ≡ rest_in w entries.old.items (steps_from w (body_in w (forms entries.old.items)) postfix.entry (view v) state.old)) }
    ensures ready { IfOk result (λ c. AllReady code.now entries.new.items) }
    ensures goes { IfOk result (λ c. Goes code.now c) }
    ensures room { IfOk result (λ c. opened (forms entries.new.items) + left.new ≡ others) }
    ensures falls { IfOk result (λ c. GoesOut End.Goes state.old.count entries.old.items state.new.count entries.new.items c) }
{
    let Postfix {
        node,
        step,
        next,
        rest,
    } = postfix;
    match rest.split_first() {
        None => Ok(Control::End(End::Got(v))),
        Some((first, rest)) => match first {
            Step::Index { at, line, col } => {
                let after = code.after_exp(next, at);
                push(
                    entries,
                    Entry::Postfix(InPostfix::Index(Index {
                        node,
                        step,
                        next: after,
                        line: *line,
                        col: *col,
                        value: v,
                        rest,
                    })),
                )?;
                Ok(Control::Begin(next, at))
            }
            Step::Call { args, line, col } => {
                let control = next_arg(
                    alloc,
                    code,
                    state,
                    left,
                    entries,
                    Arg {
                        node,
                        step,
                        next,
                        line: *line,
                        col: *col,
                        fun: v,
                        args: Vals::new(alloc),
                        more: args.as_slice(),
                        rest,
                    },
                )?;
                Ok(control)
            }
        },
    }
}

/// Indices and calls go on with the value of an index.
pub fn got_index<'a>(
    alloc: Global,
    code: &Code<'a>,
    state: &mut State,
    left: &mut u32,
    entries: &mut Vec<Entry<'a>>,
    index: Index<'a>,
    v: Value,
) -> Result<Control<'a>, Memory>
    requires ready { AllReady code.now entries.old.items }
    requires room { opened (forms entries.old.items) + left.old ≡ others }
    requires within { state.old.count ≤ visits }
    requires entry { Ready code.now (entry_of (Entry.Postfix (InPostfix.Index index))) }
    requires kept { Kept (view v) }
    ensures same { IfOk result (λ c. (w : World (List ℕ)) → w.script ≡ code.now → config w entries.new.items c state.new
        ≡ rest_in w entries.old.items (goes_on w (forms entries.old.items) (entry_of (Entry.Postfix (InPostfix.Index index.entry)))
        (logic.End.got (view v)) state.old)) }
    ensures ready { IfOk result (λ c. AllReady code.now entries.new.items) }
    ensures goes { IfOk result (λ c. Goes code.now c) }
    ensures room { IfOk result (λ c. opened (forms entries.new.items) + left.new ≡ others) }
    ensures falls { IfOk result (λ c. GoesOut End.Goes state.old.count entries.old.items state.new.count entries.new.items c) }
{
    let Index {
        node,
        step,
        next,
        line,
        col,
        value,
        rest,
    } = index;
    if !visit(state, line, col) {
        return Ok(fail(FaultKind::TooLong, line, col));
    }
    match op::index(&value, &v) {
        Err(OpRefusal::Refused(kind)) => Ok(fail(kind, line, col)),
        Err(OpRefusal::Memory) => Err(Memory),
        Ok(v) => {
            let control = next_step(
                alloc,
                code,
                state,
                left,
                entries,
                Postfix {
                    node,
                    step: step + 1,
                    next,
                    rest,
                },
                v,
            )?;
            Ok(control)
        }
    }
}

/// Indices and calls go on with the value of an argument.
pub fn got_arg<'a>(
    alloc: Global,
    code: &Code<'a>,
    state: &mut State,
    left: &mut u32,
    entries: &mut Vec<Entry<'a>>,
    arg: Arg<'a>,
    v: Value,
) -> Result<Control<'a>, Memory>
    requires ready { AllReady code.now entries.old.items }
    requires room { opened (forms entries.old.items) + left.old ≡ others }
    requires within { state.old.count ≤ visits }
    requires entry { Ready code.now (entry_of (Entry.Postfix (InPostfix.Arg arg))) }
    requires kept { Kept (view v) }
    ensures same { IfOk result (λ c. (w : World (List ℕ)) → w.script ≡ code.now → config w entries.new.items c state.new
        ≡ rest_in w entries.old.items (goes_on w (forms entries.old.items) (entry_of (Entry.Postfix (InPostfix.Arg arg.entry)))
        (logic.End.got (view v)) state.old)) }
    ensures ready { IfOk result (λ c. AllReady code.now entries.new.items) }
    ensures goes { IfOk result (λ c. Goes code.now c) }
    ensures room { IfOk result (λ c. opened (forms entries.new.items) + left.new ≡ others) }
    ensures falls { IfOk result (λ c. GoesOut End.Goes state.old.count entries.old.items state.new.count entries.new.items c) }
{
    let mut arg = arg;
    arg.args.push(v)?;
    arg.step += 1;
    let control = next_arg(alloc, code, state, left, entries, arg)?;
    Ok(control)
}

/// A body has ended with this value: the caller goes on with its own variables.
#[tactic(auto, unfolding(sky_base::specs::Res::others))]
pub fn close<'a>(
    alloc: Global,
    code: &Code<'a>,
    state: &mut State,
    left: &mut u32,
    entries: &mut Vec<Entry<'a>>,
    call: Open<'a>,
    v: Value,
) -> Result<Control<'a>, Memory>
    requires ready { AllReady code.now entries.old.items }
    requires room { opened (forms entries.old.items) + (left.old + 1) ≡ others }
    requires within { state.old.count ≤ visits }
    requires entry { Ready code.now (entry_of (Entry.Postfix (InPostfix.Open call))) }
    requires kept { Kept (view v) }
    ensures same { IfOk result (λ c. (w : World (List ℕ)) → w.script ≡ code.now → config w entries.new.items c state.new
        ≡ rest_in w entries.old.items (goes_on w (forms entries.old.items) (entry_of (Entry.Postfix (InPostfix.Open call.entry)))
        (logic.End.returned (view v)) state.old)) }
    ensures ready { IfOk result (λ c. AllReady code.now entries.new.items) }
    ensures goes { IfOk result (λ c. Goes code.now c) }
    ensures room { IfOk result (λ c. opened (forms entries.new.items) + left.new ≡ others) }
    ensures falls { IfOk result (λ c. GoesOut End.Goes state.old.count entries.old.items state.new.count entries.new.items c) }
{
    let Open {
        node,
        step,
        next,
        fun: _,
        caller,
        rest,
    } = call;
    let inner = std::mem::replace(state, caller);
    state.resume(&inner);
    *left += 1;
    let control = next_step(
        alloc,
        code,
        state,
        left,
        entries,
        Postfix {
            node,
            step: step + 1,
            next,
            rest,
        },
        v,
    )?;
    Ok(control)
}
