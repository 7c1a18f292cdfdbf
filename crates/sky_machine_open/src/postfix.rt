// Indices and calls, at the index or the argument that is pending, or at a call whose body is open.

ghost use Rattle.std.specs.Prelude.{◌≡◌, ◌+◌, ◌-◌, ◌≤◌, IfOk, IfSome};
ghost use Rattle.std.specs.Option.{option_map};
ghost use Rattle.sky_base.specs.Tree.{Exp, nodes};
ghost use Rattle.sky_base.specs.TreeView.{at, exps_view, steps_view};
ghost use Rattle.sky_base_law.specs.Nodes.{node_at};
ghost use Rattle.sky_base_law.specs.Opened.{HasExp, HasExps, HasSteps, times, enter_pos, next_pos, pos_open, postfix_open};
ghost use Rattle.sky_base.specs.Res.{call_open};
ghost use Rattle.sky_base_scope.specs.RunView.{KeptPairs};
ghost use Rattle.sky_machine_entries.specs.Entries.{entry_of};
ghost use Rattle.sky_state.specs.StandView.{stack_view};
ghost use Rattle.sky_machine_open.specs.Spots.{HasPos, pos_view, call_of};
ghost use Rattle.sky_machine_open.specs.Spots as spots;

use crate::parts::copies;
use sky_base::text::{Memory, Txt};
use sky_base::tree::{Expr, Step, Sub};
use sky_base::value::{Pairs, Value};
use sky_base_scope::state::State;
use sky_machine_code::code::Code;
use sky_machine_entries::entry::{Arg, Entry, InPostfix, Index, Open, PostfixFirst};
use std::alloc::Global;

/// What an open call is taken up with: the name of the function, and the caller's variables.
#[derive(Drop)]
pub struct Caller<'b> {
    pub fun: &'b Txt,
    pub vars: &'b Pairs,
}

// A place among indices and calls: behind the last one, at an index, or at the arguments of a call that are left. The next
// part stands at the node `next`.
#[derive(Drop)]
enum Spot<'a> {
    Finished,
    Index {
        next: u32,
        index: &'a Expr,
        line: u32,
        col: u32,
        rest: &'a [Step],
    },
    Args {
        next: u32,
        args: &'a [Expr],
        line: u32,
        col: u32,
        rest: &'a [Step],
    },
}

// The first place of these indices and calls.
fn enter<'a>(next: u32, steps: &'a [Step]) -> Spot<'a>
    ensures { pos_view result ≡ enter_pos next (steps_view steps.now) }
{
    let Some((step, rest)) = steps.split_first() else {
        return Spot::Finished;
    };
    match step {
        Step::Index { at, line, col } => Spot::Index {
            next,
            index: at,
            line: *line,
            col: *col,
            rest,
        },
        Step::Call { args, line, col } => Spot::Args {
            next,
            args: args.as_slice(),
            line: *line,
            col: *col,
            rest,
        },
    }
}

// The place after this one.
fn past<'a>(code: &Code, spot: Spot<'a>) -> Spot<'a>
    requires { HasPos (λ i. node_at code.now i) (pos_view spot) }
    ensures { pos_view result ≡ next_pos (pos_view spot.entry) }
{
    match spot {
        Spot::Finished => Spot::Finished,
        Spot::Index {
            next,
            index,
            rest,
            ..
        } => enter(code.after_exp(next, index), rest),
        Spot::Args {
            next,
            args,
            line,
            col,
            rest,
        } => match args.split_first() {
            None => enter(next, rest),
            Some((arg, args)) => Spot::Args {
                next: code.after_exp(next, arg),
                args,
                line,
                col,
                rest,
            },
        },
    }
}

fn is_finished(spot: &Spot) -> bool
    ensures { result ≡ spots.is_finished (pos_view spot.now) }
{
    matches!(spot, Spot::Finished)
}

// The place after so many, or behind the last one.
fn skip_spots<'a>(code: &Code, second: u32, steps: &'a [Step], count: u32) -> Spot<'a>
    requires { HasSteps (λ i. node_at code.now i) (steps_view steps.now) second }
    ensures place { pos_view result ≡ times next_pos count (enter_pos second (steps_view steps.now)) }
    ensures has { HasPos (λ i. node_at code.now i) (pos_view result) }
{
    let mut spot = enter(second, steps);
    for _passed in 0..count {
        if is_finished(&spot) {
            break;
        }
        spot = past(code, spot);
    }
    spot
}

/// Indices and calls, at this step with these values, and with what the call was opened with where one is open there.
///
/// Answers `Memory` for want of memory.
pub fn open_postfix<'a>(
    alloc: Global,
    code: &Code,
    node: u32,
    first: &'a Sub,
    rest: &'a [Step],
    step: u32,
    kept: &[Value],
    call: Option<Caller>,
) -> Result<Option<Entry<'a>>, Memory>
    requires has { HasExp (λ i. node_at code.now i) (Exp.postfix first.now (steps_view rest.now)) node }
    requires caller { IfSome call (λ c. KeptPairs c.vars.now) }
    ensures { IfOk result (λ o. option_map entry_of o
        ≡ postfix_open first.now (steps_view rest.now) node step (stack_view kept.now) (call_of call.entry)) }
{
    let second = code.after_exp(code.inside(node), first.get());
    match step {
        0 => Ok(None),
        1 => Ok(Some(Entry::Postfix(InPostfix::First(PostfixFirst {
            node,
            next: second,
            rest,
        })))),
        _ => {
            let spot = skip_spots(code, second, rest, step - 2);
            let entry = open_spot(alloc, code, node, spot, step, kept, call)?;
            Ok(entry)
        }
    }
}

// The form that stands at a place.
fn open_spot<'a>(
    alloc: Global,
    code: &Code,
    node: u32,
    spot: Spot<'a>,
    step: u32,
    kept: &[Value],
    call: Option<Caller>,
) -> Result<Option<Entry<'a>>, Memory>
    requires has { HasPos (λ i. node_at code.now i) (pos_view spot) }
    requires caller { IfSome call (λ c. KeptPairs c.vars.now) }
    ensures { IfOk result (λ o. option_map entry_of o ≡ pos_open (pos_view spot.entry) node step (stack_view kept.now) (call_of call.entry)) }
{
    match spot {
        Spot::Finished => Ok(None),
        Spot::Index {
            next,
            index,
            line,
            col,
            rest,
        } => {
            let [value] = kept else {
                return Ok(None);
            };
            let value = value.copy()?;
            Ok(Some(Entry::Postfix(InPostfix::Index(Index {
                node,
                step: step as u128,
                next: code.after_exp(next, index),
                line,
                col,
                value,
                rest,
            }))))
        }
        Spot::Args {
            next,
            args,
            line,
            col,
            rest,
        } => {
            let Some((arg, more)) = args.split_first() else {
                let entry = open_call(node, next, rest, step, call)?;
                return Ok(entry);
            };
            let Some((fun, values)) = kept.split_first() else {
                return Ok(None);
            };
            let fun = fun.copy()?;
            let args = copies(alloc, values)?;
            Ok(Some(Entry::Postfix(InPostfix::Arg(Arg {
                node,
                step: step as u128,
                next: code.after_exp(next, arg),
                line,
                col,
                fun,
                args,
                more,
                rest,
            }))))
        }
    }
}

// A call whose body is open; it keeps nothing, and goes on with the caller's variables.
fn open_call<'a>(
    node: u32,
    next: u32,
    rest: &'a [Step],
    step: u32,
    call: Option<Caller>,
) -> Result<Option<Entry<'a>>, Memory>
    requires { IfSome call (λ c. KeptPairs c.vars.now) }
    ensures { IfOk result (λ o. option_map entry_of o
        ≡ option_map (λ c. call_open node step next c.0 c.1 (steps_view rest.now)) (call_of call.entry)) }
{
    let Some(caller) = call else {
        return Ok(None);
    };
    let fun = caller.fun.share()?;
    let vars = caller.vars.copy()?;
    Ok(Some(Entry::Postfix(InPostfix::Open(Open {
        node,
        step: step as u128,
        next,
        fun,
        caller: State::of(vars, 0),
        rest,
    }))))
}
