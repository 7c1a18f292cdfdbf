// Chains, at the operand that is pending.

ghost use Rattle.std.specs.Prelude.{◌≡◌, ◌+◌, ◌-◌, ◌≤◌, IfOk};
ghost use Rattle.std.specs.Option.{option_map};
ghost use Rattle.sky_base.specs.Tree.{Exp};
ghost use Rattle.sky_base.specs.TreeView.{ands_view};
ghost use Rattle.sky_base_law.specs.Nodes.{node_at};
ghost use Rattle.sky_base_law.specs.Opened as saved;
ghost use Rattle.sky_base_law.specs.Opened.{HasExp, HasLinks, HasAnds, times, link_open, and_open, chain_open, logic_open};
ghost use Rattle.sky_machine_code.specs.Shapes.{operands_view, stops_at};
ghost use Rattle.sky_machine_entries.specs.Entries.{entry_of};
ghost use Rattle.sky_state.specs.StandView.{stack_view};

use sky_base::text::Memory;
use sky_base::tree::{Join, Sub};
use sky_base::value::Value;
use sky_machine_code::code::Code;
use sky_machine_code::shape::{Operands, next_operand};
use sky_machine_entries::entry::{ChainFirst, ChainMore, Entry, InForm, Logic};

// The operators of a chain that are left, with the node of the next operand.
#[derive(Drop)]
struct OperandsAt<'a> {
    next: u32,
    rest: Operands<'a>,
}

// What is left after so many operators; nothing is left where there are no more.
fn skip_operands<'a>(code: &Code, second: u32, operands: Operands<'a>, count: u32) -> OperandsAt<'a>
    requires { HasLinks (λ i. node_at code.now i) (operands_view operands) second }
    ensures place { times saved.next_link count (second, operands_view operands.entry) ≡ (result.next, operands_view result.rest) }
    ensures has { HasLinks (λ i. node_at code.now i) (operands_view result.rest) result.next }
{
    let mut next = second;
    let mut rest = operands;
    for _passed in 0..count {
        let Some(operand) = next_operand(rest) else {
            rest = Operands::Nothing;
            break;
        };
        next = code.after_exp(next, operand.operand);
        rest = operand.rest;
    }
    OperandsAt { next, rest }
}

/// A chain of operators or a comparison, at this step with these values.
///
/// Answers `Memory` for want of memory.
pub fn open_chain<'a>(
    code: &Code,
    node: u32,
    first: &'a Sub,
    rest: Operands<'a>,
    step: u32,
    kept: &[Value],
) -> Result<Option<Entry<'a>>, Memory>
    requires { HasExp (λ i. node_at code.now i) (Exp.chain first.now (operands_view rest)) node }
    ensures { IfOk result (λ o. option_map entry_of o ≡ chain_open first.now (operands_view rest.entry) node step (stack_view kept.now)) }
{
    let second = code.after_exp(code.inside(node), first.get());
    match step {
        0 => Ok(None),
        1 => Ok(Some(Entry::Form(InForm::ChainFirst(ChainFirst {
            node,
            next: second,
            rest,
        })))),
        _ => {
            let entry = open_operand(code, node, second, rest, step, kept)?;
            Ok(entry)
        }
    }
}

// The operand after an operator is pending. The operand of the first operator stands at this node.
fn open_operand<'a>(
    code: &Code,
    node: u32,
    second: u32,
    operands: Operands<'a>,
    step: u32,
    kept: &[Value],
) -> Result<Option<Entry<'a>>, Memory>
    requires step { 2 ≤ step }
    requires has { HasLinks (λ i. node_at code.now i) (operands_view operands) second }
    ensures { IfOk result (λ o. option_map entry_of o
        ≡ link_open (times saved.next_link (step - 2) (second, operands_view operands.entry)) node step (stack_view kept.now)) }
{
    let place = skip_operands(code, second, operands, step - 2);
    let Some(operand) = next_operand(place.rest) else {
        return Ok(None);
    };
    let [value] = kept else {
        return Ok(None);
    };
    let next = code.after_exp(place.next, operand.operand);
    let value = value.copy()?;
    Ok(Some(Entry::Form(InForm::ChainMore(ChainMore {
        node,
        step: step as usize,
        next,
        op: operand.op,
        line: operand.line,
        col: operand.col,
        value,
        rest: operand.rest,
    }))))
}

// The operands of `&&` or `||` that are left, with the node of the first of them.
#[derive(Drop)]
struct JoinsAt<'a> {
    next: u32,
    rest: &'a [Join],
}

// What is left after so many operands; nothing is left where there are no more.
fn skip_joins<'a>(code: &Code, second: u32, joins: &'a [Join], count: u32) -> JoinsAt<'a>
    requires { HasAnds (λ i. node_at code.now i) (ands_view joins.now) second }
    ensures place { times saved.next_and count (second, ands_view joins.now) ≡ (result.next, ands_view result.rest.now) }
    ensures has { HasAnds (λ i. node_at code.now i) (ands_view result.rest.now) result.next }
{
    let mut next = second;
    let mut rest = joins;
    for _passed in 0..count {
        let Some((join, more)) = rest.split_first() else {
            break;
        };
        next = code.after_exp(next, &join.operand);
        rest = more;
    }
    JoinsAt { next, rest }
}

/// A chain of `&&`, which stops at false, or of `||`, which stops at true, at this step; it keeps nothing.
pub fn open_logic<'a>(
    code: &Code,
    node: u32,
    stop: bool,
    first: &'a Sub,
    rest: &'a [Join],
    step: u32,
    kept: &[Value],
) -> Option<Entry<'a>>
    requires { HasExp (λ i. node_at code.now i) (Exp.logic (stops_at stop) first.now (ands_view rest.now)) node }
    ensures { option_map entry_of result ≡ logic_open (stops_at stop) first.now (ands_view rest.now) node step (stack_view kept.now) }
{
    let second = code.after_exp(code.inside(node), first.get());
    match step {
        0 => None,
        1 => Some(Entry::Form(InForm::Logic(Logic {
            node,
            step: 1,
            next: second,
            stop,
            line: 0,
            col: 0,
            rest,
        }))),
        _ => open_join(code, node, second, stop, rest, step, kept),
    }
}

// A further operand of `&&` or `||` is pending. The second operand stands at this node.
fn open_join<'a>(
    code: &Code,
    node: u32,
    second: u32,
    stop: bool,
    joins: &'a [Join],
    step: u32,
    kept: &[Value],
) -> Option<Entry<'a>>
    requires step { 2 ≤ step }
    requires has { HasAnds (λ i. node_at code.now i) (ands_view joins.now) second }
    ensures { option_map entry_of result ≡ and_open (times saved.next_and (step - 2) (second, ands_view joins.now)) node step (stops_at stop)
        (stack_view kept.now) }
{
    let place = skip_joins(code, second, joins, step - 2);
    let Some((join, more)) = place.rest.split_first() else {
        return None;
    };
    if !kept.is_empty() {
        return None;
    }
    let next = code.after_exp(place.next, &join.operand);
    Some(Entry::Form(InForm::Logic(Logic {
        node,
        step: step as usize,
        next,
        stop,
        line: join.line,
        col: join.col,
        rest: more,
    })))
}
