// What the table says of an expression at a step.

ghost use Rattle.std.specs.Prelude.{◌≡◌, ◌-◌, ◌≤◌, ℕ, Option, reverse};
ghost use Rattle.sky_base.specs.Tree.{Exp};
ghost use Rattle.sky_base.specs.TreeView.{at, exp_view, ands_view, signs_view, steps_view};
ghost use Rattle.sky_base_law.specs.Nodes.{node_at};
ghost use Rattle.sky_base_law.specs.Opened.{Node, HasExp, HasLinks, HasAnds, HasSteps};
ghost use Rattle.sky_machine_code.specs.Shapes.{form_view, rest_view, operands_view, stops_at};
ghost use Rattle.sky_state.specs.Table as table;
ghost use Rattle.sky_state.specs.Table.{on_by, past_link, past_and, past_sign, past_spot, spot_of};
ghost use Rattle.sky_frozen_fits.specs.Rows.{row_view, HasRow};

use crate::row::RowAt;
use crate::walk::{Spot, joins_after, operands_after, parts_after, spots_after};
use sky_base::tree::{Expr, Join, SignAt, SignOp, Step, Sub};
use sky_machine_code::code::Code;
use sky_machine_code::shape::{Operands, PartForm, Rest, Shape, next_operand, next_part, shape_of};

/// What the table says of an expression at a step.
pub fn exp_row<'a>(code: &Code, number: u32, e: &Expr, step: u32) -> RowAt<'a>
    requires { HasExp (λ i. node_at code.now i) (exp_view e.now) number }
    ensures row { row_view result ≡ table.exp_row (exp_view e.now) number step }
    ensures has { HasRow (λ i. node_at code.now i) result }
{
    match shape_of(e) {
        Shape::Literal { .. } | Shape::Name { .. } | Shape::Function { .. } => RowAt::NoStep,
        Shape::Parens { inner } => parens_row(code, number, inner, step),
        Shape::Parts {
            form,
            line,
            col,
            parts,
        } => parts_row(code, number, form, line, col, parts, step),
        Shape::Chain { first, rest } => chain_row(code, number, first, rest, step),
        Shape::Logic { stop, first, rest } => logic_row(code, number, stop, first, rest, step),
        Shape::Prefix { signs, operand } => prefix_row(code, number, signs, operand, step),
        Shape::Postfix { first, rest } => postfix_row(code, number, first, rest, step),
    }
}

// The inner expression is pending.
fn parens_row<'a>(code: &Code, number: u32, inner: &Sub, step: u32) -> RowAt<'a>
    requires { HasExp (λ i. node_at code.now i) (Exp.parens inner.now) number }
    ensures row { row_view result ≡ table.exp_row (Exp.parens inner.now) number step }
    ensures has { HasRow (λ i. node_at code.now i) result }
{
    if step == 1 {
        RowAt::Pending {
            kept: 0,
            node: code.inside(number),
        }
    } else {
        RowAt::NoStep
    }
}

// A part is pending, or an `exec` waits.
fn parts_row<'a>(
    code: &Code,
    number: u32,
    form: PartForm,
    line: u32,
    col: u32,
    parts: Rest,
    step: u32,
) -> RowAt<'a>
    requires { HasExp (λ i. node_at code.now i) (Exp.parts (form_view form) (at line col) (rest_view parts)) number }
    ensures row { row_view result ≡ table.exp_row (Exp.parts (form_view form) (at line col) (rest_view parts.entry)) number step }
    ensures has { HasRow (λ i. node_at code.now i) result }
{
    if step == 0 {
        return RowAt::NoStep;
    }
    let Some(place) = parts_after(code, code.inside(number), parts, step - 1) else {
        return RowAt::NoStep;
    };
    match next_part(place.rest) {
        Some(_) => RowAt::Pending {
            kept: step as u64 - 1,
            node: place.next,
        },
        None => all_parts(form, step),
    }
}

// Where all parts are there an `exec`, which has three, waits.
fn all_parts<'a>(form: PartForm, step: u32) -> RowAt<'a>
    requires { 1 ≤ step }
    ensures row { row_view result ≡ table.parts_row (form_view form) (step - 1) }
    ensures has { (at : ℕ → Option Node) → HasRow at result }
{
    if form == PartForm::Exec && step == 4 {
        RowAt::Outputs
    } else {
        RowAt::NoStep
    }
}

// An operand of a chain is pending.
fn chain_row<'a>(code: &Code, number: u32, first: &Sub, rest: Operands, step: u32) -> RowAt<'a>
    requires { HasExp (λ i. node_at code.now i) (Exp.chain first.now (operands_view rest)) number }
    ensures row { row_view result ≡ table.exp_row (Exp.chain first.now (operands_view rest.entry)) number step }
    ensures has { HasRow (λ i. node_at code.now i) result }
{
    match step {
        0 => RowAt::NoStep,
        1 => RowAt::Pending {
            kept: 0,
            node: code.inside(number),
        },
        _ => {
            let second = code.after_exp(code.inside(number), first.get());
            operand_row(code, second, rest, step)
        }
    }
}

// An operand after an operator; that of the first operator stands at this node.
fn operand_row<'a>(code: &Code, second: u32, operands: Operands, step: u32) -> RowAt<'a>
    requires step { 2 ≤ step }
    requires has { HasLinks (λ i. node_at code.now i) (operands_view operands) second }
    ensures row { row_view result ≡ table.link_row (on_by past_link (step - 2) (second, operands_view operands.entry)) }
    ensures has { HasRow (λ i. node_at code.now i) result }
{
    let Some(place) = operands_after(code, second, operands, step - 2) else {
        return RowAt::NoStep;
    };
    match next_operand(place.rest) {
        Some(_) => RowAt::Pending {
            kept: 1,
            node: place.next,
        },
        None => RowAt::NoStep,
    }
}

// An operand of `&&` or `||` is pending.
fn logic_row<'a>(
    code: &Code,
    number: u32,
    stop: bool,
    first: &Sub,
    rest: &[Join],
    step: u32,
) -> RowAt<'a>
    requires { HasExp (λ i. node_at code.now i) (Exp.logic (stops_at stop) first.now (ands_view rest.now)) number }
    ensures row { row_view result ≡ table.exp_row (Exp.logic (stops_at stop) first.now (ands_view rest.now)) number step }
    ensures has { HasRow (λ i. node_at code.now i) result }
{
    match step {
        0 => RowAt::NoStep,
        1 => RowAt::Pending {
            kept: 0,
            node: code.inside(number),
        },
        _ => {
            let second = code.after_exp(code.inside(number), first.get());
            join_row(code, second, rest, step)
        }
    }
}

// A further operand of `&&` or `||`; the second one stands at this node.
fn join_row<'a>(code: &Code, second: u32, joins: &[Join], step: u32) -> RowAt<'a>
    requires step { 2 ≤ step }
    requires has { HasAnds (λ i. node_at code.now i) (ands_view joins.now) second }
    ensures row { row_view result ≡ table.and_row (on_by past_and (step - 2) (second, ands_view joins.now)) }
    ensures has { HasRow (λ i. node_at code.now i) result }
{
    let Some(place) = joins_after(code, second, joins, step - 2) else {
        return RowAt::NoStep;
    };
    match place.rest.first() {
        Some(_) => RowAt::Pending {
            kept: 0,
            node: place.next,
        },
        None => RowAt::NoStep,
    }
}

// The operand of signs is pending, or a `*` waits.
fn prefix_row<'a>(code: &Code, number: u32, signs: &[SignAt], operand: &Sub, step: u32) -> RowAt<'a>
    requires { HasExp (λ i. node_at code.now i) (Exp.prefix (signs_view signs.now) operand.now) number }
    ensures row { row_view result ≡ table.exp_row (Exp.prefix (signs_view signs.now) operand.now) number step }
    ensures has { HasRow (λ i. node_at code.now i) result }
{
    match step {
        0 => RowAt::NoStep,
        1 => RowAt::Pending {
            kept: 0,
            node: code.inside(number),
        },
        _ => sign_row(signs, step),
    }
}

// At step 2 the sign next to the operand.
fn sign_row<'a>(signs: &[SignAt], step: u32) -> RowAt<'a>
    requires { 2 ≤ step }
    ensures row { row_view result ≡ table.sign_row (on_by past_sign (step - 2) (reverse (signs_view signs.now))) }
    ensures has { (at : ℕ → Option Node) → HasRow at result }
{
    let count = step as usize - 2;
    if count >= signs.len() {
        return RowAt::NoStep;
    }
    let Some(sign) = signs.get(signs.len() - 1 - count) else {
        unreachable!()
    };
    match sign.sign {
        SignOp::Star => RowAt::Star,
        SignOp::Not | SignOp::Minus => RowAt::NoStep,
    }
}

// A part of indices and calls is pending, or a call is open.
fn postfix_row<'a>(code: &Code, number: u32, first: &Sub, rest: &[Step], step: u32) -> RowAt<'a>
    requires { HasExp (λ i. node_at code.now i) (Exp.postfix first.now (steps_view rest.now)) number }
    ensures row { row_view result ≡ table.exp_row (Exp.postfix first.now (steps_view rest.now)) number step }
    ensures has { HasRow (λ i. node_at code.now i) result }
{
    match step {
        0 => RowAt::NoStep,
        1 => RowAt::Pending {
            kept: 0,
            node: code.inside(number),
        },
        _ => {
            let second = code.after_exp(code.inside(number), first.get());
            spot_row(code, second, rest, step)
        }
    }
}

// An index or an argument, or an open call; the first part after the value stands at this node.
fn spot_row<'a>(code: &Code, second: u32, steps: &[Step], step: u32) -> RowAt<'a>
    requires step { 2 ≤ step }
    requires has { HasSteps (λ i. node_at code.now i) (steps_view steps.now) second }
    ensures row { row_view result ≡ table.spot_row (on_by past_spot (step - 2) (spot_of second (steps_view steps.now))) }
    ensures has { HasRow (λ i. node_at code.now i) result }
{
    let Some(spot) = spots_after(code, second, steps, step - 2) else {
        return RowAt::NoStep;
    };
    match spot {
        Spot::Finished => RowAt::NoStep,
        Spot::Index { next, .. } => RowAt::Pending {
            kept: 1,
            node: next,
        },
        Spot::Args {
            next,
            before,
            args,
            ..
        } => match args.first() {
            Some(_) => RowAt::Pending {
                kept: 1 + before,
                node: next,
            },
            None => RowAt::OpenCall,
        },
    }
}
