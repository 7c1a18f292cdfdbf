// The nodes of expressions.

ghost use Rattle.std.specs.Prelude.{IfOk};
ghost use Rattle.sky_base.specs.TreeView.{exp_view, ands_view, steps_view};
ghost use Rattle.sky_base_law.specs.Nodes.{pre_exp, pre_exps, pre_links, pre_ands, pre_steps};
ghost use Rattle.sky_machine_code.specs.Shapes.{shape_view, rest_view, operands_view};
ghost use Rattle.sky_machine_numbers.specs.Filled.{Filled, Fits, in_exp, in_step};

use crate::ends::{begin, end};
use sky_base::text::Memory;
use sky_base::tree::{Expr, Join, Step};
use sky_machine_code::shape::{Operands, Rest, Shape, next_operand, next_part, shape_of};

/// An expression with all that is in it.
#[cycle(exp)]
pub fn number_exp(ends: &mut Vec<u32>, e: &Expr) -> Result<(), Memory>
    requires { Fits ends.old.items (pre_exp (exp_view e.now)) }
    ensures { IfOk result (λ _. Filled ends.old.items ends.new.items (pre_exp (exp_view e.now))) }
{
    let at = begin(ends)?;
    number_inside(ends, shape_of(e))?;
    end(ends, at);
    Ok(())
}

// What is in an expression of this shape.
#[cycle(exp)]
fn number_inside(ends: &mut Vec<u32>, shape: Shape) -> Result<(), Memory>
    requires { Fits ends.old.items (in_exp (shape_view shape)) }
    ensures { IfOk result (λ _. Filled ends.old.items ends.new.items (in_exp (shape_view shape.entry))) }
{
    match shape {
        Shape::Literal { .. } | Shape::Name { .. } | Shape::Function { .. } => Ok(()),
        Shape::Parens { inner } => number_exp(ends, inner.get()),
        Shape::Parts { parts, .. } => number_parts(ends, parts),
        Shape::Chain { first, rest } => {
            number_exp(ends, first.get())?;
            number_operands(ends, rest)?;
            Ok(())
        }
        Shape::Logic { first, rest, .. } => {
            number_exp(ends, first.get())?;
            number_joins(ends, rest)?;
            Ok(())
        }
        Shape::Prefix { operand, .. } => number_exp(ends, operand.get()),
        Shape::Postfix { first, rest } => {
            number_exp(ends, first.get())?;
            number_steps(ends, rest)?;
            Ok(())
        }
    }
}

// The parts of a form.
#[cycle(exp)]
fn number_parts(ends: &mut Vec<u32>, parts: Rest) -> Result<(), Memory>
    requires { Fits ends.old.items (pre_exps (rest_view parts)) }
    ensures { IfOk result (λ _. Filled ends.old.items ends.new.items (pre_exps (rest_view parts.entry))) }
{
    let mut rest = parts;
    while let Some(next) = next_part(rest) {
        number_exp(ends, next.part)?;
        rest = next.rest;
    }
    Ok(())
}

// The operands of a chain.
#[cycle(exp)]
fn number_operands(ends: &mut Vec<u32>, operands: Operands) -> Result<(), Memory>
    requires { Fits ends.old.items (pre_links (operands_view operands)) }
    ensures { IfOk result (λ _. Filled ends.old.items ends.new.items (pre_links (operands_view operands.entry))) }
{
    let mut rest = operands;
    while let Some(next) = next_operand(rest) {
        number_exp(ends, next.operand)?;
        rest = next.rest;
    }
    Ok(())
}

// The operands of a chain of `&&` or `||`.
#[cycle(exp)]
fn number_joins(ends: &mut Vec<u32>, joins: &[Join]) -> Result<(), Memory>
    requires { Fits ends.old.items (pre_ands (ands_view joins.now)) }
    ensures { IfOk result (λ _. Filled ends.old.items ends.new.items (pre_ands (ands_view joins.now))) }
{
    let mut rest = joins;
    while let Some((join, more)) = rest.split_first() {
        number_exp(ends, &join.operand)?;
        rest = more;
    }
    Ok(())
}

// Indices and arguments.
#[cycle(exp)]
fn number_steps(ends: &mut Vec<u32>, steps: &[Step]) -> Result<(), Memory>
    requires { Fits ends.old.items (pre_steps (steps_view steps.now)) }
    ensures { IfOk result (λ _. Filled ends.old.items ends.new.items (pre_steps (steps_view steps.now))) }
{
    let mut rest = steps;
    while let Some((step, more)) = rest.split_first() {
        number_step(ends, step)?;
        rest = more;
    }
    Ok(())
}

// An index, or the arguments of a call.
#[cycle(exp)]
fn number_step(ends: &mut Vec<u32>, step: &Step) -> Result<(), Memory>
    requires { Fits ends.old.items (in_step step.now) }
    ensures { IfOk result (λ _. Filled ends.old.items ends.new.items (in_step step.now)) }
{
    match step {
        Step::Index { at, .. } => number_exp(ends, at),
        Step::Call { args, .. } => number_parts(ends, Rest::Many(args.as_slice())),
    }
}
