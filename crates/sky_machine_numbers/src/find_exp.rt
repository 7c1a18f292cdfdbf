// The node of a number inside an expression.

ghost use Rattle.std.specs.Prelude.{◌≡◌, ◌≤◌, ◌<◌, ◌+◌};
ghost use Rattle.sky_base.specs.Tree.{nodes, exps_nodes, links_nodes, ands_nodes, steps_nodes};
ghost use Rattle.sky_base.specs.TreeView.{exp_view, exps_view, ands_view, steps_view, step_nodes};
ghost use Rattle.sky_base_law.specs.Nodes.{node_at};
ghost use Rattle.sky_base_law.specs.Opened.{HasExp, HasExps, HasLinks, HasAnds, HasSteps};
ghost use Rattle.sky_machine_code.specs.Shapes.{shape_view, rest_view, operands_view};
ghost use Rattle.sky_machine_numbers.specs.Filled.{node_view};
ghost use Rattle.sky_machine_numbers.specs.Standing.{HasNode, HasStep};

use crate::node::NodeRef;
use sky_base::tree::{Expr, Join, Step};
use sky_machine_code::code::Code;
use sky_machine_code::shape::{Operands, Rest, Shape, next_operand, next_part, shape_of};

/// The node of a number in an expression at this node.
#[cycle(exp)]
pub fn node_in_exp<'a>(code: &Code, e: &'a Expr, node: u32, number: u32) -> NodeRef<'a>
    requires has { HasExp (λ i. node_at code.now i) (exp_view e.now) node }
    requires from { node ≤ number }
    requires to { number < node + nodes (exp_view e.now) }
    ensures { HasNode (λ i. node_at code.now i) (node_view result) number }
{
    if number == node {
        return NodeRef::Exp(e);
    }
    node_in_shape(code, shape_of(e), node, number)
}

// The node of a number after that of an expression of this shape, and in it.
#[cycle(exp)]
fn node_in_shape<'a>(code: &Code, shape: Shape<'a>, node: u32, number: u32) -> NodeRef<'a>
    requires has { HasExp (λ i. node_at code.now i) (shape_view shape) node }
    requires from { node < number }
    requires to { number < node + nodes (shape_view shape) }
    ensures { HasNode (λ i. node_at code.now i) (node_view result) number }
{
    match shape {
        Shape::Literal { .. } | Shape::Name { .. } | Shape::Function { .. } => unreachable!(),
        Shape::Parens { inner } => node_in_exp(code, inner.get(), node + 1, number),
        Shape::Prefix { operand, .. } => node_in_exp(code, operand.get(), node + 1, number),
        Shape::Parts { parts, .. } => node_in_parts(code, parts, node + 1, number),
        Shape::Chain { first, rest } => {
            let after = code.after_exp(node + 1, first.get());
            if number < after {
                node_in_exp(code, first.get(), node + 1, number)
            } else {
                node_in_operands(code, rest, after, number)
            }
        }
        Shape::Logic { first, rest, .. } => {
            let after = code.after_exp(node + 1, first.get());
            if number < after {
                node_in_exp(code, first.get(), node + 1, number)
            } else {
                node_in_joins(code, rest, after, number)
            }
        }
        Shape::Postfix { first, rest } => {
            let after = code.after_exp(node + 1, first.get());
            if number < after {
                node_in_exp(code, first.get(), node + 1, number)
            } else {
                node_in_steps(code, rest, after, number)
            }
        }
    }
}

// The node of a number in the parts of a form, the first of which stands at this node.
#[cycle(exp)]
fn node_in_parts<'a>(code: &Code, parts: Rest<'a>, node: u32, number: u32) -> NodeRef<'a>
    requires has { HasExps (λ i. node_at code.now i) (rest_view parts) node }
    requires from { node ≤ number }
    requires to { number < node + exps_nodes (rest_view parts) }
    ensures { HasNode (λ i. node_at code.now i) (node_view result) number }
{
    let (mut rest, mut node) = (parts, node);
    while let Some(next) = next_part(rest) {
        let after = code.after_exp(node, next.part);
        if number < after {
            return node_in_exp(code, next.part, node, number);
        }
        rest = next.rest;
        node = after;
    }
    unreachable!()
}

// The node of a number in the operands of a chain.
#[cycle(exp)]
fn node_in_operands<'a>(code: &Code, operands: Operands<'a>, node: u32, number: u32) -> NodeRef<'a>
    requires has { HasLinks (λ i. node_at code.now i) (operands_view operands) node }
    requires from { node ≤ number }
    requires to { number < node + links_nodes (operands_view operands) }
    ensures { HasNode (λ i. node_at code.now i) (node_view result) number }
{
    let (mut rest, mut node) = (operands, node);
    while let Some(next) = next_operand(rest) {
        let after = code.after_exp(node, next.operand);
        if number < after {
            return node_in_exp(code, next.operand, node, number);
        }
        rest = next.rest;
        node = after;
    }
    unreachable!()
}

// The node of a number in the operands of a chain of `&&` or `||`.
#[cycle(exp)]
fn node_in_joins<'a>(code: &Code, joins: &'a [Join], node: u32, number: u32) -> NodeRef<'a>
    requires has { HasAnds (λ i. node_at code.now i) (ands_view joins.now) node }
    requires from { node ≤ number }
    requires to { number < node + ands_nodes (ands_view joins.now) }
    ensures { HasNode (λ i. node_at code.now i) (node_view result) number }
{
    let (mut rest, mut node) = (joins, node);
    while let Some((join, more)) = rest.split_first() {
        let after = code.after_exp(node, &join.operand);
        if number < after {
            return node_in_exp(code, &join.operand, node, number);
        }
        rest = more;
        node = after;
    }
    unreachable!()
}

// The node of a number in indices and arguments.
#[cycle(exp)]
fn node_in_steps<'a>(code: &Code, steps: &'a [Step], node: u32, number: u32) -> NodeRef<'a>
    requires has { HasSteps (λ i. node_at code.now i) (steps_view steps.now) node }
    requires from { node ≤ number }
    requires to { number < node + steps_nodes (steps_view steps.now) }
    ensures { HasNode (λ i. node_at code.now i) (node_view result) number }
{
    let (mut rest, mut node) = (steps, node);
    while let Some((step, more)) = rest.split_first() {
        let after = after_step(code, step, node);
        if number < after {
            return node_in_step(code, step, node, number);
        }
        rest = more;
        node = after;
    }
    unreachable!()
}

// The node of a number in an index, or in the arguments of a call.
#[cycle(exp)]
fn node_in_step<'a>(code: &Code, step: &'a Step, node: u32, number: u32) -> NodeRef<'a>
    requires has { HasStep (λ i. node_at code.now i) step.now node }
    requires from { node ≤ number }
    requires to { number < node + step_nodes step.now }
    ensures { HasNode (λ i. node_at code.now i) (node_view result) number }
{
    match step {
        Step::Index { at, .. } => node_in_exp(code, at, node, number),
        Step::Call { args, .. } => node_in_parts(code, Rest::Many(args.as_slice()), node, number),
    }
}

// The number after an index, or after the arguments of a call.
fn after_step(code: &Code, step: &Step, node: u32) -> u32
    requires { HasStep (λ i. node_at code.now i) step.now node }
    ensures { result ≡ node + step_nodes step.now }
{
    match step {
        Step::Index { at, .. } => code.after_exp(node, at),
        Step::Call { args, .. } => after_args(code, args.as_slice(), node),
    }
}

// The number after these arguments.
fn after_args(code: &Code, args: &[Expr], node: u32) -> u32
    requires { HasExps (λ i. node_at code.now i) (exps_view args.now) node }
    ensures { result ≡ node + exps_nodes (exps_view args.now) }
{
    let (mut rest, mut node) = (args, node);
    while let Some((arg, more)) = rest.split_first() {
        node = code.after_exp(node, arg);
        rest = more;
    }
    node
}
