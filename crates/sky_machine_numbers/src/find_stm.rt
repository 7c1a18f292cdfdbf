// The node of a number inside a block or a statement.

ghost use Rattle.std.specs.Prelude.{◌≡◌, ◌≤◌, ◌<◌, ◌+◌, Some};
ghost use Rattle.sky_base.specs.Tree.{nodes, stm_nodes, arms_nodes, block_nodes};
ghost use Rattle.sky_base.specs.TreeView.{exp_view};
ghost use Rattle.sky_base.specs.StmtView.{stm_view, arms_view};
ghost use Rattle.sky_base_law.specs.Nodes.{node_at};
ghost use Rattle.sky_base_law.specs.Opened.{block_node, HasExp, HasStm, HasStms, HasArms};
ghost use Rattle.sky_machine_numbers.specs.Filled.{node_view};
ghost use Rattle.sky_machine_numbers.specs.Standing.{HasNode};

use crate::find_exp::node_in_exp;
use crate::node::NodeRef;
use sky_base::stmt::{Arm, Block, Stmt};
use sky_base::tree::Expr;
use sky_machine_code::code::{Code, begun};

/// The node of a number in a block at this node.
#[cycle(stm)]
pub fn node_in_block<'a>(code: &Code, block: &'a Block, node: u32, number: u32) -> NodeRef<'a>
    requires here { node_at code.now node ≡ Some (block_node block.now) }
    requires has { HasStms (λ i. node_at code.now i) block.now (node + 1) }
    requires from { node ≤ number }
    requires to { number < node + block_nodes block.now }
    ensures { HasNode (λ i. node_at code.now i) (node_view result) number }
{
    if number == node {
        return NodeRef::Block(block);
    }
    let held = stmt_holding(code, block, node, number);
    node_in_stmt(code, held.stmt, held.node, number)
}

// A statement and its node.
#[derive(Drop)]
struct Held<'a> {
    stmt: &'a Stmt,
    node: u32,
}

// The statement of a block in which a number is, found by halves.
fn stmt_holding<'a>(code: &Code, block: &'a Block, node: u32, number: u32) -> Held<'a>
    requires here { node_at code.now node ≡ Some (block_node block.now) }
    requires has { HasStms (λ i. node_at code.now i) block.now (node + 1) }
    requires from { node < number }
    requires to { number < node + block_nodes block.now }
    ensures has { HasStm (λ i. node_at code.now i) (stm_view result.stmt.now) result.node }
    ensures from { result.node ≤ number }
    ensures to { number < result.node + stm_nodes (stm_view result.stmt.now) }
    ensures less { stm_nodes (stm_view result.stmt.now) < block_nodes block.now }
{
    let stmts = block.as_slice();
    let begins = code.begins(node, block);
    let last = begun(begins, number) - 1;
    match stmts.get(last) {
        Some(stmt) => Held {
            stmt,
            node: begins[last],
        },
        None => unreachable!(),
    }
}

// The node of a number in a statement at this node.
#[cycle(stm)]
fn node_in_stmt<'a>(code: &Code, s: &'a Stmt, node: u32, number: u32) -> NodeRef<'a>
    requires has { HasStm (λ i. node_at code.now i) (stm_view s.now) node }
    requires from { node ≤ number }
    requires to { number < node + stm_nodes (stm_view s.now) }
    ensures { HasNode (λ i. node_at code.now i) (node_view result) number }
{
    if number == node {
        return NodeRef::Stmt(s);
    }
    node_inside(code, s, node, number)
}

// The node of a number after that of a statement, and in it.
#[cycle(stm)]
fn node_inside<'a>(code: &Code, s: &'a Stmt, node: u32, number: u32) -> NodeRef<'a>
    requires has { HasStm (λ i. node_at code.now i) (stm_view s.now) node }
    requires from { node < number }
    requires to { number < node + stm_nodes (stm_view s.now) }
    ensures { HasNode (λ i. node_at code.now i) (node_view result) number }
{
    match s {
        Stmt::Set { value, .. }
        | Stmt::Add { value, .. }
        | Stmt::Just { inner: value, .. }
        | Stmt::Return {
            value: Some(value),
            ..
        } => node_in_exp(code, value, node + 1, number),
        Stmt::Put { at, value, .. } => {
            let after = code.after_exp(node + 1, at);
            if number < after {
                node_in_exp(code, at, node + 1, number)
            } else {
                node_in_exp(code, value, after, number)
            }
        }
        Stmt::Return { value: None, .. } => unreachable!(),
        Stmt::If {
            arms,
            otherwise,
            ..
        } => {
            let after = after_arms(code, arms.as_slice(), node + 1);
            if number < after {
                node_in_arms(code, arms.as_slice(), node + 1, number)
            } else {
                match otherwise {
                    Some(block) => node_in_block(code, block, after, number),
                    None => unreachable!(),
                }
            }
        }
        Stmt::While { test, body, .. } => node_in_both(code, test, body, node + 1, number),
        Stmt::For { list, body, .. } => node_in_both(code, list, body, node + 1, number),
        Stmt::Do { body, test, .. } => {
            let after = code.after_block(node + 1, body);
            if number < after {
                node_in_block(code, body, node + 1, number)
            } else {
                node_in_exp(code, test, after, number)
            }
        }
    }
}

// The node of a number in an expression at this node, or in the block after it.
#[cycle(stm)]
fn node_in_both<'a>(
    code: &Code,
    e: &'a Expr,
    block: &'a Block,
    node: u32,
    number: u32,
) -> NodeRef<'a>
    requires exp { HasExp (λ i. node_at code.now i) (exp_view e.now) node }
    requires here { node_at code.now (node + nodes (exp_view e.now)) ≡ Some (block_node block.now) }
    requires has { HasStms (λ i. node_at code.now i) block.now (node + nodes (exp_view e.now) + 1) }
    requires from { node ≤ number }
    requires to { number < node + nodes (exp_view e.now) + block_nodes block.now }
    ensures { HasNode (λ i. node_at code.now i) (node_view result) number }
{
    let after = code.after_exp(node, e);
    if number < after {
        node_in_exp(code, e, node, number)
    } else {
        node_in_block(code, block, after, number)
    }
}

// The node of a number in the arms of a choice.
#[cycle(stm)]
fn node_in_arms<'a>(code: &Code, arms: &'a [Arm], node: u32, number: u32) -> NodeRef<'a>
    requires has { HasArms (λ i. node_at code.now i) (arms_view arms.now) node }
    requires from { node ≤ number }
    requires to { number < node + arms_nodes (arms_view arms.now) }
    ensures { HasNode (λ i. node_at code.now i) (node_view result) number }
{
    let (mut rest, mut node) = (arms, node);
    while let Some((arm, more)) = rest.split_first() {
        let after = after_arm(code, arm, node);
        if number < after {
            return node_in_both(code, &arm.test, &arm.body, node, number);
        }
        rest = more;
        node = after;
    }
    unreachable!()
}

// The number after these arms.
fn after_arms(code: &Code, arms: &[Arm], node: u32) -> u32
    requires { HasArms (λ i. node_at code.now i) (arms_view arms.now) node }
    ensures { result ≡ node + arms_nodes (arms_view arms.now) }
{
    let (mut rest, mut node) = (arms, node);
    while let Some((arm, more)) = rest.split_first() {
        node = after_arm(code, arm, node);
        rest = more;
    }
    node
}

// The number after an arm, whose test stands at this node.
fn after_arm(code: &Code, arm: &Arm, node: u32) -> u32
    requires exp { HasExp (λ i. node_at code.now i) (exp_view arm.now.test) node }
    requires here { node_at code.now (node + nodes (exp_view arm.now.test)) ≡ Some (block_node arm.now.body) }
    ensures { result ≡ node + nodes (exp_view arm.now.test) + block_nodes arm.now.body }
{
    let body = code.after_exp(node, &arm.test);
    code.after_block(body, &arm.body)
}
