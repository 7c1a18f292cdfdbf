// Whether a part that a row names stands at a node.

ghost use Rattle.std.specs.Prelude.{◌≡◌, ◌+◌, ◌++◌, IsTrue, IsFalse};
ghost use Rattle.sky_base.specs.Tree.{arms_nodes};
ghost use Rattle.sky_base.specs.StmtView.{stm_view, arms_view};
ghost use Rattle.sky_base_law.specs.Nodes.{node_at};
ghost use Rattle.sky_base_law.specs.Opened.{HasArms, HasStm};
ghost use Rattle.sky_base_law.specs.Tasks.{In};
ghost use Rattle.sky_machine_entries.specs.Entries.{last_block};
ghost use Rattle.sky_state.specs.Table.{places, stm_places, arm_blocks, else_block};
ghost use Rattle.sky_frozen_fits.specs.Rows.{row_view, HasRow};

use crate::row::RowAt;
use sky_base::stmt::{Arm, Block, Stmt};
use sky_machine_code::code::Code;

/// Whether what is pending or runs at a row may stand at this node.
pub fn runs_at(code: &Code, row: &RowAt, node: u32) -> bool
    requires { HasRow (λ i. node_at code.now i) row.now }
    ensures yes { IsTrue result → In node (places (row_view row.now)) }
    ensures no { IsFalse result → In node (places (row_view row.now)) → ⊥ }
{
    match row {
        RowAt::Pending { node: at, .. } => *at == node,
        RowAt::Turn { node: at } => *at == node,
        RowAt::Ran { node: at, stmt } => statement_at(code, *at, stmt, node),
        RowAt::Before | RowAt::Star | RowAt::Outputs | RowAt::OpenCall | RowAt::NoStep => false,
    }
}

// A statement runs at its own node, or the block of one of its arms does.
fn statement_at(code: &Code, number: u32, stmt: &Stmt, node: u32) -> bool
    requires { HasStm (λ i. node_at code.now i) (stm_view stmt.now) number }
    ensures yes { IsTrue result → In node (stm_places number (stm_view stmt.now)) }
    ensures no { IsFalse result → In node (stm_places number (stm_view stmt.now)) → ⊥ }
{
    if node == number {
        return true;
    }
    match stmt {
        Stmt::If {
            arms,
            otherwise,
            ..
        } => arm_at(
            code,
            code.inside(number),
            arms.as_slice(),
            otherwise.as_ref(),
            node,
        ),
        _ => false,
    }
}

// One of the arms' blocks, or the last block; the test of the first arm stands at the node `first`.
fn arm_at(code: &Code, first: u32, arms: &[Arm], otherwise: Option<&Block>, node: u32) -> bool
    requires { HasArms (λ i. node_at code.now i) (arms_view arms.now) first }
    ensures yes { IsTrue result → In node (arm_blocks first (arms_view arms.now)
        ++ else_block (first + arms_nodes (arms_view arms.now)) (last_block otherwise.entry)) }
    ensures no { IsFalse result → In node (arm_blocks first (arms_view arms.now)
        ++ else_block (first + arms_nodes (arms_view arms.now)) (last_block otherwise.entry)) → ⊥ }
{
    let mut at = first;
    let mut rest = arms;
    while let Some((arm, more)) = rest.split_first() {
        let block = code.after_exp(at, &arm.test);
        if block == node {
            return true;
        }
        at = code.after_block(block, &arm.body);
        rest = more;
    }
    match otherwise {
        None => false,
        Some(_) => at == node,
    }
}
