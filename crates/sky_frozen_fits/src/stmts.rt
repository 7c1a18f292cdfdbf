// What the table says of a statement and of a block at a step.

ghost use Rattle.std.specs.Prelude.{◌≡◌, ◌≢◌, ◌+◌, ◌-◌, ◌≤◌, Some};
ghost use Rattle.sky_base.specs.StmtView.{stm_view, arms_view};
ghost use Rattle.sky_base_law.specs.Nodes.{node_at};
ghost use Rattle.sky_base_law.specs.Opened.{block_node, HasArms, HasStm, HasStms};
ghost use Rattle.sky_state.specs.Table as table;
ghost use Rattle.sky_state.specs.Table.{on_by, past_arm};
ghost use Rattle.sky_frozen_fits.specs.Rows.{row_view, HasRow};

use crate::row::RowAt;
use crate::walk::{arms_after, stmts_after};
use sky_base::stmt::{Arm, Block, Stmt};
use sky_machine_code::code::Code;

/// What the table says of a statement at a step.
pub fn stm_row<'a>(code: &Code, number: u32, s: &Stmt, step: u32) -> RowAt<'a>
    requires { HasStm (λ i. node_at code.now i) (stm_view s.now) number }
    ensures row { row_view result ≡ table.stm_row (stm_view s.now) number step }
    ensures has { HasRow (λ i. node_at code.now i) result }
{
    let inside = code.inside(number);
    match s {
        Stmt::Set { .. } | Stmt::Add { .. } | Stmt::Just { .. } => first_row(inside, step),
        Stmt::Return { value: None, .. } => RowAt::NoStep,
        Stmt::Return { value: Some(_), .. } => first_row(inside, step),
        Stmt::Put { at, .. } => second_row(inside, code.after_exp(inside, at), 1, step),
        Stmt::If { arms, .. } => arm_row(code, inside, arms.as_slice(), step),
        Stmt::While { test, .. } => second_row(inside, code.after_exp(inside, test), 0, step),
        Stmt::Do { body, .. } => second_row(inside, code.after_block(inside, body), 0, step),
        Stmt::For { list, .. } => turn_row(inside, code.after_exp(inside, list), step),
    }
}

// The part at this node is pending at step 1; there is no further step.
fn first_row<'a>(inside: u32, step: u32) -> RowAt<'a>
    ensures first { step ≡ 1 → result ≡ RowAt.Pending 0 inside }
    ensures none { step ≢ 1 → result ≡ RowAt.NoStep }
{
    if step == 1 {
        RowAt::Pending {
            kept: 0,
            node: inside,
        }
    } else {
        RowAt::NoStep
    }
}

// The part at the first node is pending at step 1, that at the second at step 2, where so many values are kept.
fn second_row<'a>(inside: u32, second: u32, kept: u64, step: u32) -> RowAt<'a>
    ensures first { step ≡ 1 → result ≡ RowAt.Pending 0 inside }
    ensures second { step ≡ 2 → result ≡ RowAt.Pending kept second }
    ensures none { step ≢ 1 → step ≢ 2 → result ≡ RowAt.NoStep }
{
    match step {
        1 => RowAt::Pending {
            kept: 0,
            node: inside,
        },
        2 => RowAt::Pending { kept, node: second },
        _ => RowAt::NoStep,
    }
}

// The list of a `for` is pending at step 1, and its body, at the second node, runs at step 2.
fn turn_row<'a>(inside: u32, second: u32, step: u32) -> RowAt<'a>
    ensures first { step ≡ 1 → result ≡ RowAt.Pending 0 inside }
    ensures second { step ≡ 2 → result ≡ RowAt.Turn second }
    ensures none { step ≢ 1 → step ≢ 2 → result ≡ RowAt.NoStep }
{
    match step {
        1 => RowAt::Pending {
            kept: 0,
            node: inside,
        },
        2 => RowAt::Turn { node: second },
        _ => RowAt::NoStep,
    }
}

// The test of an arm is pending; that of the first stands at this node.
fn arm_row<'a>(code: &Code, inside: u32, arms: &[Arm], step: u32) -> RowAt<'a>
    requires { HasArms (λ i. node_at code.now i) (arms_view arms.now) inside }
    ensures none { step ≡ 0 → result ≡ RowAt.NoStep }
    ensures row { 1 ≤ step → row_view result ≡ table.arm_row (on_by past_arm (step - 1) (inside, arms_view arms.now)) }
    ensures has { HasRow (λ i. node_at code.now i) result }
{
    if step == 0 {
        return RowAt::NoStep;
    }
    let Some(place) = arms_after(code, inside, arms, step - 1) else {
        return RowAt::NoStep;
    };
    match place.rest.first() {
        Some(_) => RowAt::Pending {
            kept: 0,
            node: place.next,
        },
        None => RowAt::NoStep,
    }
}

/// What the table says of a block at a step: before its first statement nothing runs, and then the statement before the next one.
pub fn block_row<'a>(code: &Code, number: u32, block: &'a Block, step: u32) -> RowAt<'a>
    requires here { node_at code.now number ≡ Some (block_node block.now) }
    requires has { HasStms (λ i. node_at code.now i) block.now (number + 1) }
    ensures row { row_view result ≡ table.block_row block.now number step }
    ensures has { HasRow (λ i. node_at code.now i) result }
{
    if step == 0 {
        return RowAt::Before;
    }
    let Some(place) = stmts_after(code, code.inside(number), block.as_slice(), step - 1) else {
        return RowAt::NoStep;
    };
    match place.rest.first() {
        None => RowAt::NoStep,
        Some(stmt) => RowAt::Ran {
            node: place.next,
            stmt,
        },
    }
}
