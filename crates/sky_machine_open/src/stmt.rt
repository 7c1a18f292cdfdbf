// Statements, opened at a step.

ghost use Rattle.std.specs.Prelude.{◌≡◌, ◌+◌, IfOk};
ghost use Rattle.std.specs.Option.{option_map};
ghost use Rattle.sky_base.specs.Tree.{Stm, arms_nodes};
ghost use Rattle.sky_base.specs.TreeView.{at, exp_view};
ghost use Rattle.sky_base.specs.StmtView.{stm_view, arms_view};
ghost use Rattle.sky_base_law.specs.Nodes.{node_at};
ghost use Rattle.sky_base_law.specs.Opened.{HasExp, HasArms, HasStm, opened_stm, put_open, arm_open, cases_open, next_arm, times};
ghost use Rattle.sky_machine_entries.specs.Entries.{entry_of, last_block};
ghost use Rattle.sky_state.specs.StandView.{stack_view};
ghost use Rattle.sky_machine_open.specs.Steps.{put_at};

use crate::first::at_first;
use crate::turns::{open_for, open_repeat, open_while};
use sky_base::stmt::{Arm, Block, Stmt};
use sky_base::text::{Memory, Txt};
use sky_base::tree::Expr;
use sky_base::value::Value;
use sky_machine_code::code::Code;
use sky_machine_entries::entry::{
    Add, ArmTest, Entry, InBlock, InStmt, PutIndex, PutValue, Set, Whole,
};

/// The form that was saved at this step of a statement with these values, if there is one.
///
/// Answers `Memory` for want of memory.
pub fn open_stmt<'a>(
    code: &Code,
    node: u32,
    s: &'a Stmt,
    step: u32,
    kept: &[Value],
) -> Result<Option<Entry<'a>>, Memory>
    requires { HasStm (λ i. node_at code.now i) (stm_view s.now) node }
    ensures { IfOk result (λ o. option_map entry_of o ≡ opened_stm (stm_view s.now) node step (stack_view kept.now)) }
{
    let inside = code.inside(node);
    match s {
        Stmt::Set { name, .. } => Ok(at_first(
            step,
            kept,
            Entry::Stmt(InStmt::Set(Set { node, name })),
        )),
        Stmt::Add {
            name,
            name_line,
            name_col,
            line,
            col,
            ..
        } => Ok(at_first(
            step,
            kept,
            Entry::Stmt(InStmt::Add(Add {
                node,
                name,
                name_line: *name_line,
                name_col: *name_col,
                line: *line,
                col: *col,
            })),
        )),
        Stmt::Put {
            name,
            name_line,
            name_col,
            line,
            col,
            at,
            value,
        } => {
            let next = code.after_exp(inside, at);
            let entry = open_put(
                node, next, name, *name_line, *name_col, *line, *col, value, step, kept,
            )?;
            Ok(entry)
        }
        Stmt::Return { value: None, .. } => Ok(None),
        Stmt::Return { value: Some(_), .. } => Ok(at_first(
            step,
            kept,
            Entry::Stmt(InStmt::Return(Whole { node })),
        )),
        Stmt::If {
            arms,
            otherwise,
            ..
        } => Ok(open_arm(
            code,
            node,
            inside,
            step,
            arms.as_slice(),
            otherwise.as_ref(),
        )),
        Stmt::While {
            line,
            col,
            test,
            body,
        } => {
            let block = code.after_exp(inside, test);
            Ok(open_while(node, block, *line, *col, test, body, step, kept))
        }
        Stmt::Do {
            line,
            col,
            body,
            test,
        } => {
            let test_at = code.after_block(inside, body);
            Ok(open_repeat(node, test_at, *line, *col, body, test, step, kept))
        }
        Stmt::For {
            line,
            col,
            name,
            list,
            body,
        } => {
            let block = code.after_exp(inside, list);
            let entry = open_for(node, block, *line, *col, name, body, step, kept)?;
            Ok(entry)
        }
        Stmt::Just { .. } => Ok(at_first(step, kept, Entry::Stmt(InStmt::Just(Whole { node })))),
    }
}

// `x[i] = e;`, whose expression stands at the node `next`.
fn open_put<'a>(
    node: u32,
    next: u32,
    name: &'a Txt,
    name_line: u32,
    name_col: u32,
    line: u32,
    col: u32,
    value: &'a Expr,
    step: u32,
    kept: &[Value],
) -> Result<Option<Entry<'a>>, Memory>
    ensures { IfOk result (λ o. option_map entry_of o
        ≡ put_at step node next name.now (at name_line name_col) (at line col) (exp_view value.now) (stack_view kept.now)) }
{
    match kept {
        [] => if step == 1 {
            Ok(Some(Entry::Stmt(InStmt::PutIndex(PutIndex {
                node,
                next,
                name,
                name_line,
                name_col,
                line,
                col,
                value,
            }))))
        } else {
            Ok(None)
        },
        [index] => if step == 2 {
            let index = index.copy()?;
            Ok(Some(Entry::Stmt(InStmt::PutValue(PutValue {
                node,
                name,
                name_line,
                name_col,
                line,
                col,
                at: index,
            }))))
        } else {
            Ok(None)
        },
        _ => Ok(None),
    }
}

// The arm at a step from 1: its test is pending. The test of the first arm stands at the node `next`.
fn open_arm<'a>(
    code: &Code,
    node: u32,
    next: u32,
    step: u32,
    arms: &'a [Arm],
    otherwise: Option<&'a Block>,
) -> Option<Entry<'a>>
    requires first { next ≡ node + 1 }
    requires has { HasArms (λ i. node_at code.now i) (arms_view arms.now) next }
    ensures { option_map entry_of result ≡ cases_open (arms_view arms.now) (last_block otherwise.entry) node step }
{
    if step == 0 {
        return None;
    }
    let mut at = next;
    let mut rest = arms;
    for _passed in 0..step - 1 {
        let Some((arm, more)) = rest.split_first() else {
            return None;
        };
        at = code.after_block(code.after_exp(at, &arm.test), &arm.body);
        rest = more;
    }
    let Some((arm, more)) = rest.split_first() else {
        return None;
    };
    let block = code.after_exp(at, &arm.test);
    Some(Entry::Block(InBlock::Arm(ArmTest {
        node,
        step: step as usize,
        block,
        line: arm.line,
        col: arm.col,
        body: &arm.body,
        arms: more,
        otherwise,
    })))
}
