// The nodes of statements and blocks.

ghost use Rattle.std.specs.Prelude.{IfOk, ◌++◌};
ghost use Rattle.sky_base.specs.TreeView.{exp_view};
ghost use Rattle.sky_base.specs.StmtView.{stm_view, stms_view, arms_view};
ghost use Rattle.sky_base_law.specs.Nodes.{pre_exp, pre_stm, pre_stms, pre_arms, pre_block};
ghost use Rattle.sky_machine_numbers.specs.Filled.{Filled, Fits, in_stm};

use crate::ends::{begin, end};
use crate::exprs::number_exp;
use sky_base::stmt::{Arm, Block, Stmt};
use sky_base::text::Memory;

/// A block with all that is in it.
#[cycle(stm)]
pub fn number_block(ends: &mut Vec<u32>, block: &Block) -> Result<(), Memory>
    requires { Fits ends.old.items (pre_block block.now) }
    ensures { IfOk result (λ _. Filled ends.old.items ends.new.items (pre_block block.now)) }
{
    let at = begin(ends)?;
    number_stmts(ends, block.as_slice())?;
    end(ends, at);
    Ok(())
}

// The statements of a block.
#[cycle(stm)]
fn number_stmts(ends: &mut Vec<u32>, stmts: &[Stmt]) -> Result<(), Memory>
    requires { Fits ends.old.items (pre_stms (stms_view stmts.now)) }
    ensures { IfOk result (λ _. Filled ends.old.items ends.new.items (pre_stms (stms_view stmts.now))) }
{
    let mut rest = stmts;
    while let Some((stmt, more)) = rest.split_first() {
        number_stmt(ends, stmt)?;
        rest = more;
    }
    Ok(())
}

// A statement with all that is in it.
#[cycle(stm)]
fn number_stmt(ends: &mut Vec<u32>, s: &Stmt) -> Result<(), Memory>
    requires { Fits ends.old.items (pre_stm (stm_view s.now)) }
    ensures { IfOk result (λ _. Filled ends.old.items ends.new.items (pre_stm (stm_view s.now))) }
{
    let at = begin(ends)?;
    number_in_stmt(ends, s)?;
    end(ends, at);
    Ok(())
}

// What is in a statement.
#[cycle(stm)]
fn number_in_stmt(ends: &mut Vec<u32>, s: &Stmt) -> Result<(), Memory>
    requires { Fits ends.old.items (in_stm (stm_view s.now)) }
    ensures { IfOk result (λ _. Filled ends.old.items ends.new.items (in_stm (stm_view s.now))) }
{
    match s {
        Stmt::Set { value, .. } | Stmt::Add { value, .. } => number_exp(ends, value),
        Stmt::Put { at, value, .. } => {
            number_exp(ends, at)?;
            number_exp(ends, value)?;
            Ok(())
        }
        Stmt::Return { value: None, .. } => Ok(()),
        Stmt::Return {
            value: Some(value),
            ..
        } => number_exp(ends, value),
        Stmt::If {
            arms,
            otherwise,
            ..
        } => {
            number_arms(ends, arms.as_slice())?;
            match otherwise {
                None => Ok(()),
                Some(block) => {
                    number_block(ends, block)?;
                    Ok(())
                }
            }
        }
        Stmt::While { test, body, .. } => {
            number_exp(ends, test)?;
            number_block(ends, body)?;
            Ok(())
        }
        Stmt::Do { body, test, .. } => {
            number_block(ends, body)?;
            number_exp(ends, test)?;
            Ok(())
        }
        Stmt::For { list, body, .. } => {
            number_exp(ends, list)?;
            number_block(ends, body)?;
            Ok(())
        }
        Stmt::Just { inner, .. } => number_exp(ends, inner),
    }
}

// The arms of a choice.
#[cycle(stm)]
fn number_arms(ends: &mut Vec<u32>, arms: &[Arm]) -> Result<(), Memory>
    requires { Fits ends.old.items (pre_arms (arms_view arms.now)) }
    ensures { IfOk result (λ _. Filled ends.old.items ends.new.items (pre_arms (arms_view arms.now))) }
{
    let mut rest = arms;
    while let Some((arm, more)) = rest.split_first() {
        number_arm(ends, arm)?;
        rest = more;
    }
    Ok(())
}

// The test of an arm and its block.
#[cycle(stm)]
fn number_arm(ends: &mut Vec<u32>, arm: &Arm) -> Result<(), Memory>
    requires { Fits ends.old.items (pre_exp (exp_view arm.now.test) ++ pre_block arm.now.body) }
    ensures { IfOk result (λ _. Filled ends.old.items ends.new.items (pre_exp (exp_view arm.now.test) ++ pre_block arm.now.body)) }
{
    number_exp(ends, &arm.test)?;
    number_block(ends, &arm.body)?;
    Ok(())
}
