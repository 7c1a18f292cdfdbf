// Where a form stands: its node and its step.

ghost use Rattle.std.specs.Prelude.{◌≡◌, ◌<◌, ◌^◌};
ghost use Rattle.sky_base.specs.Res.{step_of};
ghost use Rattle.sky_base.specs.Read.{todo_of};
ghost use Rattle.sky_machine_entries.specs.Entries.{entry_of, form_of, postfix_of, stmt_of, block_of};
ghost use Rattle.sky_state.specs.StandView.{todo_view};

use sky_machine_entries::entry::{Entry, InBlock, InForm, InPostfix, InStmt};
use sky_state::frame::Todo;

/// The node and the step of a form.
pub(crate) fn place(entry: &Entry) -> Todo
    requires { step_of (entry_of entry.now) < 2 ^ 32 }
    ensures { todo_view result ≡ todo_of (entry_of entry.now) }
{
    match entry {
        Entry::Form(form) => form_place(form),
        Entry::Postfix(postfix) => postfix_place(postfix),
        Entry::Stmt(stmt) => stmt_place(stmt),
        Entry::Block(block) => block_place(block),
    }
}

fn at(node: u32, step: u32) -> Todo
    ensures { todo_view result ≡ record { node = node; step = step } }
{
    Todo { node, step }
}

fn form_place(form: &InForm) -> Todo
    requires { step_of (form_of form.now) < 2 ^ 32 }
    ensures { todo_view result ≡ todo_of (form_of form.now) }
{
    match form {
        InForm::Parens(parens) => at(parens.node, 1),
        InForm::Part(part) => at(part.node, part.step as u32),
        InForm::ChainFirst(chain) => at(chain.node, 1),
        InForm::ChainMore(chain) => at(chain.node, chain.step as u32),
        InForm::Logic(logic) => at(logic.node, logic.step as u32),
        InForm::Prefix(prefix) => at(prefix.node, 1),
        InForm::Star(star) => at(star.node, star.step as u32),
        InForm::ExecWait(wait) => at(wait.node, 4),
    }
}

fn postfix_place(postfix: &InPostfix) -> Todo
    requires { step_of (postfix_of postfix.now) < 2 ^ 32 }
    ensures { todo_view result ≡ todo_of (postfix_of postfix.now) }
{
    match postfix {
        InPostfix::First(first) => at(first.node, 1),
        InPostfix::Index(index) => at(index.node, index.step as u32),
        InPostfix::Arg(arg) => at(arg.node, arg.step as u32),
        InPostfix::Open(open) => at(open.node, open.step as u32),
    }
}

fn stmt_place(stmt: &InStmt) -> Todo
    ensures { todo_view result ≡ todo_of (stmt_of stmt.now) }
{
    match stmt {
        InStmt::Set(set) => at(set.node, 1),
        InStmt::Add(add) => at(add.node, 1),
        InStmt::PutIndex(put) => at(put.node, 1),
        InStmt::PutValue(put) => at(put.node, 2),
        InStmt::Return(whole) => at(whole.node, 1),
        InStmt::Just(whole) => at(whole.node, 1),
    }
}

fn block_place(block: &InBlock) -> Todo
    requires { step_of (block_of block.now) < 2 ^ 32 }
    ensures { todo_view result ≡ todo_of (block_of block.now) }
{
    match block {
        InBlock::Arm(arm) => at(arm.node, arm.step as u32),
        InBlock::WhileTest(turn) => at(turn.node, 1),
        InBlock::WhileBody(turn) => at(turn.node, 2),
        InBlock::RepeatBody(turn) => at(turn.node, 1),
        InBlock::RepeatTest(turn) => at(turn.node, 2),
        InBlock::ForList(turn) => at(turn.node, 1),
        InBlock::ForBody(turn) => at(turn.node, 2),
        InBlock::Block(block) => at(block.node, block.step as u32),
    }
}
