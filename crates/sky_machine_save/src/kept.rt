// The values that a form keeps, put on a stack.

ghost use Rattle.std.specs.Prelude.{◌≡◌, ◌++◌, ◌∷◌, [], ◌<◌, ◌^◌, IfOk, pos};
ghost use Rattle.sky_base.specs.Val.{list, num, ref, refs_to, known};
ghost use Rattle.sky_base.specs.Names.{known_of};
ghost use Rattle.sky_base.specs.Res.{kept_of};
ghost use Rattle.sky_base.specs.View.{view};
ghost use Rattle.sky_machine_entries.specs.Entries.{entry_of, form_of, postfix_of, stmt_of, block_of};
ghost use Rattle.sky_machine_save.specs.Saving.{TakenFits};
ghost use Rattle.sky_base_scope.specs.Plain.{items};
ghost use Rattle.sky_state.specs.StandView.{stack_view};

use sky_base::names::Names;
use sky_base::text::Memory;
use sky_base::value::{Vals, Value};
use sky_machine_entries::entry::{Arg, Entry, ForBody, InBlock, InForm, InPostfix, InStmt};
use std::alloc::Global;

/// Puts the values that a form keeps on the stack, the deepest first.
pub(crate) fn keep(alloc: Global, stack: &mut Vec<Value>, entry: &Entry) -> Result<(), Memory>
    requires { TakenFits (entry_of entry.now) }
    ensures { IfOk result (λ _. stack_view stack.new.items ≡ stack_view stack.old.items ++ kept_of (entry_of entry.now)) }
{
    match entry {
        Entry::Form(form) => keep_form(alloc, stack, form),
        Entry::Postfix(postfix) => keep_postfix(stack, postfix),
        Entry::Stmt(stmt) => keep_stmt(stack, stmt),
        Entry::Block(block) => keep_block(stack, block),
    }
}

fn keep_form(alloc: Global, stack: &mut Vec<Value>, form: &InForm) -> Result<(), Memory>
    ensures { IfOk result (λ _. stack_view stack.new.items ≡ stack_view stack.old.items ++ kept_of (form_of form.now)) }
{
    match form {
        InForm::Part(part) => put_all(stack, &part.values),
        InForm::ChainMore(chain) => put(stack, chain.value.copy()?),
        InForm::Star(star) => put(stack, Value::Ref(star.name)),
        InForm::ExecWait(wait) => put(stack, references(alloc, &wait.names)?),
        InForm::Parens(_) | InForm::ChainFirst(_) | InForm::Logic(_) | InForm::Prefix(_) => Ok(()),
    }
}

fn keep_postfix(stack: &mut Vec<Value>, postfix: &InPostfix) -> Result<(), Memory>
    ensures { IfOk result (λ _. stack_view stack.new.items ≡ stack_view stack.old.items ++ kept_of (postfix_of postfix.now)) }
{
    match postfix {
        InPostfix::Index(index) => put(stack, index.value.copy()?),
        InPostfix::Arg(arg) => put_call(stack, arg),
        InPostfix::First(_) | InPostfix::Open(_) => Ok(()),
    }
}

fn keep_stmt(stack: &mut Vec<Value>, stmt: &InStmt) -> Result<(), Memory>
    ensures { IfOk result (λ _. stack_view stack.new.items ≡ stack_view stack.old.items ++ kept_of (stmt_of stmt.now)) }
{
    match stmt {
        InStmt::PutValue(at) => put(stack, at.at.copy()?),
        _ => Ok(()),
    }
}

fn keep_block(stack: &mut Vec<Value>, block: &InBlock) -> Result<(), Memory>
    requires { TakenFits (block_of block.now) }
    ensures { IfOk result (λ _. stack_view stack.new.items ≡ stack_view stack.old.items ++ kept_of (block_of block.now)) }
{
    match block {
        InBlock::ForBody(turn) => put_turn(stack, turn),
        _ => Ok(()),
    }
}

/// The list of a `for`, and how many elements were taken.
fn put_turn(stack: &mut Vec<Value>, turn: &ForBody) -> Result<(), Memory>
    requires { turn.now.taken < 2 ^ 63 }
    ensures { IfOk result (λ _. stack_view stack.new.items ≡ stack_view stack.old.items ++ (list turn.now.list ∷ num (pos turn.now.taken) ∷ [])) }
{
    put(stack, Value::List(turn.list.copy()?))?;
    put(stack, Value::Int(turn.taken as i64))?;
    Ok(())
}

/// The function of a call, and the arguments so far.
fn put_call(stack: &mut Vec<Value>, arg: &Arg) -> Result<(), Memory>
    ensures { IfOk result (λ _. stack_view stack.new.items ≡ stack_view stack.old.items ++ (view arg.now.fun ∷ items arg.now.args)) }
{
    put(stack, arg.fun.copy()?)?;
    put_all(stack, &arg.args)?;
    Ok(())
}

fn put(stack: &mut Vec<Value>, value: Value) -> Result<(), Memory>
    ensures { IfOk result (λ _. stack_view stack.new.items ≡ stack_view stack.old.items ++ view value ∷ []) }
{
    match stack.push(value) {
        Ok(()) => Ok(()),
        Err(_) => Err(Memory),
    }
}

fn put_all(stack: &mut Vec<Value>, values: &Vals) -> Result<(), Memory>
    ensures { IfOk result (λ _. stack_view stack.new.items ≡ stack_view stack.old.items ++ items values.now) }
{
    for value in values.as_slice() {
        put(stack, value.copy()?)?;
    }
    Ok(())
}

/// The list of the references to these names.
///
/// Answers `Memory` for want of memory.
pub fn references(alloc: Global, names: &Names) -> Result<Value, Memory>
    ensures { IfOk result (λ v. view v ≡ list (refs_to (known_of names.now))) }
{
    let mut values = Vals::new(alloc);
    for name in names.as_slice() {
        values.push(Value::Ref(*name))?;
    }
    Ok(Value::List(values))
}
