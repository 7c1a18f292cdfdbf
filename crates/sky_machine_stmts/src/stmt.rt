// Statements: each is visited, and then its first part is begun.

ghost use Rattle.std.specs.Prelude.{◌≡◌, ◌≤◌, ◌<◌, ◌+◌, ◌*◌, ℕ, List, IfOk, length};
ghost use Rattle.sky_base.specs.Kept.{Kept};
ghost use Rattle.sky_base.specs.View.{view};
ghost use Rattle.sky_base.specs.Val.{Vals};
ghost use Rattle.sky_base.specs.Tree.{Place, Stm};
ghost use Rattle.sky_base.specs.TreeView.{at, exp_view};
ghost use Rattle.sky_base.specs.StmtView.{stm_view};
ghost use Rattle.sky_base.specs.Res as logic;
ghost use Rattle.sky_base.specs.Res.{visits, Fin};
ghost use Rattle.sky_base.specs.Eval.{World, after, eval_stm};
ghost use Rattle.sky_base_law.specs.Opened.{HasStm};
ghost use Rattle.sky_base_law.specs.Nodes.{node_at};
ghost use Rattle.sky_base_scope.specs.Plain.{Pairs, Vars};
ghost use Rattle.sky_machine_entries.specs.Config.{Run, body_in, goes_on, rest_in, config, opened};
ghost use Rattle.sky_machine_entries.specs.Entries.{last_block, entry_of, end_of, forms};
ghost use Rattle.sky_machine_stmts.specs.Returns.{returned};
ghost use Rattle.sky_machine_entries.specs.Falls.{GoesIn, load};
ghost use Rattle.sky_machine_entries.specs.Ready.{EndReady, Ready, AllReady, Goes};

use crate::arms::{Choice, next_arm};
use crate::loops::{again, turn};
use sky_base::fault::FaultKind;
use sky_base::stmt::{Arms, Block, Stmt};
use sky_base::text::{Memory, Txt};
use sky_base::tree::Expr;
use sky_base::value::Value;
use sky_base_scope::cut::Cut;
use sky_base_scope::state::State;
use sky_machine_code::code::Code;
use sky_machine_entries::control::{Control, End, fail};
use sky_machine_entries::entry::{
    Add, Entry, ForList, InBlock, InStmt, PutIndex, PutValue, Repeat, Set, While, Whole,
};
use sky_machine_entries::list::push;
use sky_machine_entries::visit::visit;
use std::alloc::Global;

/// Does a statement.
pub fn perform<'a>(
    code: &Code,
    state: &mut State,
    entries: &mut Vec<Entry<'a>>,
    node: u32,
    stmt: &'a Stmt,
) -> Result<Control<'a>, Memory>
    requires ready { AllReady code.now entries.old.items }
    requires has { HasStm (λ i. node_at code.now i) (stm_view stmt.now) node }
    requires within { state.old.count ≤ visits }
    ensures same { IfOk result (λ c. (w : World (List ℕ)) → config w entries.new.items c state.new
        ≡ rest_in w entries.old.items (eval_stm w (body_in w (forms entries.old.items)) (stm_view stmt.entry.now) node state.old)) }
    ensures ready { IfOk result (λ c. AllReady code.now entries.new.items) }
    ensures goes { IfOk result (λ c. Goes code.now c) }
    ensures opened { IfOk result (λ c. opened (forms entries.new.items) ≡ opened (forms entries.old.items)) }
    ensures falls { IfOk result (λ c. GoesIn node state.old.count entries.old.items state.new.count entries.new.items c) }
{
    match stmt {
        Stmt::Set {
            name,
            line,
            col,
            value,
        } => begin_set(code, state, entries, node, name, *line, *col, value),
        Stmt::Add {
            name,
            name_line,
            name_col,
            line,
            col,
            value,
        } => begin_add(
            code,
            state,
            entries,
            Add {
                node,
                name,
                name_line: *name_line,
                name_col: *name_col,
                line: *line,
                col: *col,
            },
            value,
        ),
        Stmt::Put {
            name,
            name_line,
            name_col,
            line,
            col,
            at,
            value,
        } => begin_put(
            code,
            state,
            entries,
            PutIndex {
                node,
                next: 0,
                name,
                name_line: *name_line,
                name_col: *name_col,
                line: *line,
                col: *col,
                value,
            },
            at,
        ),
        Stmt::Return { line, col, value } => begin_return(
            code,
            state,
            entries,
            node,
            *line,
            *col,
            value.as_ref(),
        ),
        Stmt::If {
            line,
            col,
            arms,
            otherwise,
        } => begin_if(
            code,
            state,
            entries,
            node,
            *line,
            *col,
            arms,
            otherwise.as_ref(),
        ),
        Stmt::While {
            line,
            col,
            test,
            body,
        } => begin_while(code, state, entries, node, *line, *col, test, body),
        Stmt::Do {
            line,
            col,
            body,
            test,
        } => begin_do(code, state, entries, node, *line, *col, body, test),
        Stmt::For {
            line,
            col,
            name,
            list,
            body,
        } => begin_for(code, state, entries, node, *line, *col, name, list, body),
        Stmt::Just { line, col, inner } => {
            begin_just(code, state, entries, node, *line, *col, inner)
        }
    }
}

/// `x = e;`
fn begin_set<'a>(
    code: &Code,
    state: &mut State,
    entries: &mut Vec<Entry<'a>>,
    node: u32,
    name: &'a Txt,
    line: u32,
    col: u32,
    value: &'a Expr,
) -> Result<Control<'a>, Memory>
    requires ready { AllReady code.now entries.old.items }
    requires has { HasStm (λ i. node_at code.now i) (Stm.set name.now (at line col) (exp_view value.now)) node }
    requires within { state.old.count ≤ visits }
    ensures same { IfOk result (λ c. (w : World (List ℕ)) → config w entries.new.items c state.new
        ≡ rest_in w entries.old.items (eval_stm w (body_in w (forms entries.old.items))
        (Stm.set name.entry.now (at line col) (exp_view value.entry.now)) node state.old)) }
    ensures ready { IfOk result (λ c. AllReady code.now entries.new.items) }
    ensures goes { IfOk result (λ c. Goes code.now c) }
    ensures opened { IfOk result (λ c. opened (forms entries.new.items) ≡ opened (forms entries.old.items)) }
    ensures falls { IfOk result (λ c. GoesIn node state.old.count entries.old.items state.new.count entries.new.items c) }
{
    if !visit(state, line, col) {
        return Ok(fail(FaultKind::TooLong, line, col));
    }
    push(entries, Entry::Stmt(InStmt::Set(Set { node, name })))?;
    Ok(Control::Begin(code.inside(node), value))
}

/// `x += e;`
fn begin_add<'a>(
    code: &Code,
    state: &mut State,
    entries: &mut Vec<Entry<'a>>,
    add: Add<'a>,
    value: &'a Expr,
) -> Result<Control<'a>, Memory>
    requires ready { AllReady code.now entries.old.items }
    requires has { HasStm (λ i. node_at code.now i)
        (Stm.add add.name.now (at add.name_line add.name_col) (at add.line add.col) (exp_view value.now)) add.node }
    requires within { state.old.count ≤ visits }
    ensures same { IfOk result (λ c. (w : World (List ℕ)) → config w entries.new.items c state.new
        ≡ rest_in w entries.old.items (eval_stm w (body_in w (forms entries.old.items))
        (Stm.add add.entry.name.now (at add.entry.name_line add.entry.name_col) (at add.entry.line add.entry.col) (exp_view value.entry.now))
        add.entry.node state.old)) }
    ensures ready { IfOk result (λ c. AllReady code.now entries.new.items) }
    ensures goes { IfOk result (λ c. Goes code.now c) }
    ensures opened { IfOk result (λ c. opened (forms entries.new.items) ≡ opened (forms entries.old.items)) }
    ensures falls { IfOk result (λ c. GoesIn add.entry.node state.old.count entries.old.items state.new.count entries.new.items c) }
{
    if !visit(state, add.line, add.col) {
        return Ok(fail(FaultKind::TooLong, add.line, add.col));
    }
    let node = add.node;
    push(entries, Entry::Stmt(InStmt::Add(add)))?;
    Ok(Control::Begin(code.inside(node), value))
}

/// `x[i] = e;`
fn begin_put<'a>(
    code: &Code,
    state: &mut State,
    entries: &mut Vec<Entry<'a>>,
    put: PutIndex<'a>,
    index: &'a Expr,
) -> Result<Control<'a>, Memory>
    requires ready { AllReady code.now entries.old.items }
    requires has { HasStm (λ i. node_at code.now i)
        (Stm.put put.name.now (at put.name_line put.name_col) (at put.line put.col) (exp_view index.now) (exp_view put.value.now)) put.node }
    requires within { state.old.count ≤ visits }
    ensures same { IfOk result (λ c. (w : World (List ℕ)) → config w entries.new.items c state.new
        ≡ rest_in w entries.old.items (eval_stm w (body_in w (forms entries.old.items))
        (Stm.put put.entry.name.now (at put.entry.name_line put.entry.name_col) (at put.entry.line put.entry.col) (exp_view index.entry.now)
        (exp_view put.entry.value.now)) put.entry.node state.old)) }
    ensures ready { IfOk result (λ c. AllReady code.now entries.new.items) }
    ensures goes { IfOk result (λ c. Goes code.now c) }
    ensures opened { IfOk result (λ c. opened (forms entries.new.items) ≡ opened (forms entries.old.items)) }
    ensures falls { IfOk result (λ c. GoesIn put.entry.node state.old.count entries.old.items state.new.count entries.new.items c) }
{
    if !visit(state, put.line, put.col) {
        return Ok(fail(FaultKind::TooLong, put.line, put.col));
    }
    let mut put = put;
    let part = code.inside(put.node);
    put.next = code.after_exp(part, index);
    push(entries, Entry::Stmt(InStmt::PutIndex(put)))?;
    Ok(Control::Begin(part, index))
}

/// `return e;` or `return;`
fn begin_return<'a>(
    code: &Code,
    state: &mut State,
    entries: &mut Vec<Entry<'a>>,
    node: u32,
    line: u32,
    col: u32,
    value: Option<&'a Expr>,
) -> Result<Control<'a>, Memory>
    requires ready { AllReady code.now entries.old.items }
    requires has { HasStm (λ i. node_at code.now i) (returned value (at line col)) node }
    requires within { state.old.count ≤ visits }
    ensures same { IfOk result (λ c. (w : World (List ℕ)) → config w entries.new.items c state.new
        ≡ rest_in w entries.old.items (eval_stm w (body_in w (forms entries.old.items)) (returned value.entry (at line col)) node state.old)) }
    ensures ready { IfOk result (λ c. AllReady code.now entries.new.items) }
    ensures goes { IfOk result (λ c. Goes code.now c) }
    ensures opened { IfOk result (λ c. opened (forms entries.new.items) ≡ opened (forms entries.old.items)) }
    ensures falls { IfOk result (λ c. GoesIn node state.old.count entries.old.items state.new.count entries.new.items c) }
{
    if !visit(state, line, col) {
        return Ok(fail(FaultKind::TooLong, line, col));
    }
    match value {
        None => Ok(Control::End(End::Returned(Value::Null))),
        Some(value) => {
            push(entries, Entry::Stmt(InStmt::Return(Whole { node })))?;
            Ok(Control::Begin(code.inside(node), value))
        }
    }
}

/// `if`.
fn begin_if<'a>(
    code: &Code,
    state: &mut State,
    entries: &mut Vec<Entry<'a>>,
    node: u32,
    line: u32,
    col: u32,
    arms: &'a Arms,
    otherwise: Option<&'a Block>,
) -> Result<Control<'a>, Memory>
    requires ready { AllReady code.now entries.old.items }
    requires has { HasStm (λ i. node_at code.now i) (Stm.cases (at line col) arms.now (last_block otherwise)) node }
    requires within { state.old.count ≤ visits }
    ensures same { IfOk result (λ c. (w : World (List ℕ)) → config w entries.new.items c state.new
        ≡ rest_in w entries.old.items (eval_stm w (body_in w (forms entries.old.items))
        (Stm.cases (at line col) arms.entry.now (last_block otherwise.entry)) node state.old)) }
    ensures ready { IfOk result (λ c. AllReady code.now entries.new.items) }
    ensures goes { IfOk result (λ c. Goes code.now c) }
    ensures opened { IfOk result (λ c. opened (forms entries.new.items) ≡ opened (forms entries.old.items)) }
    ensures falls { IfOk result (λ c. GoesIn node state.old.count entries.old.items state.new.count entries.new.items c) }
{
    if !visit(state, line, col) {
        return Ok(fail(FaultKind::TooLong, line, col));
    }
    let control = next_arm(
        code,
        entries,
        Choice {
            node,
            step: 1,
            next: code.inside(node),
            arms: arms.as_slice(),
            otherwise,
        },
    )?;
    Ok(control)
}

/// `while`.
fn begin_while<'a>(
    code: &Code,
    state: &mut State,
    entries: &mut Vec<Entry<'a>>,
    node: u32,
    line: u32,
    col: u32,
    test: &'a Expr,
    body: &'a Block,
) -> Result<Control<'a>, Memory>
    requires ready { AllReady code.now entries.old.items }
    requires has { HasStm (λ i. node_at code.now i) (Stm.while (at line col) (exp_view test.now) body.now) node }
    requires within { state.old.count ≤ visits }
    ensures same { IfOk result (λ c. (w : World (List ℕ)) → config w entries.new.items c state.new
        ≡ rest_in w entries.old.items (eval_stm w (body_in w (forms entries.old.items))
        (Stm.while (at line col) (exp_view test.entry.now) body.entry.now) node state.old)) }
    ensures ready { IfOk result (λ c. AllReady code.now entries.new.items) }
    ensures goes { IfOk result (λ c. Goes code.now c) }
    ensures opened { IfOk result (λ c. opened (forms entries.new.items) ≡ opened (forms entries.old.items)) }
    ensures falls { IfOk result (λ c. GoesIn node state.old.count entries.old.items state.new.count entries.new.items c) }
{
    if !visit(state, line, col) {
        return Ok(fail(FaultKind::TooLong, line, col));
    }
    let block = code.after_exp(code.inside(node), test);
    let control = turn(
        code,
        entries,
        While {
            node,
            block,
            line,
            col,
            test,
            body,
        },
    )?;
    Ok(control)
}

/// `do`.
fn begin_do<'a>(
    code: &Code,
    state: &mut State,
    entries: &mut Vec<Entry<'a>>,
    node: u32,
    line: u32,
    col: u32,
    body: &'a Block,
    test: &'a Expr,
) -> Result<Control<'a>, Memory>
    requires ready { AllReady code.now entries.old.items }
    requires has { HasStm (λ i. node_at code.now i) (Stm.repeat (at line col) body.now (exp_view test.now)) node }
    requires within { state.old.count ≤ visits }
    ensures same { IfOk result (λ c. (w : World (List ℕ)) → config w entries.new.items c state.new
        ≡ rest_in w entries.old.items (eval_stm w (body_in w (forms entries.old.items))
        (Stm.repeat (at line col) body.entry.now (exp_view test.entry.now)) node state.old)) }
    ensures ready { IfOk result (λ c. AllReady code.now entries.new.items) }
    ensures goes { IfOk result (λ c. Goes code.now c) }
    ensures opened { IfOk result (λ c. opened (forms entries.new.items) ≡ opened (forms entries.old.items)) }
    ensures falls { IfOk result (λ c. GoesIn node state.old.count entries.old.items state.new.count entries.new.items c) }
{
    if !visit(state, line, col) {
        return Ok(fail(FaultKind::TooLong, line, col));
    }
    let test_at = code.after_block(code.inside(node), body);
    let control = again(
        code,
        entries,
        Repeat {
            node,
            test_at,
            line,
            col,
            body,
            test,
        },
    )?;
    Ok(control)
}

/// `for`.
fn begin_for<'a>(
    code: &Code,
    state: &mut State,
    entries: &mut Vec<Entry<'a>>,
    node: u32,
    line: u32,
    col: u32,
    name: &'a Txt,
    list: &'a Expr,
    body: &'a Block,
) -> Result<Control<'a>, Memory>
    requires ready { AllReady code.now entries.old.items }
    requires has { HasStm (λ i. node_at code.now i) (Stm.for (at line col) name.now (exp_view list.now) body.now) node }
    requires within { state.old.count ≤ visits }
    ensures same { IfOk result (λ c. (w : World (List ℕ)) → config w entries.new.items c state.new
        ≡ rest_in w entries.old.items (eval_stm w (body_in w (forms entries.old.items))
        (Stm.for (at line col) name.entry.now (exp_view list.entry.now) body.entry.now) node state.old)) }
    ensures ready { IfOk result (λ c. AllReady code.now entries.new.items) }
    ensures goes { IfOk result (λ c. Goes code.now c) }
    ensures opened { IfOk result (λ c. opened (forms entries.new.items) ≡ opened (forms entries.old.items)) }
    ensures falls { IfOk result (λ c. GoesIn node state.old.count entries.old.items state.new.count entries.new.items c) }
{
    if !visit(state, line, col) {
        return Ok(fail(FaultKind::TooLong, line, col));
    }
    let part = code.inside(node);
    let block = code.after_exp(part, list);
    push(
        entries,
        Entry::Block(InBlock::ForList(ForList {
            node,
            block,
            line,
            col,
            name,
            body,
        })),
    )?;
    Ok(Control::Begin(part, list))
}

/// `e;`
fn begin_just<'a>(
    code: &Code,
    state: &mut State,
    entries: &mut Vec<Entry<'a>>,
    node: u32,
    line: u32,
    col: u32,
    inner: &'a Expr,
) -> Result<Control<'a>, Memory>
    requires ready { AllReady code.now entries.old.items }
    requires has { HasStm (λ i. node_at code.now i) (Stm.just (at line col) (exp_view inner.now)) node }
    requires within { state.old.count ≤ visits }
    ensures same { IfOk result (λ c. (w : World (List ℕ)) → config w entries.new.items c state.new
        ≡ rest_in w entries.old.items (eval_stm w (body_in w (forms entries.old.items)) (Stm.just (at line col) (exp_view inner.entry.now)) node
        state.old)) }
    ensures ready { IfOk result (λ c. AllReady code.now entries.new.items) }
    ensures goes { IfOk result (λ c. Goes code.now c) }
    ensures opened { IfOk result (λ c. opened (forms entries.new.items) ≡ opened (forms entries.old.items)) }
    ensures falls { IfOk result (λ c. GoesIn node state.old.count entries.old.items state.new.count entries.new.items c) }
{
    if !visit(state, line, col) {
        return Ok(fail(FaultKind::TooLong, line, col));
    }
    push(entries, Entry::Stmt(InStmt::Just(Whole { node })))?;
    Ok(Control::Begin(code.inside(node), inner))
}

/// `x = e;` with the value.
pub fn set(state: &mut State, set: Set, v: Value) -> Result<End, Memory>
    requires kept { Kept (view v) }
    ensures same { IfOk result (λ e. (w : World (List ℕ)) (body : List ℕ → Pairs → Vals (List ℕ) → Place → Vars → Run)
        → after w body (entry_of (Entry.Stmt (InStmt.Set set.entry))) (logic.End.got (view v)) state.old ≡ Fin (end_of e) state.new) }
    ensures ready { IfOk result EndReady }
    ensures count { IfOk result (λ e. state.new.count ≡ state.old.count) }
{
    state.set(set.name, v)?;
    Ok(End::Goes)
}

/// `x += e;` with the value.
pub fn add(alloc: Global, state: &mut State, add: Add, v: Value) -> Result<End, Memory>
    requires kept { Kept (view v) }
    ensures same { IfOk result (λ e. (w : World (List ℕ)) (body : List ℕ → Pairs → Vals (List ℕ) → Place → Vars → Run)
        → after w body (entry_of (Entry.Stmt (InStmt.Add add.entry))) (logic.End.got (view v)) state.old ≡ Fin (end_of e) state.new) }
    ensures ready { IfOk result EndReady }
    ensures count { IfOk result (λ e. state.new.count ≡ state.old.count) }
{
    let Add {
        node: _,
        name,
        name_line,
        name_col,
        line,
        col,
    } = add;
    match state.grow(alloc, name, name_line, name_col, line, col, v) {
        Ok(()) => Ok(End::Goes),
        Err(Cut::Fault(fault)) => Ok(End::Failed(fault)),
        Err(_) => Err(Memory),
    }
}

/// `x[i] = e;` with the index: the expression is begun.
pub fn put_index<'a>(
    code: &Code,
    entries: &mut Vec<Entry<'a>>,
    put: PutIndex<'a>,
    v: Value,
) -> Result<Control<'a>, Memory>
    requires ready { AllReady code.now entries.old.items }
    requires entry { Ready code.now (entry_of (Entry.Stmt (InStmt.PutIndex put))) }
    requires kept { Kept (view v) }
    ensures same { IfOk result (λ c. (w : World (List ℕ)) (st : Vars) → config w entries.new.items c st
        ≡ rest_in w entries.old.items (goes_on w (forms entries.old.items) (entry_of (Entry.Stmt (InStmt.PutIndex put.entry)))
        (logic.End.got (view v)) st)) }
    ensures ready { IfOk result (λ c. AllReady code.now entries.new.items) }
    ensures goes { IfOk result (λ c. Goes code.now c) }
    ensures opened { IfOk result (λ c. opened (forms entries.new.items) ≡ opened (forms entries.old.items)) }
    ensures light { IfOk result (λ c. load entries.new.items c ≤ 2 * length entries.old.items + 2) }
{
    let PutIndex {
        node,
        next,
        name,
        name_line,
        name_col,
        line,
        col,
        value,
    } = put;
    push(
        entries,
        Entry::Stmt(InStmt::PutValue(PutValue {
            node,
            name,
            name_line,
            name_col,
            line,
            col,
            at: v,
        })),
    )?;
    Ok(Control::Begin(next, value))
}

/// `x[i] = e;` with the index and the value.
pub fn put_value(state: &mut State, put: PutValue, v: Value) -> Result<End, Memory>
    requires at { Kept (view put.at) }
    requires kept { Kept (view v) }
    ensures same { IfOk result (λ e. (w : World (List ℕ)) (body : List ℕ → Pairs → Vals (List ℕ) → Place → Vars → Run)
        → after w body (entry_of (Entry.Stmt (InStmt.PutValue put.entry))) (logic.End.got (view v)) state.old ≡ Fin (end_of e) state.new) }
    ensures ready { IfOk result EndReady }
    ensures count { IfOk result (λ e. state.new.count ≡ state.old.count) }
{
    let PutValue {
        node: _,
        name,
        name_line,
        name_col,
        line,
        col,
        at,
    } = put;
    match state.put(name, name_line, name_col, line, col, &at, v) {
        Ok(()) => Ok(End::Goes),
        Err(Cut::Fault(fault)) => Ok(End::Failed(fault)),
        Err(_) => Err(Memory),
    }
}
