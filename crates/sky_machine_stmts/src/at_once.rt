// Statements that end at once: an assignment whose expression does. A block's statements are gone through one after the
// other as long as they do, with no form put on the list; the first that doesn't goes on as ever. The visits are the same
// ones in the same order.

ghost use Rattle.std.specs.Prelude.{◌≡◌, ◌≤◌, ◌+◌, ◌*◌, ℕ, List, IfOk, IfSome, IfNone, length};
ghost use Rattle.sky_base.specs.Val.{Vals};
ghost use Rattle.sky_base.specs.Tree.{Place, Stm};
ghost use Rattle.sky_base.specs.TreeView.{at};
ghost use Rattle.sky_base.specs.StmtView.{stm_view, stms_view};
ghost use Rattle.sky_base.specs.Res.{visits, Fin};
ghost use Rattle.sky_base.specs.Eval.{World, eval_stm, eval_stms};
ghost use Rattle.sky_base_law.specs.Opened.{HasStms};
ghost use Rattle.sky_base_law.specs.Nodes.{node_at};
ghost use Rattle.sky_base_scope.specs.Plain.{Pairs, Vars};
ghost use Rattle.sky_machine_entries.specs.Config.{Run, body_in, rest_in, config, opened};
ghost use Rattle.sky_machine_entries.specs.Entries.{end_of, forms};
ghost use Rattle.sky_machine_entries.specs.Falls.{GoesOut};
ghost use Rattle.sky_machine_entries.specs.Ready.{EndReady, AllReady, Goes};
ghost use Rattle.sky_machine_exprs.specs.AtOnce.{simple_view, Visited};
ghost use Rattle.sky_machine_stmts.specs.AtOnce.{left_of, StandsAt};

use crate::block::next_stmt;
use crate::stmt::{add, set};
use sky_base::fault::FaultKind;
use sky_base::stmt::Stmt;
use sky_base::text::{Memory, Txt};
use sky_base_scope::state::State;
use sky_machine_code::code::Code;
use sky_machine_entries::control::{Control, End};
use sky_machine_entries::entry::{Add, BlockAt, Entry, Set};
use sky_machine_entries::visit::{failed, visit};
use sky_machine_exprs::at_once::{Simple, as_simple, simple_end};
use std::alloc::Global;

// How `x = e;` ends, with an expression that ends at once.
fn set_end(
    alloc: Global,
    code: &Code,
    state: &mut State,
    node: u32,
    name: &Txt,
    line: u32,
    col: u32,
    value: &Simple,
) -> Result<End, Memory>
    requires { state.old.count ≤ visits }
    ensures same { IfOk result (λ e. (w : World (List ℕ)) (body : List ℕ → Pairs → Vals (List ℕ) → Place → Vars → Run) → w.script ≡ code.now
        → eval_stm w body (Stm.set name.now (at line col) (simple_view value.now)) node state.old ≡ Fin (end_of e) state.new) }
    ensures ready { IfOk result EndReady }
    ensures visited { IfOk result (Visited state.old.count state.new.count) }
    ensures more { IfOk result (λ e. state.old.count ≤ state.new.count) }
    ensures within { IfOk result (λ e. state.new.count ≤ visits) }
{
    if !visit(state, line, col) {
        return Ok(failed(FaultKind::TooLong, line, col));
    }
    let end = simple_end(alloc, code, state, value)?;
    match end {
        End::Got(v) => {
            let end = set(state, Set { node, name }, v)?;
            Ok(end)
        }
        _ => Ok(end),
    }
}

// How `x += e;` ends, with an expression that ends at once.
fn add_end(
    alloc: Global,
    code: &Code,
    state: &mut State,
    to: Add,
    value: &Simple,
) -> Result<End, Memory>
    requires { state.old.count ≤ visits }
    ensures same { IfOk result (λ e. (w : World (List ℕ)) (body : List ℕ → Pairs → Vals (List ℕ) → Place → Vars → Run) → w.script ≡ code.now
        → eval_stm w body (Stm.add to.entry.name.now (at to.entry.name_line to.entry.name_col) (at to.entry.line to.entry.col)
        (simple_view value.now)) to.entry.node state.old ≡ Fin (end_of e) state.new) }
    ensures ready { IfOk result EndReady }
    ensures visited { IfOk result (Visited state.old.count state.new.count) }
    ensures more { IfOk result (λ e. state.old.count ≤ state.new.count) }
    ensures within { IfOk result (λ e. state.new.count ≤ visits) }
{
    if !visit(state, to.line, to.col) {
        return Ok(failed(FaultKind::TooLong, to.line, to.col));
    }
    let end = simple_end(alloc, code, state, value)?;
    match end {
        End::Got(v) => {
            let end = add(alloc, state, to, v)?;
            Ok(end)
        }
        _ => Ok(end),
    }
}

/// How a statement ends, where it ends at once; of any other nothing is done.
pub fn stmt_end(
    alloc: Global,
    code: &Code,
    state: &mut State,
    node: u32,
    stmt: &Stmt,
) -> Result<Option<End>, Memory>
    requires { state.old.count ≤ visits }
    ensures same { IfOk result (λ o. IfSome o (λ e. (w : World (List ℕ)) (body : List ℕ → Pairs → Vals (List ℕ) → Place → Vars → Run) → w.script
        ≡ code.now → eval_stm w body (stm_view stmt.now) node state.old ≡ Fin (end_of e) state.new)) }
    ensures ready { IfOk result (λ o. IfSome o EndReady) }
    ensures visited { IfOk result (λ o. IfSome o (Visited state.old.count state.new.count)) }
    ensures still { IfOk result (λ o. IfNone o (state.new ≡ state.old)) }
    ensures more { IfOk result (λ o. state.old.count ≤ state.new.count) }
    ensures within { IfOk result (λ o. state.new.count ≤ visits) }
{
    match stmt {
        Stmt::Set {
            name,
            line,
            col,
            value,
        } => match as_simple(value) {
            None => Ok(None),
            Some(value) => {
                let end = set_end(alloc, code, state, node, name, *line, *col, &value)?;
                Ok(Some(end))
            }
        },
        Stmt::Add {
            name,
            name_line,
            name_col,
            line,
            col,
            value,
        } => match as_simple(value) {
            None => Ok(None),
            Some(value) => {
                let to = Add {
                    node,
                    name,
                    name_line: *name_line,
                    name_col: *name_col,
                    line: *line,
                    col: *col,
                };
                let end = add_end(alloc, code, state, to, &value)?;
                Ok(Some(end))
            }
        },
        _ => Ok(None),
    }
}

/// Where a block stands that was gone through as long as its statements end at once.
#[derive(Drop)]
pub enum Stmts<'a> {
    /// It has ended.
    Ended(End),
    /// Its next statement doesn't end at once.
    Stands(BlockAt<'a>),
}

/// The statements of a block that are left, gone through as long as they end at once.
pub fn stmts_ahead<'a>(
    alloc: Global,
    code: &Code,
    state: &mut State,
    block: BlockAt<'a>,
) -> Result<Stmts<'a>, Memory>
    requires step { block.step ≤ block.next }
    requires has { HasStms (λ i. node_at code.now i) (stms_view block.rest.now) block.next }
    requires within { state.old.count ≤ visits }
    ensures same { IfOk result (λ a. (w : World (List ℕ)) (body : List ℕ → Pairs → Vals (List ℕ) → Place → Vars → Run) → w.script ≡ code.now
        → eval_stms w body (stms_view block.entry.rest.now) block.entry.node block.entry.step block.entry.next state.old
        ≡ left_of w body a state.new) }
    ensures stands { IfOk result (λ a. StandsAt (λ i. node_at code.now i) a) }
    ensures more { IfOk result (λ a. state.old.count ≤ state.new.count) }
    ensures within { IfOk result (λ a. state.new.count ≤ visits) }
{
    let BlockAt {
        node,
        step,
        next,
        rest,
    } = block;
    let (mut step, mut next, mut rest) = (step, next, rest);
    'stmts: loop {
        match rest.split_first() {
            None => return Ok(Stmts::Ended(End::Goes)),
            Some((first, more)) => {
                let end = stmt_end(alloc, code, state, next, first)?;
                match end {
                    None => {
                        return Ok(Stmts::Stands(BlockAt {
                            node,
                            step,
                            next,
                            rest,
                        }))
                    }
                    Some(end) => match end {
                        End::Goes => {
                            next = code.after_stmt(next, first);
                            step += 1;
                            rest = more;
                        }
                        _ => return Ok(Stmts::Ended(end)),
                    },
                }
            }
        }
    }
}

/// The statements of a block that are left: those that end at once are done, and the first that doesn't is begun.
pub fn go_stmts<'a>(
    alloc: Global,
    code: &Code,
    state: &mut State,
    entries: &mut Vec<Entry<'a>>,
    block: BlockAt<'a>,
) -> Result<Control<'a>, Memory>
    requires ready { AllReady code.now entries.old.items }
    requires step { block.step ≤ block.next }
    requires has { HasStms (λ i. node_at code.now i) (stms_view block.rest.now) block.next }
    requires within { state.old.count ≤ visits }
    ensures same { IfOk result (λ c. (w : World (List ℕ)) → w.script ≡ code.now → config w entries.new.items c state.new
        ≡ rest_in w entries.old.items (eval_stms w (body_in w (forms entries.old.items)) (stms_view block.entry.rest.now) block.entry.node
        block.entry.step block.entry.next state.old)) }
    ensures ready { IfOk result (λ c. AllReady code.now entries.new.items) }
    ensures goes { IfOk result (λ c. Goes code.now c) }
    ensures opened { IfOk result (λ c. opened (forms entries.new.items) ≡ opened (forms entries.old.items)) }
    ensures falls { IfOk result (λ c. GoesOut End.Goes state.old.count entries.old.items state.new.count entries.new.items c) }
{
    let ahead = stmts_ahead(alloc, code, state, block)?;
    match ahead {
        Stmts::Ended(end) => Ok(Control::End(end)),
        Stmts::Stands(block) => {
            let control = next_stmt(code, entries, block)?;
            Ok(control)
        }
    }
}
