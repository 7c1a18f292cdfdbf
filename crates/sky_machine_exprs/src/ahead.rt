// A chain is gone through with no form put on the list, as far as its operands are literals and names: most are, and to
// put a form on the list and take it off costs more than the operand. What is left, if anything is, goes on as ever. The
// visits are the same ones in the same order.

ghost use Rattle.std.specs.Prelude.{◌≡◌, ◌≤◌, ℕ, List, IfOk, IfSome, IfNone};
ghost use Rattle.sky_base.specs.Kept.{Kept};
ghost use Rattle.sky_base.specs.View.{view};
ghost use Rattle.sky_base.specs.Val.{Vals};
ghost use Rattle.sky_base.specs.Tree.{Exp, Links, Place};
ghost use Rattle.sky_base.specs.TreeView.{at, exp_view};
ghost use Rattle.sky_base.specs.Res.{visits, Fin};
ghost use Rattle.sky_base.specs.Eval.{World, eval, eval_links};
ghost use Rattle.sky_base_law.specs.Opened.{HasExp, HasLinks};
ghost use Rattle.sky_base_law.specs.Nodes.{node_at};
ghost use Rattle.sky_base_scope.specs.Plain.{Pairs, Vars};
ghost use Rattle.sky_machine_code.specs.Shapes.{op_view, operands_view};
ghost use Rattle.sky_machine_entries.specs.Config.{Run, body_in, rest_in, config, opened};
ghost use Rattle.sky_machine_entries.specs.Entries.{end_of, forms};
ghost use Rattle.sky_machine_entries.specs.Falls.{GoesIn};
ghost use Rattle.sky_machine_entries.specs.Ready.{EndReady, AllReady, Goes};
ghost use Rattle.sky_machine_exprs.specs.Ahead.{left_of, linked, IsReady, LinkReady, HasVisited};
ghost use Rattle.sky_machine_exprs.specs.AtOnce.{Visited};

use crate::at_once::{as_leaf, leaf_end};
use crate::chain::{Chain, next_link, operate};
use crate::first::begin_chain;
use sky_base::fault::FaultKind;
use sky_base::text::Memory;
use sky_base::tree::{Expr, Sub};
use sky_base::value::Value;
use sky_base_scope::state::State;
use sky_machine_code::code::Code;
use sky_machine_code::shape::{Operand, Operands, next_operand};
use sky_machine_entries::control::{Control, End};
use sky_machine_entries::entry::Entry;
use sky_machine_entries::visit::{failed, visit};
use std::alloc::Global;

/// Where a chain stands that was gone through as far as its operands are literals and names.
#[derive(Drop)]
pub enum Ahead<'a> {
    /// It has ended.
    Ended(End),
    /// Its next operand is neither.
    Stands(Chain<'a>),
}

/// How a literal or a name ends; of any other expression nothing is done.
pub fn leaf(alloc: Global, code: &Code, state: &mut State, e: &Expr) -> Result<Option<End>, Memory>
    requires { state.old.count ≤ visits }
    ensures same { IfOk result (λ o. IfSome o (λ end. (w : World (List ℕ)) (body : List ℕ → Pairs → Vals (List ℕ) → Place → Vars → Run) (n : ℕ)
        → w.script ≡ code.now → eval w body (exp_view e.now) n state.old ≡ Fin (end_of end) state.new)) }
    ensures ready { IfOk result (λ o. IfSome o EndReady) }
    ensures still { IfOk result (λ o. IfNone o (state.new ≡ state.old)) }
    ensures visited { IfOk result (λ o. IfSome o (Visited state.old.count state.new.count)) }
    ensures more { IfOk result (λ o. state.old.count ≤ state.new.count) }
    ensures within { IfOk result (λ o. state.new.count ≤ visits) }
{
    match as_leaf(e) {
        None => Ok(None),
        Some(leaf) => {
            let end = leaf_end(alloc, code, state, &leaf)?;
            Ok(Some(end))
        }
    }
}

/// What the next operator of a chain comes to.
#[derive(Drop)]
pub enum Linked {
    /// Its operand is no literal and no name, and nothing was done.
    Waits,
    Ended(End),
    Made(Value),
}

/// The next operator of a chain with its operand, where that is a literal or a name; of any other nothing is done.
#[tactic(auto, using(crate::proofs::Leaves::link_else))]
fn link(
    alloc: Global,
    code: &Code,
    state: &mut State,
    operand: &Operand,
    value: &Value,
) -> Result<Linked, Memory>
    requires kept { Kept (view value.now) }
    requires within { state.old.count ≤ visits }
    ensures same { IfOk result (λ l. (w : World (List ℕ)) (body : List ℕ → Pairs → Vals (List ℕ) → Place → Vars → Run) (ls : Links) (n k m : ℕ)
        → w.script ≡ code.now → eval_links w body (Links.link (op_view operand.now.op) (at operand.now.line operand.now.col)
        (exp_view operand.now.operand.now) ls) n k m (view value.now) state.old
        ≡ linked w body (op_view operand.now.op) (at operand.now.line operand.now.col) (exp_view operand.now.operand.now) ls n k m
        (view value.now) l state.new) }
    ensures ready { IfOk result LinkReady }
    ensures more { IfOk result (λ l. state.old.count ≤ state.new.count) }
    ensures within { IfOk result (λ l. state.new.count ≤ visits) }
{
    match leaf(alloc, code, state, operand.operand)? {
        None => Ok(Linked::Waits),
        Some(end) => match end {
            End::Got(v) => {
                if !visit(state, operand.line, operand.col) {
                    return Ok(Linked::Ended(failed(FaultKind::TooLong, operand.line, operand.col)));
                }
                match operate(alloc, operand.op, value, &v)? {
                    Err(kind) => Ok(Linked::Ended(failed(kind, operand.line, operand.col))),
                    Ok(made) => Ok(Linked::Made(made)),
                }
            }
            _ => Ok(Linked::Ended(end)),
        },
    }
}

/// A chain goes on as long as its next operand is a literal or a name.
pub fn links_ahead<'a>(
    alloc: Global,
    code: &Code,
    state: &mut State,
    chain: Chain<'a>,
) -> Result<Ahead<'a>, Memory>
    requires step { chain.step ≤ chain.next }
    requires links { HasLinks (λ i. node_at code.now i) (operands_view chain.rest) chain.next }
    requires kept { Kept (view chain.value) }
    requires within { state.old.count ≤ visits }
    ensures same { IfOk result (λ a. (w : World (List ℕ)) (body : List ℕ → Pairs → Vals (List ℕ) → Place → Vars → Run) → w.script ≡ code.now
        → eval_links w body (operands_view chain.entry.rest) chain.entry.node chain.entry.step chain.entry.next (view chain.entry.value)
        state.old ≡ left_of w body a state.new) }
    ensures ready { IfOk result (λ a. IsReady (λ i. node_at code.now i) a) }
    ensures more { IfOk result (λ a. state.old.count ≤ state.new.count) }
    ensures within { IfOk result (λ a. state.new.count ≤ visits) }
{
    let Chain {
        node,
        step,
        next,
        value,
        rest,
    } = chain;
    let (mut step, mut next, mut value, mut rest) = (step, next, value, rest);
    'links: loop {
        match next_operand(rest) {
            None => return Ok(Ahead::Ended(End::Got(value))),
            Some(operand) => {
                let linked = link(alloc, code, state, &operand, &value)?;
                match linked {
                    Linked::Waits => {
                        return Ok(Ahead::Stands(Chain {
                            node,
                            step,
                            next,
                            value,
                            rest,
                        }))
                    }
                    Linked::Ended(end) => return Ok(Ahead::Ended(end)),
                    Linked::Made(made) => {
                        next = code.after_exp(next, operand.operand);
                        step += 1;
                        value = made;
                        rest = operand.rest;
                    }
                }
            }
        }
    }
}

/// A chain whose first operand is a literal or a name; of any other nothing is done.
pub fn chain_ahead<'a>(
    alloc: Global,
    code: &Code,
    state: &mut State,
    node: u32,
    first: &'a Sub,
    rest: Operands<'a>,
) -> Result<Option<Ahead<'a>>, Memory>
    requires has { HasExp (λ i. node_at code.now i) (Exp.chain first.now (operands_view rest)) node }
    requires within { state.old.count ≤ visits }
    ensures same { IfOk result (λ o. IfSome o (λ a. (w : World (List ℕ)) (body : List ℕ → Pairs → Vals (List ℕ) → Place → Vars → Run) → w.script
        ≡ code.now → eval w body (Exp.chain first.entry.now (operands_view rest.entry)) node state.old ≡ left_of w body a state.new)) }
    ensures ready { IfOk result (λ o. IfSome o (λ a. IsReady (λ i. node_at code.now i) a)) }
    ensures still { IfOk result (λ o. IfNone o (state.new ≡ state.old)) }
    ensures visited { IfOk result (λ o. IfSome o (HasVisited state.old.count state.new.count)) }
    ensures within { IfOk result (λ o. state.new.count ≤ visits) }
{
    let e = first.get();
    match leaf(alloc, code, state, e)? {
        None => Ok(None),
        Some(end) => match end {
            End::Got(value) => {
                let part = code.inside(node);
                let next = code.after_exp(part, e);
                let ahead = links_ahead(
                    alloc,
                    code,
                    state,
                    Chain {
                        node,
                        step: 2,
                        next,
                        value,
                        rest,
                    },
                )?;
                Ok(Some(ahead))
            }
            _ => Ok(Some(Ahead::Ended(end))),
        },
    }
}

/// A chain that was gone through goes on under the forms that are on the list.
pub fn go<'a>(
    code: &Code,
    entries: &mut Vec<Entry<'a>>,
    ahead: Ahead<'a>,
) -> Result<Control<'a>, Memory>
    requires ready { AllReady code.now entries.old.items }
    requires left { IsReady (λ i. node_at code.now i) ahead }
    ensures same { IfOk result (λ c. (w : World (List ℕ)) (st : Vars) → config w entries.new.items c st
        ≡ rest_in w entries.old.items (left_of w (body_in w (forms entries.old.items)) ahead.entry st)) }
    ensures ready { IfOk result (λ c. AllReady code.now entries.new.items) }
    ensures goes { IfOk result (λ c. Goes code.now c) }
    ensures opened { IfOk result (λ c. opened (forms entries.new.items) ≡ opened (forms entries.old.items)) }
    ensures falls { IfOk result (λ c. (n old new : ℕ) → HasVisited old new ahead.entry → new ≤ visits
        → GoesIn n old entries.old.items new entries.new.items c) }
{
    match ahead {
        Ahead::Ended(end) => Ok(Control::End(end)),
        Ahead::Stands(chain) => {
            let control = next_link(code, entries, chain)?;
            Ok(control)
        }
    }
}

/// A chain of operators, or a comparison, is begun: its first operand, or where that is a literal or a name, what comes
/// after it.
pub fn begin_links<'a>(
    alloc: Global,
    code: &Code,
    state: &mut State,
    entries: &mut Vec<Entry<'a>>,
    node: u32,
    first: &'a Sub,
    rest: Operands<'a>,
) -> Result<Control<'a>, Memory>
    requires ready { AllReady code.now entries.old.items }
    requires has { HasExp (λ i. node_at code.now i) (Exp.chain first.now (operands_view rest)) node }
    requires within { state.old.count ≤ visits }
    ensures same { IfOk result (λ c. (w : World (List ℕ)) → w.script ≡ code.now → config w entries.new.items c state.new
        ≡ rest_in w entries.old.items (eval w (body_in w (forms entries.old.items)) (Exp.chain first.entry.now (operands_view rest.entry)) node
        state.old)) }
    ensures ready { IfOk result (λ c. AllReady code.now entries.new.items) }
    ensures goes { IfOk result (λ c. Goes code.now c) }
    ensures opened { IfOk result (λ c. opened (forms entries.new.items) ≡ opened (forms entries.old.items)) }
    ensures falls { IfOk result (λ c. GoesIn node state.old.count entries.old.items state.new.count entries.new.items c) }
{
    match chain_ahead(alloc, code, state, node, first, rest)? {
        None => {
            let control = begin_chain(code, entries, node, first, rest)?;
            Ok(control)
        }
        Some(ahead) => {
            let control = go(code, entries, ahead)?;
            Ok(control)
        }
    }
}
