// Expressions that end at once: a literal or a name, and one operator between two of them. They are what most tests and
// most assignments of a loop are, and to go through one of them with no form put on the list costs a fraction of the steps.

ghost use Rattle.std.specs.Prelude.{◌≡◌, ◌≤◌, ℕ, List, IfOk, IfSome};
ghost use Rattle.sky_base.specs.Kept.{Kept};
ghost use Rattle.sky_base.specs.View.{view};
ghost use Rattle.sky_base.specs.Val.{Vals};
ghost use Rattle.sky_base.specs.Tree.{Links, Place};
ghost use Rattle.sky_base.specs.TreeView.{at, exp_view};
ghost use Rattle.sky_base.specs.Res.{visits, Fin};
ghost use Rattle.sky_base.specs.Eval.{World, eval, eval_links};
ghost use Rattle.sky_base_scope.specs.Plain.{Pairs, Vars};
ghost use Rattle.sky_machine_code.specs.Shapes.{op_view};
ghost use Rattle.sky_machine_entries.specs.Config.{Run};
ghost use Rattle.sky_machine_entries.specs.Entries.{end_of};
ghost use Rattle.sky_machine_entries.specs.Ready.{EndReady};
ghost use Rattle.sky_machine_exprs.specs.AtOnce.{leaf_view, simple_view, Visited};

use crate::chain::operate;
use crate::leaf::{literal, name};
use sky_base::fault::FaultKind;
use sky_base::text::{Memory, Txt};
use sky_base::tree::{Expr, Lit};
use sky_base::value::Value;
use sky_base_scope::state::State;
use sky_machine_code::code::Code;
use sky_machine_code::shape::{Op, Shape, next_operand, shape_of};
use sky_machine_entries::control::End;
use sky_machine_entries::visit::{failed, visit};
use std::alloc::Global;

/// A literal or a name.
#[derive(Clone, Copy, Drop)]
pub enum Leaf<'a> {
    Literal { value: &'a Lit, line: u32, col: u32 },
    Name { name: &'a Txt, line: u32, col: u32 },
}

/// An expression that ends at once.
#[derive(Clone, Copy, Drop)]
pub enum Simple<'a> {
    Leaf(Leaf<'a>),
    /// An operator, with its place, between two literals or names.
    Two {
        first: Leaf<'a>,
        op: Op,
        line: u32,
        col: u32,
        second: Leaf<'a>,
    },
}

/// An expression that is a literal or a name, as that.
pub fn as_leaf<'a>(e: &'a Expr) -> Option<Leaf<'a>>
    ensures { IfSome result (λ l. leaf_view l ≡ exp_view e.entry.now) }
{
    match e {
        Expr::Literal { value, line, col } => Some(Leaf::Literal {
            value,
            line: *line,
            col: *col,
        }),
        Expr::Name { name, line, col } => Some(Leaf::Name {
            name,
            line: *line,
            col: *col,
        }),
        _ => None,
    }
}

/// An expression that ends at once, as that; of a form that is another one it says nothing.
pub fn as_simple<'a>(e: &'a Expr) -> Option<Simple<'a>>
    ensures { IfSome result (λ s. simple_view s ≡ exp_view e.entry.now) }
{
    if let Some(leaf) = as_leaf(e) {
        return Some(Simple::Leaf(leaf));
    }
    let Shape::Chain { first, rest } = shape_of(e) else {
        return None;
    };
    let operand = next_operand(rest)?;
    if next_operand(operand.rest).is_some() {
        return None;
    }
    let first = as_leaf(first.get())?;
    let second = as_leaf(operand.operand)?;
    Some(Simple::Two {
        first,
        op: operand.op,
        line: operand.line,
        col: operand.col,
        second,
    })
}

/// How a literal or a name ends.
pub fn leaf_end(alloc: Global, code: &Code, state: &mut State, leaf: &Leaf) -> Result<End, Memory>
    requires { state.old.count ≤ visits }
    ensures same { IfOk result (λ e. (w : World (List ℕ)) (body : List ℕ → Pairs → Vals (List ℕ) → Place → Vars → Run) (n : ℕ) → w.script
        ≡ code.now → eval w body (leaf_view leaf.now) n state.old ≡ Fin (end_of e) state.new) }
    ensures ready { IfOk result EndReady }
    ensures visited { IfOk result (Visited state.old.count state.new.count) }
    ensures more { IfOk result (λ e. state.old.count ≤ state.new.count) }
    ensures within { IfOk result (λ e. state.new.count ≤ visits) }
{
    match leaf {
        Leaf::Literal { value, line, col } => {
            let end = literal(state, value, *line, *col)?;
            Ok(end)
        }
        Leaf::Name {
            name: of,
            line,
            col,
        } => {
            let end = name(alloc, code, state, of, *line, *col)?;
            Ok(end)
        }
    }
}

// How an operator after a value ends, with a literal or a name after it and nothing else.
#[tactic(auto, using(crate::proofs::Leaves::link_else))]
fn link_end(
    alloc: Global,
    code: &Code,
    state: &mut State,
    value: &Value,
    op: Op,
    line: u32,
    col: u32,
    second: &Leaf,
) -> Result<End, Memory>
    requires kept { Kept (view value.now) }
    requires within { state.old.count ≤ visits }
    ensures same { IfOk result (λ e. (w : World (List ℕ)) (body : List ℕ → Pairs → Vals (List ℕ) → Place → Vars → Run) (n k m : ℕ) → w.script
        ≡ code.now → eval_links w body (Links.link (op_view op) (at line col) (leaf_view second.now) Links.no_links) n k m (view value.now)
        state.old ≡ Fin (end_of e) state.new) }
    ensures ready { IfOk result EndReady }
    ensures more { IfOk result (λ e. state.old.count ≤ state.new.count) }
    ensures within { IfOk result (λ e. state.new.count ≤ visits) }
{
    let end = leaf_end(alloc, code, state, second)?;
    match end {
        End::Got(v) => {
            if !visit(state, line, col) {
                return Ok(failed(FaultKind::TooLong, line, col));
            }
            match operate(alloc, op, value, &v)? {
                Err(kind) => Ok(failed(kind, line, col)),
                Ok(made) => Ok(End::Got(made)),
            }
        }
        _ => Ok(end),
    }
}

/// How an expression that ends at once ends.
pub fn simple_end(
    alloc: Global,
    code: &Code,
    state: &mut State,
    simple: &Simple,
) -> Result<End, Memory>
    requires { state.old.count ≤ visits }
    ensures same { IfOk result (λ e. (w : World (List ℕ)) (body : List ℕ → Pairs → Vals (List ℕ) → Place → Vars → Run) (n : ℕ) → w.script
        ≡ code.now → eval w body (simple_view simple.now) n state.old ≡ Fin (end_of e) state.new) }
    ensures ready { IfOk result EndReady }
    ensures visited { IfOk result (Visited state.old.count state.new.count) }
    ensures more { IfOk result (λ e. state.old.count ≤ state.new.count) }
    ensures within { IfOk result (λ e. state.new.count ≤ visits) }
{
    match simple {
        Simple::Leaf(leaf) => {
            let end = leaf_end(alloc, code, state, leaf)?;
            Ok(end)
        }
        Simple::Two {
            first,
            op,
            line,
            col,
            second,
        } => {
            let end = leaf_end(alloc, code, state, first)?;
            match end {
                End::Got(value) => {
                    let end = link_end(alloc, code, state, &value, *op, *line, *col, second)?;
                    Ok(end)
                }
                _ => Ok(end),
            }
        }
    }
}
