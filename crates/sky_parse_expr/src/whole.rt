// A form with brackets from its parts.

ghost use Rattle.std.specs.Prelude.{◌≡◌, ◌≤◌, ◌∷◌, ◌++◌, [], true, length, List, IfOk};
ghost use Rattle.sky_base.specs.Tree.{Steps};
ghost use Rattle.sky_base.specs.TreeView.{at, exp_view, exps_view, step_view, one, two, three};
ghost use Rattle.sky_parse_grammar.specs.Parts.{ready, head_shape, step_shape};
ghost use Rattle.sky_parse_expr.specs.Built.{formed, step_formed};

use sky_base::text::Memory;
use sky_base::tree::{Expr, Exprs, Step, Sub};
use sky_parse_grammar::parts::{Head, StepHead};
use std::alloc::Global;

/// The last of some expressions.
#[tactic(auto, using(crate::proofs::Wholes::wholes))]
fn last(items: Vec<Expr>) -> (Expr, Vec<Expr>)
    requires { 1 ≤ length items.items }
    ensures { items.items ≡ result.1.items ++ result.0 ∷ [] }
{
    let mut items = items;
    match items.pop() {
        Some(a) => (a, items),
        None => unreachable!(),
    }
}

/// The only one of some expressions.
#[tactic(auto, using(crate::proofs::Wholes::wholes))]
fn only(items: Vec<Expr>) -> Expr
    requires { length items.items ≡ 1 }
    ensures { exps_view items.items ≡ one (exp_view result) }
{
    let (a, _) = last(items);
    a
}

/// One expression, boxed.
fn one_of(alloc: Global, items: Vec<Expr>) -> Result<Sub, Memory>
    requires { length items.items ≡ 1 }
    ensures { IfOk result (λ a. exps_view items.items ≡ one a) }
{
    Sub::new(alloc, only(items))
}

/// Two expressions, boxed.
#[tactic(auto, using(crate::proofs::Wholes::wholes))]
fn two_of(alloc: Global, items: Vec<Expr>) -> Result<(Sub, Sub), Memory>
    requires { length items.items ≡ 2 }
    ensures { IfOk result (λ x. exps_view items.items ≡ two x.0 x.1) }
{
    let (b, items) = last(items);
    let (a, _) = last(items);
    let a = Sub::new(alloc, a)?;
    let b = Sub::new(alloc, b)?;
    Ok((a, b))
}

/// Three expressions, boxed.
#[tactic(auto, using(crate::proofs::Wholes::wholes))]
fn three_of(alloc: Global, items: Vec<Expr>) -> Result<(Sub, Sub, Sub), Memory>
    requires { length items.items ≡ 3 }
    ensures { IfOk result (λ x. exps_view items.items ≡ three x.0 x.1 x.2) }
{
    let (c, items) = last(items);
    let (b, items) = last(items);
    let (a, _) = last(items);
    let a = Sub::new(alloc, a)?;
    let b = Sub::new(alloc, b)?;
    let c = Sub::new(alloc, c)?;
    Ok((a, b, c))
}

/// The form of these parts, which are as many as it takes.
pub fn whole(
    alloc: Global,
    head: Head,
    line: u32,
    col: u32,
    items: Vec<Expr>,
) -> Result<Expr, Memory>
    requires { ready (head_shape head) (length items.items) ≡ true }
    ensures { IfOk result (λ e. exp_view e ≡ formed head (at line col) (exps_view items.items)) }
{
    match head {
        Head::Parens => Ok(Expr::Parens {
            inner: one_of(alloc, items)?,
        }),
        Head::List => Ok(Expr::List {
            items: Exprs::of(items),
            line,
            col,
        }),
        Head::Dict => Ok(Expr::Dict {
            items: Exprs::of(items),
            line,
            col,
        }),
        Head::Spawn => {
            let (fun, args) = two_of(alloc, items)?;
            Ok(Expr::Spawn {
                fun,
                args,
                line,
                col,
            })
        }
        Head::SpawnExec => {
            let (executor, args, outputs) = three_of(alloc, items)?;
            Ok(Expr::SpawnExec {
                executor,
                args,
                outputs,
                line,
                col,
            })
        }
        Head::Exec => {
            let (executor, args, outputs) = three_of(alloc, items)?;
            Ok(Expr::Exec {
                executor,
                args,
                outputs,
                line,
                col,
            })
        }
        Head::Ref => Ok(Expr::Ref {
            key: one_of(alloc, items)?,
            line,
            col,
        }),
        Head::Len => Ok(Expr::Len {
            of: one_of(alloc, items)?,
            line,
            col,
        }),
        Head::Keys => Ok(Expr::Keys {
            of: one_of(alloc, items)?,
            line,
            col,
        }),
        Head::Has => {
            let (dict, key) = two_of(alloc, items)?;
            Ok(Expr::Has {
                dict,
                key,
                line,
                col,
            })
        }
        Head::Range => {
            let (from, to) = two_of(alloc, items)?;
            Ok(Expr::Range {
                from,
                to,
                line,
                col,
            })
        }
    }
}

/// The index or the call of these parts.
pub fn step_of(kind: StepHead, line: u32, col: u32, items: Vec<Expr>) -> Step
    requires { ready (step_shape kind) (length items.items) ≡ true }
    ensures { (more : Steps) → step_view result more ≡ step_formed kind (at line col) (exps_view items.items) more }
{
    match kind {
        StepHead::Index => Step::Index {
            at: only(items),
            line,
            col,
        },
        StepHead::Call => Step::Call {
            args: Exprs::of(items),
            line,
            col,
        },
    }
}
