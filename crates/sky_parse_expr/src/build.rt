// Trees from an operand and what was read behind it. Where nothing was, the operand stands itself.

ghost use Rattle.std.specs.Prelude.{◌≡◌, IfOk};
ghost use Rattle.sky_base.specs.TreeView.{at, exp_view, links_view, ands_view, steps_view, signs_view, order_view};
ghost use Rattle.sky_parse_grammar.specs.Levels.{junction};
ghost use Rattle.sky_parse_expr.specs.Built.{chained, compared, joined, prefixed, stepped};

use sky_base::text::Memory;
use sky_base::tree::{Cmp, Expr, Join, Joins, Link, Links, SignAt, Step, Steps, Sub};
use sky_parse_grammar::level::Level;
use std::alloc::Global;

/// A sum or a product.
#[tactic(auto, using(crate::proofs::Builds::builds))]
pub fn chain(alloc: Global, first: Expr, rest: Vec<Link>) -> Result<Expr, Memory>
    ensures { IfOk result (λ e. exp_view e ≡ chained (exp_view first) (links_view rest.items)) }
{
    if rest.is_empty() {
        return Ok(first);
    }
    let first = Sub::new(alloc, first)?;
    Ok(Expr::Chain {
        first,
        rest: Links::of(rest),
    })
}

/// A comparison.
pub fn compare(
    alloc: Global,
    left: Expr,
    how: Cmp,
    line: u32,
    col: u32,
    right: Expr,
) -> Result<Expr, Memory>
    ensures { IfOk result (λ e. exp_view e ≡ compared (exp_view left) (order_view how) (at line col) (exp_view right)) }
{
    let left = Sub::new(alloc, left)?;
    let right = Sub::new(alloc, right)?;
    Ok(Expr::Compare {
        left,
        how,
        line,
        col,
        right,
    })
}

/// A chain of `&&`, or of `||` at another level.
#[tactic(auto, using(crate::proofs::Builds::builds))]
pub fn logic(alloc: Global, level: Level, first: Expr, rest: Vec<Join>) -> Result<Expr, Memory>
    ensures { IfOk result (λ e. exp_view e ≡ joined (junction level) (exp_view first) (ands_view rest.items)) }
{
    if rest.is_empty() {
        return Ok(first);
    }
    let first = Sub::new(alloc, first)?;
    let rest = Joins::of(rest);
    match level {
        Level::Both => Ok(Expr::And { first, rest }),
        Level::Either | Level::Comparison | Level::Sum | Level::Product | Level::Prefix => {
            Ok(Expr::Or { first, rest })
        }
    }
}

/// An operand with the signs in front of it.
#[tactic(auto, using(crate::proofs::Builds::builds))]
pub fn prefix(alloc: Global, signs: Vec<SignAt>, operand: Expr) -> Result<Expr, Memory>
    ensures { IfOk result (λ e. exp_view e ≡ prefixed (signs_view signs.items) (exp_view operand)) }
{
    if signs.is_empty() {
        return Ok(operand);
    }
    let operand = Sub::new(alloc, operand)?;
    Ok(Expr::Prefix { signs, operand })
}

/// A primary with its indices and calls.
#[tactic(auto, using(crate::proofs::Builds::builds))]
pub fn postfix(alloc: Global, first: Expr, rest: Vec<Step>) -> Result<Expr, Memory>
    ensures { IfOk result (λ e. exp_view e ≡ stepped (exp_view first) (steps_view rest.items)) }
{
    if rest.is_empty() {
        return Ok(first);
    }
    let first = Sub::new(alloc, first)?;
    Ok(Expr::Postfix {
        first,
        rest: Steps::of(rest),
    })
}
