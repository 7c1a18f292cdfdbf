// Expressions. The functions call each other only where a bracket opens; operators, signs, steps and
// parts are read in loops. So the depth of the stack is bounded by the brackets. The body of an anonymous
// function is a block, which stands a layer above: what reads it is handed in.

ghost use Rattle.std.specs.Prelude.{◌≡◌, ◌<◌, ◌≤◌, ◌+◌, ◌∷◌, List, true, false, length, IfOk, IfSome, IfNone};
ghost use Rattle.sky_base.specs.TreeView.{exp_view, exps_view, links_view, ands_view, steps_view, signs_view, sign_view};
ghost use Rattle.sky_parse_grammar.specs.Signs.{is, at_sign};
ghost use Rattle.sky_parse_grammar.specs.Levels.{rank, junction};
ghost use Rattle.sky_parse_grammar.specs.Parts.{ready};
ghost use Rattle.sky_parse_grammar.specs.Machine.{Item, tails, run, kinds};
ghost use Rattle.sky_parse_grammar.specs.Grammar.{Spelled, spell_signs, prefix_sign};
ghost use Rattle.sky_parse_grammar.specs.declared.level.Level.{Level};
ghost use Rattle.sky_parse_held.specs.Held.{Held};
ghost use Rattle.sky_parse_expr.specs.Reads.{Onto, Onward, ReadsAnds, ReadsExp, ReadsLinks, ReadsParts, ReadsSteps};
ghost use Rattle.sky_parse_expr.specs.Bodies.{CanRead, ReadsBodies};
ghost use Rattle.sky_parse_expr.specs.Runs.{Runs, Goes};
ghost use Rattle.sky_text.specs.declared.token.Token.{Token};

use crate::begin::{Opening, begin_step, start};
use crate::build::{chain, compare, logic, postfix, prefix};
use crate::function::function;
use crate::level::{arith_op, compare_op};
use crate::look::{Fail, eat};
use crate::parts::{again, close, empty};
use crate::whole::{step_of, whole};
use sky_base::stmt::Block;
use sky_base::tree::{Expr, Join, Link, SignAt, SignOp, Step};
use sky_parse_grammar::level::Level;
use sky_parse_grammar::parts::Shape;
use sky_parse_held::made::Made;
use sky_text::token::{Sign, Token};
use std::alloc::Global;

/// An expression at the front.
pub fn expr<'a, F: for<'b> Fn(&mut Made, &'b [Token]) -> Result<(Block, &'b [Token]), Fail>>(
    alloc: Global,
    body: &F,
    made: &mut Made,
    ts: &'a [Token],
) -> Result<(Expr, &'a [Token]), Fail>
    requires can { CanRead (F.pre body.now) (length ts.now) }
    requires bodies { ReadsBodies (F.post body.now) }
    ensures read { Runs (λ x. x.1.now) (λ k. run (Item.level Level.Either ∷ k) (kinds ts.now)) result }
    ensures tree { IfOk result (λ x. ReadsExp 0 (exp_view x.0) made.old made.new ts.now x.1.now) }
    ensures less { IfOk result (λ x. length x.1.now < length ts.now) }
{
    at_level(alloc, body, made, Level::Either, ts)
}

/// An expression of a level or of a tighter one.
#[cycle(expr)]
fn at_level<'a, F: for<'b> Fn(&mut Made, &'b [Token]) -> Result<(Block, &'b [Token]), Fail>>(
    alloc: Global,
    body: &F,
    made: &mut Made,
    level: Level,
    ts: &'a [Token],
) -> Result<(Expr, &'a [Token]), Fail>
    requires can { CanRead (F.pre body.now) (length ts.now) }
    requires bodies { ReadsBodies (F.post body.now) }
    ensures read { Runs (λ x. x.1.now) (λ k. run (Item.level level ∷ k) (kinds ts.now)) result }
    ensures tree { IfOk result (λ x. ReadsExp (rank level) (exp_view x.0) made.old made.new ts.now x.1.now) }
    ensures less { IfOk result (λ x. length x.1.now < length ts.now) }
{
    let (first, rest) = operand(alloc, body, made, ts)?;
    onward(alloc, body, made, level, first, rest)
}

/// An expression that begins with this operand: its chains, from the tightest to those of the level.
#[cycle(expr)]
#[tactic(auto, using(crate::proofs::LevelsLaw::ranks))]
pub fn onward<'a, F: for<'b> Fn(&mut Made, &'b [Token]) -> Result<(Block, &'b [Token]), Fail>>(
    alloc: Global,
    body: &F,
    made: &mut Made,
    level: Level,
    first: Expr,
    ts: &'a [Token],
) -> Result<(Expr, &'a [Token]), Fail>
    requires can { CanRead (F.pre body.now) (length ts.now) }
    requires bodies { ReadsBodies (F.post body.now) }
    ensures read { Runs (λ x. x.1.now) (λ k. run (tails level k) (kinds ts.now)) result }
    ensures tree { IfOk result (λ x. Onward 5 (rank level) (exp_view first) (exp_view x.0) made.old made.new ts.now x.1.now) }
    ensures less { IfOk result (λ x. length x.1.now ≤ length ts.now) }
{
    let Some(inner) = level.tighter() else {
        return Ok((first, ts))
    };
    let (first, rest) = onward(alloc, body, made, inner, first, ts)?;
    tail(alloc, body, made, level, inner, first, rest)
}

/// The chain of a level that begins with this operand, or the operand alone.
#[cycle(expr)]
fn tail<'a, F: for<'b> Fn(&mut Made, &'b [Token]) -> Result<(Block, &'b [Token]), Fail>>(
    alloc: Global,
    body: &F,
    made: &mut Made,
    level: Level,
    inner: Level,
    first: Expr,
    ts: &'a [Token],
) -> Result<(Expr, &'a [Token]), Fail>
    requires can { CanRead (F.pre body.now) (length ts.now) }
    requires bodies { ReadsBodies (F.post body.now) }
    requires tighter { rank inner ≡ rank level + 1 }
    ensures read { Runs (λ x. x.1.now) (λ k. run (Item.tail level ∷ k) (kinds ts.now)) result }
    ensures tree { IfOk result (λ x. Onward (rank inner) (rank level) (exp_view first) (exp_view x.0) made.old made.new ts.now x.1.now) }
    ensures less { IfOk result (λ x. length x.1.now ≤ length ts.now) }
{
    match level {
        Level::Sum | Level::Product => {
            let (links, rest) = links(alloc, body, made, level, inner, ts)?;
            match chain(alloc, first, links) {
                Ok(whole) => Ok((whole, rest)),
                Err(_) => Err(Fail::Memory),
            }
        }
        Level::Either | Level::Both => {
            let (joins, rest) = joins(alloc, body, made, level, inner, ts)?;
            match logic(alloc, level, first, joins) {
                Ok(whole) => Ok((whole, rest)),
                Err(_) => Err(Fail::Memory),
            }
        }
        Level::Comparison => {
            let Some((how, sign, rest)) = compare_op(ts) else {
                return Ok((first, ts))
            };
            let (right, rest) = at_level(alloc, body, made, inner, rest)?;
            match compare(alloc, first, how, sign.line, sign.col, right) {
                Ok(whole) => Ok((whole, rest)),
                Err(_) => Err(Fail::Memory),
            }
        }
        Level::Prefix => Ok((first, ts)),
    }
}

/// The operators of a sum or of a product, each with its right operand.
#[cycle(expr)]
fn links<'a, F: for<'b> Fn(&mut Made, &'b [Token]) -> Result<(Block, &'b [Token]), Fail>>(
    alloc: Global,
    body: &F,
    made: &mut Made,
    level: Level,
    inner: Level,
    ts: &'a [Token],
) -> Result<(Vec<Link>, &'a [Token]), Fail>
    requires can { CanRead (F.pre body.now) (length ts.now) }
    requires bodies { ReadsBodies (F.post body.now) }
    requires tighter { rank inner ≡ rank level + 1 }
    requires arithmetic { (3 ≤ rank level) × (rank level ≤ 4) }
    ensures read { Runs (λ x. x.1.now) (λ k. run (Item.tail level ∷ k) (kinds ts.now)) result }
    ensures tree { IfOk result (λ x. ReadsLinks (rank level) (links_view x.0.items) made.old made.new ts.now x.1.now) }
    ensures less { IfOk result (λ x. length x.1.now ≤ length ts.now) }
{
    let mut items = Vec::new(alloc);
    let mut rest = ts;
    while let Some((op, sign, after)) = arith_op(rest, level) {
        let Ok(()) = items.reserve(1) else {
            return Err(Fail::Memory)
        };
        let (operand, after) = at_level(alloc, body, made, inner, after)?;
        items.push_reserved(Link {
            op,
            line: sign.line,
            col: sign.col,
            operand,
        });
        rest = after;
    }
    Ok((items, rest))
}

/// The operators of a chain of `&&` or of `||`, each with its right operand.
#[cycle(expr)]
fn joins<'a, F: for<'b> Fn(&mut Made, &'b [Token]) -> Result<(Block, &'b [Token]), Fail>>(
    alloc: Global,
    body: &F,
    made: &mut Made,
    level: Level,
    inner: Level,
    ts: &'a [Token],
) -> Result<(Vec<Join>, &'a [Token]), Fail>
    requires can { CanRead (F.pre body.now) (length ts.now) }
    requires bodies { ReadsBodies (F.post body.now) }
    requires tighter { rank inner ≡ rank level + 1 }
    requires of_truth { rank level ≤ 1 }
    ensures read { Runs (λ x. x.1.now) (λ k. run (Item.tail level ∷ k) (kinds ts.now)) result }
    ensures tree { IfOk result (λ x. ReadsAnds (junction level) (ands_view x.0.items) made.old made.new ts.now x.1.now) }
    ensures less { IfOk result (λ x. length x.1.now ≤ length ts.now) }
{
    let mut items = Vec::new(alloc);
    let mut rest = ts;
    while let Some((sign, after)) = eat(rest, level.join_sign()) {
        let Ok(()) = items.reserve(1) else {
            return Err(Fail::Memory)
        };
        let (operand, after) = at_level(alloc, body, made, inner, after)?;
        items.push_reserved(Join {
            line: sign.line,
            col: sign.col,
            operand,
        });
        rest = after;
    }
    Ok((items, rest))
}

/// A sign of a prefix, if one stands first, and what follows.
fn sign_op(ts: &[Token]) -> Option<(SignOp, &Token, &[Token])>
    ensures some { IfSome result (λ x. (ts.now ≡ x.1.now ∷ x.2.now) × (is (prefix_sign (sign_view x.0)) x.1.now.kind ≡ true)) }
    ensures none { IfNone result ((at_sign Sign.Not ts.now ≡ false) × (at_sign Sign.Minus ts.now ≡ false) × (at_sign Sign.Star ts.now ≡ false)) }
{
    if let Some((sign, rest)) = eat(ts, Sign::Not) {
        return Some((SignOp::Not, sign, rest));
    }
    if let Some((sign, rest)) = eat(ts, Sign::Minus) {
        return Some((SignOp::Minus, sign, rest));
    }
    let (sign, rest) = eat(ts, Sign::Star)?;
    Some((SignOp::Star, sign, rest))
}

/// The signs of a prefix.
fn signs(alloc: Global, ts: &[Token]) -> Result<(Vec<SignAt>, &[Token]), Fail>
    ensures read { Goes (λ x k. run (Item.stepped ∷ k) (kinds x.1.now)) (λ k. run (Item.level Level.Prefix ∷ k) (kinds ts.now)) result }
    ensures spelled { IfOk result (λ x. Spelled (spell_signs (signs_view x.0.items)) ts.now x.1.now) }
    ensures less { IfOk result (λ x. length x.1.now ≤ length ts.now) }
{
    let mut items = Vec::new(alloc);
    let mut rest = ts;
    while let Some((op, sign, after)) = sign_op(rest) {
        let Ok(()) = items.push(SignAt {
            sign: op,
            line: sign.line,
            col: sign.col,
        }) else {
            return Err(Fail::Memory)
        };
        rest = after;
    }
    Ok((items, rest))
}

/// An operand of a product: signs, a primary, and its indices and calls.
#[cycle(expr)]
fn operand<'a, F: for<'b> Fn(&mut Made, &'b [Token]) -> Result<(Block, &'b [Token]), Fail>>(
    alloc: Global,
    body: &F,
    made: &mut Made,
    ts: &'a [Token],
) -> Result<(Expr, &'a [Token]), Fail>
    requires can { CanRead (F.pre body.now) (length ts.now) }
    requires bodies { ReadsBodies (F.post body.now) }
    ensures read { Runs (λ x. x.1.now) (λ k. run (Item.level Level.Prefix ∷ k) (kinds ts.now)) result }
    ensures tree { IfOk result (λ x. ReadsExp 5 (exp_view x.0) made.old made.new ts.now x.1.now) }
    ensures less { IfOk result (λ x. length x.1.now < length ts.now) }
{
    let (signs, rest) = signs(alloc, ts)?;
    let (first, rest) = primary(alloc, body, made, rest)?;
    let (steps, rest) = steps(alloc, body, made, Vec::new(alloc), rest)?;
    let Ok(operand) = postfix(alloc, first, steps) else {
        return Err(Fail::Memory)
    };
    match prefix(alloc, signs, operand) {
        Ok(whole) => Ok((whole, rest)),
        Err(_) => Err(Fail::Memory),
    }
}

/// The indices and calls after an expression, behind those that were read.
#[cycle(expr)]
pub fn steps<'a, F: for<'b> Fn(&mut Made, &'b [Token]) -> Result<(Block, &'b [Token]), Fail>>(
    alloc: Global,
    body: &F,
    made: &mut Made,
    read: Vec<Step>,
    ts: &'a [Token],
) -> Result<(Vec<Step>, &'a [Token]), Fail>
    requires can { CanRead (F.pre body.now) (length ts.now) }
    requires bodies { ReadsBodies (F.post body.now) }
    ensures read { Runs (λ x. x.1.now) (λ k. run (Item.steps ∷ k) (kinds ts.now)) result }
    ensures tree { IfOk result (λ x. (h : Held) (from : List Token)
        → Onto (λ ys. ReadsSteps (steps_view ys)) read.items h made.old from ts.now → Onto (λ ys. ReadsSteps (steps_view ys)) x.0.items h made.new from x.1.now) }
    ensures less { IfOk result (λ x. length x.1.now ≤ length ts.now) }
{
    let mut items = read;
    let mut rest = ts;
    while let Some((kind, sign, after)) = begin_step(rest) {
        let Ok(()) = items.reserve(1) else {
            return Err(Fail::Memory)
        };
        let (found, after) = parts(alloc, body, made, kind.shape(), after)?;
        items.push_reserved(step_of(kind, sign.line, sign.col, found));
        rest = after;
    }
    Ok((items, rest))
}

/// An expression that is no chain, no prefix and no postfix.
#[cycle(expr)]
fn primary<'a, F: for<'b> Fn(&mut Made, &'b [Token]) -> Result<(Block, &'b [Token]), Fail>>(
    alloc: Global,
    body: &F,
    made: &mut Made,
    ts: &'a [Token],
) -> Result<(Expr, &'a [Token]), Fail>
    requires can { CanRead (F.pre body.now) (length ts.now) }
    requires bodies { ReadsBodies (F.post body.now) }
    ensures read { Runs (λ x. x.1.now) (λ k. run (Item.primary ∷ k) (kinds ts.now)) result }
    ensures tree { IfOk result (λ x. ReadsExp 7 (exp_view x.0) made.old made.new ts.now x.1.now) }
    ensures less { IfOk result (λ x. length x.1.now < length ts.now) }
{
    let (opening, rest) = start(made, ts)?;
    match opening {
        Opening::Leaf(e) => Ok((e, rest)),
        Opening::Open(head, line, col) => {
            let (items, rest) = parts(alloc, body, made, head.shape(), rest)?;
            match whole(alloc, head, line, col, items) {
                Ok(e) => Ok((e, rest)),
                Err(_) => Err(Fail::Memory),
            }
        }
        Opening::Function(line, col) => {
            let (name, rest) = function(alloc, body, made, line, col, rest)?;
            Ok((Expr::Function { name, line, col }, rest))
        }
    }
}

/// The parts of a form, behind its opening bracket, and the sign that closes them.
#[cycle(expr)]
fn parts<'a, F: for<'b> Fn(&mut Made, &'b [Token]) -> Result<(Block, &'b [Token]), Fail>>(
    alloc: Global,
    body: &F,
    made: &mut Made,
    shape: Shape,
    ts: &'a [Token],
) -> Result<(Vec<Expr>, &'a [Token]), Fail>
    requires can { CanRead (F.pre body.now) (length ts.now) }
    requires bodies { ReadsBodies (F.post body.now) }
    ensures read { Runs (λ x. x.1.now) (λ k. run (Item.parts shape ∷ k) (kinds ts.now)) result }
    ensures tree { IfOk result (λ x. ReadsParts shape (exps_view x.0.items) made.old made.new ts.now x.1.now) }
    ensures ready { IfOk result (λ x. ready shape (length x.0.items) ≡ true) }
    ensures less { IfOk result (λ x. length x.1.now < length ts.now) }
{
    let mut items = Vec::new(alloc);
    if let Some(rest) = empty(shape, ts) {
        return Ok((items, rest));
    }
    let Ok(()) = items.reserve(1) else {
        return Err(Fail::Memory)
    };
    let (first, mut rest) = at_level(alloc, body, made, Level::Either, ts)?;
    items.push_reserved(first);
    while let Some((_, after)) = again(shape, items.len(), rest) {
        let Ok(()) = items.reserve(1) else {
            return Err(Fail::Memory)
        };
        let (item, after) = at_level(alloc, body, made, Level::Either, after)?;
        items.push_reserved(item);
        rest = after;
    }
    let rest = close(shape, items.len(), rest)?;
    Ok((items, rest))
}
