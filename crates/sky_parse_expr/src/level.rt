// The operators of chains, each with the level of its chain.

ghost use Rattle.std.specs.Prelude.{◌≡◌, ◌∷◌, ◌≤◌, IfSome, IfNone, true, false};
ghost use Rattle.sky_parse_grammar.specs.Levels.{oper_level};
ghost use Rattle.sky_base.specs.TreeView.{arith_view, order_view};
ghost use Rattle.sky_parse_grammar.specs.Signs.{is};
ghost use Rattle.sky_parse_grammar.specs.Grammar.{oper_sign, order_sign};
ghost use Rattle.sky_parse_grammar.specs.Levels.{rank, at_oper, at_order};
ghost use Rattle.sky_parse_grammar.specs.declared.level.Level.{Level};

use crate::look::eat;
use sky_base::tree::{ArithOp, Cmp};
use sky_parse_grammar::level::Level;
use sky_text::token::{Sign, Token};

/// An operator of a product, if one stands first, and what follows.
fn product_op(ts: &[Token]) -> Option<(ArithOp, &Token, &[Token])>
    ensures some { IfSome result (λ x. (ts.now ≡ x.1.now ∷ x.2.now) × (is (oper_sign (arith_view x.0)) x.1.now.kind ≡ true)
        × (oper_level (arith_view x.0) ≡ 4)) }
    ensures none { IfNone result (at_oper Level.Product ts.now ≡ false) }
{
    if let Some((sign, rest)) = eat(ts, Sign::Star) {
        return Some((ArithOp::Times, sign, rest));
    }
    if let Some((sign, rest)) = eat(ts, Sign::Slash) {
        return Some((ArithOp::Over, sign, rest));
    }
    let (sign, rest) = eat(ts, Sign::Percent)?;
    Some((ArithOp::Rest, sign, rest))
}

/// An operator of a sum, if one stands first, and what follows.
fn sum_op(ts: &[Token]) -> Option<(ArithOp, &Token, &[Token])>
    ensures some { IfSome result (λ x. (ts.now ≡ x.1.now ∷ x.2.now) × (is (oper_sign (arith_view x.0)) x.1.now.kind ≡ true)
        × (oper_level (arith_view x.0) ≡ 3)) }
    ensures none { IfNone result (at_oper Level.Sum ts.now ≡ false) }
{
    if let Some((sign, rest)) = eat(ts, Sign::Plus) {
        return Some((ArithOp::Plus, sign, rest));
    }
    let (sign, rest) = eat(ts, Sign::Minus)?;
    Some((ArithOp::Minus, sign, rest))
}

/// An operator of a sum or of a product, if one stands first, and what follows.
pub fn arith_op(ts: &[Token], level: Level) -> Option<(ArithOp, &Token, &[Token])>
    requires { (3 ≤ rank level) × (rank level ≤ 4) }
    ensures some { IfSome result (λ x. (ts.now ≡ x.1.now ∷ x.2.now) × (is (oper_sign (arith_view x.0)) x.1.now.kind ≡ true)
        × (oper_level (arith_view x.0) ≡ rank level)) }
    ensures none { IfNone result (at_oper level ts.now ≡ false) }
{
    match level {
        Level::Sum => sum_op(ts),
        Level::Product => product_op(ts),
        Level::Either | Level::Both | Level::Comparison | Level::Prefix => None,
    }
}

/// A comparison that leaves out equality, if one stands first, and what follows.
fn order_op(ts: &[Token]) -> Option<(Cmp, &Token, &[Token])>
    ensures some { IfSome result (λ x. (ts.now ≡ x.1.now ∷ x.2.now) × (is (order_sign (order_view x.0)) x.1.now.kind ≡ true)) }
    ensures none { IfNone result (at_order ts.now ≡ false) }
{
    if let Some((sign, rest)) = eat(ts, Sign::Less) {
        return Some((Cmp::Lt, sign, rest));
    }
    if let Some((sign, rest)) = eat(ts, Sign::LessEqual) {
        return Some((Cmp::Le, sign, rest));
    }
    if let Some((sign, rest)) = eat(ts, Sign::Greater) {
        return Some((Cmp::Gt, sign, rest));
    }
    let (sign, rest) = eat(ts, Sign::GreaterEqual)?;
    Some((Cmp::Ge, sign, rest))
}

/// A comparison, if one stands first, and what follows.
pub fn compare_op(ts: &[Token]) -> Option<(Cmp, &Token, &[Token])>
    ensures some { IfSome result (λ x. (ts.now ≡ x.1.now ∷ x.2.now) × (is (order_sign (order_view x.0)) x.1.now.kind ≡ true)) }
    ensures none { IfNone result (at_oper Level.Comparison ts.now ≡ false) }
{
    if let Some((sign, rest)) = eat(ts, Sign::Equal) {
        return Some((Cmp::Eq, sign, rest));
    }
    if let Some((sign, rest)) = eat(ts, Sign::NotEqual) {
        return Some((Cmp::Ne, sign, rest));
    }
    order_op(ts)
}
