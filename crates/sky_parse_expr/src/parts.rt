// The parts of a form with brackets, up to the sign that closes them.

ghost use Rattle.std.specs.Prelude.{◌≡◌, ◌<◌, ◌∷◌, suc, List, length, true, false, IfOk, IfSome, IfNone};
ghost use Rattle.sky_parse_grammar.specs.Source.{Exps};
ghost use Rattle.sky_parse_grammar.specs.Signs.{is};
ghost use Rattle.sky_parse_grammar.specs.Parts.{Has, spell_parts, separator, ready, closing};
ghost use Rattle.sky_parse_grammar.specs.Grammar.{Spelled};
ghost use Rattle.sky_parse_grammar.specs.Machine.{Item, run, kinds};
ghost use Rattle.sky_parse_expr.specs.Runs.{Runs, Takes, at_next};
ghost use Rattle.sky_parse_grammar.specs.declared.level.Level.{Level};
ghost use Rattle.sky_parse_grammar.specs.Grammar as g;

use crate::look::{Fail, eat, want};
use sky_parse_grammar::parts::Shape;
use sky_text::token::{Sign, Token};

/// What follows the brackets, if they may be empty and are.
#[tactic(auto, using(crate::proofs::Moves::shapes))]
pub fn empty(shape: Shape, ts: &[Token]) -> Option<&[Token]>
    ensures read { Takes (λ x k. run k (kinds x.now)) (λ k. run (Item.level Level.Either ∷ Item.others shape 1 ∷ k) (kinds ts.now))
        (λ k. run (Item.parts shape ∷ k) (kinds ts.now)) result }
    ensures some { IfSome result (λ x. Has shape Exps.no_exps × Spelled (spell_parts shape Exps.no_exps) ts.now x.now) }
    ensures less { IfSome result (λ x. length x.now < length ts.now) }
{
    match shape {
        Shape::Many(sign) => {
            let (_, rest) = eat(ts, sign)?;
            Some(rest)
        }
        Shape::Pairs => {
            let (_, rest) = eat(ts, Sign::CloseCurly)?;
            Some(rest)
        }
        Shape::Fixed(_, _) => None,
    }
}

/// The sign behind so many parts, if one more follows, and what follows the sign.
#[tactic(auto, using(crate::proofs::Moves::shapes, crate::proofs::Moves::others_goes))]
pub fn again(shape: Shape, count: usize, ts: &[Token]) -> Option<(&Token, &[Token])>
    ensures some { IfSome result (λ x. (ts.now ≡ x.0.now ∷ x.1.now) × (is (separator shape count) x.0.now.kind ≡ true)) }
    ensures read { IfSome result (λ x. (k : List Item) → run (Item.others shape count ∷ k) (kinds ts.now)
        ≡ run (Item.level Level.Either ∷ Item.others shape (suc count) ∷ k) (kinds x.1.now)) }
    ensures none { IfNone result (at_next shape count ts.now ≡ false) }
{
    if shape.full(count) {
        return None;
    }
    eat(ts, shape.separator(count))
}

/// What follows the closing sign, which has to stand behind so many parts.
#[tactic(auto, using(crate::proofs::Moves::shapes))]
pub fn close(shape: Shape, count: usize, ts: &[Token]) -> Result<&[Token], Fail>
    ensures read { at_next shape count ts.now ≡ false → Runs (λ x. x.now) (λ k. run (Item.others shape count ∷ k) (kinds ts.now)) result }
    ensures ready { IfOk result (λ x. ready shape count ≡ true) }
    ensures spelled { IfOk result (λ x. Spelled (λ more. g.sign (closing shape) ∷ more) ts.now x.now) }
    ensures less { IfOk result (λ x. length x.now < length ts.now) }
{
    if !shape.ready(count) {
        return Err(Fail::Stuck(ts.len()));
    }
    want(ts, shape.closing())
}
