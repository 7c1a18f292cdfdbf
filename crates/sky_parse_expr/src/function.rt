// Parameters, and anonymous functions.

ghost use Rattle.std.specs.Prelude.{◌≡◌, ◌<◌, ◌∷◌, [], List, length, IfOk};
ghost use Rattle.sky_base.specs.Tree.{func};
ghost use Rattle.sky_base.specs.TreeView.{at};
ghost use Rattle.sky_parse_grammar.specs.Grammar.{Fits, Spelled, spell_params, word_at};
ghost use Rattle.sky_parse_grammar.specs.Grammar as g;
ghost use Rattle.sky_parse_grammar.specs.Machine.{Item, run, kinds};
ghost use Rattle.sky_parse_held.specs.Held.{Held};
ghost use Rattle.sky_parse_expr.specs.Reads.{ReadsExp};
ghost use Rattle.sky_parse_expr.specs.Bodies.{CanRead, ReadsBodies};
ghost use Rattle.sky_parse_expr.specs.Runs.{Runs};
ghost use Rattle.sky_parse_held.specs.Params.{params_view};
ghost use Rattle.sky_text.specs.declared.token.Token.{Token};
ghost use Rattle.sky_text.specs.declared.token.Word.{Word};

use crate::look::{Fail, eat, want, want_name};
use sky_base::stmt::Block;
use sky_base::text::Txt;
use sky_parse_held::made::{Made, Parameter};
use sky_text::token::{Sign, Token};
use std::alloc::Global;

/// The parameters of a function and the sign that closes them.
pub fn params(alloc: Global, ts: &[Token]) -> Result<(Vec<Parameter>, &[Token]), Fail>
    ensures read { Runs (λ x. x.1.now) (λ k. run (Item.params ∷ k) (kinds ts.now)) result }
    ensures tree { IfOk result (λ x. Spelled (λ more. spell_params (params_view x.0.items) (g.sign Sign.CloseRound ∷ more)) ts.now x.1.now) }
    ensures less { IfOk result (λ x. length x.1.now < length ts.now) }
{
    let mut items = Vec::new(alloc);
    if let Some((_, rest)) = eat(ts, Sign::CloseRound) {
        return Ok((items, rest));
    }
    let (name, line, col, mut rest) = want_name(ts)?;
    let Ok(()) = items.push(Parameter { name, line, col }) else {
        return Err(Fail::Memory)
    };
    while let Some((_, after)) = eat(rest, Sign::Comma) {
        let (name, line, col, after) = want_name(after)?;
        let Ok(()) = items.push(Parameter { name, line, col }) else {
            return Err(Fail::Memory)
        };
        rest = after;
    }
    let rest = want(rest, Sign::CloseRound)?;
    Ok((items, rest))
}

/// What stands behind the word of an anonymous function, which is at this line and column; the function's
/// name.
pub fn function<'a, F: for<'b> Fn(&mut Made, &'b [Token]) -> Result<(Block, &'b [Token]), Fail>>(
    alloc: Global,
    body: &F,
    made: &mut Made,
    line: u32,
    col: u32,
    ts: &'a [Token],
) -> Result<(Txt, &'a [Token]), Fail>
    requires can { CanRead (F.pre body.now) (length ts.now) }
    requires bodies { ReadsBodies (F.post body.now) }
    ensures read { Runs (λ x. x.1.now) (λ k. run (Item.sign Sign.OpenRound ∷ Item.params ∷ Item.block ∷ k) (kinds ts.now)) result }
    ensures tree { IfOk result (λ x. (t : Token) → Fits (word_at Word.Function (at line col)) t
        → ReadsExp 7 (func x.0 (at line col)) made.old made.new (t ∷ ts.now) x.1.now) }
    ensures less { IfOk result (λ x. length x.1.now < length ts.now) }
{
    let rest = want(ts, Sign::OpenRound)?;
    let (params, rest) = params(alloc, rest)?;
    let Ok((number, from, name)) = made.open(alloc, line, col, &params) else {
        return Err(Fail::Memory)
    };
    let (block, rest) = body(made, rest)?;
    match made.close(alloc, number, from, block) {
        Ok(()) => Ok((name, rest)),
        Err(_) => Err(Fail::Memory),
    }
}
