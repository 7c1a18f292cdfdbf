// Signs and words at the front of the tokens. A token's kind owns its text, so it is looked at through
// a reference, and what is taken of it is a reference too.

ghost use Rattle.std.specs.Prelude.{◌≡◌, ◌∷◌, ◌<◌, List, length, IfOk, IfSome, IfNone, true, false};
ghost use Rattle.sky_parse_grammar.specs.Signs.{sign_code, word_code, is, is_word, at_sign, at_word};
ghost use Rattle.sky_base.specs.TreeView.{at};
ghost use Rattle.sky_parse_grammar.specs.Grammar.{Spelled};
ghost use Rattle.sky_parse_grammar.specs.Machine.{Item, run, kinds};
ghost use Rattle.sky_parse_expr.specs.Runs.{Runs};
ghost use Rattle.sky_parse_grammar.specs.Grammar as g;
ghost use Rattle.sky_text.specs.declared.token.TokenKind.{TokenKind};

use sky_base::text::Txt;
use sky_text::token::{Sign, Token, TokenKind, Word};

/// Why reading stopped: want of memory, or no sentence goes on here, with so many tokens left.
#[derive(Clone, Copy, Debug)]
pub enum Fail {
    Memory,
    Stuck(usize),
}

fn sign_code(sign: Sign) -> u8
    ensures { result ≡ sign_code sign }
{
    match sign {
        Sign::OpenRound => 0,
        Sign::CloseRound => 1,
        Sign::OpenCurly => 2,
        Sign::CloseCurly => 3,
        Sign::OpenSquare => 4,
        Sign::CloseSquare => 5,
        Sign::Comma => 6,
        Sign::Semicolon => 7,
        Sign::Colon => 8,
        Sign::Assign => 9,
        Sign::AddAssign => 10,
        Sign::Plus => 11,
        Sign::Minus => 12,
        Sign::Star => 13,
        Sign::Slash => 14,
        Sign::Percent => 15,
        Sign::Not => 16,
        Sign::Equal => 17,
        Sign::NotEqual => 18,
        Sign::Less => 19,
        Sign::LessEqual => 20,
        Sign::Greater => 21,
        Sign::GreaterEqual => 22,
        Sign::And => 23,
        Sign::Or => 24,
    }
}

fn word_code(word: Word) -> u8
    ensures { result ≡ word_code word }
{
    match word {
        Word::Function => 0,
        Word::Return => 1,
        Word::If => 2,
        Word::Else => 3,
        Word::While => 4,
        Word::Do => 5,
        Word::For => 6,
        Word::In => 7,
        Word::True => 8,
        Word::False => 9,
        Word::Null => 10,
        Word::Spawn => 11,
        Word::SpawnExec => 12,
        Word::Exec => 13,
        Word::Ref => 14,
        Word::Len => 15,
        Word::Keys => 16,
        Word::Has => 17,
        Word::Range => 18,
    }
}

/// Whether the token is this sign.
pub fn is_sign(kind: &TokenKind, sign: Sign) -> bool
    ensures { result ≡ is sign kind.now }
{
    match kind {
        TokenKind::Sign(own) => sign_code(*own) == sign_code(sign),
        TokenKind::Name(_) | TokenKind::Number(_) | TokenKind::Text(_) | TokenKind::Word(_) =>
            false,
    }
}

/// Whether the token is this word.
pub fn is_word(kind: &TokenKind, word: Word) -> bool
    ensures { result ≡ is_word word kind.now }
{
    match kind {
        TokenKind::Word(own) => word_code(*own) == word_code(word),
        TokenKind::Name(_) | TokenKind::Number(_) | TokenKind::Text(_) | TokenKind::Sign(_) =>
            false,
    }
}

/// Whether the sign stands first.
pub fn stands(ts: &[Token], sign: Sign) -> bool
    ensures { result ≡ at_sign sign ts.now }
{
    match ts.split_first() {
        Some((first, _)) => is_sign(&first.kind, sign),
        None => false,
    }
}

/// The sign, if it stands first, and what follows.
pub fn eat(ts: &[Token], sign: Sign) -> Option<(&Token, &[Token])>
    ensures some { IfSome result (λ x. (ts.now ≡ x.0.now ∷ x.1.now) × (is sign x.0.now.kind ≡ true)) }
    ensures none { IfNone result (at_sign sign ts.now ≡ false) }
{
    let (first, rest) = ts.split_first()?;
    if is_sign(&first.kind, sign) {
        Some((first, rest))
    } else {
        None
    }
}

/// The word, if it stands first, and what follows.
pub fn eat_word(ts: &[Token], word: Word) -> Option<(&Token, &[Token])>
    ensures some { IfSome result (λ x. (ts.now ≡ x.0.now ∷ x.1.now) × (is_word word x.0.now.kind ≡ true)) }
    ensures none { IfNone result (at_word word ts.now ≡ false) }
{
    let (first, rest) = ts.split_first()?;
    if is_word(&first.kind, word) {
        Some((first, rest))
    } else {
        None
    }
}

/// What follows the sign, which has to stand first.
#[tactic(auto, using(sky_parse_grammar::proofs::Tokens::tokens, crate::proofs::Moves::signs))]
pub fn want(ts: &[Token], sign: Sign) -> Result<&[Token], Fail>
    ensures read { Runs (λ x. x.now) (λ k. run (Item.sign sign ∷ k) (kinds ts.now)) result }
    ensures spelled { IfOk result (λ x. Spelled (λ more. g.sign sign ∷ more) ts.now x.now) }
    ensures less { IfOk result (λ x. length x.now < length ts.now) }
{
    match eat(ts, sign) {
        Some((_, rest)) => Ok(rest),
        None => Err(Fail::Stuck(ts.len())),
    }
}

/// What follows the word, which has to stand first.
#[tactic(auto, using(sky_parse_grammar::proofs::Tokens::tokens, crate::proofs::Moves::signs))]
pub fn want_word(ts: &[Token], word: Word) -> Result<&[Token], Fail>
    ensures read { Runs (λ x. x.now) (λ k. run (Item.word word ∷ k) (kinds ts.now)) result }
    ensures spelled { IfOk result (λ x. Spelled (λ more. g.word word ∷ more) ts.now x.now) }
    ensures less { IfOk result (λ x. length x.now < length ts.now) }
{
    match eat_word(ts, word) {
        Some((_, rest)) => Ok(rest),
        None => Err(Fail::Stuck(ts.len())),
    }
}

/// A name, which has to stand first: its text, its line and column, and what follows.
pub fn want_name(ts: &[Token]) -> Result<(Txt, u32, u32, &[Token]), Fail>
    ensures read { Runs (λ x. x.3.now) (λ k. run (Item.name ∷ k) (kinds ts.now)) result }
    ensures plain { IfOk result (λ x. Spelled (λ more. g.Mark.plain (TokenKind.Name x.0) ∷ more) ts.now x.3.now) }
    ensures spelled { IfOk result (λ x. Spelled (λ more. g.Mark.placed (TokenKind.Name x.0) (at x.1 x.2) ∷ more) ts.now x.3.now) }
    ensures less { IfOk result (λ x. length x.3.now < length ts.now) }
{
    let Some((first, rest)) = ts.split_first() else {
        return Err(Fail::Stuck(0))
    };
    let TokenKind::Name(name) = &first.kind else {
        return Err(Fail::Stuck(ts.len()))
    };
    match name.share() {
        Ok(name) => Ok((name, first.line, first.col, rest)),
        Err(_) => Err(Fail::Memory),
    }
}
