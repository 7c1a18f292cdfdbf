// How a primary and a step begin: the token or tokens in front of the first part.

ghost use Rattle.std.specs.Prelude.{◌≡◌, ◌<◌, ◌≤◌, ◌∷◌, [], List, true, false, length, IfOk, IfSome, IfNone};
ghost use Rattle.sky_base.specs.Tree.{Place};
ghost use Rattle.sky_base.specs.TreeView.{at, exp_view, lit_view};
ghost use Rattle.sky_parse_grammar.specs.Signs.{is, at_sign};
ghost use Rattle.sky_parse_grammar.specs.Machine.{Item, run, kinds, is_literal, word_head, sign_head};
ghost use Rattle.sky_parse_expr.specs.Runs.{Goes, behind};
ghost use Rattle.sky_parse_grammar.specs.Parts.{spell_head, step_sign};
ghost use Rattle.sky_parse_held.specs.Held.{Held};
ghost use Rattle.sky_parse_expr.specs.Begun.{Begun};
ghost use Rattle.sky_parse_grammar.specs.Grammar.{Mark, Fits, Spelled, lit_kind};
ghost use Rattle.sky_parse_grammar.specs.Grammar as g;
ghost use Rattle.sky_text.specs.declared.token.Token.{Token};
ghost use Rattle.sky_text.specs.declared.token.TokenKind.{TokenKind};

use crate::look::{Fail, eat, want};
use sky_base::tree::{Expr, Lit};
use sky_parse_grammar::parts::{Head, StepHead};
use sky_parse_held::made::Made;
use sky_text::token::{Sign, Token, TokenKind, Word};

/// How a primary begins.
#[derive(Drop)]
pub enum Opening {
    /// It is this one token.
    Leaf(Expr),
    /// It is this form, at this line and column, and its parts follow.
    Open(Head, u32, u32),
    /// It is an anonymous function, whose word stands at this line and column.
    Function(u32, u32),
}

/// The literal that is a word.
fn literal(word: Word) -> Option<Lit>
    ensures some { IfSome result (λ v. (is_literal word ≡ true) × (lit_kind (lit_view v) ≡ TokenKind.Word word)) }
    ensures none { IfNone result (is_literal word ≡ false) }
{
    match word {
        Word::True => Some(Lit::Bool(true)),
        Word::False => Some(Lit::Bool(false)),
        Word::Null => Some(Lit::Null),
        Word::Function
        | Word::Return
        | Word::If
        | Word::Else
        | Word::While
        | Word::Do
        | Word::For
        | Word::In
        | Word::Spawn
        | Word::SpawnExec
        | Word::Exec
        | Word::Ref
        | Word::Len
        | Word::Keys
        | Word::Has
        | Word::Range => None,
    }
}

/// The form that begins with a word.
fn word_head(word: Word) -> Option<Head>
    ensures exact { result ≡ word_head word }
    ensures some { IfSome result (λ h. (p : Place) (more : List Mark) → spell_head h p more ≡ g.word_at word p ∷ g.sign Sign.OpenRound ∷ more) }
{
    match word {
        Word::Spawn => Some(Head::Spawn),
        Word::SpawnExec => Some(Head::SpawnExec),
        Word::Exec => Some(Head::Exec),
        Word::Ref => Some(Head::Ref),
        Word::Len => Some(Head::Len),
        Word::Keys => Some(Head::Keys),
        Word::Has => Some(Head::Has),
        Word::Range => Some(Head::Range),
        Word::Function
        | Word::Return
        | Word::If
        | Word::Else
        | Word::While
        | Word::Do
        | Word::For
        | Word::In
        | Word::True
        | Word::False
        | Word::Null => None,
    }
}

/// The form that begins with a sign.
fn sign_head(sign: Sign) -> Option<Head>
    ensures { result ≡ sign_head sign }
{
    match sign {
        Sign::OpenRound => Some(Head::Parens),
        Sign::OpenSquare => Some(Head::List),
        Sign::OpenCurly => Some(Head::Dict),
        Sign::CloseRound
        | Sign::CloseCurly
        | Sign::CloseSquare
        | Sign::Comma
        | Sign::Semicolon
        | Sign::Colon
        | Sign::Assign
        | Sign::AddAssign
        | Sign::Plus
        | Sign::Minus
        | Sign::Star
        | Sign::Slash
        | Sign::Percent
        | Sign::Not
        | Sign::Equal
        | Sign::NotEqual
        | Sign::Less
        | Sign::LessEqual
        | Sign::Greater
        | Sign::GreaterEqual
        | Sign::And
        | Sign::Or => None,
    }
}

/// What begins with a word, behind it.
fn begin_word(word: Word, line: u32, col: u32, ts: &[Token]) -> Result<(Opening, &[Token]), Fail>
    ensures read { Goes (λ x k. run (behind x.0 k) (kinds x.1.now)) (λ k. run (Item.primary ∷ k) (TokenKind.Word word ∷ kinds ts.now)) result }
    ensures tree { IfOk result (λ x. (h : Held) (t : Token) → Fits (g.word_at word (at line col)) t → Begun x.0 h h (t ∷ ts.now) x.1.now) }
    ensures less { IfOk result (λ x. length x.1.now ≤ length ts.now) }
{
    if let Some(value) = literal(word) {
        return Ok((Opening::Leaf(Expr::Literal { value, line, col }), ts));
    }
    if let Word::Function = word {
        return Ok((Opening::Function(line, col), ts));
    }
    let Some(head) = word_head(word) else {
        return Err(Fail::Stuck(ts.len() + 1))
    };
    let rest = want(ts, Sign::OpenRound)?;
    Ok((Opening::Open(head, line, col), rest))
}

/// What begins with a sign, behind it.
fn begin_sign(sign: Sign, line: u32, col: u32, ts: &[Token]) -> Result<(Opening, &[Token]), Fail>
    ensures read { Goes (λ x k. run (behind x.0 k) (kinds x.1.now)) (λ k. run (Item.primary ∷ k) (TokenKind.Sign sign ∷ kinds ts.now)) result }
    ensures tree { IfOk result (λ x. (h : Held) (t : Token) → Fits (g.sign_at sign (at line col)) t → Begun x.0 h h (t ∷ ts.now) x.1.now) }
    ensures less { IfOk result (λ x. length x.1.now ≤ length ts.now) }
{
    match sign_head(sign) {
        Some(head) => Ok((Opening::Open(head, line, col), ts)),
        None => Err(Fail::Stuck(ts.len() + 1)),
    }
}

/// The beginning of a primary. A name is held.
pub fn start<'a>(made: &mut Made, ts: &'a [Token]) -> Result<(Opening, &'a [Token]), Fail>
    ensures read { Goes (λ x k. run (behind x.0 k) (kinds x.1.now)) (λ k. run (Item.primary ∷ k) (kinds ts.now)) result }
    ensures tree { IfOk result (λ x. Begun x.0 made.old made.new ts.now x.1.now) }
    ensures less { IfOk result (λ x. length x.1.now < length ts.now) }
{
    let Some((first, rest)) = ts.split_first() else {
        return Err(Fail::Stuck(0))
    };
    let (line, col) = (first.line, first.col);
    match &first.kind {
        TokenKind::Name(name) => {
            let Ok(name) = made.seen(name) else {
                return Err(Fail::Memory)
            };
            Ok((Opening::Leaf(Expr::Name { name, line, col }), rest))
        }
        TokenKind::Number(value) => {
            let value = Lit::Int(*value);
            Ok((Opening::Leaf(Expr::Literal { value, line, col }), rest))
        }
        TokenKind::Text(text) => match text.share() {
            Ok(text) => {
                let value = Lit::Text(text);
                Ok((Opening::Leaf(Expr::Literal { value, line, col }), rest))
            }
            Err(_) => Err(Fail::Memory),
        },
        TokenKind::Word(word) => begin_word(*word, line, col, rest),
        TokenKind::Sign(sign) => begin_sign(*sign, line, col, rest),
    }
}

/// The bracket of an index or a call, if one stands first, and what follows.
pub fn begin_step(ts: &[Token]) -> Option<(StepHead, &Token, &[Token])>
    ensures some { IfSome result (λ x. (ts.now ≡ x.1.now ∷ x.2.now) × (is (step_sign x.0) x.1.now.kind ≡ true)) }
    ensures none { IfNone result ((at_sign Sign.OpenSquare ts.now ≡ false) × (at_sign Sign.OpenRound ts.now ≡ false)) }
{
    if let Some((sign, rest)) = eat(ts, Sign::OpenSquare) {
        return Some((StepHead::Index, sign, rest));
    }
    let (sign, rest) = eat(ts, Sign::OpenRound)?;
    Some((StepHead::Call, sign, rest))
}
