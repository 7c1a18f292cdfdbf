//! The bytes of a script become its tree: their tokens, and then the script that they spell. Where they are none, the first refusal
//! counts.

ghost use Rattle.std.specs.Prelude.{◌≡◌, ◌≤◌, ◌⊎◌, IfOk, IfErr, Err, length};
ghost use Rattle.sky_text.specs.Lexing.{byte_of, tokens_of};
ghost use Rattle.sky_text.specs.Place.{line_of, column_of};
ghost use Rattle.sky_parse.specs.Source.{IsScript};
ghost use Rattle.ciel_run_load.specs.Loading.{RefusedSo};

use sky_base::script::{Script, Texts};
use sky_parse::script::{ParseRefusal, parse};
use sky_text::lex::{LexRefusal, lex, line_col};
use std::alloc::Global;

/// What is wrong with bytes that are no script.
#[derive(Clone, Copy, Debug, PartialEq, Eq)]
pub enum SyntaxKind {
    BadByte,
    OpenText,
    BadEscape,
    BigNumber,
    TooNested,
    NoSentence,
    SameName,
}

/// Why bytes are no script.
#[derive(Clone, Copy, Debug)]
pub enum NoScript {
    /// They have no tokens, or their tokens spell none.
    Syntax {
        kind: SyntaxKind,
        line: u32,
        col: u32,
    },
    /// Want of memory.
    Memory,
}

/// The script that the bytes are, over inputs of these names.
///
/// Refused are bytes that have no tokens, and tokens that spell no script, each at its place.
pub fn script(alloc: Global, source: &[u8], keys: Texts) -> Result<Script, NoScript>
    requires { length source.now ≤ 1048576 }
    ensures script { IfOk result (IsScript source.now keys) }
    ensures refused { IfErr result (RefusedSo source.now) }
{
    let tokens = match lex(alloc, source) {
        Ok(tokens) => tokens,
        Err(refusal) => return Err(no_tokens(source, refusal)),
    };
    let end = line_col(source, source.len() as u32);
    match parse(alloc, &tokens, end, keys) {
        Ok(script) => Ok(script),
        Err(ParseRefusal::TooNested { line, col }) => Err(NoScript::Syntax {
            kind: SyntaxKind::TooNested,
            line,
            col,
        }),
        Err(ParseRefusal::NoSentence { line, col }) => Err(NoScript::Syntax {
            kind: SyntaxKind::NoSentence,
            line,
            col,
        }),
        Err(ParseRefusal::SameName { line, col }) => Err(NoScript::Syntax {
            kind: SyntaxKind::SameName,
            line,
            col,
        }),
        Err(ParseRefusal::Memory) => Err(NoScript::Memory),
    }
}

/// Why bytes that have no tokens are refused.
fn no_tokens(source: &[u8], refusal: LexRefusal) -> NoScript
    requires few { length source.now ≤ 1048576 }
    requires refused { (refusal ≡ LexRefusal.Memory) ⊎ (tokens_of source.now ≡ Err refusal) }
    requires within { byte_of refusal ≤ length source.now }
    ensures { RefusedSo source.now result }
{
    match refusal {
        LexRefusal::BadByte(byte) => at_byte(source, SyntaxKind::BadByte, byte),
        LexRefusal::OpenText(byte) => at_byte(source, SyntaxKind::OpenText, byte),
        LexRefusal::BadEscape(byte) => at_byte(source, SyntaxKind::BadEscape, byte),
        LexRefusal::BigNumber(byte) => at_byte(source, SyntaxKind::BigNumber, byte),
        LexRefusal::Memory => NoScript::Memory,
    }
}

/// The refusal of this kind at the place of a byte, or of the end.
fn at_byte(source: &[u8], kind: SyntaxKind, byte: u32) -> NoScript
    requires few { length source.now ≤ 1048576 }
    requires within { byte ≤ length source.now }
    ensures { result ≡ NoScript.Syntax kind (line_of source.now byte) (column_of source.now byte) }
{
    let (line, col) = line_col(source, byte);
    NoScript::Syntax { kind, line, col }
}
