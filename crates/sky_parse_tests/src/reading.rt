// A text read as a script.

ghost use Rattle.std.specs.Prelude.{◌≤◌, length};

use sky_base::script::{Script, Texts};
use sky_parse::script::{ParseRefusal, parse};
use sky_text::lex::{lex, line_col};
use sky_text::token::Token;
use std::alloc::Global;
use std::test::Fail;

/// What the tokens of a text are read as, with no inputs.
fn read(alloc: Global, text: &[u8], tokens: &[Token]) -> Result<Script, ParseRefusal>
    requires text { length text.now ≤ 1048576 }
    requires tokens { length tokens.now ≤ 1048576 }
{
    let end = line_col(text, text.len() as u32);
    parse(alloc, tokens, end, Texts::of(Vec::new(alloc)))
}

/// The script of a text, or its refusal. A text that is too long or has no tokens counts as want of memory.
pub fn script(alloc: Global, text: &[u8]) -> Result<Script, ParseRefusal> {
    if text.len() > 1_048_576 {
        return Err(ParseRefusal::Memory);
    }
    match lex(alloc, text) {
        Ok(tokens) => read(alloc, text, &tokens),
        Err(_) => Err(ParseRefusal::Memory),
    }
}

/// Why a text is no script.
pub fn refusal(alloc: Global, text: &[u8]) -> Option<ParseRefusal> {
    match script(alloc, text) {
        Ok(_) => None,
        Err(why) => Some(why),
    }
}

/// Puts a piece behind a text, so many times.
pub fn repeat(text: &mut Vec<u8>, piece: &str, count: u32) -> Result<(), Fail> {
    for _ in 0..count {
        text.extend_from_slice(piece.as_bytes())?;
    }
    Ok(())
}
