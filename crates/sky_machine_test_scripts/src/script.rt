//! The script of a text.

ghost use Rattle.std.specs.Prelude.{◌≡◌, ◌≤◌, IfOk, length};
ghost use Rattle.sky_parse.specs.Source.{IsScript};
ghost use Rattle.sky_machine.specs.Onward.{IsRead};

use sky_base::script::{Script, Texts};
use sky_parse::script::parse;
use sky_text::lex::{lex, line_col};
use std::alloc::Global;
use std::test::Fail;

// The script that these bytes are, with these inputs.
fn parsed(alloc: Global, bytes: &[u8], keys: Texts) -> Result<Script, Fail>
    requires { length bytes.now ≤ 10000 }
    ensures { IfOk result (λ s. IsScript bytes.now keys s) }
{
    let Ok(tokens) = lex(alloc, bytes) else {
        return Err(Fail::from("no tokens"));
    };
    let end = line_col(bytes, bytes.len() as u32);
    match parse(alloc, tokens.as_slice(), end, keys) {
        Ok(script) => Ok(script),
        Err(_) => Err(Fail::from("no script")),
    }
}

/// The script of a text of at most 10,000 bytes, which is one without inputs. Fails where it is none, or for want of memory.
pub fn script(alloc: Global, text: &str) -> Result<Script, Fail>
    ensures read { IfOk result (λ s. IsRead s) }
{
    script_over(alloc, text, Texts::of(Vec::new(alloc)))
}

/// The script of a text of at most 10,000 bytes, which is one over inputs of these names. Fails where it is none, or for want of memory.
pub fn script_over(alloc: Global, text: &str, keys: Texts) -> Result<Script, Fail>
    ensures read { IfOk result (λ s. IsRead s) }
    ensures keys { IfOk result (λ s. s.keys ≡ keys) }
{
    let bytes = text.as_bytes();
    if bytes.len() > 10_000 {
        return Err(Fail::from("a long text"));
    }
    let script = parsed(alloc, bytes, keys)?;
    Ok(script)
}
