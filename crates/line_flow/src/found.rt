// The lines of a block that contain a text. A block is searched as a whole.

ghost use Rattle.std.specs.Prelude.{◌≡◌, ◌++◌, false, IfOk, IfErr, length, take};
ghost use Rattle.std.specs.List.{list_any};
ghost use Rattle.line_kit.specs.Lines.{lines, joined, with_text, is_feed};

use crate::buffer::put_line;
use line_kit::search::{has_line_feed, next_found};
use memchr::memmem::Finder;
use sky_base::text::Memory;

// Puts the found lines one after the other. Where there is no memory some of them may have been put.
fn add_found(bytes: &mut Vec<u8>, finder: &Finder, block: &[u8]) -> Result<(), Memory>
    requires { list_any is_feed finder.now ≡ false }
    ensures ok { IfOk result (λ _. bytes.new.items ≡ bytes.old.items ++ joined (with_text finder.now (lines block.now))) }
    ensures err { IfErr result (λ _. take (length bytes.old.items) bytes.new.items ≡ bytes.old.items) }
{
    let mut rest = block;
    while let Some((line, more)) = next_found(finder, rest) {
        put_line(bytes, line)?;
        rest = more;
    }
    Ok(())
}

/// Puts the lines of a block that contain the text.
pub(crate) fn put_found(bytes: &mut Vec<u8>, text: &[u8], block: &[u8]) -> Result<(), Memory>
    ensures ok { IfOk result (λ _. bytes.new.items ≡ bytes.old.items ++ joined (with_text text.now (lines block.now))) }
    ensures err { IfErr result (λ _. bytes.new.items ≡ bytes.old.items) }
{
    if has_line_feed(text) {
        return Ok(());
    }
    let before = bytes.len();
    if add_found(bytes, &Finder::new(text), block).is_err() {
        bytes.truncate(before);
        return Err(Memory);
    }
    Ok(())
}
