// Bytes that grow by whole pieces: a call that has no memory for all of its own leaves them as they were.

ghost use Rattle.std.specs.Prelude.{◌≡◌, ◌++◌, IfOk, IfErr, length, take};
ghost use Rattle.line_kit.specs.Lines.{ended, lines, joined};
ghost use Rattle.line_kit.specs.Words.{words};

use line_kit::lines::is_open;
use line_kit::words::first_word;
use sky_base::text::Memory;

/// Puts two pieces at the end.
pub(crate) fn put_both(bytes: &mut Vec<u8>, one: &[u8], other: &[u8]) -> Result<(), Memory>
    ensures ok { IfOk result (λ _. bytes.new.items ≡ bytes.old.items ++ (one.now ++ other.now)) }
    ensures err { IfErr result (λ _. bytes.new.items ≡ bytes.old.items) }
{
    let before = bytes.len();
    if bytes.extend_from_slice(one).is_ok() {
        if bytes.extend_from_slice(other).is_ok() {
            return Ok(());
        }
        bytes.truncate(before);
    }
    Err(Memory)
}

/// Puts a line and a line feed.
pub(crate) fn put_line(bytes: &mut Vec<u8>, line: &[u8]) -> Result<(), Memory>
    ensures ok { IfOk result (λ _. bytes.new.items ≡ bytes.old.items ++ ended line.now) }
    ensures err { IfErr result (λ _. bytes.new.items ≡ bytes.old.items) }
{
    put_both(bytes, line, b"\n")
}

/// Puts all lines of a block: the block, and a line feed where its last line has none.
#[tactic(auto, using(line_kit::proofs::OpenLaw::opens))]
pub(crate) fn put_lines(bytes: &mut Vec<u8>, block: &[u8]) -> Result<(), Memory>
    ensures ok { IfOk result (λ _. bytes.new.items ≡ bytes.old.items ++ joined (lines block.now)) }
    ensures err { IfErr result (λ _. bytes.new.items ≡ bytes.old.items) }
{
    if is_open(block) {
        put_both(bytes, block, b"\n")
    } else {
        put_both(bytes, block, b"")
    }
}

// Puts the words of a line one after the other. Where there is no memory some of them may have been put.
fn add_words(bytes: &mut Vec<u8>, line: &[u8]) -> Result<(), Memory>
    ensures ok { IfOk result (λ _. bytes.new.items ≡ bytes.old.items ++ joined (words line.now)) }
    ensures err { IfErr result (λ _. take (length bytes.old.items) bytes.new.items ≡ bytes.old.items) }
{
    let mut rest = line;
    while let Some((word, more)) = first_word(rest) {
        put_line(bytes, word)?;
        rest = more;
    }
    Ok(())
}

/// Puts the words of a line, one per line.
pub(crate) fn put_words(bytes: &mut Vec<u8>, line: &[u8]) -> Result<(), Memory>
    ensures ok { IfOk result (λ _. bytes.new.items ≡ bytes.old.items ++ joined (words line.now)) }
    ensures err { IfErr result (λ _. bytes.new.items ≡ bytes.old.items) }
{
    let before = bytes.len();
    if add_words(bytes, line).is_err() {
        bytes.truncate(before);
        return Err(Memory);
    }
    Ok(())
}
