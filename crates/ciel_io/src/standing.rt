//! How much of a piece stands in a file already.

ghost use Rattle.std.specs.Prelude.{◌≡◌, ◌≤◌, ◌<◌, IfNone, IfOk, IfSome, length, take};
ghost use Rattle.std.specs.Io.{StartsWith};
ghost use Rattle.std.specs.Io.KnownBytes.{Consumes, IsAtEnd};

use std::io;
use std::io::Read;

// How many bytes are read at once.
const WINDOW: usize = 65_536;

/// How many bytes a reader has left, where a piece begins with all of them; none where it doesn't. Behind the first window that differs nothing
/// is read.
///
/// Answers what the reader does where it fails.
pub(crate) fn standing<R: Read + Drop>(reader: R, piece: &[u8]) -> io::Result<Option<usize>>
    ensures within { IfOk result (λ o. IfSome o (λ n. n ≤ length piece.now)) }
    ensures stands { IfOk result (λ o. IfSome o (λ n. IfSome (R.remaining reader) (λ left. left ≡ take n piece.now))) }
    ensures differs { IfOk result (λ o. IfNone o (IfSome (R.remaining reader) (λ left. StartsWith piece.now left → ⊥))) }
{
    let mut reader = reader;
    let mut window = [0u8; WINDOW];
    let mut at = 0;
    while at <= piece.len() {
        match next_standing(&mut reader, &mut window, &piece[at..])? {
            Some(0) => return Ok(Some(at)),
            Some(n) => at += n,
            None => return Ok(None),
        }
    }
    Ok(None)
}

// How many bytes one read gives, where the rest begins with them.
fn next_standing<R: Read>(
    reader: &mut R,
    window: &mut [u8],
    rest: &[u8],
) -> io::Result<Option<usize>>
    ensures within { IfOk result (λ o. IfSome o (λ n. n ≤ length rest.now)) }
    ensures read { IfOk result (λ o. IfSome o (λ n. Consumes (R.remaining reader.old) (R.remaining reader.new) (take n rest.now))) }
    ensures end { IfOk result (λ o. IfSome o (λ n. n ≡ 0 → 0 < length window.old → IsAtEnd (R.remaining reader.new))) }
    ensures differs { IfOk result (λ o. IfNone o (IfSome (R.remaining reader.old) (λ left. StartsWith rest.now left → ⊥))) }
{
    let n = reader.read(window)?;
    if n <= rest.len() && window[..n] == rest[..n] {
        Ok(Some(n))
    } else {
        Ok(None)
    }
}
