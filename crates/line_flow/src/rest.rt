// Where lines end in bytes.

ghost use Rattle.std.specs.Prelude.{◌≡◌, ◌<◌, ◌≤◌, ◌∷◌, [], false, length, take, drop, count_by};
ghost use Rattle.line_kit.specs.Lines.{lines, is_open, is_feed};

use line_kit::lines::place_of;
use memchr::memrchr;

/// The first line, and how many bytes it has with its line feed.
pub(crate) fn first_line(bytes: &[u8]) -> (&[u8], usize)
    requires { 0 < length bytes.now }
    ensures some { 0 < result.1 }
    ensures bound { result.1 ≤ length bytes.now }
    ensures line { lines (take result.1 bytes.now) ≡ result.0.now ∷ [] }
    ensures closed { result.1 < length bytes.now → is_open (take result.1 bytes.now) ≡ false }
{
    let end = place_of(b'\n', bytes);
    if end == bytes.len() {
        (bytes, end)
    } else {
        (&bytes[..end], end + 1)
    }
}

/// The place behind the last line feed from a place on, or 0 where there is none.
pub(crate) fn settled_end(bytes: &[u8], from: usize) -> usize
    requires { from ≤ length bytes.now }
    ensures bound { result ≤ length bytes.now }
    ensures closed { is_open (take result bytes.now) ≡ false }
    ensures last { from ≡ 0 → count_by is_feed (drop result bytes.now) ≡ 0 }
{
    match memrchr(b'\n', &bytes[from..]) {
        Some(feed) => from + feed + 1,
        None => 0,
    }
}

/// Takes the first bytes away.
pub(crate) fn cut(bytes: &mut Vec<u8>, count: usize)
    requires { count ≤ length bytes.old.items }
    ensures { bytes.new.items ≡ drop count bytes.old.items }
{
    let left = bytes.len() - count;
    bytes.copy_within(count.., 0);
    bytes.truncate(left);
}
