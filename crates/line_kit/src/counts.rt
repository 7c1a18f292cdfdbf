// The number of lines.

ghost use Rattle.std.specs.Prelude.{◌≡◌, ◌<◌, ◌≤◌, ◌^◌, ◌∷◌, [], IfOk, length, decimal, count_by, ◌==◌};
ghost use Rattle.sky_base.specs.KitView.{RunsSo};
ghost use Rattle.line_kit.specs.Lines.{lines, all_lines};
ghost use Rattle.line_kit.specs.Gives.{one};

use crate::lines::is_open;
use crate::output::{Answer, one_line};
use itoa::Buffer;
use memchr::memchr_iter;
use sky_base::text::Bytes;
use std::alloc::Global;

#[tactic(auto, using(crate::proofs::FeedLaw::feeds))]
pub(crate) fn line_feeds(bytes: &[u8]) -> usize
    ensures value { result ≡ count_by (λ b. b == 10) bytes.now }
    ensures bound { result ≤ length bytes.now }
{
    memchr_iter(b'\n', bytes).count()
}

/// The number of lines: one for each line feed, and one for a last line that has none. It takes no memory.
#[tactic(auto, using(crate::proofs::OpenLaw::opens))]
pub fn lines_in(bytes: &[u8]) -> usize
    ensures value { result ≡ length (lines bytes.now) }
    ensures bound { result ≤ 2 ^ 63 }
{
    let feeds = line_feeds(bytes);
    if is_open(bytes) { feeds + 1 } else { feeds }
}

/// How many lines the inputs have. An input may stand in the list often, so the number may need more
/// than 64 bits.
pub(crate) fn line_count(inputs: &[Bytes]) -> u128
    ensures value { result ≡ length (all_lines inputs.now) }
    ensures bound { result < 2 ^ 127 }
{
    let mut total = 0u128;
    for input in inputs {
        total += lines_in(input.as_slice()) as u128;
    }
    total
}

/// The number of lines, in a line.
pub(crate) fn count(alloc: Global, inputs: &[Bytes]) -> Answer
    ensures { IfOk result (λ r. RunsSo r (one (decimal (length (all_lines inputs.now)) ∷ []))) }
{
    let mut buffer = Buffer::new();
    one_line(alloc, buffer.format(line_count(inputs)).as_bytes())
}
