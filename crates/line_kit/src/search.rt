// The lines that contain a text. Each input is searched as a whole, so that lines without the text cost
// no more than the search: where the text is found, the line around it is cut out, and the search goes
// on behind it.

ghost use Rattle.std.specs.Prelude.{◌≡◌, ◌≢◌, ℕ, ◌+◌, ◌<◌, ◌≤◌, ◌∷◌, [], false, IfOk, MatchOption, length, slice_index};
ghost use Rattle.std.specs.List.{list_any};
ghost use Rattle.sky_base.specs.KitView.{RunsSo};
ghost use Rattle.line_kit.specs.Lines.{lines, all_lines, joined, with_text, is_feed};
ghost use Rattle.line_kit.specs.Gives.{one};
ghost use Rattle.line_kit.specs.Written.{extended, finished};

use crate::lines::{first_line, place_of};
use crate::output::{Answer, Output};
use memchr::memmem::Finder;
use memchr::memrchr;
use sky_base::text::{Bytes, Memory};
use std::alloc::Global;

/// Whether a text has a line feed: then no line contains it.
pub fn has_line_feed(text: &[u8]) -> bool
    ensures { result ≡ list_any is_feed text.now }
{
    place_of(b'\n', text) < text.len()
}

// Where the line begins that has this place.
fn line_start(bytes: &[u8], at: usize) -> usize
    requires { at ≤ length bytes.now }
    ensures bound { result ≤ at }
    ensures behind_feed { (p : ℕ) → result ≡ p + 1 → slice_index bytes.now p ≡ 10 }
    ensures clean { (k : ℕ) → result ≤ k → k < at → slice_index bytes.now k ≢ 10 }
{
    match memrchr(b'\n', &bytes[..at]) {
        Some(feed) => feed + 1,
        None => 0,
    }
}

/// The first line that contains the text, and what follows it.
pub fn next_found<'a>(finder: &Finder, bytes: &'a [u8]) -> Option<(&'a [u8], &'a [u8])>
    requires { list_any is_feed finder.now ≡ false }
    ensures { MatchOption result (with_text finder.now (lines bytes.now) ≡ [])
        (λ f. (with_text finder.now (lines bytes.now) ≡ f.0.now ∷ with_text finder.now (lines f.1.now))
        × (length f.1.now < length bytes.now)) }
{
    if bytes.is_empty() {
        return None;
    }
    match finder.find(bytes) {
        Some(at) => Some(first_line(&bytes[line_start(bytes, at)..])),
        None => None,
    }
}

// Puts the lines of some bytes that contain the text.
#[tactic(auto, using(crate::proofs::WrittenLaw::pieces))]
fn put_found(out: &mut Output, finder: &Finder, bytes: &[u8]) -> Result<(), Memory>
    requires { list_any is_feed finder.now ≡ false }
    ensures { IfOk result (λ _. finished out.new ≡ extended out.old (joined (with_text finder.now (lines bytes.now)))) }
{
    let mut rest = bytes;
    while let Some((line, after)) = next_found(finder, rest) {
        out.put_line(line)?;
        rest = after;
    }
    Ok(())
}

/// The lines that contain a text.
#[tactic(auto, using(crate::proofs::WrittenLaw::pieces))]
pub(crate) fn grep(alloc: Global, text: &[u8], inputs: &[Bytes]) -> Answer
    ensures { IfOk result (λ r. RunsSo r (one (with_text text.now (all_lines inputs.now)))) }
{
    let mut out = Output::new(alloc);
    if has_line_feed(text) {
        return out.alone(alloc);
    }
    let finder = Finder::new(text);
    for input in inputs {
        put_found(&mut out, &finder, input.as_slice())?;
    }
    out.alone(alloc)
}
