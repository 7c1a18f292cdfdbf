// The executors with several outputs: lines in equal parts, and lines in turn.

ghost use Rattle.std.specs.Prelude.{◌≡◌, ◌<◌, ◌≤◌, ◌+◌, ◌^◌, IfOk, Some, [], count_by, drop, false, length, replicate, take};
ghost use Rattle.sky_base.specs.KitView.{RunsSo};
ghost use Rattle.line_kit.specs.Lines.{all_lines, is_feed, is_open, joined, lines};
ghost use Rattle.line_kit.specs.Parts.{share, cut, dealt};
ghost use Rattle.line_kit.specs.Gives.{with_lines};

use crate::counts::{line_count, line_feeds, lines_in};
use crate::lines::{Lines, is_open, place_of};
use crate::output::{Answer, MOST_BYTES, Output, close};
use crate::picks::put_some;
use sky_base::fault::FaultKind;
use sky_base::text::{Bytes, Memory};
use std::alloc::Global;

// The number of bytes that are counted at once.
const WINDOW: usize = 4_096;

// The least number of lines for each output such that all have a place.
fn share(lines: u128, outputs: u32) -> u128
    requires some { 0 < outputs }
    requires bound { lines < 2 ^ 127 }
    ensures { result ≡ share lines outputs }
{
    (lines + (u128::from(outputs) - 1)) / u128::from(outputs)
}

/// The lines in parts of equal numbers, the last ones with fewer. Parts of one input that ends with a line feed share its bytes.
pub(crate) fn split(alloc: Global, inputs: &[Bytes], outputs: u32) -> Answer
    requires { 0 < outputs }
    ensures { IfOk result (λ r. RunsSo r (with_lines (cut outputs (all_lines inputs.now)))) }
{
    if inputs.len() == 1 && !is_open(inputs[0].as_slice()) {
        return share_out(alloc, &inputs[0], outputs);
    }
    copy_out(alloc, inputs, outputs)
}

// The lines of some inputs in parts, each a copy.
fn copy_out(alloc: Global, inputs: &[Bytes], outputs: u32) -> Answer
    requires { 0 < outputs }
    ensures { IfOk result (λ r. RunsSo r (with_lines (cut outputs (all_lines inputs.now)))) }
{
    let part = share(line_count(inputs), outputs);
    let mut all = Vec::new(alloc);
    let mut lines = Lines::new(inputs);
    for _k in 0..outputs {
        let mut out = Output::new(alloc);
        put_some(&mut out, &mut lines, part)?;
        if all.push(out).is_err() {
            return Err(Memory);
        }
    }
    close(alloc, all)
}

// The lines of one input that ends with a line feed in parts, each a part of its bytes.
fn share_out(alloc: Global, input: &Bytes, outputs: u32) -> Answer
    requires some { 0 < outputs }
    requires closed { is_open input.now ≡ false }
    ensures { IfOk result (λ r. RunsSo r (with_lines (cut outputs (lines input.now)))) }
{
    let bytes = input.as_slice();
    let part = share(lines_in(bytes) as u128, outputs);
    let mut all = Vec::new(alloc);
    let mut from = 0;
    let mut longest = 0;
    for _next in 0..outputs {
        let long = lines_end(&bytes[from..], part);
        if all.push(input.part(from, from + long)?).is_err() {
            return Err(Memory);
        }
        from += long;
        longest = longest.max(long);
    }
    if longest > MOST_BYTES {
        return Ok(Err(FaultKind::TooLarge));
    }
    Ok(Ok(all))
}

// Where the first so many lines end, or all that there are.
fn lines_end(bytes: &[u8], count: u128) -> usize
    requires closed { is_open bytes.now ≡ false }
    ensures within { result ≤ length bytes.now }
    ensures front { take result bytes.now ≡ joined (take count (lines bytes.now)) }
    ensures lines { lines (drop result bytes.now) ≡ drop count (lines bytes.now) }
    ensures closed { is_open (drop result bytes.now) ≡ false }
{
    let (from, left) = behind_windows(bytes, count);
    feeds_end(bytes, from, left)
}

// Where the last whole window ends that these line feeds go beyond, and how many of them are still to come.
fn behind_windows(bytes: &[u8], count: u128) -> (usize, u128)
    ensures within { result.0 ≤ length bytes.now }
    ensures feeds { count_by is_feed (take result.0 bytes.now) + result.1 ≡ count }
    ensures start { result.1 ≡ 0 → result.0 ≡ 0 }
{
    let mut at = 0;
    let mut left = count;
    while at < bytes.len() {
        let end = at + (bytes.len() - at).min(WINDOW);
        let feeds = line_feeds(&bytes[at..end]) as u128;
        if feeds >= left {
            return (at, left);
        }
        left -= feeds;
        at = end;
    }
    (at, left)
}

// Where the next so many line feeds end, or the end where there are fewer.
fn feeds_end(bytes: &[u8], from: usize, feeds: u128) -> usize
    requires within { from ≤ length bytes.now }
    requires start { feeds ≡ 0 → from ≡ 0 }
    requires closed { is_open bytes.now ≡ false }
    ensures within { result ≤ length bytes.now }
    ensures closed { is_open (take result bytes.now) ≡ false }
    ensures most { count_by is_feed (take result bytes.now) ≤ count_by is_feed (take from bytes.now) + feeds }
    ensures all { result < length bytes.now → count_by is_feed (take result bytes.now) ≡ count_by is_feed (take from bytes.now) + feeds }
{
    let mut at = from;
    let mut left = feeds;
    while left > 0 {
        let feed = at + place_of(b'\n', &bytes[at..]);
        if feed == bytes.len() {
            return feed;
        }
        at = feed + 1;
        left -= 1;
    }
    at
}

fn empty_outputs(alloc: Global, outputs: u32) -> Result<Vec<Output>, Memory>
    ensures { IfOk result (λ v. v.items ≡ replicate outputs (Some [])) }
{
    let mut all = Vec::new(alloc);
    for _i in 0..outputs {
        if all.push(Output::new(alloc)).is_err() {
            return Err(Memory);
        }
    }
    Ok(all)
}

/// The lines in turn to each output.
pub(crate) fn deal(alloc: Global, inputs: &[Bytes], outputs: u32) -> Answer
    requires { 0 < outputs }
    ensures { IfOk result (λ r. RunsSo r (with_lines (dealt outputs (all_lines inputs.now)))) }
{
    let mut all = empty_outputs(alloc, outputs)?;
    let mut lines = Lines::new(inputs);
    let mut turn = 0;
    while let Some(line) = lines.next_line() {
        all[turn].put_line(line)?;
        turn += 1;
        if turn == all.len() {
            turn = 0;
        }
    }
    close(alloc, all)
}
