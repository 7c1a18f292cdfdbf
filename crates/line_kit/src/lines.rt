// The lines of the inputs, one after the other, each a slice of its input.

ghost use Rattle.std.specs.Prelude.{◌≡◌, ◌≢◌, ℕ, ◌<◌, ◌≤◌, length, slice_index, MatchOption, IfOk, List, [], ◌∷◌, ◌++◌, map};
ghost use Rattle.line_kit.specs.Lines.{lines, all_lines, is_open};

use memchr::memchr;
use sky_base::text::{Bytes, Memory};
use std::alloc::Global;
use std::marker::Model;

/// The first place of a byte, or the end.
pub fn place_of(byte: u8, bytes: &[u8]) -> usize
    ensures bound { result ≤ length bytes.now }
    ensures clean { (k : ℕ) → k < result → slice_index bytes.now k ≢ byte }
    ensures stops { result < length bytes.now → slice_index bytes.now result ≡ byte }
{
    memchr(byte, bytes).unwrap_or(bytes.len())
}

/// The first line, and what follows its line feed.
pub(crate) fn first_line<'a>(bytes: &'a [u8]) -> (&'a [u8], &'a [u8])
    requires { 0 < length bytes.now }
    ensures cut { lines bytes.now ≡ result.0.now ∷ lines result.1.now }
    ensures shorter { length result.1.now < length bytes.now }
{
    let end = place_of(b'\n', bytes);
    let (line, rest) = bytes.split_at(end);
    if rest.is_empty() {
        (line, rest)
    } else {
        (line, &rest[1..])
    }
}

/// Whether the last line has no line feed.
pub fn is_open(bytes: &[u8]) -> bool
    ensures { result ≡ is_open bytes.now }
{
    match bytes.last() {
        Some(byte) => *byte != b'\n',
        None => false,
    }
}

/// The lines that are still to come. Contracts see their list.
#[derive(Drop)]
pub(crate) struct Lines<'a> {
    rest: &'a [u8],
    inputs: &'a [Bytes],
}

impl<'a> Model for Lines<'a> {
    ghost use Rattle.std.specs.Prelude.{List, ℕ, ◌++◌};
    ghost use Rattle.line_kit.specs.Lines.{lines, all_lines};

    ghost Value = { List (List ℕ) };

    ghost view = { λ l. lines l.rest.now ++ all_lines l.inputs.now };
}

impl<'a> Lines<'a> {
    /// The lines of some inputs.
    pub(crate) fn new(inputs: &'a [Bytes]) -> Lines<'a>
        ensures { result ≡ all_lines inputs.now }
    {
        Lines { rest: &[], inputs }
    }

    /// The lines of some bytes.
    pub(crate) fn of(bytes: &'a [u8]) -> Lines<'a>
        ensures { result ≡ lines bytes.now }
    {
        Lines {
            rest: bytes,
            inputs: &[],
        }
    }

    /// The next line.
    pub(crate) fn next_line(&mut self) -> Option<&'a [u8]>
        ensures { MatchOption result ((self.old ≡ []) × (self.new ≡ [])) (λ line. self.old ≡ line.now ∷ self.new) }
    {
        while self.rest.is_empty() {
            let (input, more) = self.inputs.split_first()?;
            self.rest = input.as_slice();
            self.inputs = more;
        }
        let (line, rest) = first_line(self.rest);
        self.rest = rest;
        Some(line)
    }
}

/// The lines of some inputs in a list. It takes the memory of their places.
pub(crate) fn list(alloc: Global, inputs: &[Bytes]) -> Result<Vec<&[u8]>, Memory>
    ensures { IfOk result (λ v. map (λ line. line.now) v.items ≡ all_lines inputs.now) }
{
    let mut all = Vec::new(alloc);
    let mut lines = Lines::new(inputs);
    while let Some(line) = lines.next_line() {
        if all.push(line).is_err() {
            return Err(Memory);
        }
    }
    Ok(all)
}
