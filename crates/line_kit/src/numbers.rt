// Numbers in lines.

ghost use Rattle.std.specs.Prelude.{◌≡◌, ◌<◌, ◌≤◌, ◌^◌, IfSome, Some, None, IfOk, neg_ℤ, pos, map, int_div};
ghost use Rattle.std.specs.Option.{option_map};
ghost use Rattle.sky_base.specs.KitView.{RunsSo};
ghost use Rattle.line_kit.specs.Lines.{all_lines};
ghost use Rattle.std.specs.Char.{is_ascii_digit};
ghost use Rattle.std.specs.List.{list_all, position_or_len};
ghost use Rattle.line_kit.specs.Numbers.{is_digits, is_space, number_up_to, signed_number, counted};
ghost use Rattle.line_kit.specs.Gives.{halved, read_each};

use crate::lines::{Lines, place_of};
use crate::output::{Answer, Output};
use sky_base::fault::FaultKind;
use sky_base::text::Bytes;
use std::alloc::Global;

/// The greatest number in a line of `sum`.
pub const MOST: u64 = 9_223_372_036_854_775_807;

fn all_digits(bytes: &[u8]) -> bool
    ensures { result ≡ list_all is_ascii_digit bytes.now }
{
    bytes.iter().all(|b| b.is_ascii_digit())
}

fn is_digits(bytes: &[u8]) -> bool
    ensures { result ≡ is_digits bytes.now }
{
    !bytes.is_empty() && all_digits(bytes)
}

// The number that the bytes write, where they are digits and it is at most `most`.
fn number_up_to(bytes: &[u8], most: u64) -> Option<u64>
    ensures { result ≡ number_up_to most bytes.now }
{
    if !is_digits(bytes) {
        return None;
    }
    let mut value = 0;
    for digit in bytes {
        let more = u128::from(value) * 10 + u128::from(*digit - b'0');
        if more > u128::from(most) {
            return None;
        }
        value = more as u64;
    }
    Some(value)
}

fn negated(number: u64) -> i64
    requires { number ≤ 2 ^ 63 }
    ensures { result ≡ neg_ℤ (pos number) }
{
    (-i128::from(number)) as i64
}

/// The number of 64 signed bits that the bytes write.
pub fn signed_number(bytes: &[u8]) -> Option<i64>
    ensures { result ≡ signed_number bytes.now }
{
    match bytes {
        [b'-', digits @ ..] => Some(negated(number_up_to(digits, MOST + 1)?)),
        _ => Some(number_up_to(bytes, MOST)? as i64),
    }
}

// The place of the first space, or the end.
fn number_end(line: &[u8]) -> usize
    ensures { result ≡ position_or_len is_space line.now }
{
    place_of(b' ', line)
}

/// The number in front of the first space, and what follows the space.
pub fn counted(line: &[u8]) -> Option<(&[u8], u64)>
    ensures value { option_map (λ e. (e.0.now, e.1)) result ≡ counted line.now }
    ensures bound { IfSome result (λ e. e.1 < 2 ^ 63) }
{
    let end = number_end(line);
    if end == line.len() {
        return None;
    }
    let number = number_up_to(&line[..end], MOST)?;
    Some((&line[end + 1..], number))
}

/// The half towards zero.
pub fn half_of(number: i64) -> i64
    ensures { result ≡ int_div number (pos 2) }
{
    number / 2
}

/// The half of the number in each line.
pub(crate) fn half(alloc: Global, inputs: &[Bytes]) -> Answer
    ensures { IfOk result (λ r. RunsSo r (halved (read_each signed_number (all_lines inputs.now)))) }
{
    let mut out = Output::new(alloc);
    let mut lines = Lines::new(inputs);
    while let Some(line) = lines.next_line() {
        match signed_number(line) {
            Some(number) => out.put_signed(half_of(number))?,
            None => return Ok(Err(FaultKind::BadLine)),
        }
    }
    out.alone(alloc)
}
