//! The generated lines.

ghost use Rattle.std.specs.Prelude.{◌≡◌, ◌<◌, ◌^◌, ◌++◌, IfOk};
ghost use Rattle.ciel_run_load.specs.Lines.{generated, line_of, next};

use itoa::Buffer;
use sky_base::text::{Bytes, Memory};
use std::alloc::Global;

/// So many lines: each is `w` with one of the numbers 0 to 99, in decimal, and a line feed.
///
/// Answers `Memory` for want of memory.
pub fn generate(alloc: Global, lines: u32) -> Result<Bytes, Memory>
    ensures lines { IfOk result (λ b. b ≡ generated lines) }
{
    let mut text = Vec::new(alloc);
    let mut number = 1;
    for _line in 0..lines {
        number = next(number);
        put_line(&mut text, number)?;
    }
    Bytes::new(alloc, text)
}

// The number that comes after another one.
fn next(number: u64) -> u64
    requires { number < 2 ^ 31 }
    ensures next { result ≡ next number }
    ensures below { result < 2 ^ 31 }
{
    (number * 1103515245 + 12345) % 2147483648
}

// Puts the line of a number.
fn put_line(text: &mut Vec<u8>, number: u64) -> Result<(), Memory>
    ensures { IfOk result (λ _. text.new.items ≡ text.old.items ++ line_of number) }
{
    let mut digits = Buffer::new();
    put(text, "w")?;
    put(text, digits.format(number / 65536 % 100))?;
    put(text, "\n")
}

// Puts a piece at the end.
fn put(text: &mut Vec<u8>, piece: &str) -> Result<(), Memory>
    ensures { IfOk result (λ _. text.new.items ≡ text.old.items ++ piece.now) }
{
    match text.extend_from_slice(piece.as_bytes()) {
        Ok(()) => Ok(()),
        Err(_) => Err(Memory),
    }
}
