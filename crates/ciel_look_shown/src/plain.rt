//! Text without control characters.

ghost use Rattle.std.specs.Prelude.{◌≡◌, ◌≤◌, ◌<◌, [], ◌++◌, IfOk, decimal, length, take};
ghost use Rattle.ciel_look_shown.specs.Plain.{IsPlain, digit, is_printable, shown, shown_byte};

use itoa::Buffer;
use sky_base::text::Memory;
use std::alloc::Global;
use std::marker::Model;

/// Text of printable ASCII characters. Contracts see its bytes.
#[derive(Drop)]
pub struct Plain {
    held: Vec<u8>,
}

impl Model for Plain {
    ghost use Rattle.std.specs.Prelude.{List, ℕ};
    ghost use Rattle.ciel_look_shown.specs.Plain.{IsPlain};

    ghost Value = { List ℕ };

    ghost view = { λ t. t.held.items };

    ghost invariant = { λ t. IsPlain t.held.items };
}

impl Plain {
    /// No text.
    pub fn new(alloc: Global) -> Plain
        ensures { result ≡ [] }
    {
        Plain {
            held: Vec::new(alloc),
        }
    }

    /// Puts bytes at the end, each as it is where it is printable, else as `\x` and two digits. After `Memory` a first part may be there.
    pub fn put(&mut self, bytes: &[u8]) -> Result<(), Memory>
        ensures put { IfOk result (λ _. self.new ≡ self.old ++ shown bytes.now) }
    {
        for byte in bytes {
            self.put_byte(*byte)?;
        }
        Ok(())
    }

    /// Puts a number in decimal at the end. After `Memory` a first part may be there.
    pub fn put_number(&mut self, number: u64) -> Result<(), Memory>
        ensures put { IfOk result (λ _. self.new ≡ self.old ++ shown (decimal number)) }
    {
        let mut digits = Buffer::new();
        self.put(digits.format(number).as_bytes())
    }

    /// Puts a text at the end. After `Memory` the text is as it was.
    pub fn put_all(&mut self, other: &Plain) -> Result<(), Memory>
        ensures put { IfOk result (λ _. self.new ≡ self.old ++ other.now) }
    {
        match self.held.extend_from_slice(other.held.as_slice()) {
            Ok(()) => Ok(()),
            Err(_) => Err(Memory),
        }
    }

    /// Leaves the first so many bytes.
    pub fn cut(&mut self, most: usize)
        ensures { self.new ≡ take most self.old }
    {
        self.held.truncate(most);
    }

    /// The bytes, each of them printable.
    pub fn as_slice(&self) -> &[u8]
        ensures value { result.now ≡ self.now }
        ensures plain { IsPlain self.now }
    {
        self.held.as_slice()
    }

    /// The number of bytes.
    pub fn len(&self) -> usize
        ensures { result ≡ length self.now }
    {
        self.held.len()
    }

    fn put_byte(&mut self, byte: u8) -> Result<(), Memory>
        ensures put { IfOk result (λ _. self.new ≡ self.old ++ shown_byte byte) }
    {
        if is_printable(byte) {
            return self.put_printable(&[byte]);
        }
        self.put_printable(&[b'\\', b'x', digit(byte / 16), digit(byte % 16)])
    }

    fn put_printable(&mut self, bytes: &[u8]) -> Result<(), Memory>
        requires { IsPlain bytes.now }
        ensures put { IfOk result (λ _. self.new ≡ self.old ++ bytes.now) }
    {
        match self.held.extend_from_slice(bytes) {
            Ok(()) => Ok(()),
            Err(_) => Err(Memory),
        }
    }
}

/// Whether a byte is a printable ASCII character, or a space.
fn is_printable(byte: u8) -> bool
    ensures { result ≡ is_printable byte }
{
    byte >= 32 && byte < 127
}

/// The hexadecimal digit of a number below 16.
fn digit(number: u8) -> u8
    requires { number < 16 }
    ensures value { result ≡ digit number }
    ensures printable { (32 ≤ result) × (result < 127) }
{
    if number < 10 {
        48 + number
    } else {
        87 + number
    }
}
