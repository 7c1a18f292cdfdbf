// A buffer that is written to at its end: numbers with the highest byte first, and texts behind their lengths.

ghost use Rattle.std.specs.Prelude.{◌≡◌, [], ◌∷◌, ◌++◌, IfOk};
ghost use Rattle.sky_base.specs.Name.{big_endian, bytes_of_int, bytes_of_text};

use sky_base::text::{Bytes, Memory, Txt};
use std::alloc::Global;
use std::marker::Model;

/// Bytes that are written one behind the other. Contracts see the list of those so far.
#[derive(Drop)]
pub struct Writer {
    held: Vec<u8>,
}

impl Model for Writer {
    ghost use Rattle.std.specs.Prelude.{List, ℕ};

    ghost Value = { List ℕ };

    ghost view = { λ w. w.held.items };
}

impl Writer {
    /// No bytes.
    pub fn new(alloc: Global) -> Writer
        ensures { result ≡ [] }
    {
        Writer {
            held: Vec::new(alloc),
        }
    }

    /// Writes one byte.
    pub fn byte(&mut self, byte: u8) -> Result<(), Memory>
        ensures { IfOk result (λ _. self.new ≡ self.old ++ byte ∷ []) }
    {
        match self.held.push(byte) {
            Ok(()) => Ok(()),
            Err(_) => Err(Memory),
        }
    }

    /// Writes bytes as they are.
    pub fn raw(&mut self, bytes: &[u8]) -> Result<(), Memory>
        ensures { IfOk result (λ _. self.new ≡ self.old ++ bytes.now) }
    {
        match self.held.extend_from_slice(bytes) {
            Ok(()) => Ok(()),
            Err(_) => Err(Memory),
        }
    }

    /// Writes a number in eight bytes, a negative one as its two's complement.
    #[tactic(auto, using(crate::proofs::Numbers::numbers))]
    pub fn int(&mut self, number: i64) -> Result<(), Memory>
        ensures { IfOk result (λ _. self.new ≡ self.old ++ bytes_of_int number) }
    {
        self.raw(&number.to_be_bytes())
    }

    /// Writes a number of 32 bits in four bytes.
    #[tactic(auto, using(crate::proofs::Numbers::numbers))]
    pub fn number(&mut self, number: u32) -> Result<(), Memory>
        ensures { IfOk result (λ _. self.new ≡ self.old ++ big_endian 4 number) }
    {
        self.raw(&number.to_be_bytes())
    }

    /// Writes how many there are of something, in four bytes: the low ones, where more are wanted.
    #[tactic(auto, using(crate::proofs::Numbers::numbers))]
    pub fn count(&mut self, count: usize) -> Result<(), Memory>
        ensures { IfOk result (λ _. self.new ≡ self.old ++ big_endian 4 count) }
    {
        let bytes = (count as u64).to_be_bytes();
        self.raw(&bytes[4..])
    }

    /// Writes the number of bytes of a text in four bytes, and then the text. After `Memory` the four bytes may have been
    /// written, without the text.
    #[tactic(auto, using(crate::proofs::Numbers::appends))]
    pub fn text(&mut self, text: &Txt) -> Result<(), Memory>
        ensures { IfOk result (λ _. self.new ≡ self.old ++ bytes_of_text text.now) }
    {
        self.count(text.len())?;
        self.raw(text.as_str().as_bytes())
    }

    /// What was written so far.
    pub fn as_slice(&self) -> &[u8]
        ensures { result.now ≡ self.now }
    {
        self.held.as_slice()
    }

    /// All that was written, handed over.
    pub fn finish(self, alloc: Global) -> Result<Bytes, Memory>
        ensures { IfOk result (λ b. b ≡ self) }
    {
        let Writer { held } = self;
        Bytes::new(alloc, held)
    }
}
