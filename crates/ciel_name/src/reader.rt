// Bytes that are read from their start: numbers with the highest byte first, and texts behind their lengths.

ghost use Rattle.std.specs.Prelude.{◌≡◌, ◌<◌, ◌↔◌, IsTrue, [], ◌∷◌, ◌++◌, MatchOption, length};
ghost use Rattle.sky_base.specs.Name.{big_endian, bytes_of_int};

use std::marker::Model;

/// Bytes, of which some were read. Contracts see those that are left.
#[derive(Drop)]
pub struct Reader<'a> {
    left: &'a [u8],
}

impl<'a> Model for Reader<'a> {
    ghost use Rattle.std.specs.Prelude.{List, ℕ};

    ghost Value = { List ℕ };

    ghost view = { λ r. r.left.now };
}

impl<'a> Reader<'a> {
    /// Nothing is read yet.
    pub fn new(bytes: &'a [u8]) -> Reader<'a>
        ensures { result ≡ bytes.now }
    {
        Reader { left: bytes }
    }

    /// Whether all is read.
    pub fn is_empty(&self) -> bool
        ensures { IsTrue result ↔ (self.now ≡ []) }
    {
        self.left.is_empty()
    }

    /// How many bytes are left.
    pub fn len(&self) -> usize
        ensures { result ≡ length self.now }
    {
        self.left.len()
    }

    /// The next byte, if there is one.
    pub fn byte(&mut self) -> Option<u8>
        ensures { MatchOption result (self.old ≡ []) (λ b. self.old ≡ b ∷ self.new) }
    {
        let (first, rest) = self.left.split_first()?;
        self.left = rest;
        Some(*first)
    }

    /// The next `count` bytes, if there are as many.
    pub fn bytes(&mut self, count: usize) -> Option<&'a [u8]>
        ensures { MatchOption result (length self.old < count)
            (λ s. (self.old ≡ s.now ++ self.new) × (length s.now ≡ count)) }
    {
        if self.left.len() < count {
            return None;
        }
        let (front, back) = self.left.split_at(count);
        self.left = back;
        Some(front)
    }

    /// The next `N` bytes, if there are as many.
    #[tactic(auto, using(crate::proofs::Numbers::takes))]
    pub fn array<const N: usize>(&mut self) -> Option<[u8; N]>
        ensures { MatchOption result (length self.old < N) (λ s. (self.old ≡ s ++ self.new) × (length s ≡ N)) }
    {
        let (bytes, rest) = self.left.split_first_chunk::<N>()?;
        self.left = rest;
        Some(*bytes)
    }

    /// The number in the next four bytes, if there are as many.
    pub fn number(&mut self) -> Option<u32>
        ensures { MatchOption result (length self.old < 4) (λ n. self.old ≡ big_endian 4 n ++ self.new) }
    {
        Some(number_of(self.array::<4>()?))
    }

    /// The number in the next eight bytes, in two's complement, if there are as many.
    pub fn int(&mut self) -> Option<i64>
        ensures { MatchOption result (length self.old < 8) (λ z. self.old ≡ bytes_of_int z ++ self.new) }
    {
        Some(int_of(self.array::<8>()?))
    }
}

/// The number that these bytes are, the highest first.
fn number_of(bytes: [u8; 4]) -> u32
    ensures { big_endian 4 result ≡ bytes }
{
    u32::from_be_bytes(bytes)
}

/// The number that these bytes are in two's complement, the highest first.

fn int_of(bytes: [u8; 8]) -> i64
    ensures { bytes_of_int result ≡ bytes }
{
    u64::from_be_bytes(bytes).cast_signed()
}
