//! Bytes of which the first ones are kept.

ghost use Rattle.std.specs.Prelude.{◌≡◌, ◌≤◌, ◌+◌, [], ◌++◌, IfOk, IsTrue, length};
ghost use Rattle.ciel_look_words.specs.Kept.{Puts};

use sky_base::text::Memory;
use std::alloc::Global;
use std::marker::Model;

/// How many bytes are kept: one more than the words that are shown have at most.
const MOST: usize = 61;

/// The first bytes of what was put, as many as are kept. Contracts see these.
#[derive(Drop)]
pub struct Short {
    held: Vec<u8>,
}

impl Model for Short {
    ghost use Rattle.std.specs.Prelude.{◌≤◌, List, ℕ, length};

    ghost Value = { List ℕ };

    ghost view = { λ t. t.held.items };

    ghost invariant = { λ t. length t.held.items ≤ 61 };
}

impl Short {
    /// Nothing.
    pub fn new(alloc: Global) -> Short
        ensures { result ≡ [] }
    {
        Short {
            held: Vec::new(alloc),
        }
    }

    /// Puts bytes at the end, as far as they are kept. After `Memory` all is as it was.
    pub fn put(&mut self, bytes: &[u8]) -> Result<(), Memory>
        ensures puts { IfOk result (λ _. Puts self.old bytes.now self.new) }
    {
        let room = MOST - self.held.len();
        if bytes.len() <= room {
            self.append(bytes)?;
            return Ok(());
        }
        let front = &bytes[..room];
        self.append(front)?;
        Ok(())
    }

    /// Puts bytes at the end, for which there is room.
    fn append(&mut self, bytes: &[u8]) -> Result<(), Memory>
        requires room { length self.old + length bytes.now ≤ 61 }
        ensures all { IfOk result (λ _. self.new ≡ self.old ++ bytes.now) }
    {
        match self.held.extend_from_slice(bytes) {
            Ok(()) => Ok(()),
            Err(_) => Err(Memory),
        }
    }

    /// Whether nothing more is kept.
    pub fn is_full(&self) -> bool
        ensures full { IsTrue result → 61 ≤ length self.now }
    {
        self.held.len() >= MOST
    }

    /// The bytes that are kept.
    pub fn as_slice(&self) -> &[u8]
        ensures value { result.now ≡ self.now }
        ensures most { length self.now ≤ 61 }
    {
        self.held.as_slice()
    }
}
