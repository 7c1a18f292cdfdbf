//! Why bytes are no memo's file.

use sky_base::text::Memory;

/// Why there is no memo.
#[derive(Clone, Copy, Debug, PartialEq, Eq)]
pub enum MemoRefusal {
    /// The bytes are no file of whole entries with distinct keys: the place of the first entry that isn't whole or valid, is too long, ends
    /// past the file's limit or repeats a key, or 0 where the two first bytes are wrong.
    BadMemo { at: u64 },
    /// Want of memory.
    Memory,
}

impl From<Memory> for MemoRefusal {
    ghost use Rattle.ciel_memo_file.specs.declared.refusal.MemoRefusal.{MemoRefusal};
    ghost use Rattle.std.specs.Prelude.{◌≡◌};

    ghost from_gives = { λ _ e. e ≡ MemoRefusal.Memory };

    fn from(_refused: Memory) -> MemoRefusal {
        MemoRefusal::Memory
    }
}
