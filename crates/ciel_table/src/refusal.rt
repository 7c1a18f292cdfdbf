//! Why a description isn't learned.

use sky_base::text::{Bytes, Memory};

/// Why a description isn't learned. The table is then as it was.
#[derive(Drop)]
pub enum Learn {
    /// The name is held for a description with other canonical bytes: those that are kept, and those given.
    Clash { kept: Bytes, given: Bytes },
    /// The name is new, and so many rows are held, which is the limit.
    Full { held: u32 },
    /// Want of memory.
    Memory,
}

impl From<Memory> for Learn {
    ghost use Rattle.std.specs.Prelude.{◌≡◌};
    ghost use Rattle.ciel_table.specs.declared.refusal.Learn.{Learn};

    ghost from_gives = { λ _ e. e ≡ Learn.Memory };

    fn from(_refusal: Memory) -> Learn {
        Learn::Memory
    }
}
