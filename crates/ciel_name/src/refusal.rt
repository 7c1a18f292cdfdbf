// Why bytes are refused.

use sky_base::text::Memory;

/// Why bytes have no value.
#[derive(Clone, Copy, Debug, PartialEq, Eq)]
pub enum Decode {
    /// They are the bytes of no value.
    NotValue,
    /// Want of memory.
    Memory,
}

impl From<Memory> for Decode {
    ghost use Rattle.ciel_name.specs.declared.refusal.Decode.{Decode};
    ghost use Rattle.std.specs.Prelude.{◌≡◌};

    ghost from_gives = { λ _ e. e ≡ Decode.Memory };

    fn from(_refused: Memory) -> Decode {
        Decode::Memory
    }
}
