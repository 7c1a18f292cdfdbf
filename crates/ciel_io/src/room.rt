// Room for bytes in memory, made once, so that writing takes no memory later. What doesn't fit any
// more is dropped, and from then on the bytes are no longer told.

ghost use Rattle.std.specs.Prelude.{◌≡◌, IfOk, IfSome, Some, []};
ghost use Rattle.ciel_io.specs.HeldBytes.{with_piece};

use sky_base::text::Memory;
use std::alloc::Global;
use std::marker::Model;

/// Room for bytes, told while they fit.
#[derive(Drop)]
pub(crate) struct Room {
    limit: usize,
    bytes: Vec<u8>,
    told: bool,
}

impl Model for Room {
    ghost use Rattle.std.specs.Prelude.{◌≤◌, Some, None, length, vec_capacity, if◌then◌else◌};
    ghost use Rattle.ciel_io.specs.HeldBytes.{HeldBytes};

    ghost Value = { HeldBytes };

    ghost view = { λ r. record { room = r.limit; written = (if r.told then Some r.bytes.items else None) } };

    ghost invariant = { λ r. (length r.bytes.items ≤ r.limit) × (r.limit ≤ vec_capacity r.bytes) };
}

impl Room {
    /// Room for so many bytes.
    pub(crate) fn new(alloc: Global, limit: usize) -> Result<Room, Memory>
        ensures { IfOk result (λ r. r ≡ record { room = limit; written = Some [] }) }
    {
        match Vec::with_capacity(alloc, limit) {
            Ok(bytes) => Ok(Room {
                limit,
                bytes,
                told: true,
            }),
            Err(_) => Err(Memory),
        }
    }

    /// Writes a piece, where it fits.
    pub(crate) fn put(&mut self, piece: &[u8])
        ensures { self.new ≡ with_piece self.old piece.now }
    {
        if !self.told {
            return;
        }
        if self.limit - self.bytes.len() < piece.len() {
            self.told = false;
            return;
        }
        let _ = self.bytes.extend_from_slice(piece);
    }

    /// The bytes written, while they are told.
    pub(crate) fn bytes(&self) -> &[u8]
        ensures { IfSome self.now.written (λ b. result.now ≡ b) }
    {
        self.bytes.as_slice()
    }
}
