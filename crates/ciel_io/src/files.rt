// Files as a trait. What a file holds is a ghost member, told by files in memory and by no real
// ones, and a count of faults that the caller can't raise says when a read may give up.

ghost use Rattle.std.specs.Prelude.{◌≡◌, ◌<◌, ◌≤◌, ◌-◌, ◌^◌, ℕ, List, Option, Ok, Err, IfOk, IfErr, IfSome, length};
ghost use Rattle.ciel_io.specs.Faults.{HasRisen};
ghost use Rattle.ciel_io.specs.Reads.{Asks, IfTooLong};

use sky_base::text::{Bytes, Txt};
use std::alloc::Global;

/// Why a file was not read.
#[derive(Clone, Copy, Debug, PartialEq, Eq)]
pub enum FileRefusal {
    /// The read failed: there is no such file, or it can't be read.
    Failed,
    /// The file has more bytes than this limit.
    TooLong { limit: u64 },
    /// Want of memory.
    Memory,
}

/// Files, each read whole.
pub trait Files {
    /// The bytes of the file at a path, where they are told.
    ghost content: { Self → List ℕ → Option (List ℕ) };

    /// The paths asked so far, in order, where they are told.
    ghost asked: { Self → Option (List (List ℕ)) };

    /// How often a read has failed, at most `2^64 - 1`.
    ghost faults: { Self → ℕ };

    /// All bytes of the file at a path, where they are at most `limit`.
    ///
    /// Answers `Failed` only where the count of faults rose, `TooLong` exactly where the file has
    /// more bytes than the limit, and `Memory` for want of memory. The path is noted among those
    /// asked at every answer but `Memory`.
    fn read(&mut self, alloc: Global, path: &Txt, limit: u64) -> Result<Bytes, FileRefusal>
        requires { limit < 2 ^ 64 - 1 }
        ensures found { IfOk result (λ b. IfSome (content self.old path.now) (λ file. b ≡ file)) }
        ensures within { IfOk result (λ b. length b ≤ limit) }
        ensures too_long { IfErr result (λ e. IfTooLong e (λ at. at ≡ limit)) }
        ensures beyond { IfErr result (λ e.
            IfTooLong e (λ at. IfSome (content self.old path.now) (λ file. at < length file))) }
        ensures cause { result ≡ Err FileRefusal.Failed → HasRisen (faults self.old) (faults self.new) }
        ensures never_falls { faults self.old ≤ faults self.new }
        ensures memory { result ≡ Err FileRefusal.Memory → faults self.new ≡ faults self.old }
        ensures asks { Asks (asked self.old) (asked self.new) path.now result }
        ensures kept { content self.new ≡ content self.old };
}
