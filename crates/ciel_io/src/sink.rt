// Sinks as a trait. The bytes written are a ghost member, told as long as the sink tells them, and
// a count of faults that the caller can't raise says when a put may give up.

ghost use Rattle.std.specs.Prelude.{◌≤◌, ℕ, List, Option, OnOk, OnErr};
ghost use Rattle.ciel_io.specs.Faults.{HasRisen};
ghost use Rattle.ciel_io.specs.Tells.{Tells, TellsPart};

/// A piece was not written whole.
#[derive(Clone, Copy, Debug, PartialEq, Eq)]
pub struct Failed;

/// Where bytes are written.
pub trait Sink {
    /// The bytes written so far, where they are told.
    ghost written: { Self → Option (List ℕ) };

    /// How often a put has failed, at most `2^64 - 1`.
    ghost faults: { Self → ℕ };

    /// Writes a piece whole.
    ///
    /// Answers `Failed` only where the count of faults rose, and a prefix of the piece was written.
    fn put(&mut self, piece: &[u8]) -> Result<(), Failed>
        ensures written { OnOk result (Tells (written self.old) (written self.new) piece.now) }
        ensures part { OnErr result (TellsPart (written self.old) (written self.new) piece.now) }
        ensures cause { OnErr result (HasRisen (faults self.old) (faults self.new)) }
        ensures never_falls { faults self.old ≤ faults self.new };
}
