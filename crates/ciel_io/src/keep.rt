// Files that are kept, as a trait. What they hold is a ghost member, told by files in memory and by no real ones, and a count of faults
// that the caller can't raise says when a call may give up.

ghost use Rattle.std.specs.Prelude.{◌≤◌, ◌∷◌, [], ℕ, List, Option, OnOk, OnErr};
ghost use Rattle.ciel_io.specs.Faults.{HasRisen};
ghost use Rattle.ciel_io.specs.Kept.{Appended, AppendedPart, Changes, Files, Replaced, ReplacedPart};
ghost use Rattle.ciel_io.specs.Tells.{Tells};

use crate::sink::Failed;
use sky_base::text::Txt;

/// Files that are kept.
pub trait Keep {
    /// What stands at each path that was asked, where it is told.
    ghost files: { Self → Option Files };

    /// The paths asked so far, in order, where they are told.
    ghost asked: { Self → Option (List (List ℕ)) };

    /// How often a call has failed, at most `2^64 - 1`.
    ghost faults: { Self → ℕ };

    /// Puts a piece behind what stands at a path; a file that isn't there is made.
    ///
    /// Answers `Failed` only where the count of faults rose, and a prefix of the piece was put there.
    fn append(&mut self, path: &Txt, piece: &[u8]) -> Result<(), Failed>
        ensures appended { OnOk result (Changes (files self.old) (files self.new) path.now (Appended piece.now)) }
        ensures part { OnErr result (Changes (files self.old) (files self.new) path.now (AppendedPart piece.now)) }
        ensures cause { OnErr result (HasRisen (faults self.old) (faults self.new)) }
        ensures never_falls { faults self.old ≤ faults self.new }
        ensures asks { Tells (asked self.old) (asked self.new) (path.now ∷ []) };

    /// Puts a piece in the place of what stands at a path; a file that isn't there is made.
    ///
    /// Answers `Failed` only where the count of faults rose, and what stood there stands there still, or a prefix of the piece.
    fn replace(&mut self, path: &Txt, piece: &[u8]) -> Result<(), Failed>
        ensures replaced { OnOk result (Changes (files self.old) (files self.new) path.now (Replaced piece.now)) }
        ensures part { OnErr result (Changes (files self.old) (files self.new) path.now (ReplacedPart piece.now)) }
        ensures cause { OnErr result (HasRisen (faults self.old) (faults self.new)) }
        ensures never_falls { faults self.old ≤ faults self.new }
        ensures asks { Tells (asked self.old) (asked self.new) (path.now ∷ []) };
}
