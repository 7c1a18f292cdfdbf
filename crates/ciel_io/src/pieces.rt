// A text put in pieces, one after another.

ghost use Rattle.std.specs.Prelude.{◌≤◌, map, OnOk, OnErr};
ghost use Rattle.std.specs.List.{concat};
ghost use Rattle.ciel_io.specs.Faults.{HasRisen};
ghost use Rattle.ciel_io.specs.Tells.{Tells, TellsPart};

use crate::sink::{Failed, Sink};

/// Puts pieces one after another. It takes no memory.
///
/// Answers `Failed` only where the count of faults of the sink rose, and a prefix of what the pieces come to was written.
pub fn put_all<J: Sink>(sink: &mut J, pieces: &[&str]) -> Result<(), Failed>
    ensures written { OnOk result (Tells (J.written sink.old) (J.written sink.new) (concat (map (λ p. p.now) pieces.now))) }
    ensures part { OnErr result (TellsPart (J.written sink.old) (J.written sink.new) (concat (map (λ p. p.now) pieces.now))) }
    ensures cause { OnErr result (HasRisen (J.faults sink.old) (J.faults sink.new)) }
    ensures never_falls { J.faults sink.old ≤ J.faults sink.new }
{
    for piece in pieces {
        sink.put(piece.as_bytes())?;
    }
    Ok(())
}
