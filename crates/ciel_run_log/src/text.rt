//! The journal's text, and bytes in hexadecimal digits.

ghost use Rattle.std.specs.Prelude.{◌≤◌, OnOk, OnErr};
ghost use Rattle.hex.specs.Hex.{encode_lower};
ghost use Rattle.ciel_io.specs.Faults.{HasRisen};
ghost use Rattle.ciel_io.specs.Tells.{Tells, TellsPart};
ghost use Rattle.ciel_run_log.specs.Text.{journal_text};

use crate::lines::{put_digits, put_entry};
use ciel_io::sink::{Failed, Sink};
use ciel_master::entry::Entry;

/// How many bytes are put as one piece, the bytes of the longest name.
const PIECE: usize = 32;

/// Puts the text of a journal: one line for each entry. It takes no memory.
///
/// Answers `Failed` only where the count of faults of the log rose, and a prefix of the text was written.
pub fn put_journal<J: Sink>(journal: &[Entry], log: &mut J) -> Result<(), Failed>
    ensures written { OnOk result (Tells (J.written log.old) (J.written log.new) (journal_text journal.now)) }
    ensures part { OnErr result (TellsPart (J.written log.old) (J.written log.new) (journal_text journal.now)) }
    ensures cause { OnErr result (HasRisen (J.faults log.old) (J.faults log.new)) }
    ensures never_falls { J.faults log.old ≤ J.faults log.new }
{
    for entry in journal {
        put_entry(entry, log)?;
    }
    Ok(())
}

/// Puts bytes as text: two lower-case hexadecimal digits for each. It takes no memory.
///
/// Answers `Failed` only where the count of faults of the sink rose, and a prefix of the digits was written.
pub fn put_hex<J: Sink>(sink: &mut J, bytes: &[u8]) -> Result<(), Failed>
    ensures written { OnOk result (Tells (J.written sink.old) (J.written sink.new) (encode_lower bytes.now)) }
    ensures part { OnErr result (TellsPart (J.written sink.old) (J.written sink.new) (encode_lower bytes.now)) }
    ensures cause { OnErr result (HasRisen (J.faults sink.old) (J.faults sink.new)) }
    ensures never_falls { J.faults sink.old ≤ J.faults sink.new }
{
    let mut rest = bytes;
    while !rest.is_empty() {
        let (piece, more) = rest.split_at(rest.len().min(PIECE));
        put_digits(sink, piece)?;
        rest = more;
    }
    Ok(())
}
