//! What a record's bytes tell. Each record has one spelling, so what was written is read as it was.

ghost use Rattle.std.specs.Prelude.{◌≡◌, IfErr, IfOk};
ghost use Rattle.sky_frozen_bytes.specs.Codes.{NoneAs, ReadAs};
ghost use Rattle.ciel_name.specs.Spelled.{Refuses};
ghost use Rattle.ciel_log_read.specs.Bodies.{IsOfKind, record_body, record_tag};
ghost use Rattle.ciel_log_read.specs.Recorded.{IsRecord, NoRecord, Recorded, record_bytes};
ghost use Rattle.ciel_log_read.specs.View.{record_view};

use crate::record::Record;
use crate::report::read_report;
use crate::start::{read_dropped, read_start};
use ciel_name::reader::Reader;
use ciel_name::refusal::Decode;
use std::alloc::Global;

/// The record that has these bytes. It is the inverse of what writes records.
///
/// Answers `NotValue` exactly where no record has them whose numbers fit their bytes and whose names, descriptions and objects can be read:
/// where they end too early or something follows, no kind of record, of task or of end has its first byte, a name is no reference, or a block
/// is none of what it should be. Answers `Memory` for want of memory. What a count promises takes no memory before it is read.
pub fn read_record(alloc: Global, bytes: &[u8]) -> Result<Record, Decode>
    ensures record { IfOk result (λ r. record_bytes (record_view r) ≡ bytes.now) }
    ensures data { IfOk result (λ r. IsRecord (record_view r)) }
    ensures inverse { IfOk result (λ r. (s : Recorded) → IsRecord s → record_bytes s ≡ bytes.now → record_view r ≡ s) }
    ensures refused { IfErr result (λ e. Refuses e (NoRecord bytes.now)) }
{
    let mut reader = Reader::new(bytes);
    let Some(kind) = reader.byte() else {
        return Err(Decode::NotValue);
    };
    let record = match read_kind(alloc, &mut reader, kind) {
        Ok(record) => record,
        Err(refusal) => return Err(refusal),
    };
    if !reader.is_empty() {
        return Err(Decode::NotValue);
    }
    Ok(record)
}

/// What stands behind the first byte of a record.
fn read_kind(alloc: Global, reader: &mut Reader, kind: u8) -> Result<Record, Decode>
    ensures record { IfOk result (λ r. ReadAs record_body (IsOfKind record_tag IsRecord kind) reader.old (record_view r) reader.new) }
    ensures refused { IfErr result (λ e. Refuses e (NoneAs record_body (IsOfKind record_tag IsRecord kind) reader.old)) }
{
    match kind {
        b'S' => read_start(reader).ok_or(Decode::NotValue),
        b'R' => match read_report(alloc, reader) {
            Ok(report) => Ok(Record::Report(report)),
            Err(refusal) => Err(refusal),
        },
        b'D' => read_dropped(reader).ok_or(Decode::NotValue),
        _ => Err(Decode::NotValue),
    }
}
