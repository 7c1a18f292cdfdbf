//! A log's file as records, one behind the other, each behind its length.

ghost use Rattle.std.specs.Prelude.{MatchOption};
ghost use Rattle.ciel_log_read.specs.File.{NoRecordAt, RecordAt};

use crate::parts::read_block;
use ciel_name::reader::Reader;

/// The bytes of the record that stands whole at a place of a log, and the place behind it; none exactly where no whole one stands there: the
/// log ends there, or within the record. It takes no memory.
pub fn next_record(log: &[u8], at: usize) -> Option<(&[u8], usize)>
    ensures { MatchOption result (NoRecordAt log.now at) (λ found. RecordAt log.now at found.0.now found.1) }
{
    let mut reader = Reader::new(log.get(at..)?);
    let bytes = read_block(&mut reader)?;
    Some((bytes, at + 4 + bytes.len()))
}
