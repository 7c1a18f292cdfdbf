//! The record of a start, and that of a report that was dropped with its worker.

ghost use Rattle.std.specs.Prelude.{MatchOption};
ghost use Rattle.sky_frozen_bytes.specs.Codes.{NoneAs, ReadAs};
ghost use Rattle.ciel_log_records.specs.Records.{task_bytes};
ghost use Rattle.ciel_log_read.specs.Bodies.{IsOfKind, record_body, record_tag};
ghost use Rattle.ciel_log_read.specs.Recorded.{IsRecord, IsTask};
ghost use Rattle.ciel_log_read.specs.View.{record_view};

use crate::parts::{read_long, read_name, read_number};
use crate::record::Record;
use ciel_name::reader::Reader;
use sky_base::object::TaskId;

/// What stands behind the first byte of a start's record.
pub fn read_start(reader: &mut Reader) -> Option<Record>
    ensures { MatchOption result (NoneAs record_body (IsOfKind record_tag IsRecord 83) reader.old)
        (λ r. ReadAs record_body (IsOfKind record_tag IsRecord 83) reader.old (record_view r) reader.new) }
{
    let number = read_long(reader)?;
    let worker = read_number(reader)?;
    let from = read_number(reader)?;
    let task = read_task(reader)?;
    Some(Record::Start {
        number,
        worker,
        from,
        task,
    })
}

/// The root task, or the task of a name.
fn read_task(reader: &mut Reader) -> Option<TaskId>
    ensures { MatchOption result (NoneAs task_bytes IsTask reader.old) (λ t. ReadAs task_bytes IsTask reader.old t reader.new) }
{
    match reader.byte()? {
        0 => Some(TaskId::Show),
        1 => Some(TaskId::Of(read_name(reader)?)),
        _ => None,
    }
}

/// What stands behind the first byte of the record of a report that was dropped.
pub fn read_dropped(reader: &mut Reader) -> Option<Record>
    ensures { MatchOption result (NoneAs record_body (IsOfKind record_tag IsRecord 68) reader.old)
        (λ r. ReadAs record_body (IsOfKind record_tag IsRecord 68) reader.old (record_view r) reader.new) }
{
    let number = read_long(reader)?;
    Some(Record::Dropped { number })
}
