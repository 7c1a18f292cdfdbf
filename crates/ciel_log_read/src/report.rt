//! The record of a report. No room is made for a count before what it counts is there.

ghost use Rattle.std.specs.Prelude.{IfErr, IfOk, map};
ghost use Rattle.sky_base.specs.Name.{canon, name_bytes};
ghost use Rattle.sky_base.specs.ObjectView.{desc_view};
ghost use Rattle.sky_frozen_bytes.specs.Codes.{Counted, NoneAs, ReadAs};
ghost use Rattle.ciel_name.specs.Spelled.{Refuses};
ghost use Rattle.ciel_log_records.specs.Records.{block, counted};
ghost use Rattle.ciel_log_read.specs.Bodies.{IsOfKind, record_body, record_tag};
ghost use Rattle.ciel_log_read.specs.Recorded.{IsNamed, IsRecord, IsSpawned};
ghost use Rattle.ciel_log_read.specs.View.{report_view};

use crate::end::read_end;
use crate::parts::{read_block, read_long, read_name, read_number};
use crate::record::LoggedReport;
use ciel_name::read_object::read_desc;
use ciel_name::reader::Reader;
use ciel_name::refusal::Decode;
use sky_base::name::Name;
use sky_base::object::Desc1;
use std::alloc::Global;

/// What stands behind the first byte of a report's record.
pub fn read_report(alloc: Global, reader: &mut Reader) -> Result<LoggedReport, Decode>
    ensures report { IfOk result (λ r. ReadAs record_body (IsOfKind record_tag IsRecord 82) reader.old (report_view r) reader.new) }
    ensures refused { IfErr result (λ e. Refuses e (NoneAs record_body (IsOfKind record_tag IsRecord 82) reader.old)) }
{
    let Some(number) = read_long(reader) else {
        return Err(Decode::NotValue);
    };
    let spawned = match read_spawned(alloc, reader) {
        Ok(spawned) => spawned,
        Err(refusal) => return Err(refusal),
    };
    let copied = match read_copied(alloc, reader) {
        Ok(copied) => copied,
        Err(refusal) => return Err(refusal),
    };
    let end = match read_end(alloc, reader) {
        Ok(end) => end,
        Err(refusal) => return Err(refusal),
    };
    Ok(LoggedReport {
        number,
        spawned,
        copied,
        end,
    })
}

/// The descriptions that were spawned, behind their number.
fn read_spawned(alloc: Global, reader: &mut Reader) -> Result<Vec<Desc1>, Decode>
    ensures spawned { IfOk result (λ ds. ReadAs (counted (λ d. block (canon d))) (Counted IsSpawned) reader.old (map desc_view ds.items) reader.new) }
    ensures refused { IfErr result (λ e. Refuses e (NoneAs (counted (λ d. block (canon d))) (Counted IsSpawned) reader.old)) }
{
    let Some(count) = reader.number() else {
        return Err(Decode::NotValue);
    };
    let mut spawned = Vec::new(alloc);
    for _one in 0..count {
        let desc = match read_one(alloc, reader) {
            Ok(desc) => desc,
            Err(refusal) => return Err(refusal),
        };
        let Ok(()) = spawned.push(desc) else {
            return Err(Decode::Memory);
        };
    }
    Ok(spawned)
}

/// A description whose canonical bytes stand as a block.
fn read_one(alloc: Global, reader: &mut Reader) -> Result<Desc1, Decode>
    ensures desc { IfOk result (λ d. ReadAs (λ d. block (canon d)) IsSpawned reader.old (desc_view d) reader.new) }
    ensures refused { IfErr result (λ e. Refuses e (NoneAs (λ d. block (canon d)) IsSpawned reader.old)) }
{
    let Some(bytes) = read_block(reader) else {
        return Err(Decode::NotValue);
    };
    match read_desc(alloc, bytes) {
        Ok(desc) => Ok(desc),
        Err(refusal) => Err(refusal),
    }
}

/// The names of the objects that were copied, behind their number.
fn read_copied(alloc: Global, reader: &mut Reader) -> Result<Vec<Name>, Decode>
    ensures copied { IfOk result (λ ns. ReadAs (counted name_bytes) (Counted IsNamed) reader.old ns.items reader.new) }
    ensures refused { IfErr result (λ e. Refuses e (NoneAs (counted name_bytes) (Counted IsNamed) reader.old)) }
{
    let Some(count) = reader.number() else {
        return Err(Decode::NotValue);
    };
    let mut copied = Vec::new(alloc);
    for _one in 0..count {
        let Some(name) = read_name(reader) else {
            return Err(Decode::NotValue);
        };
        let Ok(()) = copied.push(name) else {
            return Err(Decode::Memory);
        };
    }
    Ok(copied)
}
