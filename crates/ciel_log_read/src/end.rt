//! The end of a report's record. No room is made for a count before what it counts is there.

ghost use Rattle.std.specs.Prelude.{IfErr, IfOk, map};
ghost use Rattle.sky_base.specs.ObjectView.{object_view};
ghost use Rattle.sky_frozen_bytes.specs.Codes.{Counted, NoneAs, ReadAs};
ghost use Rattle.ciel_name.specs.Object.{object_bytes};
ghost use Rattle.ciel_name.specs.Spelled.{Refuses};
ghost use Rattle.ciel_log_records.specs.Records.{block, counted, end_bytes};
ghost use Rattle.ciel_log_read.specs.Bodies.{IsOfKind, end_body, end_tag};
ghost use Rattle.ciel_log_read.specs.Recorded.{FitsBlock, IsEnd, IsOutput};
ghost use Rattle.ciel_log_read.specs.View.{end_view};

use crate::parts::{read_block, read_name, read_number};
use crate::record::LoggedEnd;
use ciel_name::read_object::read_object;
use ciel_name::reader::Reader;
use ciel_name::refusal::Decode;
use sky_base::object::Object;
use sky_base::text::Bytes;
use std::alloc::Global;

/// How an order ended.
pub fn read_end(alloc: Global, reader: &mut Reader) -> Result<LoggedEnd, Decode>
    ensures end { IfOk result (λ e. ReadAs end_bytes IsEnd reader.old (end_view e) reader.new) }
    ensures refused { IfErr result (λ e. Refuses e (NoneAs end_bytes IsEnd reader.old)) }
{
    let Some(kind) = reader.byte() else {
        return Err(Decode::NotValue);
    };
    match read_kind(alloc, reader, kind) {
        Ok(end) => Ok(end),
        Err(refusal) => Err(refusal),
    }
}

/// What stands behind the first byte of an end.
fn read_kind(alloc: Global, reader: &mut Reader, kind: u8) -> Result<LoggedEnd, Decode>
    ensures end { IfOk result (λ e. ReadAs end_body (IsOfKind end_tag IsEnd kind) reader.old (end_view e) reader.new) }
    ensures refused { IfErr result (λ e. Refuses e (NoneAs end_body (IsOfKind end_tag IsEnd kind) reader.old)) }
{
    match kind {
        1 => read_made(alloc, reader),
        2 => read_saved(alloc, reader),
        3 => read_answer(alloc, reader),
        4 => read_fault(alloc, reader),
        5 => read_missing(reader),
        _ => Err(Decode::NotValue),
    }
}

/// The objects of a task's outputs.
fn read_made(alloc: Global, reader: &mut Reader) -> Result<LoggedEnd, Decode>
    ensures end { IfOk result (λ e. ReadAs end_body (IsOfKind end_tag IsEnd 1) reader.old (end_view e) reader.new) }
    ensures refused { IfErr result (λ e. Refuses e (NoneAs end_body (IsOfKind end_tag IsEnd 1) reader.old)) }
{
    match read_objects(alloc, reader) {
        Ok(objects) => Ok(LoggedEnd::Made(objects)),
        Err(refusal) => Err(refusal),
    }
}

/// Objects, behind their number.
fn read_objects(alloc: Global, reader: &mut Reader) -> Result<Vec<Object>, Decode>
    ensures objects { IfOk result (λ os. ReadAs (counted (λ o. block (object_bytes o))) (Counted IsOutput) reader.old (map object_view os.items)
        reader.new) }
    ensures refused { IfErr result (λ e. Refuses e (NoneAs (counted (λ o. block (object_bytes o))) (Counted IsOutput) reader.old)) }
{
    let Some(count) = reader.number() else {
        return Err(Decode::NotValue);
    };
    let mut objects = Vec::new(alloc);
    for _one in 0..count {
        let object = match read_one(alloc, reader) {
            Ok(object) => object,
            Err(refusal) => return Err(refusal),
        };
        let Ok(()) = objects.push(object) else {
            return Err(Decode::Memory);
        };
    }
    Ok(objects)
}

/// An object whose bytes stand as a block.
fn read_one(alloc: Global, reader: &mut Reader) -> Result<Object, Decode>
    ensures object { IfOk result (λ o. ReadAs (λ o. block (object_bytes o)) IsOutput reader.old (object_view o) reader.new) }
    ensures refused { IfErr result (λ e. Refuses e (NoneAs (λ o. block (object_bytes o)) IsOutput reader.old)) }
{
    let Some(bytes) = read_block(reader) else {
        return Err(Decode::NotValue);
    };
    match read_object(alloc, bytes) {
        Ok(object) => Ok(object),
        Err(refusal) => Err(refusal),
    }
}

/// A wait and a stack.
fn read_saved(alloc: Global, reader: &mut Reader) -> Result<LoggedEnd, Decode>
    ensures end { IfOk result (λ e. ReadAs end_body (IsOfKind end_tag IsEnd 2) reader.old (end_view e) reader.new) }
    ensures refused { IfErr result (λ e. Refuses e (NoneAs end_body (IsOfKind end_tag IsEnd 2) reader.old)) }
{
    let Some(j) = read_number(reader) else {
        return Err(Decode::NotValue);
    };
    match read_bytes(alloc, reader) {
        Ok(stack) => Ok(LoggedEnd::Saved { j, stack }),
        Err(refusal) => Err(refusal),
    }
}

/// The answer of the root task.
fn read_answer(alloc: Global, reader: &mut Reader) -> Result<LoggedEnd, Decode>
    ensures end { IfOk result (λ e. ReadAs end_body (IsOfKind end_tag IsEnd 3) reader.old (end_view e) reader.new) }
    ensures refused { IfErr result (λ e. Refuses e (NoneAs end_body (IsOfKind end_tag IsEnd 3) reader.old)) }
{
    match read_bytes(alloc, reader) {
        Ok(bytes) => Ok(LoggedEnd::Answer(bytes)),
        Err(refusal) => Err(refusal),
    }
}

/// A copy of the bytes that stand behind their number.
fn read_bytes(alloc: Global, reader: &mut Reader) -> Result<Bytes, Decode>
    ensures bytes { IfOk result (λ b. ReadAs block FitsBlock reader.old b reader.new) }
    ensures refused { IfErr result (λ e. Refuses e (NoneAs block FitsBlock reader.old)) }
{
    let Some(held) = read_block(reader) else {
        return Err(Decode::NotValue);
    };
    let Ok(bytes) = Vec::from_slice(alloc, held) else {
        return Err(Decode::Memory);
    };
    Ok(Bytes::new(alloc, bytes)?)
}

/// The fault of the root task. It has the bytes that its object has behind the first one.
fn read_fault(alloc: Global, reader: &mut Reader) -> Result<LoggedEnd, Decode>
    ensures end { IfOk result (λ e. ReadAs end_body (IsOfKind end_tag IsEnd 4) reader.old (end_view e) reader.new) }
    ensures refused { IfErr result (λ e. Refuses e (NoneAs end_body (IsOfKind end_tag IsEnd 4) reader.old)) }
{
    let Some(bytes) = reader.array::<9>() else {
        return Err(Decode::NotValue);
    };
    let mut encoded = [b'F'; 10];
    encoded[1..].copy_from_slice(bytes.as_slice());
    let object = match read_object(alloc, encoded.as_slice()) {
        Ok(object) => object,
        Err(refusal) => return Err(refusal),
    };
    match &object {
        Object::Fault(fault) => Ok(LoggedEnd::Fault(*fault)),
        _ => Err(Decode::NotValue),
    }
}

/// The name of what was missing, and the number of the loss.
fn read_missing(reader: &mut Reader) -> Result<LoggedEnd, Decode>
    ensures end { IfOk result (λ e. ReadAs end_body (IsOfKind end_tag IsEnd 5) reader.old (end_view e) reader.new) }
    ensures refused { IfErr result (λ e. Refuses e (NoneAs end_body (IsOfKind end_tag IsEnd 5) reader.old)) }
{
    let Some(name) = read_name(reader) else {
        return Err(Decode::NotValue);
    };
    let Some(loss) = read_number(reader) else {
        return Err(Decode::NotValue);
    };
    Ok(LoggedEnd::Missing { name, loss })
}
