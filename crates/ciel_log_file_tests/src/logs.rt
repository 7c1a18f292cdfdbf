// The logs of a script that returns 5, run by one worker: what stands whole in them, record by record.

use ciel_log_records::end::{put_answer, put_object};
use ciel_log_records::parts::put_block;
use ciel_log_records::report::put_opening;
use ciel_log_records::start::put_start;
use ciel_name::name::{Namer, Sha1Namer};
use ciel_name::object::canon;
use ciel_name::writer::Writer;
use sky_base::name::Name;
use sky_base::object::{Desc1, Object, TaskId};
use sky_base::text::{Memory, Txt};
use sky_base::value::{Pairs, Vals, Value};
use std::alloc::Global;

/// The record with which these logs begin.
pub static HEADER: [u8; 3] = [72, 1, 2];

/// A log of its header alone.
pub fn header(alloc: Global) -> Result<Writer, Memory> {
    let mut log = Writer::new(alloc);
    put_block(&mut log, HEADER.as_slice())?;
    Ok(log)
}

// The name of the main call.
fn main_name(alloc: Global) -> Result<Name, Memory> {
    let fun = Txt::new(alloc, "")?;
    let caught = Pairs::new(alloc);
    let args = Vals::new(alloc);
    let bytes = canon(alloc, &Desc1::Call { fun, caught, args })?;
    Ok(Sha1Namer.name(bytes.as_slice()))
}

/// Puts the Start of the main call at a worker behind it.
pub fn put_first(alloc: Global, log: &mut Writer, worker: u32) -> Result<(), Memory> {
    let mut record = Writer::new(alloc);
    let task = TaskId::Of(main_name(alloc)?);
    put_start(&mut record, 0, worker, 0, &task)?;
    put_block(log, record.as_slice())
}

/// Puts the report of the main call, with so many objects, behind it.
pub fn put_made(alloc: Global, log: &mut Writer, count: u32) -> Result<(), Memory> {
    let mut record = Writer::new(alloc);
    put_opening(alloc, &mut record, 0, &[], &[])?;
    record.byte(1)?;
    record.number(count)?;
    for _object in 0..count {
        put_object(alloc, &mut record, &Object::Data(Value::Int(5)))?;
    }
    put_block(log, record.as_slice())
}

/// Puts the Start of the root task, and its report, behind it.
pub fn put_last(alloc: Global, log: &mut Writer) -> Result<(), Memory> {
    let mut start = Writer::new(alloc);
    put_start(&mut start, 1, 0, 0, &TaskId::Show)?;
    put_block(log, start.as_slice())?;
    let mut report = Writer::new(alloc);
    put_opening(alloc, &mut report, 1, &[], &[])?;
    put_answer(&mut report, b"5\n")?;
    put_block(log, report.as_slice())
}
