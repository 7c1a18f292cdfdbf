//! The end of a report's record.

ghost use Rattle.std.specs.Prelude.{◌≡◌, ◌++◌, IfOk};
ghost use Rattle.sky_base.specs.ObjectView.{object_view};
ghost use Rattle.ciel_name.specs.Object.{object_bytes};
ghost use Rattle.ciel_log_records.specs.Records.{block, end_bytes};
ghost use Rattle.ciel_log_records.specs.Records.HowEnded.{answered, failed, missing, saved};

use crate::parts::{put_block, put_name};
use ciel_name::object::{kind_number, object_bytes};
use ciel_name::writer::Writer;
use sky_base::fault::Fault;
use sky_base::name::Name;
use sky_base::object::Object;
use sky_base::text::Memory;
use std::alloc::Global;

/// Writes an object as a block. The end of a task that came to its end is `01`, the count of its outputs, and each so.
pub fn put_object(alloc: Global, out: &mut Writer, object: &Object) -> Result<(), Memory>
    ensures { IfOk result (λ _. out.new ≡ out.old ++ block (object_bytes (object_view object.now))) }
{
    let bytes = object_bytes(alloc, object)?;
    put_block(out, bytes.as_slice())
}

/// Writes the end of a task that waits: `02`, the number of the wait in four bytes, and the bytes of its stack as a block.
pub fn put_saved(out: &mut Writer, j: u32, stack: &[u8]) -> Result<(), Memory>
    ensures { IfOk result (λ _. out.new ≡ out.old ++ end_bytes (saved j stack.now)) }
{
    out.byte(2)?;
    out.number(j)?;
    put_block(out, stack)
}

/// Writes the end of the root task with an answer: `03`, and its bytes as a block.
pub fn put_answer(out: &mut Writer, bytes: &[u8]) -> Result<(), Memory>
    ensures { IfOk result (λ _. out.new ≡ out.old ++ end_bytes (answered bytes.now)) }
{
    out.byte(3)?;
    put_block(out, bytes)
}

/// Writes the end of the root task with a fault: `04`, the place of its kind among the kinds in one byte, its line and its column in four
/// bytes each.
pub fn put_fault(out: &mut Writer, fault: &Fault) -> Result<(), Memory>
    ensures { IfOk result (λ _. out.new ≡ out.old ++ end_bytes (failed fault.now)) }
{
    out.byte(4)?;
    out.byte(kind_number(fault.kind))?;
    out.number(fault.line)?;
    out.number(fault.col)
}

/// Writes the end of an order that found an object missing: `05`, its name, and the number of the loss in four bytes.
pub fn put_missing(out: &mut Writer, name: &Name, loss: u32) -> Result<(), Memory>
    ensures { IfOk result (λ _. out.new ≡ out.old ++ end_bytes (missing name.now loss)) }
{
    out.byte(5)?;
    put_name(out, name)?;
    out.number(loss)
}
