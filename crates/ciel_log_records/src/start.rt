//! The record of a start, and that of a report that was dropped with its worker.

ghost use Rattle.std.specs.Prelude.{◌≡◌, ◌++◌, IfOk};
ghost use Rattle.sky_base.specs.Name.{big_endian};
ghost use Rattle.ciel_log_records.specs.Records.{dropped_record, start_record, task_bytes};

use crate::parts::{put_long, put_name};
use ciel_name::writer::Writer;
use sky_base::object::TaskId;
use sky_base::text::Memory;

/// Writes the record of a start: `53`, its number in eight bytes, its worker and the wait from which the task goes on in four each, then
/// `00` for the root task, or `01` and the task's name.
#[tactic(auto, using(ciel_name::proofs::Numbers::appends))]
pub fn put_start(
    out: &mut Writer,
    number: u64,
    worker: u32,
    from: u32,
    task: &TaskId,
) -> Result<(), Memory>
    ensures { IfOk result (λ _. out.new ≡ out.old ++ start_record number worker from task.now) }
{
    out.byte(b'S')?;
    put_numbers(out, number, worker, from)?;
    put_task(out, task)?;
    Ok(())
}

#[tactic(auto, using(ciel_name::proofs::Numbers::appends))]
fn put_numbers(out: &mut Writer, number: u64, worker: u32, from: u32) -> Result<(), Memory>
    ensures { IfOk result (λ _. out.new ≡ out.old ++ (big_endian 8 number ++ (big_endian 4 worker ++ big_endian 4 from))) }
{
    put_long(out, number)?;
    out.number(worker)?;
    out.number(from)?;
    Ok(())
}

fn put_task(out: &mut Writer, task: &TaskId) -> Result<(), Memory>
    ensures { IfOk result (λ _. out.new ≡ out.old ++ task_bytes task.now) }
{
    match task {
        TaskId::Show => out.byte(0),
        TaskId::Of(name) => {
            out.byte(1)?;
            put_name(out, name)
        }
    }
}

/// Writes the record of a report whose worker is lost: `44`, and its number in eight bytes.
pub fn put_dropped(out: &mut Writer, number: u64) -> Result<(), Memory>
    ensures { IfOk result (λ _. out.new ≡ out.old ++ dropped_record number) }
{
    out.byte(b'D')?;
    put_long(out, number)
}
