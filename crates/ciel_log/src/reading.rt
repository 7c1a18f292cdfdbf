//! The record of a report, whose blocks an eye reads where they lie.

ghost use Rattle.std.specs.Prelude.{◌≡◌, ◌<◌, ◌^◌, ◌++◌, ℕ, IfOk, MatchResult, length, map};
ghost use Rattle.sky_base.specs.Tree.{Script};
ghost use Rattle.sky_base_law.specs.Tasks.{Each};
ghost use Rattle.sky_frozen_bytes.specs.Bytes.{frozen_bytes};
ghost use Rattle.sky_state.specs.Stand.{Stand};
ghost use Rattle.ciel_name.specs.Object.{object_bytes};
ghost use Rattle.ciel_store.specs.Seen.{IsPlaceOf};
ghost use Rattle.ciel_task_order.specs.Places.{EndAt};
ghost use Rattle.ciel_task_order.specs.Shop.{block_view, Block as block_seen};
ghost use Rattle.ciel_log_records.specs.Records.{HowEnded as how, block, dropped_record, end_bytes};
ghost use Rattle.ciel_name.specs.Spelled.{IsName};
ghost use Rattle.ciel_name_law.specs.Told.{ObjectTold};
ghost use Rattle.sky_base.specs.Val.{known};
ghost use Rattle.ciel_task_order.specs.declared.block.Held.{Held as HeldSeen};
ghost use Rattle.ciel_log.specs.Logging.{EndTyped, GivesPlace, IsRecordOf, shown_end, told_copies};
ghost use Rattle.ciel_log.specs.Reading.{AllAt, IsStack, OutputThere, PutEnd, Sees, object_of};

use ciel_log_records::end::{put_answer, put_fault, put_missing, put_object, put_saved};
use ciel_log_records::report::put_opening;
use ciel_log_records::start::put_dropped;
use ciel_name::writer::Writer;
use ciel_name_law::read::{read_all, read_fault, read_name, read_object};
use ciel_store::seats::Eye;
use ciel_store::shelves::{Gone, Place, Shelves};
use ciel_task_order::block::{Block, Held};
use ciel_task_order::report::{End, Made, Report};
use sky_base::text::Memory;
use sky_state::shown::Shown;
use std::alloc::Global;

/// The record of a report. It tells the report whole, or that the worker of its places is lost.
///
/// Answers `Memory` for want of memory.
pub(crate) fn record_of(
    alloc: Global,
    shelves: &Shelves<Block>,
    eye: &mut Eye,
    report: &Report,
) -> Result<Writer, Memory>
    requires of { eye.old.of ≡ shelves.now.of }
    requires places { (sc : Script) × EndAt shelves.now report.now.worker sc report.now.task report.now.end }
    ensures of { eye.new.of ≡ eye.old.of }
    ensures record { IfOk result (IsRecordOf report.now eye.old.losses eye.new.losses) }
{
    let mut out = Writer::new(alloc);
    let number = report.number;
    read_all(report.spawned.as_slice());
    let copies = copies_told(report);
    read_names(copies);
    put_opening(alloc, &mut out, number, report.spawned.as_slice(), copies)?;
    match put_end(alloc, &mut out, shelves, eye, report)? {
        Ok(()) => Ok(out),
        Err(_) => {
            let dropped = dropped(alloc, report.number)?;
            Ok(dropped)
        }
    }
}

// What was copied, where that is told.
fn copies_told(report: &Report) -> &[Held]
    ensures { map (λ h. h.name) result.now ≡ told_copies report.now }
{
    match &report.end {
        End::Made(_) | End::Shown(_) => report.copied.as_slice(),
        _ => &[],
    }
}

// Reads the names of what was copied.
fn read_names(copies: &[Held])
    ensures told { Each (λ (h : HeldSeen). IsName (known h.name)) copies.now }
{
    for held in copies {
        read_name(&held.name);
    }
}

// The record of a report whose worker is lost.
fn dropped(alloc: Global, number: u64) -> Result<Writer, Memory>
    ensures { IfOk result (λ out. out ≡ dropped_record number) }
{
    let mut out = Writer::new(alloc);
    put_dropped(&mut out, number)?;
    Ok(out)
}

// Writes the end of a report, as far as the eye sees no loss at its places.
fn put_end(
    alloc: Global,
    out: &mut Writer,
    shelves: &Shelves<Block>,
    eye: &mut Eye,
    report: &Report,
) -> Result<Result<(), Gone>, Memory>
    requires of { eye.old.of ≡ shelves.now.of }
    requires places { (sc : Script) × EndAt shelves.now report.now.worker sc report.now.task report.now.end }
    ensures of { eye.new.of ≡ eye.old.of }
    ensures put { IfOk result (λ r. MatchResult r (λ _. PutEnd report.now.end out.old out.new × (eye.new ≡ eye.old))
        (λ gone. GivesPlace report.now.end × Sees report.now.worker eye.old eye.new gone.loss)) }
{
    match &report.end {
        End::Made(made) => {
            let put = put_outputs(alloc, out, shelves, eye, made.as_slice())?;
            Ok(put)
        }
        End::Saved { frozen, j, .. } => {
            let put = put_stack(out, shelves, eye, frozen, *j)?;
            Ok(put)
        }
        End::Shown(shown) => {
            put_shown(out, shown)?;
            Ok(Ok(()))
        }
        End::Missing { name, loss, .. } => {
            let number = loss.number;
            read_name(name);
            put_missing(out, name, number)?;
            Ok(Ok(()))
        }
    }
}

// Writes the end of a task that came to its end.
#[tactic(auto, using(ciel_name::proofs::Numbers::appends, ciel_log_records::proofs::Counted::spelled))]
fn put_outputs(
    alloc: Global,
    out: &mut Writer,
    shelves: &Shelves<Block>,
    eye: &mut Eye,
    outputs: &[Made],
) -> Result<Result<(), Gone>, Memory>
    requires of { eye.old.of ≡ shelves.now.of }
    requires places { Each (OutputThere shelves.now) outputs.now }
    ensures of { eye.new.of ≡ eye.old.of }
    ensures put { IfOk result (λ r. MatchResult r
        (λ _. Each ObjectTold (map object_of outputs.now) × (out.new ≡ out.old ++ end_bytes (how.made (map object_of outputs.now)))
        × (eye.new ≡ eye.old))
        (λ gone. (0 < length outputs.now) × ((worker : ℕ) → AllAt worker outputs.now → Sees worker eye.old eye.new gone.loss))) }
{
    out.byte(1)?;
    out.count(outputs.len())?;
    for output in outputs {
        match put_output(alloc, out, shelves, eye, output)? {
            Ok(()) => {}
            Err(gone) => return Ok(Err(gone)),
        }
    }
    Ok(Ok(()))
}

// Writes the object of an output.
fn put_output(
    alloc: Global,
    out: &mut Writer,
    shelves: &Shelves<Block>,
    eye: &mut Eye,
    output: &Made,
) -> Result<Result<(), Gone>, Memory>
    requires of { eye.old.of ≡ shelves.now.of }
    requires place { OutputThere shelves.now output.now }
    ensures of { eye.new.of ≡ eye.old.of }
    ensures put { IfOk result (λ r. MatchResult r
        (λ _. ObjectTold (object_of output.now) × (out.new ≡ out.old ++ block (object_bytes (object_of output.now))) × (eye.new ≡ eye.old))
        (λ gone. Sees output.now.place.worker eye.old eye.new gone.loss)) }
{
    match shelves.fetch(&output.place, eye) {
        Ok(Block::Object(object)) => {
            read_object(object);
            put_object(alloc, out, object)?;
            Ok(Ok(()))
        }
        Ok(Block::Frozen(_)) => unreachable!(),
        Err(gone) => Ok(Err(gone)),
    }
}

// Writes the end of a task that waits.
fn put_stack(
    out: &mut Writer,
    shelves: &Shelves<Block>,
    eye: &mut Eye,
    place: &Place<Block>,
    j: u32,
) -> Result<Result<(), Gone>, Memory>
    requires of { eye.old.of ≡ shelves.now.of }
    requires place { IsPlaceOf shelves.now place.now }
    requires stack { IsStack place.now.at.value }
    ensures of { eye.new.of ≡ eye.old.of }
    ensures put { IfOk result (λ r. MatchResult r
        (λ _. ((s : Stand _) × (block_view place.now.at.value ≡ block_seen.stack s)
        × (out.new ≡ out.old ++ end_bytes (how.saved j (frozen_bytes s)))) × (j < 2 ^ 32) × (eye.new ≡ eye.old))
        (λ gone. Sees place.now.worker eye.old eye.new gone.loss)) }
{
    match shelves.fetch(place, eye) {
        Ok(Block::Frozen(frozen)) => {
            put_saved(out, j, frozen.bytes())?;
            Ok(Ok(()))
        }
        Ok(Block::Object(_)) => unreachable!(),
        Err(gone) => Ok(Err(gone)),
    }
}

// Writes the end of the root task.
fn put_shown(out: &mut Writer, shown: &Shown) -> Result<(), Memory>
    ensures put { IfOk result (λ _. out.new ≡ out.old ++ end_bytes (shown_end shown.now)) }
    ensures told { EndTyped (shown_end shown.now) }
{
    match shown {
        Shown::Text(bytes) => put_answer(out, bytes.as_slice()),
        Shown::Fault(fault) => {
            read_fault(fault);
            put_fault(out, fault)
        }
    }
}
