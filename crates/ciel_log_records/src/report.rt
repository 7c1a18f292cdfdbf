//! What the record of a report begins with.

ghost use Rattle.std.specs.Prelude.{◌≡◌, ◌++◌, ◌∷◌, IfOk, map};
ghost use Rattle.sky_base.specs.Name.{big_endian, canon, name_bytes};
ghost use Rattle.sky_base.specs.ObjectView.{desc_view};
ghost use Rattle.ciel_log_records.specs.Records.{block, counted, report_opening};

use crate::parts::{put_block, put_long, put_name};
use ciel_name::object::canon;
use ciel_name::writer::Writer;
use ciel_task_order::block::Held;
use sky_base::object::Named;
use sky_base::text::Memory;
use std::alloc::Global;

/// Writes the opening of a report's record: `52`, its number in eight bytes, the count of the spawned descriptions and the canonical bytes of
/// each as a block, the count of the copied objects and the name of each. What stands behind it is the end.
#[tactic(auto, using(ciel_name::proofs::Numbers::appends))]
pub fn put_opening(
    alloc: Global,
    out: &mut Writer,
    number: u64,
    spawned: &[Named],
    copied: &[Held],
) -> Result<(), Memory>
    ensures { IfOk result (λ _. out.new ≡ out.old
        ++ report_opening number (map (λ n. desc_view n.desc) spawned.now) (map (λ h. h.name) copied.now)) }
{
    put_number(out, number)?;
    put_spawned(alloc, out, spawned)?;
    put_copied(out, copied)?;
    Ok(())
}

#[tactic(auto, using(ciel_name::proofs::Numbers::appends))]
fn put_number(out: &mut Writer, number: u64) -> Result<(), Memory>
    ensures { IfOk result (λ _. out.new ≡ out.old ++ (82 ∷ big_endian 8 number)) }
{
    out.byte(b'R')?;
    put_long(out, number)
}

#[tactic(auto, using(ciel_name::proofs::Numbers::appends, crate::proofs::Counted::spelled))]
fn put_spawned(alloc: Global, out: &mut Writer, spawned: &[Named]) -> Result<(), Memory>
    ensures { IfOk result (λ _. out.new ≡ out.old ++ counted (λ d. block (canon d)) (map (λ n. desc_view n.desc) spawned.now)) }
{
    out.count(spawned.len())?;
    for named in spawned {
        let bytes = canon(alloc, &named.desc)?;
        put_block(out, bytes.as_slice())?;
    }
    Ok(())
}

#[tactic(auto, using(ciel_name::proofs::Numbers::appends, crate::proofs::Counted::spelled))]
fn put_copied(out: &mut Writer, copied: &[Held]) -> Result<(), Memory>
    ensures { IfOk result (λ _. out.new ≡ out.old ++ counted name_bytes (map (λ h. h.name) copied.now)) }
{
    out.count(copied.len())?;
    for held in copied {
        put_name(out, &held.name)?;
    }
    Ok(())
}
