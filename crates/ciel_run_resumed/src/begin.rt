//! A log is replayed, and begun again with what stands whole in it.

ghost use Rattle.std.specs.Prelude.{◌≡◌, ◌≤◌, ◌⊎◌, ◌∷◌, [], IfErr, IfOk, OnOk, length};
ghost use Rattle.ciel_io.specs.Faults.{HasRisen};
ghost use Rattle.ciel_io.specs.Kept.{Changes, Replaced};
ghost use Rattle.ciel_io.specs.Tells.{Tells};
ghost use Rattle.ciel_log_law.specs.Logging.{most};
ghost use Rattle.ciel_log_records.specs.Records.{in_file};
ghost use Rattle.ciel_run_resumed.specs.Resuming.{standing_bytes};
ghost use Rattle.ciel_run_resumed.specs.declared.begin.NotAgain.{NotAgain as Why};

use ciel_io::keep::Keep;
use ciel_log_records::parts::put_block;
use ciel_name::writer::Writer;
use sky_base::text::{Memory, Txt};
use std::alloc::Global;

/// Why a log wasn't begun again.
#[derive(Drop)]
pub enum NotAgain {
    /// The keeper failed.
    Failed,
    /// Want of memory.
    Memory,
}

/// The header as it stands in the file.
fn first(alloc: Global, header: &[u8]) -> Result<Writer, Memory>
    ensures { IfOk result (λ out. out ≡ in_file header.now) }
{
    let mut out = Writer::new(alloc);
    put_block(&mut out, header)?;
    Ok(out)
}

/// Puts the whole records of a log, which are its first so many bytes, in the place of what stands at a path; the header, where there are none.
/// Answers how many bytes stand there then.
pub(crate) fn begin_again<D: Keep>(
    alloc: Global,
    keep: &mut D,
    path: &Txt,
    header: &[u8],
    log: &[u8],
    whole: u64,
) -> Result<u64, NotAgain>
    requires whole { whole ≤ length log.now }
    requires short { length (in_file header.now) ≤ most }
    requires log { length log.now ≤ most }
    ensures held { IfOk result (λ held. held ≤ most) }
    ensures size { IfOk result (λ held. held ≡ length (standing_bytes header.now log.now whole)) }
    ensures begun { OnOk result (Changes (D.files keep.old) (D.files keep.new) path.now (Replaced (standing_bytes header.now log.now whole))) }
    ensures asked { OnOk result (Tells (D.asked keep.old) (D.asked keep.new) (path.now ∷ [])) }
    ensures never_falls { D.faults keep.old ≤ D.faults keep.new }
    ensures failed { IfErr result (λ why. (why ≡ Why.Memory) ⊎ ((why ≡ Why.Failed)
        × HasRisen (D.faults keep.old) (D.faults keep.new) × Tells (D.asked keep.old) (D.asked keep.new) (path.now ∷ []))) }
{
    if whole == 0 {
        let Ok(first) = first(alloc, header) else {
            return Err(NotAgain::Memory);
        };
        return put(keep, path, first.as_slice());
    }
    put(keep, path, &log[..whole as usize])
}

/// Puts a piece in the place of what stands at a path. Answers how many bytes it has.
fn put<D: Keep>(keep: &mut D, path: &Txt, piece: &[u8]) -> Result<u64, NotAgain>
    ensures size { IfOk result (λ held. held ≡ length piece.now) }
    ensures begun { OnOk result (Changes (D.files keep.old) (D.files keep.new) path.now (Replaced piece.now)) }
    ensures asked { Tells (D.asked keep.old) (D.asked keep.new) (path.now ∷ []) }
    ensures never_falls { D.faults keep.old ≤ D.faults keep.new }
    ensures failed { IfErr result (λ why. (why ≡ Why.Failed) × HasRisen (D.faults keep.old) (D.faults keep.new)) }
{
    match keep.replace(path, piece) {
        Ok(()) => Ok(piece.len() as u64),
        Err(_) => Err(NotAgain::Failed),
    }
}
