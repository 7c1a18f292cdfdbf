//! The header of a line's log, and how the log is begun with it.

ghost use Rattle.std.specs.Prelude.{◌≡◌, ◌≤◌, ◌⊎◌, ◌∷◌, [], ℕ, List, IfErr, IfOk, OnOk, length};
ghost use Rattle.std.specs.List.{AllByRecursion};
ghost use Rattle.ciel_io.specs.Kept.{Changes, Replaced};
ghost use Rattle.ciel_io.specs.Tells.{Tells};
ghost use Rattle.ciel_words.specs.Inputs.{most_inputs, most_name};
ghost use Rattle.ciel_words.specs.Values.{most_losses};
ghost use Rattle.ciel_io.specs.Faults.{HasRisen};
ghost use Rattle.ciel_log.specs.Logging.{most};
ghost use Rattle.ciel_log_records.specs.Records.{header_record, in_file};
ghost use Rattle.ciel_run_line.specs.Keeping.{header_of, is_short};
ghost use Rattle.ciel_run_log.specs.declared.why.Why.{Why};

use ciel_io::keep::Keep;
use ciel_log_records::header::put_header;
use ciel_log_records::parts::put_block;
use ciel_name::writer::Writer;
use ciel_run_log::why::Why;
use ciel_run_logged::run::Begins;
use ciel_words::words::{NameKind, Words};
use sky_base::job::Job;
use sky_base::text::{Memory, Txt};
use std::alloc::Global;

// Whether names have 20 bytes.
fn is_short(names: NameKind) -> bool
    ensures { result ≡ is_short names }
{
    names == NameKind::Sha1
}

/// The header of a line's log.
pub(crate) fn header(
    alloc: Global,
    line: &Words,
    source: &[u8],
    job: &Job,
) -> Result<Writer, Memory>
    ensures { IfOk result (λ out. out ≡ header_of line.now source.now job.now.inputs) }
{
    let mut record = Writer::new(alloc);
    put_header(
        &mut record,
        line.workers,
        line.seed,
        line.losses.as_slice(),
        is_short(line.names),
        source,
        job.inputs.as_slice(),
    )?;
    Ok(record)
}

// The same, as it stands in the file.
fn header_in_file(alloc: Global, line: &Words, source: &[u8], job: &Job) -> Result<Writer, Memory>
    ensures { IfOk result (λ out. out ≡ in_file (header_of line.now source.now job.now.inputs)) }
{
    let record = header(alloc, line, source, job)?;
    let mut out = Writer::new(alloc);
    put_block(&mut out, record.as_slice())?;
    Ok(out)
}

/// Begins the log of a line's run: its header comes in the place of what stands at the path.
///
/// Answers `KeepFault` where the keeper failed, and `Memory` for want of memory.
pub(crate) fn begin_log<D: Keep>(
    alloc: Global,
    line: &Words,
    path: &Txt,
    source: &[u8],
    job: &Job,
    keep: &mut D,
) -> Result<Begins, Why>
    requires few { length job.now.inputs ≤ most_inputs }
    requires keys { AllByRecursion (λ (i : List ℕ × List ℕ). length i.0 ≤ most_name) job.now.inputs }
    requires losses { length line.now.losses ≤ most_losses }
    ensures path { IfOk result (λ log. log.path ≡ path.now) }
    ensures held { IfOk result (λ log. log.held ≤ most) }
    ensures size { IfOk result (λ log. log.held ≡ length (in_file (header_of line.now source.now job.now.inputs))) }
    ensures begun { OnOk result (Changes (D.files keep.old) (D.files keep.new) path.now
        (Replaced (in_file (header_of line.now source.now job.now.inputs)))) }
    ensures asked { OnOk result (Tells (D.asked keep.old) (D.asked keep.new) (path.now ∷ [])) }
    ensures never_falls { D.faults keep.old ≤ D.faults keep.new }
    ensures failed { IfErr result (λ why. (why ≡ Why.Memory) ⊎ ((why ≡ Why.KeepFault path.now)
        × HasRisen (D.faults keep.old) (D.faults keep.new) × Tells (D.asked keep.old) (D.asked keep.new) (path.now ∷ []))) }
{
    let (Ok(header), Ok(path)) = (header_in_file(alloc, line, source, job), path.share()) else {
        return Err(Why::Memory);
    };
    match keep.replace(&path, header.as_slice()) {
        Ok(()) => Ok(Begins {
            path,
            held: header.as_slice().len() as u64,
        }),
        Err(_) => Err(Why::KeepFault { path }),
    }
}
