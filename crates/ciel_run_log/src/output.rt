//! What is written of an answer: the answer itself, or that of a generated job in a summary of one line.

ghost use Rattle.std.specs.Prelude.{◌≤◌, OnErr, OnOk};
ghost use Rattle.ciel_io.specs.Faults.{HasRisen};
ghost use Rattle.ciel_io.specs.Tells.{Tells, TellsPart};
ghost use Rattle.ciel_run_log.specs.Summary.{output_of, summary};

use crate::text::put_hex;
use ciel_io::pieces::put_all;
use ciel_io::sink::{Failed, Sink};
use ciel_name::name::mark;
use itoa::Buffer;
use line_kit::counts::lines_in;

/// Puts the answer of a line on the output: as it is, or in a summary where the job was generated, of so many lines. It takes no memory.
///
/// Answers `Failed` only where the count of faults of the output rose, and a prefix was written.
pub fn put_answer<O: Sink>(generate: Option<u32>, answer: &[u8], out: &mut O) -> Result<(), Failed>
    ensures written { OnOk result (Tells (O.written out.old) (O.written out.new) (output_of generate answer.now)) }
    ensures part { OnErr result (TellsPart (O.written out.old) (O.written out.new) (output_of generate answer.now)) }
    ensures cause { OnErr result (HasRisen (O.faults out.old) (O.faults out.new)) }
    ensures never_falls { O.faults out.old ≤ O.faults out.new }
{
    match generate {
        None => out.put(answer),
        Some(count) => put_summary(count, answer, out),
    }
}

/// Puts the summary of the answer of a generated job.
fn put_summary<O: Sink>(count: u32, answer: &[u8], out: &mut O) -> Result<(), Failed>
    ensures written { OnOk result (Tells (O.written out.old) (O.written out.new) (summary count answer.now)) }
    ensures part { OnErr result (TellsPart (O.written out.old) (O.written out.new) (summary count answer.now)) }
    ensures cause { OnErr result (HasRisen (O.faults out.old) (O.faults out.new)) }
    ensures never_falls { O.faults out.old ≤ O.faults out.new }
{
    let mut count_digits = Buffer::new();
    let mut kinds_digits = Buffer::new();
    let count = count_digits.format(count);
    let kinds = kinds_digits.format(lines_in(answer));
    put_all(out, &["lines ", count, " kinds ", kinds, " mark "])?;
    put_hex(out, &mark(answer))?;
    out.put(b"\n")?;
    Ok(())
}
