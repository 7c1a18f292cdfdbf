//! The lines of a journal's text, one for each entry.

ghost use Rattle.std.specs.Prelude.{◌≤◌, ◌++◌, OnOk, OnErr, length};
ghost use Rattle.hex.specs.Hex.{encode_lower};
ghost use Rattle.ciel_io.specs.Faults.{HasRisen};
ghost use Rattle.ciel_io.specs.Tells.{Tells, TellsPart};
ghost use Rattle.ciel_run_log.specs.Text.{entry_text, start_text, done_text, saved_text, missed_text, lost_text};
ghost use Rattle.ciel_run_log.specs.Text.{task_text, made_text, made_texts, copied_text, copied_texts};

use crate::text::put_hex;
use ciel_io::pieces::put_all;
use ciel_io::sink::{Failed, Sink};
use ciel_master::entry::Entry;
use itoa::Buffer;
use sky_base::name::Name;
use sky_base::object::TaskId;

/// Puts the digits of at most 32 bytes as one piece.
pub(crate) fn put_digits<J: Sink>(sink: &mut J, bytes: &[u8]) -> Result<(), Failed>
    requires { length bytes.now ≤ 32 }
    ensures written { OnOk result (Tells (J.written sink.old) (J.written sink.new) (encode_lower bytes.now)) }
    ensures part { OnErr result (TellsPart (J.written sink.old) (J.written sink.new) (encode_lower bytes.now)) }
    ensures cause { OnErr result (HasRisen (J.faults sink.old) (J.faults sink.new)) }
    ensures never_falls { J.faults sink.old ≤ J.faults sink.new }
{
    let mut room = [0u8; 64];
    let digits = &mut room[..2 * bytes.len()];
    let _ = hex::encode_to_slice(bytes, digits);
    sink.put(digits)
}

// Puts the text of a task: `show`, or the digits of its name.
fn put_task<J: Sink>(task: &TaskId, log: &mut J) -> Result<(), Failed>
    ensures written { OnOk result (Tells (J.written log.old) (J.written log.new) (task_text task.now)) }
    ensures part { OnErr result (TellsPart (J.written log.old) (J.written log.new) (task_text task.now)) }
    ensures cause { OnErr result (HasRisen (J.faults log.old) (J.faults log.new)) }
    ensures never_falls { J.faults log.old ≤ J.faults log.new }
{
    match task {
        TaskId::Show => log.put(b"show"),
        TaskId::Of(name) => put_hex(log, name.bytes()),
    }
}

// Puts the line of a Start.
fn put_start<J: Sink>(
    number: u64,
    worker: u32,
    task: &TaskId,
    from: u32,
    log: &mut J,
) -> Result<(), Failed>
    ensures written { OnOk result (Tells (J.written log.old) (J.written log.new) (start_text number worker task.now from)) }
    ensures part { OnErr result (TellsPart (J.written log.old) (J.written log.new) (start_text number worker task.now from)) }
    ensures cause { OnErr result (HasRisen (J.faults log.old) (J.faults log.new)) }
    ensures never_falls { J.faults log.old ≤ J.faults log.new }
{
    let mut number_digits = Buffer::new();
    let mut worker_digits = Buffer::new();
    let mut from_digits = Buffer::new();
    let number = number_digits.format(number);
    let worker = worker_digits.format(worker);
    let from = from_digits.format(from);
    put_all(log, &["start ", number, " ", worker, " "])?;
    put_task(task, log)?;
    put_all(log, &[" ", from, "\n"])
}

// Puts an output that was made, with its mark.
fn put_made<J: Sink>(made: &(Name, [u8; 20]), log: &mut J) -> Result<(), Failed>
    ensures written { OnOk result (Tells (J.written log.old) (J.written log.new) (made_text made.now)) }
    ensures part { OnErr result (TellsPart (J.written log.old) (J.written log.new) (made_text made.now)) }
    ensures cause { OnErr result (HasRisen (J.faults log.old) (J.faults log.new)) }
    ensures never_falls { J.faults log.old ≤ J.faults log.new }
{
    log.put(b" ")?;
    put_hex(log, made.0.bytes())?;
    log.put(b"=")?;
    put_hex(log, made.1.as_slice())
}

// Puts the outputs that were made.
fn put_each_made<J: Sink>(made: &[(Name, [u8; 20])], log: &mut J) -> Result<(), Failed>
    ensures written { OnOk result (Tells (J.written log.old) (J.written log.new) (made_texts made.now)) }
    ensures part { OnErr result (TellsPart (J.written log.old) (J.written log.new) (made_texts made.now)) }
    ensures cause { OnErr result (HasRisen (J.faults log.old) (J.faults log.new)) }
    ensures never_falls { J.faults log.old ≤ J.faults log.new }
{
    for output in made {
        put_made(output, log)?;
    }
    Ok(())
}

// Puts the name of a copy.
fn put_copied<J: Sink>(name: &Name, log: &mut J) -> Result<(), Failed>
    ensures written { OnOk result (Tells (J.written log.old) (J.written log.new) (copied_text name.now)) }
    ensures part { OnErr result (TellsPart (J.written log.old) (J.written log.new) (copied_text name.now)) }
    ensures cause { OnErr result (HasRisen (J.faults log.old) (J.faults log.new)) }
    ensures never_falls { J.faults log.old ≤ J.faults log.new }
{
    log.put(b" +")?;
    put_hex(log, name.bytes())
}

// Puts the names of the copies.
fn put_each_copied<J: Sink>(copied: &[Name], log: &mut J) -> Result<(), Failed>
    ensures written { OnOk result (Tells (J.written log.old) (J.written log.new) (copied_texts copied.now)) }
    ensures part { OnErr result (TellsPart (J.written log.old) (J.written log.new) (copied_texts copied.now)) }
    ensures cause { OnErr result (HasRisen (J.faults log.old) (J.faults log.new)) }
    ensures never_falls { J.faults log.old ≤ J.faults log.new }
{
    for name in copied {
        put_copied(name, log)?;
    }
    Ok(())
}

// Puts the line of an end.
fn put_done<J: Sink>(
    number: u64,
    made: &[(Name, [u8; 20])],
    copied: &[Name],
    log: &mut J,
) -> Result<(), Failed>
    ensures written { OnOk result (Tells (J.written log.old) (J.written log.new) (done_text number made.now copied.now)) }
    ensures part { OnErr result (TellsPart (J.written log.old) (J.written log.new) (done_text number made.now copied.now)) }
    ensures cause { OnErr result (HasRisen (J.faults log.old) (J.faults log.new)) }
    ensures never_falls { J.faults log.old ≤ J.faults log.new }
{
    let mut digits = Buffer::new();
    let number = digits.format(number);
    put_all(log, &["done ", number])?;
    put_each_made(made, log)?;
    put_each_copied(copied, log)?;
    log.put(b"\n")
}

// Puts the line of a saved wait.
fn put_saved<J: Sink>(number: u64, wait: u32, mark: &[u8], log: &mut J) -> Result<(), Failed>
    ensures written { OnOk result (Tells (J.written log.old) (J.written log.new) (saved_text number wait mark.now)) }
    ensures part { OnErr result (TellsPart (J.written log.old) (J.written log.new) (saved_text number wait mark.now)) }
    ensures cause { OnErr result (HasRisen (J.faults log.old) (J.faults log.new)) }
    ensures never_falls { J.faults log.old ≤ J.faults log.new }
{
    let mut number_digits = Buffer::new();
    let mut wait_digits = Buffer::new();
    let number = number_digits.format(number);
    let wait = wait_digits.format(wait);
    put_all(log, &["saved ", number, " ", wait, " "])?;
    put_hex(log, mark)?;
    log.put(b"\n")
}

// Puts the line of something that was missing.
fn put_missed<J: Sink>(number: u64, name: &Name, lost: u32, log: &mut J) -> Result<(), Failed>
    ensures written { OnOk result (Tells (J.written log.old) (J.written log.new) (missed_text number name.now lost)) }
    ensures part { OnErr result (TellsPart (J.written log.old) (J.written log.new) (missed_text number name.now lost)) }
    ensures cause { OnErr result (HasRisen (J.faults log.old) (J.faults log.new)) }
    ensures never_falls { J.faults log.old ≤ J.faults log.new }
{
    let mut number_digits = Buffer::new();
    let mut lost_digits = Buffer::new();
    let number = number_digits.format(number);
    let lost = lost_digits.format(lost);
    put_all(log, &["missed ", number, " "])?;
    put_hex(log, name.bytes())?;
    put_all(log, &[" ", lost, "\n"])
}

// Puts the line of a lost worker.
fn put_lost<J: Sink>(worker: u32, after: u64, log: &mut J) -> Result<(), Failed>
    ensures written { OnOk result (Tells (J.written log.old) (J.written log.new) (lost_text worker after)) }
    ensures part { OnErr result (TellsPart (J.written log.old) (J.written log.new) (lost_text worker after)) }
    ensures cause { OnErr result (HasRisen (J.faults log.old) (J.faults log.new)) }
    ensures never_falls { J.faults log.old ≤ J.faults log.new }
{
    let mut worker_digits = Buffer::new();
    let mut after_digits = Buffer::new();
    let worker = worker_digits.format(worker);
    let after = after_digits.format(after);
    put_all(log, &["lost ", worker, " ", after, "\n"])
}

/// Puts the line of an entry.
pub(crate) fn put_entry<J: Sink>(entry: &Entry, log: &mut J) -> Result<(), Failed>
    ensures written { OnOk result (Tells (J.written log.old) (J.written log.new) (entry_text entry.now)) }
    ensures part { OnErr result (TellsPart (J.written log.old) (J.written log.new) (entry_text entry.now)) }
    ensures cause { OnErr result (HasRisen (J.faults log.old) (J.faults log.new)) }
    ensures never_falls { J.faults log.old ≤ J.faults log.new }
{
    match entry {
        Entry::Start {
            number,
            worker,
            task,
            from,
        } => put_start(*number, *worker, task, *from, log),
        Entry::Done {
            number,
            made,
            copied,
        } => put_done(*number, made.as_slice(), copied.as_slice(), log),
        Entry::Saved { number, j, mark } => put_saved(*number, *j, mark.as_slice(), log),
        Entry::Missed { number, name, lost } => put_missed(*number, name, *lost, log),
        Entry::Lost { worker, after } => put_lost(*worker, *after, log),
    }
}
