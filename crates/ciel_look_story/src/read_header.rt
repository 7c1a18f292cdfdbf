//! The header of a log, read. No room is made for a count before what it counts is there.

ghost use Rattle.std.specs.Prelude.{◌≡◌, Bool, IfErr, IfOk, MatchOption, map};
ghost use Rattle.sky_base.specs.Name.{big_endian};
ghost use Rattle.sky_frozen_bytes.specs.Codes.{Counted, NoneAs, ReadAs};
ghost use Rattle.ciel_name.specs.Spelled.{Refuses};
ghost use Rattle.ciel_log_read.specs.Recorded.{Fits64};
ghost use Rattle.ciel_log_records.specs.Records.{counted, loss_bytes, namer_byte};
ghost use Rattle.ciel_look_told.specs.Head.{HasNoHead, IsHead, IsInput, IsLoss, IsMark, IsMarks, IsNamer, IsPlan, head_body, head_bytes};
ghost use Rattle.ciel_look_told.specs.Head.{input_bytes, mark_bytes, marks_bytes, namer_bytes};
ghost use Rattle.ciel_look_told.specs.View.{head_view, input_view, marks_view};

use ciel_look_told::header::{Header, Input, Marks};
use ciel_name::read::read_text;
use ciel_name::reader::Reader;
use ciel_name::refusal::Decode;
use std::alloc::Global;

/// The most losses of a plan.
const MOST_LOSSES: u32 = 64;

/// The header that has these bytes.
///
/// Answers `NotValue` exactly where no header of a plan of at most 64 losses has them, and `Memory` for want of memory.
pub fn read_header(alloc: Global, bytes: &[u8]) -> Result<Header, Decode>
    ensures header { IfOk result (λ h. head_bytes (head_view h) ≡ bytes.now) }
    ensures good { IfOk result (λ h. IsHead (head_view h)) }
    ensures refused { IfErr result (λ e. Refuses e (HasNoHead bytes.now)) }
{
    let mut reader = Reader::new(bytes);
    let Some(kind) = reader.byte() else {
        return Err(Decode::NotValue);
    };
    if kind != b'H' {
        return Err(Decode::NotValue);
    }
    let header = match read_body(alloc, &mut reader) {
        Ok(header) => header,
        Err(refusal) => return Err(refusal),
    };
    if !reader.is_empty() {
        return Err(Decode::NotValue);
    }
    Ok(header)
}

/// What stands behind the first byte of a header.
fn read_body(alloc: Global, reader: &mut Reader) -> Result<Header, Decode>
    ensures header { IfOk result (λ h. ReadAs head_body IsHead reader.old (head_view h) reader.new) }
    ensures refused { IfErr result (λ e. Refuses e (NoneAs head_body IsHead reader.old)) }
{
    let Some(workers) = reader.number() else {
        return Err(Decode::NotValue);
    };
    let Some(seed) = read_long(reader) else {
        return Err(Decode::NotValue);
    };
    let losses = match read_losses(alloc, reader) {
        Ok(losses) => losses,
        Err(refusal) => return Err(refusal),
    };
    let job = match read_marks(alloc, reader) {
        Ok(job) => job,
        Err(refusal) => return Err(refusal),
    };
    Ok(Header {
        workers,
        seed,
        losses,
        job,
    })
}

/// The number in the next eight bytes, if there are as many.
fn read_long(reader: &mut Reader) -> Option<u64>
    ensures { MatchOption result (NoneAs (big_endian 8) Fits64 reader.old) (λ n. ReadAs (big_endian 8) Fits64 reader.old n reader.new) }
{
    Some(long_of(reader.array::<8>()?))
}

/// The number that these bytes are, the highest first.
fn long_of(bytes: [u8; 8]) -> u64
    ensures { big_endian 8 result ≡ bytes }
{
    u64::from_be_bytes(bytes)
}

/// The losses of a plan, behind their number.
fn read_losses(alloc: Global, reader: &mut Reader) -> Result<Vec<(u32, u32)>, Decode>
    ensures losses { IfOk result (λ ls. ReadAs (counted loss_bytes) IsPlan reader.old ls.items reader.new) }
    ensures refused { IfErr result (λ e. Refuses e (NoneAs (counted loss_bytes) IsPlan reader.old)) }
{
    let Some(count) = reader.number() else {
        return Err(Decode::NotValue);
    };
    if count > MOST_LOSSES {
        return Err(Decode::NotValue);
    }
    let mut losses = Vec::new(alloc);
    for _one in 0..count {
        let Some(loss) = read_loss(reader) else {
            return Err(Decode::NotValue);
        };
        let Ok(()) = losses.push(loss) else {
            return Err(Decode::Memory);
        };
    }
    Ok(losses)
}

/// A loss: a count of closes, and a worker.
fn read_loss(reader: &mut Reader) -> Option<(u32, u32)>
    ensures { MatchOption result (NoneAs loss_bytes IsLoss reader.old) (λ l. ReadAs loss_bytes IsLoss reader.old l reader.new) }
{
    let after = reader.number()?;
    let worker = reader.number()?;
    Some((after, worker))
}

/// What a header tells of the job.
fn read_marks(alloc: Global, reader: &mut Reader) -> Result<Marks, Decode>
    ensures marks { IfOk result (λ m. ReadAs marks_bytes IsMarks reader.old (marks_view m) reader.new) }
    ensures refused { IfErr result (λ e. Refuses e (NoneAs marks_bytes IsMarks reader.old)) }
{
    let Some(short) = read_namer(reader) else {
        return Err(Decode::NotValue);
    };
    let Some(script) = read_mark(reader) else {
        return Err(Decode::NotValue);
    };
    let inputs = match read_inputs(alloc, reader) {
        Ok(inputs) => inputs,
        Err(refusal) => return Err(refusal),
    };
    Ok(Marks {
        short,
        script,
        inputs,
    })
}

/// Whether names have 20 bytes, else they have 32.
fn read_namer(reader: &mut Reader) -> Option<bool>
    ensures { MatchOption result (NoneAs namer_bytes IsNamer reader.old) (λ b. ReadAs namer_bytes IsNamer reader.old b reader.new) }
{
    let Some(kind) = reader.byte() else {
        return None;
    };
    namer_of(kind)
}

/// Which namer a byte tells.
fn namer_of(kind: u8) -> Option<bool>
    ensures { MatchOption result ((b : Bool) → namer_byte b ≡ kind → ⊥) (λ b. namer_byte b ≡ kind) }
{
    match kind {
        1 => Some(true),
        2 => Some(false),
        _ => None,
    }
}

/// The 20 bytes of a mark.
fn read_mark(reader: &mut Reader) -> Option<[u8; 20]>
    ensures { MatchOption result (NoneAs mark_bytes IsMark reader.old) (λ m. ReadAs mark_bytes IsMark reader.old m reader.new) }
{
    reader.array::<20>()
}

/// The inputs, behind their number.
fn read_inputs(alloc: Global, reader: &mut Reader) -> Result<Vec<Input>, Decode>
    ensures inputs { IfOk result (λ is. ReadAs (counted input_bytes) (Counted IsInput) reader.old (map input_view is.items) reader.new) }
    ensures refused { IfErr result (λ e. Refuses e (NoneAs (counted input_bytes) (Counted IsInput) reader.old)) }
{
    let Some(count) = reader.number() else {
        return Err(Decode::NotValue);
    };
    let mut inputs = Vec::new(alloc);
    for _one in 0..count {
        let input = match read_input(alloc, reader) {
            Ok(input) => input,
            Err(refusal) => return Err(refusal),
        };
        let Ok(()) = inputs.push(input) else {
            return Err(Decode::Memory);
        };
    }
    Ok(inputs)
}

/// An input: its key, and the mark of its bytes.
fn read_input(alloc: Global, reader: &mut Reader) -> Result<Input, Decode>
    ensures input { IfOk result (λ i. ReadAs input_bytes IsInput reader.old (input_view i) reader.new) }
    ensures refused { IfErr result (λ e. Refuses e (NoneAs input_bytes IsInput reader.old)) }
{
    let key = match read_text(alloc, reader) {
        Ok(key) => key,
        Err(refusal) => return Err(refusal),
    };
    let Some(mark) = read_mark(reader) else {
        return Err(Decode::NotValue);
    };
    Ok(Input { key, mark })
}
