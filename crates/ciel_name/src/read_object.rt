// Bytes read as descriptions and as objects. Each has one spelling, as values have, and what was read is never larger than the bytes of one
// that keeps the limits may be.

ghost use Rattle.std.specs.Prelude.{◌≡◌, ◌≤◌, IfOk, IfErr, MatchOption, ℕ, List};
ghost use Rattle.sky_base.specs.Name.{canon};
ghost use Rattle.sky_base.specs.ObjectView.{desc_view, object_view};
ghost use Rattle.sky_base.specs.Res.{Object as ObjectSeen};
ghost use Rattle.sky_base.specs.Val.{Desc, dict, list};
ghost use Rattle.ciel_name.specs.Descs.{ContentRead, DescRead, IsDescData, IsObjectData, NoDesc, NoDescBody, NoDict, NoFault, NoList, NoObject};
ghost use Rattle.ciel_name.specs.Descs.{fault_bytes};
ghost use Rattle.ciel_name.specs.Laws.{SpelledDesc};
ghost use Rattle.ciel_name.specs.Object.{kind_number, object_bytes};
ghost use Rattle.ciel_name.specs.Spelled.{Refuses};

use crate::read::{decode, read_items, read_pairs, read_text, read_value};
use crate::reader::Reader;
use crate::refusal::Decode;
use crate::write::is_anonymous;
use sky_base::fault::{Fault, FaultKind};
use sky_base::object::{Desc1, Object};
use sky_base::text::Bytes;
use sky_base::value::{MOST_DEPTH, MOST_SIZE, Pairs, Vals};
use std::alloc::Global;

/// The description that has these canonical bytes. It is the inverse of `canon`.
///
/// Answers `NotValue` exactly where no description has them that keeps the limits: its texts and values can be spelled, each value keeps
/// the limits of depth and size, and so do the arguments of a call as one list and what it captured as one dictionary. Answers `Memory`
/// for want of memory.
pub fn read_desc(alloc: Global, encoded: &[u8]) -> Result<Desc1, Decode>
    ensures desc { IfOk result (λ d. canon (desc_view d) ≡ encoded.now) }
    ensures data { IfOk result (λ d. IsDescData (desc_view d)) }
    ensures inverse { IfOk result (λ d. (e : Desc (List ℕ)) → SpelledDesc e → canon e ≡ encoded.now → desc_view d ≡ e) }
    ensures refused { IfErr result (λ e. Refuses e (NoDesc encoded.now)) }
{
    let mut reader = Reader::new(encoded);
    let Some(kind) = reader.byte() else {
        return Err(Decode::NotValue);
    };
    let desc = match read_desc_body(alloc, &mut reader, kind) {
        Ok(desc) => desc,
        Err(refusal) => return Err(refusal),
    };
    if !reader.is_empty() {
        return Err(Decode::NotValue);
    }
    Ok(desc)
}

/// What stands behind the first byte of a description.
fn read_desc_body(alloc: Global, reader: &mut Reader, kind: u8) -> Result<Desc1, Decode>
    ensures desc { IfOk result (λ d. DescRead kind reader.old (desc_view d) reader.new) }
    ensures refused { IfErr result (λ e. Refuses e (NoDescBody kind reader.old)) }
{
    match kind {
        b'C' => read_named_call(alloc, reader),
        b'L' => read_anonymous_call(alloc, reader),
        b'E' => read_output(alloc, reader),
        b'I' => read_input(alloc, reader),
        _ => Err(Decode::NotValue),
    }
}

fn read_named_call(alloc: Global, reader: &mut Reader) -> Result<Desc1, Decode>
    ensures desc { IfOk result (λ d. DescRead 67 reader.old (desc_view d) reader.new) }
    ensures refused { IfErr result (λ e. Refuses e (NoDescBody 67 reader.old)) }
{
    let fun = match read_text(alloc, reader) {
        Ok(fun) => fun,
        Err(refusal) => return Err(refusal),
    };
    if is_anonymous(&fun) {
        return Err(Decode::NotValue);
    }
    let args = match read_args(alloc, reader) {
        Ok(args) => args,
        Err(refusal) => return Err(refusal),
    };
    let caught = Pairs::new(alloc);
    Ok(Desc1::Call { fun, caught, args })
}

fn read_anonymous_call(alloc: Global, reader: &mut Reader) -> Result<Desc1, Decode>
    ensures desc { IfOk result (λ d. DescRead 76 reader.old (desc_view d) reader.new) }
    ensures refused { IfErr result (λ e. Refuses e (NoDescBody 76 reader.old)) }
{
    let fun = match read_text(alloc, reader) {
        Ok(fun) => fun,
        Err(refusal) => return Err(refusal),
    };
    if !is_anonymous(&fun) {
        return Err(Decode::NotValue);
    }
    let caught = match read_caught(alloc, reader) {
        Ok(caught) => caught,
        Err(refusal) => return Err(refusal),
    };
    let args = match read_args(alloc, reader) {
        Ok(args) => args,
        Err(refusal) => return Err(refusal),
    };
    Ok(Desc1::Call { fun, caught, args })
}

/// The arguments of a call behind their count: together they keep the limits of a list.
fn read_args(alloc: Global, reader: &mut Reader) -> Result<Vals, Decode>
    ensures args { IfOk result (λ vs. ContentRead (list vs) reader.old reader.new) }
    ensures refused { IfErr result (λ e. Refuses e (NoList reader.old)) }
{
    let Some(count) = reader.number() else {
        return Err(Decode::NotValue);
    };
    read_items(alloc, reader, count, MOST_DEPTH - 1, MOST_SIZE - 1)
}

/// What a function captured, behind its count: together it keeps the limits of a dictionary.
fn read_caught(alloc: Global, reader: &mut Reader) -> Result<Pairs, Decode>
    ensures caught { IfOk result (λ c. ContentRead (dict c) reader.old reader.new) }
    ensures refused { IfErr result (λ e. Refuses e (NoDict reader.old)) }
{
    let Some(count) = reader.number() else {
        return Err(Decode::NotValue);
    };
    read_pairs(alloc, reader, count, MOST_DEPTH - 1, MOST_SIZE - 1)
}

fn read_output(alloc: Global, reader: &mut Reader) -> Result<Desc1, Decode>
    ensures desc { IfOk result (λ d. DescRead 69 reader.old (desc_view d) reader.new) }
    ensures refused { IfErr result (λ e. Refuses e (NoDescBody 69 reader.old)) }
{
    let executor = match read_text(alloc, reader) {
        Ok(executor) => executor,
        Err(refusal) => return Err(refusal),
    };
    let args = match read_value(alloc, reader, MOST_DEPTH, MOST_SIZE) {
        Ok(args) => args,
        Err(refusal) => return Err(refusal),
    };
    let Some(outputs) = reader.number() else {
        return Err(Decode::NotValue);
    };
    let Some(index) = reader.number() else {
        return Err(Decode::NotValue);
    };
    Ok(Desc1::Exec {
        executor,
        args,
        outputs,
        index,
    })
}

fn read_input(alloc: Global, reader: &mut Reader) -> Result<Desc1, Decode>
    ensures desc { IfOk result (λ d. DescRead 73 reader.old (desc_view d) reader.new) }
    ensures refused { IfErr result (λ e. Refuses e (NoDescBody 73 reader.old)) }
{
    match read_text(alloc, reader) {
        Ok(key) => Ok(Desc1::Input { key }),
        Err(refusal) => Err(refusal),
    }
}

/// The object that has these bytes. It is the inverse of `object_bytes`.
///
/// Answers `NotValue` exactly where no object has them whose value is data, or whose fault has a kind and a place of 32 bits. Answers
/// `Memory` for want of memory.
pub fn read_object(alloc: Global, encoded: &[u8]) -> Result<Object, Decode>
    ensures object { IfOk result (λ o. object_bytes (object_view o) ≡ encoded.now) }
    ensures data { IfOk result (λ o. IsObjectData (object_view o)) }
    ensures inverse { IfOk result (λ o. (p : ObjectSeen (List ℕ)) → IsObjectData p → object_bytes p ≡ encoded.now → object_view o ≡ p) }
    ensures refused { IfErr result (λ e. Refuses e (NoObject encoded.now)) }
{
    let Some((kind, rest)) = encoded.split_first() else {
        return Err(Decode::NotValue);
    };
    match *kind {
        b'B' => {
            let Ok(bytes) = Vec::from_slice(alloc, rest) else {
                return Err(Decode::Memory);
            };
            Ok(Object::Bytes(Bytes::new(alloc, bytes)?))
        }
        b'D' => match decode(alloc, rest) {
            Ok(value) => Ok(Object::Data(value)),
            Err(refusal) => Err(refusal),
        },
        b'F' => match read_fault(rest) {
            Some(fault) => Ok(Object::Fault(fault)),
            None => Err(Decode::NotValue),
        },
        _ => Err(Decode::NotValue),
    }
}

/// A fault: the place of its kind among the kinds, its line and its column, and nothing behind them.
fn read_fault(bytes: &[u8]) -> Option<Fault>
    ensures fault { MatchOption result (NoFault bytes.now) (λ f. fault_bytes f ≡ bytes.now) }
{
    let mut reader = Reader::new(bytes);
    let kind = kind_of(reader.byte()?)?;
    let line = reader.number()?;
    let col = reader.number()?;
    if !reader.is_empty() {
        return None;
    }
    Some(Fault { kind, line, col })
}

/// The kind at a place among the kinds, from 0.
fn kind_of(place: u8) -> Option<FaultKind>
    ensures kind { MatchOption result (15 ≤ place) (λ k. kind_number k ≡ place) }
{
    match place {
        0 => Some(FaultKind::Unknown),
        1 => Some(FaultKind::BadKind),
        2 => Some(FaultKind::Overflow),
        3 => Some(FaultKind::DivZero),
        4 => Some(FaultKind::NoIndex),
        5 => Some(FaultKind::NoKey),
        6 => Some(FaultKind::TooLarge),
        7 => Some(FaultKind::TooDeep),
        8 => Some(FaultKind::TooLong),
        9 => Some(FaultKind::NotData),
        10 => Some(FaultKind::NotText),
        11 => Some(FaultKind::BadCount),
        12 => Some(FaultKind::BadExec),
        13 => Some(FaultKind::BadLine),
        14 => Some(FaultKind::WrongCount),
        _ => None,
    }
}
