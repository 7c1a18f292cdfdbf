// Bytes read as values. Each value has one spelling, so bytes that are no value's spelling are refused, and a name or
// a mark can't be given to two ways of writing one value. The calls nest no deeper than a value may, and what was read is
// never larger than a value may be, however many bytes there are.

ghost use Rattle.std.specs.Prelude.{◌≡◌, ◌<◌, ◌≤◌, IfOk, IfErr, ℕ, List, length};
ghost use Rattle.sky_base.specs.Name.{bytes};
ghost use Rattle.sky_base.specs.Val.{Val, pair_sizes, size, sizes, most_size};
ghost use Rattle.sky_base.specs.View.{view, pairs_of};
ghost use Rattle.ciel_name.specs.Spelled.{Spelled, IsData, NoData, Refuses, Read, NoneRead, TextRead, NoTextRead, NoTextWithin};
ghost use Rattle.ciel_name.specs.Bodies.{BodyRead, NoBody, ItemsRead, NoItems, PairsRead, NoPairs, is_above};

use crate::reader::Reader;
use crate::refusal::Decode;
use crate::write::is_anonymous;
use sky_base::name::Name;
use sky_base::text::Txt;
use sky_base::value::{MOST_DEPTH, MOST_SIZE, Pair, Pairs, Vals, Value};
use std::alloc::Global;
use std::str;

/// The value that has these bytes. It is the inverse of `encode`: what was written for a value that keeps the limits is
/// read as this very value.
///
/// Answers `NotValue` exactly where no value has them that keeps the limits of depth and size: where they end too early
/// or something follows, no kind has the first byte of a value, a text isn't UTF-8, keys don't rise, a function with a
/// number in place of a name is spelled as a named one or the other way round, or the value is too deep or too large.
/// Answers `Memory` for want of memory.
pub fn decode(alloc: Global, encoded: &[u8]) -> Result<Value, Decode>
    ensures value { IfOk result (λ v. bytes (view v) ≡ encoded.now) }
    ensures data { IfOk result (λ v. IsData (view v)) }
    ensures inverse { IfOk result (λ v. (w : Val (List ℕ)) → Spelled w → bytes w ≡ encoded.now → view v ≡ w) }
    ensures refused { IfErr result (λ e. Refuses e (NoData encoded.now)) }
{
    let mut reader = Reader::new(encoded);
    let value = match read_value(alloc, &mut reader, MOST_DEPTH, MOST_SIZE) {
        Ok(value) => value,
        Err(refusal) => return Err(refusal),
    };
    if !reader.is_empty() {
        return Err(Decode::NotValue);
    }
    Ok(value)
}

/// A value of at most `left` levels and at most the size `room`. A larger one is refused as soon as what was read of it
/// is too large.
#[cycle(read)]
pub fn read_value(alloc: Global, reader: &mut Reader, left: u32, room: u64) -> Result<Value, Decode>
    requires within { room ≤ most_size }
    ensures value { IfOk result (λ v. Read left reader.old (view v) reader.new) }
    ensures fits { IfOk result (λ v. size (view v) ≤ room) }
    ensures refused { IfErr result (λ e. Refuses e (NoneRead left room reader.old)) }
{
    if left == 0 {
        return Err(Decode::NotValue);
    }
    if room == 0 {
        return Err(Decode::NotValue);
    }
    let Some(kind) = reader.byte() else {
        return Err(Decode::NotValue);
    };
    let value = match read_body(alloc, reader, kind, left, room) {
        Ok(value) => value,
        Err(refusal) => return Err(refusal),
    };
    if value.is_too_large() {
        return Err(Decode::NotValue);
    }
    if value.size() > room {
        return Err(Decode::NotValue);
    }
    Ok(value)
}

/// What stands behind the first byte of a value.
#[cycle(read)]
fn read_body(
    alloc: Global,
    reader: &mut Reader,
    kind: u8,
    left: u32,
    room: u64,
) -> Result<Value, Decode>
    requires levels { 0 < left }
    requires space { 0 < room }
    requires within { room ≤ most_size }
    ensures value { IfOk result (λ v. BodyRead kind left reader.old (view v) reader.new) }
    ensures refused { IfErr result (λ e. Refuses e (NoBody kind left room reader.old)) }
{
    match kind {
        0 => Ok(Value::Null),
        1 => Ok(Value::Bool(false)),
        2 => Ok(Value::Bool(true)),
        3 => read_int(reader, left, room),
        4 => read_text_value(alloc, reader, left, room),
        5 => read_list(alloc, reader, left, room),
        6 => read_dict(alloc, reader, left, room),
        7 => read_named(alloc, reader, left, room),
        8 => read_short(reader, left, room),
        9 => read_long(reader, left, room),
        10 => read_anonymous(alloc, reader, left, room),
        _ => Err(Decode::NotValue),
    }
}

fn read_int(reader: &mut Reader, left: u32, room: u64) -> Result<Value, Decode>
    requires levels { 0 < left }
    ensures value { IfOk result (λ v. BodyRead 3 left reader.old (view v) reader.new) }
    ensures refused { IfErr result (λ e. Refuses e (NoBody 3 left room reader.old)) }
{
    match reader.int() {
        Some(number) => Ok(Value::Int(number)),
        None => Err(Decode::NotValue),
    }
}

fn read_text_value(
    alloc: Global,
    reader: &mut Reader,
    left: u32,
    room: u64,
) -> Result<Value, Decode>
    requires levels { 0 < left }
    requires space { 0 < room }
    ensures value { IfOk result (λ v. BodyRead 4 left reader.old (view v) reader.new) }
    ensures refused { IfErr result (λ e. Refuses e (NoBody 4 left room reader.old)) }
{
    match read_text_within(alloc, reader, room - 1) {
        Ok(text) => Ok(Value::Text(text)),
        Err(refusal) => Err(refusal),
    }
}

/// A text behind the number of its bytes.
pub fn read_text(alloc: Global, reader: &mut Reader) -> Result<Txt, Decode>
    ensures text { IfOk result (λ t. TextRead reader.old t reader.new) }
    ensures refused { IfErr result (λ e. Refuses e (NoTextRead reader.old)) }
{
    read_text_within(alloc, reader, u64::MAX)
}

/// A text of at most `most` bytes behind their number.
fn read_text_within(alloc: Global, reader: &mut Reader, most: u64) -> Result<Txt, Decode>
    ensures text { IfOk result (λ t. TextRead reader.old t reader.new) }
    ensures fits { IfOk result (λ t. length t ≤ most) }
    ensures refused { IfErr result (λ e. Refuses e (NoTextWithin most reader.old)) }
{
    let Some(count) = reader.number() else {
        return Err(Decode::NotValue);
    };
    if u64::from(count) > most {
        return Err(Decode::NotValue);
    }
    let Some(bytes) = reader.bytes(count as usize) else {
        return Err(Decode::NotValue);
    };
    let Ok(text) = str::from_utf8(bytes) else {
        return Err(Decode::NotValue);
    };
    Ok(Txt::new(alloc, text)?)
}

#[cycle(read)]
fn read_list(alloc: Global, reader: &mut Reader, left: u32, room: u64) -> Result<Value, Decode>
    requires levels { 0 < left }
    requires space { 0 < room }
    requires within { room ≤ most_size }
    ensures value { IfOk result (λ v. BodyRead 5 left reader.old (view v) reader.new) }
    ensures refused { IfErr result (λ e. Refuses e (NoBody 5 left room reader.old)) }
{
    let Some(count) = reader.number() else {
        return Err(Decode::NotValue);
    };
    match read_items(alloc, reader, count, left - 1, room - 1) {
        Ok(values) => Ok(Value::List(values)),
        Err(refusal) => Err(refusal),
    }
}

/// So many values, each of at most `left` levels, and together of at most the size `room`.
#[cycle(read)]
pub(crate) fn read_items(
    alloc: Global,
    reader: &mut Reader,
    count: u32,
    left: u32,
    room: u64,
) -> Result<Vals, Decode>
    requires within { room ≤ most_size }
    ensures values { IfOk result (λ vs. ItemsRead count left reader.old vs reader.new) }
    ensures fits { IfOk result (λ vs. sizes vs ≤ room) }
    ensures refused { IfErr result (λ e. Refuses e (NoItems count left room reader.old)) }
{
    let mut values = Vals::new(alloc);
    let mut spare = room;
    for _item in 0..count {
        let value = match read_value(alloc, reader, left, spare) {
            Ok(value) => value,
            Err(refusal) => return Err(refusal),
        };
        spare -= value.size();
        values.push(value)?;
    }
    Ok(values)
}

#[cycle(read)]
fn read_dict(alloc: Global, reader: &mut Reader, left: u32, room: u64) -> Result<Value, Decode>
    requires levels { 0 < left }
    requires space { 0 < room }
    requires within { room ≤ most_size }
    ensures value { IfOk result (λ v. BodyRead 6 left reader.old (view v) reader.new) }
    ensures refused { IfErr result (λ e. Refuses e (NoBody 6 left room reader.old)) }
{
    let Some(count) = reader.number() else {
        return Err(Decode::NotValue);
    };
    match read_pairs(alloc, reader, count, left - 1, room - 1) {
        Ok(pairs) => Ok(Value::Dict(pairs)),
        Err(refusal) => Err(refusal),
    }
}

/// So many pairs with keys that rise, each with a value of at most `left` levels, and together of at most the size `room`.
#[cycle(read)]
pub(crate) fn read_pairs(
    alloc: Global,
    reader: &mut Reader,
    count: u32,
    left: u32,
    room: u64,
) -> Result<Pairs, Decode>
    requires within { room ≤ most_size }
    ensures pairs { IfOk result (λ ps. PairsRead count left reader.old ps reader.new) }
    ensures fits { IfOk result (λ ps. pair_sizes ps ≤ room) }
    ensures refused { IfErr result (λ e. Refuses e (NoPairs count left room reader.old)) }
{
    let mut pairs = Pairs::new(alloc);
    let mut spare = room;
    for _pair in 0..count {
        let key = match read_text_within(alloc, reader, spare) {
            Ok(key) => key,
            Err(refusal) => return Err(refusal),
        };
        if !is_above(&key, pairs.as_slice()) {
            return Err(Decode::NotValue);
        }
        spare -= key.len() as u64;
        let value = match read_value(alloc, reader, left, spare) {
            Ok(value) => value,
            Err(refusal) => return Err(refusal),
        };
        spare -= value.size();
        pairs.insert(key, value)?;
    }
    Ok(pairs)
}

/// Whether a key is above the last one of the pairs, by its bytes.
#[tactic(auto, using(crate::proofs::Items::lasts))]
pub fn is_above(key: &Txt, pairs: &[Pair]) -> bool
    ensures above { result ≡ is_above key.now (pairs_of pairs.now) }
{
    if pairs.len() == 0 {
        return true;
    }
    pairs[pairs.len() - 1].key < *key
}

/// The name of a function that captures nothing.
fn read_named(alloc: Global, reader: &mut Reader, left: u32, room: u64) -> Result<Value, Decode>
    requires levels { 0 < left }
    requires space { 0 < room }
    ensures value { IfOk result (λ v. BodyRead 7 left reader.old (view v) reader.new) }
    ensures refused { IfErr result (λ e. Refuses e (NoBody 7 left room reader.old)) }
{
    let name = match read_text_within(alloc, reader, room - 1) {
        Ok(name) => name,
        Err(refusal) => return Err(refusal),
    };
    if is_anonymous(&name) {
        return Err(Decode::NotValue);
    }
    Ok(Value::Fun {
        name,
        caught: Pairs::new(alloc),
    })
}

/// The name of an anonymous function, and what it captured.
#[cycle(read)]
fn read_anonymous(alloc: Global, reader: &mut Reader, left: u32, room: u64) -> Result<Value, Decode>
    requires levels { 0 < left }
    requires space { 0 < room }
    requires within { room ≤ most_size }
    ensures value { IfOk result (λ v. BodyRead 10 left reader.old (view v) reader.new) }
    ensures refused { IfErr result (λ e. Refuses e (NoBody 10 left room reader.old)) }
{
    let name = match read_text_within(alloc, reader, room - 1) {
        Ok(name) => name,
        Err(refusal) => return Err(refusal),
    };
    if !is_anonymous(&name) {
        return Err(Decode::NotValue);
    }
    let Some(count) = reader.number() else {
        return Err(Decode::NotValue);
    };
    let spare = room - 1 - name.len() as u64;
    match read_pairs(alloc, reader, count, left - 1, spare) {
        Ok(caught) => Ok(Value::Fun { name, caught }),
        Err(refusal) => Err(refusal),
    }
}

fn read_short(reader: &mut Reader, left: u32, room: u64) -> Result<Value, Decode>
    requires levels { 0 < left }
    ensures value { IfOk result (λ v. BodyRead 8 left reader.old (view v) reader.new) }
    ensures refused { IfErr result (λ e. Refuses e (NoBody 8 left room reader.old)) }
{
    match reader.array::<20>() {
        Some(name) => Ok(Value::Ref(Name::short(name))),
        None => Err(Decode::NotValue),
    }
}

fn read_long(reader: &mut Reader, left: u32, room: u64) -> Result<Value, Decode>
    requires levels { 0 < left }
    ensures value { IfOk result (λ v. BodyRead 9 left reader.old (view v) reader.new) }
    ensures refused { IfErr result (λ e. Refuses e (NoBody 9 left room reader.old)) }
{
    match reader.array::<32>() {
        Some(name) => Ok(Value::Ref(Name::long(name))),
        None => Err(Decode::NotValue),
    }
}
