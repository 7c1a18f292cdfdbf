// Bytes of values: one spelling for each, and no other bytes are a value's.

use crate::hexadecimal::{are, bytes_of};
use ciel_name::read::decode;
use ciel_name::refusal::Decode;
use ciel_name::write::encode;
use sky_base::text::Bytes;
use sky_base::value::Value;
use std::alloc::Global;
use std::test::Fail;

/// What the bytes are decoded as and encoded to again; none where they are no value's.
fn again(alloc: Global, bytes: &[u8]) -> Result<Option<Bytes>, Fail> {
    match decode(alloc, bytes) {
        Ok(value) => Ok(Some(encode(alloc, &value)?)),
        Err(Decode::NotValue) => Ok(None),
        Err(Decode::Memory) => Err(Fail::from("memory")),
    }
}

fn is_refused(alloc: Global, bytes: &[u8]) -> Result<bool, Fail> {
    Ok(again(alloc, bytes)?.is_none())
}

/// The number that the bytes are decoded as.
fn number_of(alloc: Global, bytes: &[u8]) -> Option<i64> {
    match decode(alloc, bytes) {
        Ok(value) => match &value {
            Value::Int(number) => Some(*number),
            _ => None,
        },
        Err(_) => None,
    }
}

#[test]
fn three_has_nine_bytes(rt: HostRuntime) -> Result<(), Fail> {
    let bytes = encode(rt.alloc(), &Value::Int(3))?;
    are(&rt, rt.alloc(), bytes.as_slice(), "030000000000000003")?;
    assert!(rt; number_of(rt.alloc(), bytes.as_slice()) == Some(3));
    Ok(())
}

/// The bytes of a value of each kind, and how many of the bytes with one byte changed or left as it is are a value's,
/// as another reader, written from the format's text, counts them.
static SAMPLES: [(&str, u32); 12] = [
    ("00", 3),
    ("01", 3),
    ("02", 3),
    ("030000000000000003", 2049),
    ("03ffffffffffffffff", 2049),
    ("04000000026162", 262),
    ("05000000020002", 13),
    (
        "0600000002000000016103000000000000000100000001620500000000",
        2200,
    ),
    ("070000000166", 133),
    ("0a00000002233000000001000000016b03000000000000000a", 2319),
    ("080707070707070707070707070707070707070707", 5121),
    (
        "090707070707070707070707070707070707070707070707070707070707070707",
        8193,
    ),
];

/// Whether the bytes are a value's, which is encoded to just these bytes again; none where it is encoded to others.
fn is_value(alloc: Global, bytes: &[u8]) -> Result<Option<bool>, Fail> {
    match again(alloc, bytes)? {
        None => Ok(Some(false)),
        Some(same) => Ok(if same.as_slice() == bytes {
            Some(true)
        } else {
            None
        }),
    }
}

/// How many of the bytes with this one changed are a value's; none where one of them is encoded to others.
fn changed_at(alloc: Global, bytes: &mut Vec<u8>, at: usize) -> Result<Option<u32>, Fail> {
    let mut values: u32 = 0;
    for new in 0..=255u8 {
        match bytes.get_mut(at) {
            Some(byte) => *byte = new,
            None => return Ok(None),
        }
        match is_value(alloc, bytes)? {
            Some(true) => values = values.saturating_add(1),
            Some(false) => {}
            None => return Ok(None),
        }
    }
    Ok(Some(values))
}

/// The same with each byte changed in turn. No bytes that are cut short are a value's.
fn changed(alloc: Global, bytes: &mut Vec<u8>) -> Result<Option<u32>, Fail> {
    let mut values: u32 = 0;
    for at in 0..bytes.len() {
        let old = bytes.get(at).copied().unwrap_or(0);
        let Some(more) = changed_at(alloc, bytes, at)? else {
            return Ok(None);
        };
        values = values.saturating_add(more);
        if let Some(byte) = bytes.get_mut(at) {
            *byte = old;
        }
        if !is_refused(alloc, bytes.get(..at).unwrap_or(&[]))? {
            return Ok(None);
        }
    }
    Ok(Some(values))
}

/// So many values, and no bytes that go on are a value's.
fn sample(alloc: Global, text: &str, want: u32) -> Result<bool, Fail> {
    let mut bytes = bytes_of(alloc, text)?;
    let found = changed(alloc, &mut bytes)?;
    bytes.push(0)?;
    Ok(found == Some(want) && is_refused(alloc, &bytes)?)
}

#[test]
fn changed_bytes_are_refused_or_spell_another_value(rt: HostRuntime) -> Result<(), Fail> {
    for row in &SAMPLES {
        assert!(rt; sample(rt.alloc(), row.0, row.1)?, "{}", row.0);
    }
    Ok(())
}

static NO_VALUES: [&str; 14] = [
    "",
    "0300",
    "0b",
    "43",
    "0000",
    "0400000001ff",
    "0400000002c080",
    "04000000036162",
    "05ffffffff",
    "0600000002000000016100000000016100",
    "0600000002000000016200000000016100",
    "07000000022330",
    "0a000000016600000000",
    "0807070707070707070707070707070707070707",
];

fn text_is_refused(alloc: Global, text: &str) -> Result<bool, Fail> {
    let bytes = bytes_of(alloc, text)?;
    is_refused(alloc, &bytes)
}

#[test]
fn bytes_of_no_value_are_refused(rt: HostRuntime) -> Result<(), Fail> {
    for text in &NO_VALUES {
        assert!(rt; text_is_refused(rt.alloc(), text)?, "{text}");
    }
    Ok(())
}

/// A front, a piece so many times, and an end; and whether that is refused.
type Row = (&'static [u8], &'static [u8], usize, &'static [u8], bool);

/// The empty list in so many lists of one element; a text of so many letters.
static LIMITS: [Row; 5] = [
    (&[], &[5, 0, 0, 0, 1], 99, &[5, 0, 0, 0, 0], false),
    (&[], &[5, 0, 0, 0, 1], 100, &[5, 0, 0, 0, 0], true),
    (&[], &[5, 0, 0, 0, 1], 100_000, &[5, 0, 0, 0, 0], true),
    (&[4, 0, 3, 255, 255], b"a", 262_143, &[], false),
    (&[4, 0, 4, 0, 0], b"a", 262_144, &[], true),
];

fn limit(alloc: Global, row: &Row) -> Result<bool, Fail> {
    let mut bytes = Vec::from_slice(alloc, row.0)?;
    for _ in 0..row.2 {
        bytes.extend_from_slice(row.1)?;
    }
    bytes.extend_from_slice(row.3)?;
    is_refused(alloc, &bytes)
}

#[test]
fn limits_are_kept(rt: HostRuntime) -> Result<(), Fail> {
    for row in &LIMITS {
        let refused = row.4;
        assert!(rt; limit(rt.alloc(), row)? == refused, "{} times", row.2);
    }
    Ok(())
}
