// A file of two entries: cut at each place, and with each byte damaged.

use crate::made::{NINE, NONE, bad, file};
use std::alloc::Global;
use std::test::Fail;

/// The place of the bad entry where the file of two entries is cut behind so many bytes.
fn of_cut(length: usize) -> Option<u64> {
    match length {
        0 | 1 => Some(0),
        2 | 61 | 115 => None,
        _ if length < 61 => Some(2),
        _ => Some(61),
    }
}

#[test]
fn a_file_that_is_cut(rt: HostRuntime) -> Result<(), Fail> {
    let alloc = rt.alloc();
    let whole = file(alloc, &[&NINE, &NONE])?;
    assert_eq!(rt; whole.len(), 115);
    for length in 0..=whole.len() {
        assert_eq!(rt;
            bad(alloc, &whole[..length])?,
            of_cut(length),
            "behind {length}"
        );
    }
    Ok(())
}

/// The same where the byte at this place is 255: only bytes of a name, of an input and of an output may be any.
fn of_damage(place: usize) -> Option<u64> {
    match place {
        0 | 1 => Some(0),
        23..=42 | 59..=60 | 82..=101 | 114 => None,
        _ if place < 61 => Some(2),
        _ => Some(61),
    }
}

#[test]
fn a_file_with_a_damaged_byte(rt: HostRuntime) -> Result<(), Fail> {
    let alloc = rt.alloc();
    for place in 0..115 {
        let mut bytes = file(alloc, &[&NINE, &NONE])?;
        if let Some(byte) = bytes.get_mut(place) {
            *byte = 255;
        }
        assert_eq!(rt; bad(alloc, &bytes)?, of_damage(place), "at {place}");
    }
    Ok(())
}

#[test]
fn a_key_that_repeats(rt: HostRuntime) -> Result<(), Fail> {
    let alloc = rt.alloc();
    let mut other = NINE;
    other[57] = b'8';
    assert_eq!(rt;
        bad(alloc, &file(alloc, &[&NINE, &NONE, &other])?)?,
        Some(115)
    );
    assert_eq!(rt; bad(alloc, &file(alloc, &[&NONE, &other])?)?, None);
    assert_eq!(rt; bad(alloc, &file(alloc, &[])?)?, None);
    Ok(())
}

#[test]
fn a_file_that_begins_otherwise(rt: HostRuntime) -> Result<(), Fail> {
    let alloc = rt.alloc();
    assert_eq!(rt; bad(alloc, b"M\x02")?, Some(0));
    assert_eq!(rt; bad(alloc, b"K\x01")?, Some(0));
    assert_eq!(rt; bad(alloc, b"M\x01\x00")?, Some(2));
    Ok(())
}
