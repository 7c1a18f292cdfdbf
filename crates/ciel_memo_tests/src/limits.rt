// An entry and a file at their limits, and one byte past them.

use crate::made::{NINE, bad};
use std::alloc::Global;
use std::test::Fail;

/// Puts an entry of so many bytes, at least 59, whose input begins with this byte where it has one: `NINE` with a longer input.
fn put(bytes: &mut Vec<u8>, length: usize, first: u8) -> Result<(), Fail> {
    let Some(more) = length.checked_sub(NINE.len()) else {
        return Err(Fail::from("too short"));
    };
    bytes.extend_from_slice(&NINE[..49])?;
    bytes.extend_from_slice(&u32::try_from(more)?.to_be_bytes())?;
    for place in 0..more {
        bytes.push(if place == 0 { first } else { 0 })?;
    }
    bytes.extend_from_slice(&NINE[53..])?;
    Ok(())
}

/// A file of one entry of so many bytes.
fn one(alloc: Global, length: usize) -> Result<Vec<u8>, Fail> {
    let mut bytes = Vec::from_slice(alloc, b"M\x01")?;
    put(&mut bytes, length, 0)?;
    Ok(bytes)
}

#[test]
fn an_entry_at_its_limit(rt: HostRuntime) -> Result<(), Fail> {
    let alloc = rt.alloc();
    assert_eq!(rt; bad(alloc, &one(alloc, 1_048_576)?)?, None);
    assert_eq!(rt; bad(alloc, &one(alloc, 1_048_577)?)?, Some(2));
    Ok(())
}

/// A file of 63 entries of the greatest length, and one more of this length.
fn many(alloc: Global, last: usize) -> Result<Vec<u8>, Fail> {
    let mut bytes = Vec::from_slice(alloc, b"M\x01")?;
    for first in 0..63 {
        put(&mut bytes, 1_048_576, first)?;
    }
    put(&mut bytes, last, 63)?;
    Ok(bytes)
}

#[test]
fn a_file_at_its_limit(rt: HostRuntime) -> Result<(), Fail> {
    let alloc = rt.alloc();
    let mut bytes = many(alloc, 1_048_574)?;
    assert_eq!(rt; bytes.len(), 67_108_864);
    assert_eq!(rt; bad(alloc, &bytes)?, None);
    put(&mut bytes, 59, 64)?;
    assert_eq!(rt; bad(alloc, &bytes)?, Some(67_108_864));
    assert_eq!(rt; bad(alloc, &many(alloc, 1_048_575)?)?, Some(66_060_290));
    Ok(())
}
