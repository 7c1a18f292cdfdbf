// Bytes read as states: each proper prefix of a state's bytes, and one byte more, is no state's.

use crate::frozen::squares;
use sky_frozen_bytes::read::read_state;
use sky_frozen_bytes::refusal::ReadFrozen;
use std::alloc::Global;
use std::process::Abort;
use std::test::Fail;

/// How bytes are judged: whether they are a state's, or that memory ended.
fn is_state(alloc: Global, bytes: &[u8]) -> Result<bool, Fail> {
    match read_state(alloc, bytes) {
        Ok(_) => Ok(true),
        Err(ReadFrozen::BadFrozen) => Ok(false),
        Err(ReadFrozen::Memory) => Err(Fail::from("memory")),
    }
}

fn judged(rt: &impl Abort, alloc: Global, bytes: &[u8], want: bool) -> Result<(), Fail> {
    let found = is_state(alloc, bytes)?;
    assert_eq!(rt; found, want);
    Ok(())
}

/// The bytes of the two squares that wait.
fn waiting(alloc: Global) -> Result<Vec<u8>, Fail> {
    squares(alloc, 8, &[1u8; 20], &[2u8; 20])
}

#[test]
fn the_bytes_of_a_state_are_read(rt: HostRuntime) -> Result<(), Fail> {
    let bytes = waiting(rt.alloc())?;
    judged(&rt, rt.alloc(), bytes.as_slice(), true)
}

#[test]
fn no_proper_prefix_is_read(rt: HostRuntime) -> Result<(), Fail> {
    let bytes = waiting(rt.alloc())?;
    for count in 0..bytes.len() {
        judged(&rt, rt.alloc(), &bytes[..count], false)?;
    }
    Ok(())
}

#[test]
fn one_byte_more_is_refused(rt: HostRuntime) -> Result<(), Fail> {
    let mut bytes = waiting(rt.alloc())?;
    bytes.push(0)?;
    judged(&rt, rt.alloc(), bytes.as_slice(), false)
}
