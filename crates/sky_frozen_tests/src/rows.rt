// The rows.

use crate::bytes::{SQUARES, START, squares};
use crate::judged::{is_read, with_byte};
use crate::states::state;
use std::test::Fail;

#[test]
fn a_start_is_read(rt: HostRuntime) -> Result<(), Fail> {
    assert!(&rt; START.len() == 39);
    is_read(&rt, rt.alloc(), "return 1 + 2;", START)
}

#[test]
fn two_squares_that_wait_are_read(rt: HostRuntime) -> Result<(), Fail> {
    let short = squares(rt.alloc(), 8, 20)?;
    assert!(&rt; short.len() == 136);
    is_read(&rt, rt.alloc(), SQUARES, short.as_slice())?;
    let long = squares(rt.alloc(), 9, 32)?;
    assert!(&rt; long.len() == 172);
    is_read(&rt, rt.alloc(), SQUARES, long.as_slice())
}

/// A byte at a place, and whether the two squares with it are read.
static BYTES: [(usize, u8, bool); 4] = [
    // the number of waits
    (10, 0, false),
    (10, 2, true),
    // the last node, of which the first `*` is 13
    (131, 14, false),
    (131, 13, true),
];

#[test]
fn the_squares_with_another_byte(rt: HostRuntime) -> Result<(), Fail> {
    let bytes = squares(rt.alloc(), 8, 20)?;
    for (at, byte, want) in &BYTES {
        assert!(&rt; with_byte(rt.alloc(), SQUARES, bytes.as_slice(), *at, *byte)? == *want);
    }
    Ok(())
}

/// A state by its number, a place in its bytes and a byte that is put there, and whether the bytes are read then.
static CHANGES: [(usize, usize, u8, bool); 20] = [
    // no wait
    (0, 10, 0, false),
    // two waits
    (0, 10, 2, true),
    // more waits than visits
    (0, 10, 10, false),
    // another function
    (0, 59, 103, false),
    // the call below is no longer open
    (0, 54, 2, false),
    // the last form does not wait
    (0, 142, 1, false),
    // a node that is no part
    (0, 138, 8, false),
    // one element taken
    (1, 110, 1, true),
    // more taken than there are
    (1, 110, 3, false),
    // fewer than none
    (1, 103, 255, false),
    // its last part is pending, which keeps two values
    (2, 101, 3, false),
    // no function of the script
    (3, 34, 49, false),
    // a name that it does not use
    (3, 43, 106, false),
    // a variable that is none of its own
    (4, 29, 106, false),
    // its parameter is not set
    (4, 43, 121, false),
    // any argument
    (4, 52, 7, true),
    // a visit
    (4, 6, 1, false),
    // past the first statement
    (4, 68, 1, false),
    // the last wave
    (5, 6, 100, true),
    // a wave too far
    (5, 6, 101, false),
];

#[test]
fn states_with_another_byte(rt: HostRuntime) -> Result<(), Fail> {
    for (number, at, byte, want) in &CHANGES {
        let (text, bytes) = state(*number);
        assert!(&rt; with_byte(rt.alloc(), text, bytes, *at, *byte)? == *want);
    }
    Ok(())
}

#[test]
fn states_are_read(rt: HostRuntime) -> Result<(), Fail> {
    for number in 0..6 {
        let (text, bytes) = state(number);
        is_read(&rt, rt.alloc(), text, bytes)?;
    }
    Ok(())
}
