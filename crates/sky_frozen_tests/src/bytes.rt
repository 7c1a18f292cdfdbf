// The bytes of some states.

use std::alloc::Global;
use std::test::Fail;

/// The start of a main body.
pub static START: &[u8] =
    b"K\x01\x00\0\0\0\0\0\0\0\0\0\0\0\x01\0\0\0\0\0\0\0\0\0\0\0\0\0\0\0\x01\0\0\0\0\0\0\0\0";

/// The sum of two squares.
pub static SQUARES: &str =
    "function f(x) { return x * x; } a = spawn(f, [3]); b = spawn(f, [4]); return *a + *b;";

/// Its main body where it waits for the first square; `kind` is the byte of a reference, and `name` that of which both names are made.
pub fn squares(alloc: Global, kind: u8, length: usize) -> Result<Vec<u8>, Fail> {
    let mut bytes = Vec::new(alloc);
    bytes.extend_from_slice(
        b"K\x01\x00\0\0\0\x0d\0\0\0\x01\0\0\0\x01\0\0\0\0\0\0\0\x02\0\0\0\x01a",
    )?;
    add_name(&mut bytes, kind, 1, length)?;
    bytes.extend_from_slice(b"\0\0\0\x01b")?;
    add_name(&mut bytes, kind, 2, length)?;
    bytes.extend_from_slice(b"\0\0\0\x01")?;
    add_name(&mut bytes, kind, 1, length)?;
    bytes.extend_from_slice(
        b"\0\0\0\x04\0\0\0\0\0\0\0\x03\0\0\0\x0b\0\0\0\x01\0\0\0\x0c\0\0\0\x01\0\0\0\x0d\0\0\0\x02",
    )?;
    Ok(bytes)
}

/// A reference to the name that has this byte so often.
fn add_name(bytes: &mut Vec<u8>, kind: u8, byte: u8, length: usize) -> Result<(), Fail> {
    bytes.push(kind)?;
    for _place in 0..length {
        bytes.push(byte)?;
    }
    Ok(())
}
