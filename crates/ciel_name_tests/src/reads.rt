// Descriptions and objects read from their bytes: what has been read has the same bytes again, and what is no description's or object's is
// refused.

use ciel_name::object::{canon, object_bytes};
use ciel_name::read_object::{read_desc, read_object};
use ciel_name::refusal::Decode;
use std::alloc::Global;
use std::test::Fail;

// A call of `f` of 3, the main call, a call of the first anonymous function, which captured `k`, an output of `cat` and an input.
static DESCS: [&[u8]; 5] = [
    b"C\0\0\0\x01f\0\0\0\x01\x03\0\0\0\0\0\0\0\x03",
    b"C\0\0\0\0\0\0\0\0",
    b"L\0\0\0\x02#0\0\0\0\x01\0\0\0\x01k\x03\0\0\0\0\0\0\0\x0a\0\0\0\0",
    b"E\0\0\0\x03cat\0\0\0\0\x02\0\0\0\x01",
    b"I\0\0\0\x01t",
];

// Nothing; a kind alone; an argument too few; a byte too many; an anonymous function spelled as a named one, and the other way round; no
// kind; a key that isn't UTF-8; half an index; a captured name twice; an output whose arguments are no value.
static NO_DESCS: [&[u8]; 11] = [
    b"",
    b"C",
    b"C\0\0\0\x01f\0\0\0\x02\0",
    b"I\0\0\0\x01t\0",
    b"C\0\0\0\x02#0\0\0\0\0",
    b"L\0\0\0\x01f\0\0\0\0\0\0\0\0",
    b"c\0\0\0\0\0\0\0\0",
    b"I\0\0\0\x01\xff",
    b"E\0\0\0\x03cat\0\0\0\0\x02\0\0",
    b"L\0\0\0\x02#0\0\0\0\x02\0\0\0\x01k\0\0\0\0\x01k\0\0\0\0\0",
    b"E\0\0\0\x03cat\x0b\0\0\0\x02\0\0\0\x01",
];

// No bytes, some, a number, and the last kind of fault.
static OBJECTS: [&[u8]; 4] = [
    b"B",
    b"Bxyz\xff",
    b"D\x03\0\0\0\0\0\0\0\x03",
    b"F\x0e\0\0\0\x01\0\0\0\x02",
];

// Nothing; no value; a byte behind a value; a kind of fault that there isn't; half a column; a byte behind it; no kind.
static NO_OBJECTS: [&[u8]; 7] = [
    b"",
    b"D",
    b"D\0\0",
    b"F\x0f\0\0\0\x01\0\0\0\x02",
    b"F\x0e\0\0\0\x01\0\0\0",
    b"F\x0e\0\0\0\x01\0\0\0\x02\0",
    b"b",
];

fn is_desc(alloc: Global, bytes: &[u8]) -> Result<bool, Fail> {
    match read_desc(alloc, bytes) {
        Ok(desc) => Ok(canon(alloc, &desc)?.as_slice() == bytes),
        Err(_) => Ok(false),
    }
}

fn is_no_desc(alloc: Global, bytes: &[u8]) -> bool {
    matches!(read_desc(alloc, bytes), Err(Decode::NotValue))
}

fn is_object(alloc: Global, bytes: &[u8]) -> Result<bool, Fail> {
    match read_object(alloc, bytes) {
        Ok(object) => Ok(object_bytes(alloc, &object)?.as_slice() == bytes),
        Err(_) => Ok(false),
    }
}

fn is_no_object(alloc: Global, bytes: &[u8]) -> bool {
    matches!(read_object(alloc, bytes), Err(Decode::NotValue))
}

#[test]
fn descriptions_are_read(rt: HostRuntime) -> Result<(), Fail> {
    for bytes in DESCS {
        assert!(&rt; is_desc(rt.alloc(), bytes)?);
    }
    for bytes in NO_DESCS {
        assert!(&rt; is_no_desc(rt.alloc(), bytes));
    }
    Ok(())
}

#[test]
fn objects_are_read(rt: HostRuntime) -> Result<(), Fail> {
    for bytes in OBJECTS {
        assert!(&rt; is_object(rt.alloc(), bytes)?);
    }
    for bytes in NO_OBJECTS {
        assert!(&rt; is_no_object(rt.alloc(), bytes));
    }
    Ok(())
}

// A call of the main body with so many arguments that are null. Their list has a size of one more.
fn with_nulls(alloc: Global, count: u32) -> Result<Vec<u8>, Fail> {
    let mut bytes = Vec::from_slice(alloc, b"C\0\0\0\0")?;
    bytes.extend_from_slice(count.to_be_bytes().as_slice())?;
    for _null in 0..count {
        bytes.push(0)?;
    }
    Ok(bytes)
}

#[test]
fn arguments_are_a_list_within_the_limits(rt: HostRuntime) -> Result<(), Fail> {
    let most = with_nulls(rt.alloc(), 262_143)?;
    assert!(&rt; is_desc(rt.alloc(), most.as_slice())?);
    let more = with_nulls(rt.alloc(), 262_144)?;
    assert!(&rt; is_no_desc(rt.alloc(), more.as_slice()));
    Ok(())
}
