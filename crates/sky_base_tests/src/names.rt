// Names, and copies of what holds them.

use sky_base::name::Name;
use sky_base::object::{Desc1, Named, Object};
use sky_base::text::{Bytes, Txt};
use sky_base::value::{Vals, Value};
use std::alloc::Global;
use std::cmp::Ordering;
use std::test::Fail;

#[test]
fn shorter_names_come_first(rt: HostRuntime) {
    let (low, high) = (Name::short([1; 20]), Name::short([2; 20]));
    let (long, zeros) = (Name::long([1; 32]), Name::long([0; 32]));
    for (a, b, want) in [
        (low, high, Ordering::Less),
        (high, zeros, Ordering::Less),
        (zeros, low, Ordering::Greater),
        (zeros, long, Ordering::Less),
        (long, long, Ordering::Equal),
    ] {
        assert!(rt; a.cmp(&b) == want);
        assert!(rt; (a == b) == want.is_eq());
    }
    assert!(rt; zeros.bytes() == [0; 32].as_slice());
    assert!(rt; high.bytes() == [2; 20].as_slice());
}

fn keeps_first_places(alloc: Global) -> Result<bool, Fail> {
    let mut values = Vals::new(alloc);
    for byte in [2, 1, 2] {
        values.push(Value::Ref(Name::short([byte; 20])))?;
    }
    let names = Value::List(values).refs(alloc)?;
    Ok(names.as_slice() == [Name::short([2; 20]), Name::short([1; 20])].as_slice())
}

fn copies_a_description(alloc: Global) -> Result<bool, Fail> {
    let name = Name::short([1; 20]);
    let desc = Desc1::Input {
        key: Txt::new(alloc, "a")?,
    };
    let copy = Named { name, desc }.copy()?;
    match &copy.desc {
        Desc1::Input { key } => Ok(key.share()?.as_str() == "a"),
        _ => Ok(false),
    }
}

fn copies_an_object(alloc: Global) -> Result<bool, Fail> {
    let mut bytes = Vec::new(alloc);
    bytes.push(b'a')?;
    let copy = Object::Bytes(Bytes::new(alloc, bytes)?).copy()?;
    match &copy {
        Object::Bytes(bytes) => Ok(bytes.as_slice() == b"a".as_slice()),
        _ => Ok(false),
    }
}

#[test]
fn names_and_contents_are_copied(rt: HostRuntime) -> Result<(), Fail> {
    let alloc = rt.alloc();
    assert!(rt; keeps_first_places(alloc)?);
    assert!(rt; copies_a_description(alloc)?);
    assert!(rt; copies_an_object(alloc)?);
    Ok(())
}
