// Functions that captured, and references: sizes, depths and limits, names in order, comparison.

ghost use Rattle.std.specs.Prelude.{◌≡◌, IfOk};
ghost use Rattle.sky_base.specs.Kept.{Kept};
ghost use Rattle.sky_base.specs.View.{view};

use sky_base::compare::compare;
use sky_base::fault::FaultKind;
use sky_base::name::Name;
use sky_base::op::{OpRefusal, append, limited};
use sky_base::text::Txt;
use sky_base::tree::Cmp;
use sky_base::value::{Pairs, Vals, Value};
use std::alloc::Global;
use std::test::Fail;

fn function(alloc: Global, caught: Pairs) -> Result<Value, Fail> {
    let name = Txt::new(alloc, "#0")?;
    Ok(Value::Fun { name, caught })
}

fn reference(byte: u8) -> Value {
    Value::Ref(Name::short([byte; 20]))
}

// Null in so many lists.
fn nested(alloc: Global, n: u32) -> Result<Value, Fail> {
    let mut v = Value::Null;
    for _ in 0..n {
        let mut values = Vals::new(alloc);
        values.push(v)?;
        v = Value::List(values);
    }
    Ok(v)
}

fn letters(alloc: Global, n: usize) -> Result<Value, Fail> {
    let mut letters = String::new(alloc);
    for _ in 0..n {
        letters.push('a')?;
    }
    Ok(Value::Text(Txt::from_string(letters)?))
}

// The size and the depth of a function that captured null in so many lists and a text of so many bytes.
fn closed(alloc: Global, depth: u32, bytes: usize) -> Result<Result<(u64, u32), FaultKind>, Fail> {
    let mut caught = Pairs::new(alloc);
    caught.insert(Txt::new(alloc, "y")?, letters(alloc, bytes)?)?;
    caught.insert(Txt::new(alloc, "x")?, nested(alloc, depth)?)?;
    match limited(function(alloc, caught)?) {
        Ok(v) => Ok(Ok((v.size(), v.depth()))),
        Err(kind) => Ok(Err(kind)),
    }
}

#[test]
fn what_was_captured_counts(rt: HostRuntime) -> Result<(), Fail> {
    for (depth, bytes, want) in [
        (0, 0, Ok((7, 2))),
        (3, 10, Ok((20, 5))),
        (98, 262_039, Ok((262_144, 100))),
        (98, 262_040, Err(FaultKind::TooLarge)),
        (99, 0, Err(FaultKind::TooDeep)),
        (99, 262_143, Err(FaultKind::TooDeep)),
    ] {
        assert!(rt;
            closed(rt.alloc(), depth, bytes)? == want,
            "{depth} and {bytes}"
        );
    }
    Ok(())
}

fn bare_size(alloc: Global) -> Result<(u64, u32), Fail> {
    let v = limited(function(alloc, Pairs::new(alloc))?)?;
    Ok((v.size(), v.depth()))
}

// A list of a function that captured the references of bytes 2 and 1, and of those of bytes 3 and 1.
fn holding(alloc: Global) -> Result<Value, Fail> {
    let mut caught = Pairs::new(alloc);
    caught.insert(Txt::new(alloc, "b")?, reference(1))?;
    caught.insert(Txt::new(alloc, "a")?, reference(2))?;
    let mut values = Vals::new(alloc);
    values.push(function(alloc, caught)?)?;
    values.push(reference(3))?;
    values.push(reference(1))?;
    Ok(Value::List(values))
}

fn names_are(alloc: Global, v: &Value, want: &[u8]) -> Result<bool, Fail> {
    let names = v.refs(alloc)?;
    for (i, byte) in want.iter().enumerate() {
        match names.as_slice().get(i) {
            Some(name) if *name == Name::short([*byte; 20]) => {}
            _ => return Ok(false),
        }
    }
    Ok(names.len() == want.len())
}

#[test]
fn captured_values_are_looked_through(rt: HostRuntime) -> Result<(), Fail> {
    let alloc = rt.alloc();
    assert!(rt; bare_size(alloc)? == (3, 1));
    let v = holding(alloc)?;
    assert!(rt; names_are(alloc, &v, &[2, 1, 3])?);
    assert!(rt; names_are(alloc, &v.copy()?, &[2, 1, 3])?);
    let f = function(alloc, Pairs::new(alloc))?;
    assert!(rt; compare(Cmp::Eq, &f, &f) == Err(FaultKind::BadKind));
    assert!(rt; compare(Cmp::Eq, &Value::Null, &f) == Err(FaultKind::BadKind));
    Ok(())
}

// So many references, by names that all differ.
fn references(alloc: Global, n: u32) -> Result<Value, Fail>
    ensures { IfOk result (λ v. Kept (view v)) }
{
    let mut values = Vals::new(alloc);
    for k in 0..n {
        let mut bytes = [0; 20];
        bytes[18] = (k / 256 % 256) as u8;
        bytes[19] = (k % 256) as u8;
        values.push(Value::Ref(Name::short(bytes)))?;
    }
    Ok(limited(Value::List(values))?)
}

fn is_appended(alloc: Global, n: u32) -> Result<Result<(), OpRefusal>, Fail> {
    let mut v = references(alloc, n)?;
    let more = limited(reference(255))?;
    Ok(append(&mut v, more))
}

fn count_names(alloc: Global, n: u32) -> Result<usize, Fail> {
    Ok(references(alloc, n)?.refs(alloc)?.len())
}

#[test]
fn a_list_holds_8191_references(rt: HostRuntime) -> Result<(), Fail> {
    let alloc = rt.alloc();
    assert!(rt; references(alloc, 8_191)?.size() == 262_113);
    assert!(rt; count_names(alloc, 8_191)? == 8_191);
    assert!(rt; is_appended(alloc, 8_190)? == Ok(()));
    assert!(rt; is_appended(alloc, 8_191)? == Err(OpRefusal::Refused(FaultKind::TooLarge)));
    Ok(())
}
