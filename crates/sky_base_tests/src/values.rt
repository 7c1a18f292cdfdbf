// Operators on values: answers that come from outside the definitions, and each call that may answer
// `Memory` once with ample memory. The steps are small functions, since each is proved.

ghost use Rattle.std.specs.Prelude.{◌≡◌, IfOk};
ghost use Rattle.sky_base.specs.Kept.{Kept};
ghost use Rattle.sky_base.specs.View.{view};

use sky_base::compare::compare;
use sky_base::fault::FaultKind;
use sky_base::name::Name;
use sky_base::op::{OpRefusal, append, index, limited, minus, over, plus, rest, set_at, times};
use sky_base::text::Txt;
use sky_base::tree::Cmp;
use sky_base::value::{Pairs, Vals, Value};
use std::alloc::Global;
use std::test::Fail;

fn list(alloc: Global, numbers: &[i64]) -> Result<Value, Fail>
    ensures { IfOk result (λ v. Kept (view v)) }
{
    let mut values = Vals::new(alloc);
    for n in numbers {
        values.push(Value::Int(*n))?;
    }
    Ok(limited(Value::List(values))?)
}

fn is_number(v: &Value, want: i64) -> bool {
    match v {
        Value::Int(n) => *n == want,
        _ => false,
    }
}

fn is_list(v: &Value, want: &[i64]) -> bool {
    let Value::List(values) = v else {
        return false;
    };
    for (i, n) in want.iter().enumerate() {
        match values.get(i) {
            Some(v) if is_number(v, *n) => {}
            _ => return false,
        }
    }
    values.len() == want.len()
}

fn is_refused(answer: Result<Value, OpRefusal>, want: FaultKind) -> bool {
    match answer {
        Err(refusal) => refusal == OpRefusal::Refused(want),
        Ok(_) => false,
    }
}

fn joins(alloc: Global) -> Result<bool, Fail> {
    let v = list(alloc, &[5, 6])?;
    Ok(is_list(&plus(alloc, &v, &v)?, &[5, 6, 5, 6]))
}

fn indexes(alloc: Global) -> Result<bool, Fail> {
    let v = list(alloc, &[5, 6])?;
    Ok(is_number(&index(&v, &Value::Int(1))?, 6))
}

fn refuses_places(alloc: Global, at: i64) -> Result<bool, Fail> {
    let mut v = list(alloc, &[5, 6])?;
    let found = index(&v, &Value::Int(at));
    let set = set_at(&mut v, &Value::Int(at), Value::Null);
    Ok(
        is_refused(found, FaultKind::NoIndex)
            && set == Err(OpRefusal::Refused(FaultKind::NoIndex))
            && is_list(&v, &[5, 6]),
    )
}

fn sets(alloc: Global) -> Result<bool, Fail> {
    let mut v = list(alloc, &[5, 6])?;
    set_at(&mut v, &Value::Int(1), Value::Int(8))?;
    Ok(is_list(&v, &[5, 8]))
}

fn grows(alloc: Global) -> Result<bool, Fail> {
    let mut v = list(alloc, &[5, 6])?;
    let held = v.copy()?;
    append(&mut v, Value::Int(7))?;
    Ok(is_list(&v, &[5, 6, 7]) && is_list(&held, &[5, 6]))
}

fn has_no_name(alloc: Global) -> Result<bool, Fail> {
    Ok(list(alloc, &[5, 6])?.refs(alloc)?.len() == 0)
}

#[test]
fn lists_are_joined_indexed_set_and_grown(rt: HostRuntime) -> Result<(), Fail> {
    let alloc = rt.alloc();
    assert!(rt; joins(alloc)?);
    assert!(rt; indexes(alloc)?);
    for at in [-1, 2] {
        assert!(rt; refuses_places(alloc, at)?, "at {at}");
    }
    assert!(rt; sets(alloc)?);
    assert!(rt; grows(alloc)?);
    assert!(rt; has_no_name(alloc)?);
    Ok(())
}

fn number(answer: Result<Value, FaultKind>) -> Result<i64, FaultKind> {
    match &answer? {
        Value::Int(n) => Ok(*n),
        _ => Err(FaultKind::WrongCount),
    }
}

#[test]
fn numbers_are_divided_towards_zero(rt: HostRuntime) {
    for (a, b, quotient, left) in [
        (7, 2, Ok(3), Ok(1)),
        (-7, 2, Ok(-3), Ok(-1)),
        (7, -2, Ok(-3), Ok(1)),
        (i64::MIN, -1, Err(FaultKind::Overflow), Ok(0)),
        (1, 0, Err(FaultKind::DivZero), Err(FaultKind::DivZero)),
    ] {
        assert!(rt;
            number(over(&Value::Int(a), &Value::Int(b))) == quotient,
            "{a} / {b}"
        );
        assert!(rt;
            number(rest(&Value::Int(a), &Value::Int(b))) == left,
            "{a} % {b}"
        );
    }
}

#[test]
fn numbers_overflow_at_the_ends(rt: HostRuntime) {
    for (a, b, difference, product) in [
        (i64::MIN, 1, Err(FaultKind::Overflow), Ok(i64::MIN)),
        (i64::MAX, -1, Err(FaultKind::Overflow), Ok(-i64::MAX)),
        (i64::MIN, -1, Ok(-i64::MAX), Err(FaultKind::Overflow)),
    ] {
        assert!(rt;
            number(minus(&Value::Int(a), &Value::Int(b))) == difference,
            "{a} - {b}"
        );
        assert!(rt;
            number(times(&Value::Int(a), &Value::Int(b))) == product,
            "{a} * {b}"
        );
    }
}

fn is_before(alloc: Global, how: Cmp) -> Result<Result<bool, FaultKind>, Fail> {
    let one = Value::Text(Txt::new(alloc, "ab")?);
    let other = Value::Text(Txt::new(alloc, "b")?);
    Ok(compare(how, &one, &other))
}

#[test]
fn values_are_compared(rt: HostRuntime) -> Result<(), Fail> {
    let alloc = rt.alloc();
    for (how, want) in [
        (Cmp::Eq, false),
        (Cmp::Ne, true),
        (Cmp::Lt, true),
        (Cmp::Ge, false),
    ] {
        assert!(rt; is_before(alloc, how)? == Ok(want));
    }
    let name = Value::Ref(Name::short([1; 20]));
    assert!(rt; compare(Cmp::Eq, &Value::Int(0), &Value::Bool(false)) == Ok(false));
    assert!(rt; compare(Cmp::Lt, &Value::Int(0), &Value::Null) == Err(FaultKind::BadKind));
    assert!(rt; compare(Cmp::Ne, &name, &Value::Null) == Err(FaultKind::BadKind));
    Ok(())
}

fn dictionary(alloc: Global) -> Result<Pairs, Fail> {
    let mut pairs = Pairs::new(alloc);
    for (key, n) in [("b", 2), ("a", 1), ("b", 3)] {
        pairs.insert(Txt::new(alloc, key)?, Value::Int(n))?;
    }
    Ok(pairs)
}

fn finds(alloc: Global, key: &str) -> Result<Option<i64>, Fail> {
    let pairs = dictionary(alloc)?;
    match pairs.find(&Txt::new(alloc, key)?) {
        Some(Value::Int(n)) => Ok(Some(*n)),
        _ => Ok(None),
    }
}

#[test]
fn dictionaries_keep_the_last_of_equal_keys(rt: HostRuntime) -> Result<(), Fail> {
    let alloc = rt.alloc();
    for (key, want) in [("a", Some(1)), ("b", Some(3)), ("c", None)] {
        assert!(rt; finds(alloc, key)? == want, "at {key}");
    }
    assert!(rt; dictionary(alloc)?.copy()?.len() == 2);
    Ok(())
}

fn letters(alloc: Global, n: usize) -> Result<Txt, Fail> {
    let mut letters = String::new(alloc);
    for _ in 0..n {
        letters.push('a')?;
    }
    Ok(Txt::from_string(letters)?)
}

fn joins_to(alloc: Global, n: usize) -> Result<Result<u64, OpRefusal>, Fail> {
    let one = limited(Value::Text(letters(alloc, n)?))?;
    let other = limited(Value::Text(letters(alloc, 131_072)?))?;
    match plus(alloc, &one, &other) {
        Ok(v) => Ok(Ok(v.size())),
        Err(refusal) => Ok(Err(refusal)),
    }
}

fn nested(alloc: Global, n: u32) -> Result<Value, Fail> {
    let mut v = Value::Null;
    for _ in 0..n {
        let mut values = Vals::new(alloc);
        values.push(v)?;
        v = Value::List(values);
    }
    Ok(v)
}

fn nests_to(alloc: Global, n: u32) -> Result<Result<(), OpRefusal>, Fail> {
    let mut v = list(alloc, &[])?;
    let inner = limited(nested(alloc, n)?)?;
    Ok(append(&mut v, inner))
}

#[test]
fn values_end_at_their_limits(rt: HostRuntime) -> Result<(), Fail> {
    let alloc = rt.alloc();
    assert!(rt; joins_to(alloc, 131_071)? == Ok(262_144));
    assert!(rt; joins_to(alloc, 131_072)? == Err(OpRefusal::Refused(FaultKind::TooLarge)));
    assert!(rt; nests_to(alloc, 98)? == Ok(()));
    assert!(rt; nests_to(alloc, 99)? == Err(OpRefusal::Refused(FaultKind::TooDeep)));
    Ok(())
}
