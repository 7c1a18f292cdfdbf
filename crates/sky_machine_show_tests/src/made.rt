// Values and objects, made of what a row says of them.

ghost use Rattle.std.specs.Prelude.{IfOk};
ghost use Rattle.sky_base.specs.Kept.{Kept};
ghost use Rattle.sky_base.specs.ObjectView.{object_view};
ghost use Rattle.sky_base.specs.View.{view};
ghost use Rattle.sky_base_law.specs.Tasks.{Each};
ghost use Rattle.sky_base_known.specs.Known.{KeptObject};

use sky_base::fault::{Fault, FaultKind};
use sky_base::name::Name;
use sky_base::object::Object;
use sky_base::text::{Bytes, Memory, Txt};
use sky_base::value::{Pairs, Vals, Value};
use std::alloc::Global;
use std::test::Fail;

/// A value: a reference to the object of this number, a list of such references, a number, a list of so many lists one in the
/// other, a text of so many bytes, or the function `f`.
#[derive(Clone, Copy)]
pub enum Form {
    One(u8),
    Many(&'static [u8]),
    Int(i64),
    Deep(u32),
    Long(usize),
    Fun,
}

/// An object: these bytes, a value, or the fault `DivZero` at this line.
#[derive(Clone, Copy)]
pub enum Given {
    Bytes(&'static [u8]),
    Data(Form),
    Fault(u32),
}

/// The name of this number.
pub fn name(number: u8) -> Name {
    Name::short([number; 20])
}

fn list(alloc: Global, numbers: &[u8]) -> Result<Value, Memory> {
    let mut values = Vals::new(alloc);
    for number in numbers {
        values.push(Value::Ref(name(*number)))?;
    }
    Ok(Value::List(values))
}

fn wrapped(alloc: Global, value: Value) -> Result<Value, Memory> {
    let mut values = Vals::new(alloc);
    values.push(value)?;
    Ok(Value::List(values))
}

fn deep(alloc: Global, depth: u32) -> Result<Value, Memory> {
    let mut value = Value::Null;
    for _ in 0..depth {
        value = wrapped(alloc, value)?;
    }
    Ok(value)
}

fn long(alloc: Global, length: usize) -> Result<Value, Fail> {
    let mut bytes = Vec::new(alloc);
    for _ in 0..length {
        bytes.push(b'a')?;
    }
    match str::from_utf8(bytes.as_slice()) {
        Ok(text) => Ok(Value::Text(Txt::new(alloc, text)?)),
        Err(_) => Err(Fail::from("no text")),
    }
}

fn function(alloc: Global) -> Result<Value, Memory> {
    Ok(Value::Fun {
        name: Txt::new(alloc, "f")?,
        caught: Pairs::new(alloc),
    })
}

/// The value of a form.
pub fn value(alloc: Global, form: Form) -> Result<Value, Fail> {
    match form {
        Form::One(number) => Ok(Value::Ref(name(number))),
        Form::Many(numbers) => Ok(list(alloc, numbers)?),
        Form::Int(number) => Ok(Value::Int(number)),
        Form::Deep(depth) => Ok(deep(alloc, depth)?),
        Form::Long(length) => long(alloc, length),
        Form::Fun => Ok(function(alloc)?),
    }
}

/// The value of a form, which keeps the limits.
pub fn kept(alloc: Global, form: Form) -> Result<Value, Fail>
    ensures { IfOk result (λ v. Kept (view v)) }
{
    let value = value(alloc, form)?;
    if value.is_too_deep() || value.is_too_large() {
        return Err(Fail::from("past the limits"));
    }
    Ok(value)
}

/// The object, within the limits.
fn object(alloc: Global, given: Given) -> Result<Object, Fail>
    ensures { IfOk result (λ o. KeptObject (object_view o)) }
{
    match given {
        Given::Bytes(bytes) => {
            let bytes = Bytes::new(alloc, Vec::from_slice(alloc, bytes)?)?;
            Ok(Object::Bytes(bytes))
        }
        Given::Data(form) => {
            let value = kept(alloc, form)?;
            Ok(Object::Data(value))
        }
        Given::Fault(line) => Ok(Object::Fault(Fault {
            kind: FaultKind::DivZero,
            line,
            col: 1,
        })),
    }
}

/// The objects, in order.
pub fn objects(alloc: Global, given: &[Given]) -> Result<Vec<Object>, Fail>
    ensures { IfOk result (λ os. Each (λ o. KeptObject (object_view o)) os.items) }
{
    let mut objects = Vec::new(alloc);
    for one in given {
        let object = object(alloc, *one)?;
        objects.push(object)?;
    }
    Ok(objects)
}
