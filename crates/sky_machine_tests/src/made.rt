// Objects of what a row says of them, and what is said of objects.

ghost use Rattle.std.specs.Prelude.{[], ◌∷◌, IfOk};
ghost use Rattle.sky_machine_tests.specs.Rows.{SoundAnywhere};

use sky_base::fault::{Fault, FaultKind};
use sky_base::object::Object;
use sky_base::text::Bytes;
use sky_base::value::Value;
use std::alloc::Global;
use std::test::Fail;

/// An object: these bytes, or the fault `DivZero` at this line.
#[derive(Clone, Copy)]
pub enum Given {
    Bytes(&'static [u8]),
    Fault(u32),
}

/// What a call ended with, in numbers: a number, null, a fault with its place, or something else.
#[derive(Clone, Copy, PartialEq, Eq)]
pub enum Ended {
    Int(i64),
    Null,
    Fault(FaultKind, u32, u32),
    Other,
}

fn bytes(alloc: Global, bytes: &[u8]) -> Result<Bytes, Fail> {
    Ok(Bytes::new(alloc, Vec::from_slice(alloc, bytes)?)?)
}

fn object(alloc: Global, given: Given) -> Result<Object, Fail>
    ensures { IfOk result (λ o. SoundAnywhere (o ∷ [])) }
{
    match given {
        Given::Bytes(given) => {
            let bytes = bytes(alloc, given)?;
            Ok(Object::Bytes(bytes))
        }
        Given::Fault(line) => Ok(Object::Fault(Fault {
            kind: FaultKind::DivZero,
            line,
            col: 1,
        })),
    }
}

/// The objects, in order.
pub fn objects(alloc: Global, given: &[Given]) -> Result<Vec<Object>, Fail>
    ensures { IfOk result (λ os. SoundAnywhere os.items) }
{
    let mut objects = Vec::new(alloc);
    for one in given {
        let object = object(alloc, *one)?;
        objects.push(object)?;
    }
    Ok(objects)
}

/// In numbers.
pub fn in_numbers(object: &Object) -> Ended {
    match object {
        Object::Data(Value::Int(number)) => Ended::Int(*number),
        Object::Data(Value::Null) => Ended::Null,
        Object::Fault(Fault { kind, line, col }) => Ended::Fault(*kind, *line, *col),
        _ => Ended::Other,
    }
}
