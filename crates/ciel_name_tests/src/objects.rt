// Bytes of objects.

use crate::hexadecimal::are;
use ciel_name::object::object_bytes;
use sky_base::fault::{Fault, FaultKind};
use sky_base::object::Object;
use sky_base::text::Bytes;
use sky_base::value::Value;
use std::alloc::Global;
use std::process::Abort;
use std::test::Fail;

/// The object has these bytes.
fn has(rt: &impl Abort, alloc: Global, object: &Object, want: &str) -> Result<(), Fail> {
    let bytes = object_bytes(alloc, object)?;
    are(rt, alloc, bytes.as_slice(), want)
}

#[test]
fn bytes_as_an_object(rt: HostRuntime) -> Result<(), Fail> {
    let bytes = Bytes::new(rt.alloc(), Vec::from_slice(rt.alloc(), b"ab")?)?;
    has(&rt, rt.alloc(), &Object::Bytes(bytes), "426162")
}

#[test]
fn data_and_faults_as_objects(rt: HostRuntime) -> Result<(), Fail> {
    let data = Object::Data(Value::Int(-2));
    has(&rt, rt.alloc(), &data, "4403fffffffffffffffe")?;
    let fault = Object::Fault(Fault {
        kind: FaultKind::Overflow,
        line: 1,
        col: 258,
    });
    has(&rt, rt.alloc(), &fault, "46020000000100000102")
}
