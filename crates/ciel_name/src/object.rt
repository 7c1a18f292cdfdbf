// The bytes of descriptions and of objects.

ghost use Rattle.std.specs.Prelude.{◌≡◌, ◌∷◌, ◌++◌, IfOk};
ghost use Rattle.sky_base.specs.Name.{bytes, big_endian, bytes_of_text, canon};
ghost use Rattle.sky_base.specs.Val.{call, input, out as output};
ghost use Rattle.sky_base.specs.ObjectView.{desc_view, object_view};
ghost use Rattle.sky_base.specs.View.{view};
ghost use Rattle.ciel_name.specs.Object.{object_bytes, kind_number};

use crate::write::{is_anonymous, put_pairs, put_value, put_values};
use crate::writer::Writer;
use sky_base::fault::FaultKind;
use sky_base::object::{Desc1, Object};
use sky_base::text::{Bytes, Memory, Txt};
use sky_base::value::{Pairs, Vals, Value};
use std::alloc::Global;

/// The canonical bytes of a description, of which its name is the digest. The references inside are names already, so
/// they are bytes of one level.
///
/// `43`, the function's name as text, and the count of the arguments and each, for a call of a named function or of the
/// main body; `4C`, the name, the count of the captured pairs and each, and the arguments likewise, for an anonymous
/// one; `45`, the executor's name, its arguments as one value, the number of outputs and the index in four bytes each;
/// `49`, the key of an input.
///
/// Answers `Memory` for want of memory.
pub fn canon(alloc: Global, desc: &Desc1) -> Result<Bytes, Memory>
    ensures bytes { IfOk result (λ b. b ≡ canon (desc_view desc.now)) }
{
    let mut out = Writer::new(alloc);
    put_desc(&mut out, desc)?;
    out.finish(alloc)
}

/// The bytes of an object: `42` and its bytes; `44` and the bytes of its value; or `46`, the kind of the fault in one
/// byte, by its place among the kinds from 0, and the line and the column in four bytes each.
///
/// Answers `Memory` for want of memory.
pub fn object_bytes(alloc: Global, object: &Object) -> Result<Bytes, Memory>
    ensures bytes { IfOk result (λ b. b ≡ object_bytes (object_view object.now)) }
{
    let mut out = Writer::new(alloc);
    put_object(&mut out, object)?;
    out.finish(alloc)
}

/// Writes the canonical bytes of a description.
pub(crate) fn put_desc(out: &mut Writer, desc: &Desc1) -> Result<(), Memory>
    ensures { IfOk result (λ _. out.new ≡ out.old ++ canon (desc_view desc.now)) }
{
    match desc {
        Desc1::Call { fun, caught, args } => put_call(out, fun, caught, args),
        Desc1::Exec {
            executor,
            args,
            outputs,
            index,
        } => put_output(out, executor, args, *outputs, *index),
        Desc1::Input { key } => put_input(out, key),
    }
}

#[tactic(auto, using(crate::proofs::Numbers::appends))]
fn put_call(out: &mut Writer, fun: &Txt, caught: &Pairs, args: &Vals) -> Result<(), Memory>
    ensures { IfOk result (λ _. out.new ≡ out.old ++ canon (call fun.now caught.now args.now)) }
{
    if is_anonymous(fun) {
        out.byte(b'L')?;
        out.text(fun)?;
        put_pairs(out, caught)?;
    } else {
        out.byte(b'C')?;
        out.text(fun)?;
    }
    put_values(out, args)
}

/// Writes the canonical bytes of an executor's output.
#[tactic(auto, using(crate::proofs::Numbers::appends))]
pub(crate) fn put_output(
    out: &mut Writer,
    executor: &Txt,
    args: &Value,
    outputs: u32,
    index: u32,
) -> Result<(), Memory>
    ensures { IfOk result (λ _. out.new ≡ out.old ++ canon (output executor.now (view args.now) outputs index)) }
{
    out.byte(b'E')?;
    out.text(executor)?;
    put_value(out, args)?;
    out.number(outputs)?;
    out.number(index)
}

#[tactic(auto, using(crate::proofs::Numbers::appends))]
fn put_input(out: &mut Writer, key: &Txt) -> Result<(), Memory>
    ensures { IfOk result (λ _. out.new ≡ out.old ++ canon (input key.now)) }
{
    out.byte(b'I')?;
    out.text(key)
}

#[tactic(auto, using(crate::proofs::Numbers::appends))]
fn put_object(out: &mut Writer, object: &Object) -> Result<(), Memory>
    ensures { IfOk result (λ _. out.new ≡ out.old ++ object_bytes (object_view object.now)) }
{
    match object {
        Object::Bytes(bytes) => {
            out.byte(b'B')?;
            out.raw(bytes.as_slice())
        }
        Object::Data(value) => {
            out.byte(b'D')?;
            put_value(out, value)
        }
        Object::Fault(fault) => {
            out.byte(b'F')?;
            out.byte(kind_number(fault.kind))?;
            out.number(fault.line)?;
            out.number(fault.col)
        }
    }
}

/// A kind's place among the kinds, from 0.
pub fn kind_number(kind: FaultKind) -> u8
    ensures { result ≡ kind_number kind }
{
    kind as u8
}
