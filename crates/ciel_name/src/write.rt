// The bytes of values. They are what names and marks are digests of, so each value has one spelling.

ghost use Rattle.std.specs.Prelude.{◌≡◌, ◌++◌, IfOk};
ghost use Rattle.sky_base.specs.Val.{count, pair_count};
ghost use Rattle.sky_base.specs.Name.{bytes, vals_bytes, pairs_bytes, is_anonymous, big_endian};
ghost use Rattle.sky_base.specs.View.{view};

use crate::writer::Writer;
use sky_base::text::{Bytes, Memory, Txt};
use sky_base::value::{Pairs, Vals, Value};
use std::alloc::Global;

/// The bytes of a value: a first byte for its kind, then its content.
///
/// `00`, `01`, `02` are null, false and true; `03` a number, eight bytes; `04` a text; `05` a list, its count and its
/// elements; `06` a dictionary, its count and each key as text and value, in the order of the keys; `07` a named
/// function, its name as text; `0A` an anonymous one, its name, the count of what it captured and each captured key
/// and value; `08` a reference with a name of 20 bytes, `09` one of 32. A text is its number of bytes and the bytes.
/// Numbers have the highest byte first, a number of a script in two's complement, counts and lengths four bytes.
///
/// Answers `Memory` for want of memory.
pub fn encode(alloc: Global, value: &Value) -> Result<Bytes, Memory>
    ensures bytes { IfOk result (λ b. b ≡ bytes (view value.now)) }
{
    let mut out = Writer::new(alloc);
    put_value(&mut out, value)?;
    out.finish(alloc)
}

/// Writes the bytes of a value.
///
/// After `Memory` the buffer holds what it held and then a first part of these bytes, or none of them.
#[cycle(put)]
#[tactic(auto, using(crate::proofs::Numbers::appends))]
pub fn put_value(out: &mut Writer, value: &Value) -> Result<(), Memory>
    ensures { IfOk result (λ _. out.new ≡ out.old ++ bytes (view value.now)) }
{
    match value {
        Value::Null => out.byte(0),
        Value::Bool(false) => out.byte(1),
        Value::Bool(true) => out.byte(2),
        Value::Int(number) => {
            out.byte(3)?;
            out.int(*number)
        }
        Value::Text(text) => {
            out.byte(4)?;
            out.text(text)
        }
        Value::List(values) => {
            out.byte(5)?;
            put_values(out, values)
        }
        Value::Dict(pairs) => {
            out.byte(6)?;
            put_pairs(out, pairs)
        }
        Value::Fun { name, caught } => if is_anonymous(name) {
            out.byte(10)?;
            out.text(name)?;
            put_pairs(out, caught)
        } else {
            out.byte(7)?;
            out.text(name)
        },
        Value::Ref(name) => {
            let bytes = name.bytes();
            out.byte(if bytes.len() == 20 { 8 } else { 9 })?;
            out.raw(bytes)
        }
    }
}

/// Writes the count of the elements, and then each.
///
/// After `Memory` the buffer holds what it held and then a first part of these bytes, or none of them.
#[cycle(put)]
#[tactic(auto, using(crate::proofs::Numbers::appends, sky_base::proofs::Values::inside))]
pub(crate) fn put_values(out: &mut Writer, values: &Vals) -> Result<(), Memory>
    ensures { IfOk result (λ _. out.new ≡ out.old ++ (big_endian 4 (count values.now) ++ vals_bytes values.now)) }
{
    out.count(values.len())?;
    for value in values.as_slice() {
        put_value(out, value)?;
    }
    Ok(())
}

/// Writes the count of the pairs, and then each: its key as text, its value.
///
/// After `Memory` the buffer holds what it held and then a first part of these bytes, or none of them.
#[cycle(put)]
#[tactic(auto, using(crate::proofs::Numbers::appends, sky_base::proofs::Values::inside))]
pub fn put_pairs(out: &mut Writer, pairs: &Pairs) -> Result<(), Memory>
    ensures { IfOk result (λ _. out.new ≡ out.old ++ (big_endian 4 (pair_count pairs.now) ++ pairs_bytes pairs.now)) }
{
    out.count(pairs.len())?;
    for pair in pairs.as_slice() {
        out.text(&pair.key)?;
        put_value(out, &pair.value)?;
    }
    Ok(())
}

/// Whether a function has a number in place of a name, `#k`: no name of a script begins so.
pub(crate) fn is_anonymous(name: &Txt) -> bool
    ensures { result ≡ is_anonymous name.now }
{
    match name.as_str().as_bytes() {
        [first, ..] => *first == b'#',
        [] => false,
    }
}
