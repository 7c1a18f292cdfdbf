//! Values in words.

ghost use Rattle.std.specs.Prelude.{◌++◌, IfOk, codes, true};
ghost use Rattle.std.specs.Fmt.{signed_decimal};
ghost use Rattle.sky_base.specs.View.{view};
ghost use Rattle.ciel_look_words.specs.Kept.{Puts};
ghost use Rattle.ciel_look_words.specs.Words.{between, digits, pairs_words, vals_words, value_words};

use crate::short::Short;
use itoa::Buffer;
use sky_base::name::Name;
use sky_base::text::{Memory, Txt};
use sky_base::value::{Pairs, Vals, Value};
use std::alloc::Global;

/// Puts a value in words, as far as they are kept.
#[cycle(put)]
pub fn put_value(alloc: Global, out: &mut Short, value: &Value) -> Result<(), Memory>
    ensures { IfOk result (λ _. Puts out.old (value_words (view value.now)) out.new) }
{
    if out.is_full() {
        return Ok(());
    }
    match value {
        Value::Null => put(out, "null"),
        Value::Bool(false) => put(out, "false"),
        Value::Bool(true) => put(out, "true"),
        Value::Int(number) => put_int(out, *number),
        Value::Text(text) => put_text(out, text),
        Value::List(values) => {
            put(out, "[")?;
            put_values(alloc, out, values)?;
            put(out, "]")?;
            Ok(())
        }
        Value::Dict(pairs) => {
            put(out, "{")?;
            put_pairs(alloc, out, pairs)?;
            put(out, "}")?;
            Ok(())
        }
        Value::Fun { name, caught: _ } => put(out, name.as_str()),
        Value::Ref(name) => put_name(alloc, out, name),
    }
}

/// Puts a text.
pub fn put(out: &mut Short, text: &str) -> Result<(), Memory>
    ensures { IfOk result (λ _. Puts out.old text.now out.new) }
{
    out.put(text.as_bytes())?;
    Ok(())
}

/// Puts a text in quotation marks.
fn put_text(out: &mut Short, text: &Txt) -> Result<(), Memory>
    ensures { IfOk result (λ _. Puts out.old (codes "\"" ++ (text.now ++ codes "\"")) out.new) }
{
    put(out, "\"")?;
    put(out, text.as_str())?;
    put(out, "\"")?;
    Ok(())
}

/// Puts a number in decimal.
fn put_int(out: &mut Short, number: i64) -> Result<(), Memory>
    ensures { IfOk result (λ _. Puts out.old (signed_decimal number) out.new) }
{
    let mut digits = Buffer::new();
    put(out, digits.format(number))?;
    Ok(())
}

/// Puts the first digits of a name.
pub fn put_name(alloc: Global, out: &mut Short, name: &Name) -> Result<(), Memory>
    ensures { IfOk result (λ _. Puts out.old (digits name.now ++ codes "..") out.new) }
{
    let Ok(text) = hex::encode(alloc, &name.bytes()[..4]) else {
        return Err(Memory);
    };
    put(out, text.as_str())?;
    put(out, "..")?;
    Ok(())
}

/// Puts what stands before one of several.
fn put_between(out: &mut Short, first: bool) -> Result<(), Memory>
    ensures { IfOk result (λ _. Puts out.old (between first) out.new) }
{
    if first {
        return Ok(());
    }
    put(out, ", ")?;
    Ok(())
}

/// Puts values, one behind the other.
#[cycle(put)]
#[tactic(auto, using(sky_base::proofs::Values::inside))]
pub fn put_values(alloc: Global, out: &mut Short, values: &Vals) -> Result<(), Memory>
    ensures { IfOk result (λ _. Puts out.old (vals_words true values.now) out.new) }
{
    let mut first = true;
    for value in values.as_slice() {
        if out.is_full() {
            return Ok(());
        }
        put_between(out, first)?;
        put_value(alloc, out, value)?;
        first = false;
    }
    Ok(())
}

/// Puts pairs, one behind the other.
#[cycle(put)]
#[tactic(auto, using(sky_base::proofs::Values::inside))]
pub fn put_pairs(alloc: Global, out: &mut Short, pairs: &Pairs) -> Result<(), Memory>
    ensures { IfOk result (λ _. Puts out.old (pairs_words true pairs.now) out.new) }
{
    let mut first = true;
    for pair in pairs.as_slice() {
        if out.is_full() {
            return Ok(());
        }
        put_between(out, first)?;
        put(out, pair.key.as_str())?;
        put(out, ": ")?;
        put_value(alloc, out, &pair.value)?;
        first = false;
    }
    Ok(())
}
