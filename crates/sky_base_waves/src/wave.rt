// A wave of the result: the value with each reference replaced by what it refers to.

ghost use Rattle.std.specs.Prelude.{◌≡◌, Ok, Err, Some, IfOk};
ghost use Rattle.sky_base.specs.Val.{known, refs, Rising};
ghost use Rattle.sky_base.specs.View.{view, vals_of, pairs_of};
ghost use Rattle.sky_base.specs.ObjectView.{object_view};
ghost use Rattle.sky_base_waves.specs.Wave.{value_of, value_seen, fill, fill_vals, fill_pairs, next_of, lone, turn_all, turn_at, last_at};
ghost use Rattle.sky_base.specs.See.{no_place, written};
ghost use Rattle.sky_base_waves.specs.WaveView.{FilledBy, ValsFilledBy, PairsFilledBy, EndsSo, TurnsSo};
ghost use Rattle.sky_base.specs.Kept.{Kept};
ghost use Rattle.sky_base.specs.See.{text_of};
ghost use Rattle.sky_base_known.specs.Data.{data_of};
ghost use Rattle.sky_base_known.specs.Text.{text_of as writes};

use crate::known::Known;
use sky_base::fault::{Fault, FaultKind};
use sky_base::object::Object;
use sky_base::text::{Bytes, Memory, Txt};
use sky_base::value::{Pair, Pairs, Vals, Value};
use sky_base_known::data::read;
use sky_base_known::write::{ToText, to_text};
use std::alloc::Global;

/// A fault that has no place in the script.
pub fn no_place(kind: FaultKind) -> Fault
    ensures { result ≡ no_place kind }
{
    Fault {
        kind,
        line: 0,
        col: 0,
    }
}

// An object as a value: bytes are data, else a text, else NotText.
fn as_value(alloc: Global, object: &Object) -> Result<Result<Value, Fault>, Memory>
    ensures { IfOk result (λ r. FilledBy r (value_of (data_of) (object_view object.now))) }
{
    match object {
        Object::Bytes(bytes) => match read(alloc, bytes)? {
            Ok(value) => Ok(Ok(value)),
            Err(_) => match str::from_utf8(bytes.as_slice()) {
                Ok(text) => Ok(Ok(Value::Text(Txt::new(alloc, text)?))),
                Err(_) => Ok(Err(no_place(FaultKind::NotText))),
            },
        },
        Object::Data(value) => Ok(Ok(value.copy()?)),
        Object::Fault(fault) => Ok(Err(*fault)),
    }
}

// The value with each reference replaced by what it refers to, or the first fault in order.
#[cycle(fill)]
fn fill<K: Known>(alloc: Global, value: &Value, objects: &K) -> Result<Result<Value, Fault>, Memory>
    ensures { IfOk result (λ r. FilledBy r (fill (λ d. value_seen (data_of) (K.knows objects.now d)) (view value.now))) }
{
    match value {
        Value::List(values) => {
            match fill_vals(alloc, values.as_slice(), objects)? {
                Ok(values) => Ok(Ok(Value::List(values))),
                Err(fault) => Ok(Err(fault)),
            }
        }
        Value::Dict(pairs) => {
            match fill_pairs(alloc, pairs.as_slice(), objects)? {
                Ok(pairs) => Ok(Ok(Value::Dict(pairs))),
                Err(fault) => Ok(Err(fault)),
            }
        }
        Value::Fun { name, caught } => {
            match fill_pairs(alloc, caught.as_slice(), objects)? {
                Ok(caught) => Ok(Ok(Value::Fun {
                    name: name.share()?,
                    caught,
                })),
                Err(fault) => Ok(Err(fault)),
            }
        }
        Value::Ref(name) => match objects.object(name) {
            Some(object) => as_value(alloc, object),
            None => Ok(Err(no_place(FaultKind::NotText))),
        },
        _ => Ok(Ok(value.copy()?)),
    }
}

#[cycle(fill)]
#[tactic(auto, using(sky_base::proofs::Values::inside, crate::proofs::Fills::fills))]
fn fill_vals<K: Known>(
    alloc: Global,
    values: &[Value],
    objects: &K,
) -> Result<Result<Vals, Fault>, Memory>
    ensures { IfOk result (λ r. ValsFilledBy r (fill_vals (λ d. value_seen (data_of) (K.knows objects.now d)) (vals_of values.now))) }
{
    let mut filled = Vals::new(alloc);
    for value in values {
        match fill(alloc, value, objects)? {
            Ok(value) => filled.push(value)?,
            Err(fault) => return Ok(Err(fault)),
        }
    }
    Ok(Ok(filled))
}

#[cycle(fill)]
#[tactic(auto, using(sky_base::proofs::Values::inside, crate::proofs::Fills::fills))]
fn fill_pairs<K: Known>(
    alloc: Global,
    pairs: &[Pair],
    objects: &K,
) -> Result<Result<Pairs, Fault>, Memory>
    requires { Rising (pairs_of pairs.now) }
    ensures { IfOk result (λ r. PairsFilledBy r (fill_pairs (λ d. value_seen (data_of) (K.knows objects.now d)) (pairs_of pairs.now))) }
{
    let mut filled = Pairs::new(alloc);
    for pair in pairs {
        match fill(alloc, &pair.value, objects)? {
            Ok(value) => filled.insert(pair.key.share()?, value)?,
            Err(fault) => return Ok(Err(fault)),
        }
    }
    Ok(Ok(filled))
}

/// What a wave comes to: the answer, or the value at the next wave.
#[derive(Drop)]
pub enum Turned {
    Text(Bytes),
    Fault(Fault),
    Next(Value),
}

/// The JSON text of a value and a line feed; NotText, with no place, where it holds a function or a
/// reference.
pub fn json_line(alloc: Global, value: &Value) -> Result<Result<Bytes, Fault>, Memory>
    requires { Kept (view value.now) }
    ensures { IfOk result (λ r. r ≡ written (writes (view value.now))) }
{
    match to_text(alloc, value) {
        Ok(text) => {
            let mut bytes = Vec::new(alloc);
            let Ok(()) = bytes.extend_from_slice(text.as_slice()) else {
                return Err(Memory)
            };
            let Ok(()) = bytes.push(b'\n') else {
                return Err(Memory)
            };
            Ok(Ok(Bytes::new(alloc, bytes)?))
        }
        Err(ToText::NotText) => Ok(Err(no_place(FaultKind::NotText))),
        Err(ToText::Memory) => Err(Memory),
    }
}

// The JSON text of a value and a line feed as the answer, or NotText.
#[tactic(auto, using(crate::proofs::Turns::texts))]
fn text(alloc: Global, value: &Value) -> Result<Turned, Memory>
    requires { Kept (view value.now) }
    ensures { IfOk result (λ t. EndsSo t (text_of (writes (view value.now)))) }
{
    match json_line(alloc, value)? {
        Ok(bytes) => Ok(Turned::Text(bytes)),
        Err(fault) => Ok(Turned::Fault(fault)),
    }
}

/// What a wave up to 100 comes to, where each reference of the value is known.
pub fn turn<K: Known>(alloc: Global, value: &Value, objects: &K) -> Result<Turned, Memory>
    requires { Kept (view value.now) }
    ensures { IfOk result (λ t. TurnsSo t (turn_at data_of writes (K.knows objects.now) (view value.now))) }
{
    if value.refs(alloc)?.len() == 0 {
        return text(alloc, value);
    }
    match value {
        Value::Ref(name) => match objects.object(name) {
            Some(object) => lone(alloc, value, object, objects),
            None => turn_all(alloc, value, objects),
        },
        _ => turn_all(alloc, value, objects),
    }
}

// What a wave comes to whose value is one reference, to this object: bytes are the answer.
fn lone<K: Known>(
    alloc: Global,
    value: &Value,
    object: &Object,
    objects: &K,
) -> Result<Turned, Memory>
    ensures { IfOk result (λ t. TurnsSo t (lone (Some (object_view object.now)) (turn_all data_of writes (K.knows objects.now) (view value.now)))) }
{
    match object {
        Object::Bytes(bytes) => Ok(Turned::Text(bytes.share()?)),
        Object::Data(_) => turn_all(alloc, value, objects),
        Object::Fault(_) => turn_all(alloc, value, objects),
    }
}

// The value with each reference replaced, within the limits, or the first fault.
fn turn_all<K: Known>(alloc: Global, value: &Value, objects: &K) -> Result<Turned, Memory>
    ensures { IfOk result (λ t. TurnsSo t (turn_all data_of writes (K.knows objects.now) (view value.now))) }
{
    match fill(alloc, value, objects)? {
        Err(fault) => Ok(Turned::Fault(fault)),
        Ok(next) => Ok(within(next)),
    }
}

// The value at the next wave, where it keeps the limits.
fn within(next: Value) -> Turned
    ensures { TurnsSo result (next_of (Ok (view next))) }
{
    if next.is_too_deep() {
        return Turned::Fault(no_place(FaultKind::TooDeep));
    }
    if next.is_too_large() {
        return Turned::Fault(no_place(FaultKind::TooLarge));
    }
    Turned::Next(next)
}

/// What the wave above 100 comes to.
pub fn last_turn(alloc: Global, value: &Value) -> Result<Turned, Memory>
    requires { Kept (view value.now) }
    ensures { IfOk result (λ t. EndsSo t (last_at (refs (view value.now)) (writes (view value.now)))) }
{
    if value.refs(alloc)?.len() == 0 {
        return text(alloc, value);
    }
    Ok(Turned::Fault(no_place(FaultKind::TooDeep)))
}
