// JSON texts as values: the text is read by `serde_json`, and its value is copied into one of a
// script, within the limits.

ghost use Rattle.std.specs.Prelude.{◌≡◌, ◌≤◌, ◌⊎◌, List, ℕ, Ok, Some, None, IfOk, IfErr, IfSome};
ghost use Rattle.serde_json.specs.View.{view as json_view, items_view, members_view};
ghost use Rattle.sky_base.specs.Val.{no_pairs};
ghost use Rattle.sky_base.specs.View.{view};
ghost use Rattle.sky_base.specs.Kept.{Kept};
ghost use Rattle.ciel_json.specs.Read.{after_byte, nests_too_deep, value_of, values_of, pairs_onto, value_read, reads, IsRefused};

use serde_json::{Map, Value as Json};
use sky_base::text::{Memory, Txt};
use sky_base::value::{Pairs, Vals, Value};
use std::alloc::Global;

/// The greatest number of bytes that are read as data.
pub const MOST_BYTES: usize = 8_388_608;

/// How many brackets may be open at once.
const MOST_BRACKETS: u32 = 100;

/// Why bytes have no value.
#[derive(Clone, Copy, Debug, PartialEq, Eq)]
pub enum ToValue {
    /// There are more than 8,388,608 bytes, or the value has a size above 262,144.
    TooLarge,
    /// They are no JSON, or a number in it is no whole number of 64 signed bits.
    NotData,
    /// More than 100 brackets are open at once, or the value has a depth above 100.
    TooDeep,
    /// Want of memory.
    Memory,
}

impl From<Memory> for ToValue {
    ghost use Rattle.ciel_json.specs.declared.read.ToValue.{ToValue};
    ghost use Rattle.std.specs.Prelude.{◌≡◌};

    ghost from_gives = { λ _ e. e ≡ ToValue.Memory };

    fn from(_refused: Memory) -> ToValue {
        ToValue::Memory
    }
}

/// What a byte of a JSON text stands within.
#[derive(Clone, Copy, Debug, PartialEq, Eq)]
enum Within {
    /// No text.
    Nothing,
    /// A text, behind its opening quote.
    Text,
    /// A text, behind a backslash.
    Escape,
}

/// The value that bytes stand for as JSON.
///
/// Answers the first of these: `TooLarge` for more than 8,388,608 bytes; `TooDeep` where more than
/// 100 brackets are open at some place outside texts; `NotData` where the bytes are no JSON, or a
/// number in it is no whole number of 64 signed bits; `TooDeep` for a depth above 100; `TooLarge` for
/// a size above 262,144. `Memory` may come wherever memory is taken.
pub fn to_value(alloc: Global, bytes: &[u8]) -> Result<Value, ToValue>
    ensures value { IfOk result (λ v. reads bytes.now ≡ Ok (view v)) }
    ensures kept { IfOk result (λ v. Kept (view v)) }
    ensures refused { IfErr result (λ e. IsRefused e (reads {N = List ℕ} bytes.now)) }
{
    if bytes.len() > MOST_BYTES {
        return Err(ToValue::TooLarge);
    }
    if nests_too_deep(bytes) {
        return Err(ToValue::TooDeep);
    }
    let value = read(alloc, bytes)?;
    if value.is_too_deep() {
        return Err(ToValue::TooDeep);
    }
    if value.is_too_large() {
        return Err(ToValue::TooLarge);
    }
    Ok(value)
}

/// Whether more than 100 brackets are open at some place outside texts.
fn nests_too_deep(bytes: &[u8]) -> bool
    ensures { result ≡ nests_too_deep bytes.now }
{
    let mut within = Within::Nothing;
    let mut opened = 0;
    for byte in bytes {
        let Some((next, count)) = after_byte(within, opened, *byte) else {
            return true;
        };
        within = next;
        opened = count;
    }
    false
}

/// What the next byte stands within, and how many brackets are open there; none where these are
/// more than 100.
fn after_byte(within: Within, opened: u32, byte: u8) -> Option<(Within, u32)>
    requires { opened ≤ 100 }
    ensures next { result ≡ after_byte within opened byte }
    ensures few { IfSome result (λ p. p.1 ≤ 100) }
{
    match within {
        Within::Nothing => match byte {
            b'"' => Some((Within::Text, opened)),
            b'[' | b'{' => if opened >= MOST_BRACKETS {
                None
            } else {
                Some((Within::Nothing, opened + 1))
            },
            b']' | b'}' => Some((Within::Nothing, opened.saturating_sub(1))),
            _ => Some((Within::Nothing, opened)),
        },
        Within::Text => match byte {
            b'"' => Some((Within::Nothing, opened)),
            b'\\' => Some((Within::Escape, opened)),
            _ => Some((Within::Text, opened)),
        },
        Within::Escape => Some((Within::Text, opened)),
    }
}

/// The value that bytes stand for, of any depth and size: `NotData` where they stand for none.
fn read(alloc: Global, bytes: &[u8]) -> Result<Value, ToValue>
    ensures value { IfOk result (λ v. value_read bytes.now ≡ Some (view v)) }
    ensures not_data { IfErr result (λ e. (e ≡ ToValue.Memory)
        ⊎ ((e ≡ ToValue.NotData) × (value_read {N = List ℕ} bytes.now ≡ None))) }
{
    match Json::from_slice(alloc, bytes) {
        Ok(json) => take(alloc, &json),
        Err(refusal) => if refusal.is_memory() {
            Err(ToValue::Memory)
        } else {
            Err(ToValue::NotData)
        },
    }
}

/// The value that one of `serde_json` stands for.
#[cycle(take)]
fn take(alloc: Global, json: &Json) -> Result<Value, ToValue>
    ensures value { IfOk result (λ v. value_of (json_view json.now) ≡ Some (view v)) }
    ensures not_data { IfErr result (λ e. (e ≡ ToValue.Memory)
        ⊎ ((e ≡ ToValue.NotData) × (value_of {N = List ℕ} (json_view json.now) ≡ None))) }
{
    match json {
        Json::Null => Ok(Value::Null),
        Json::Bool(b) => Ok(Value::Bool(*b)),
        Json::Number(number) => match number.as_i64() {
            Some(number) => Ok(Value::Int(number)),
            None => Err(ToValue::NotData),
        },
        Json::String(text) => Ok(Value::Text(Txt::new(alloc, text.as_str())?)),
        Json::Array(items) => Ok(Value::List(take_items(alloc, items)?)),
        Json::Object(members) => Ok(Value::Dict(take_members(alloc, members)?)),
    }
}

#[cycle(take)]
fn take_items(alloc: Global, items: &Vec<Json>) -> Result<Vals, ToValue>
    ensures value { IfOk result (λ v. values_of (items_view items.now.items) ≡ Some v) }
    ensures not_data { IfErr result (λ e. (e ≡ ToValue.Memory)
        ⊎ ((e ≡ ToValue.NotData) × (values_of {N = List ℕ} (items_view items.now.items) ≡ None))) }
{
    let mut values = Vals::new(alloc);
    for item in items {
        values.push(take(alloc, item)?)?;
    }
    Ok(values)
}

#[cycle(take)]
fn take_members(alloc: Global, members: &Map<String, Json>) -> Result<Pairs, ToValue>
    ensures value { IfOk result (λ v. pairs_onto no_pairs (members_view members.now.entries) ≡ Some v) }
    ensures not_data { IfErr result (λ e. (e ≡ ToValue.Memory)
        ⊎ ((e ≡ ToValue.NotData) × (pairs_onto {N = List ℕ} no_pairs (members_view members.now.entries) ≡ None))) }
{
    let mut pairs = Pairs::new(alloc);
    for (key, member) in members.iter() {
        let key = Txt::new(alloc, key.as_str())?;
        pairs.insert(key, take(alloc, member)?)?;
    }
    Ok(pairs)
}
