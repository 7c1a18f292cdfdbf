// The JSON text of a value: the value is copied into `serde_json`'s own, which is then written.

ghost use Rattle.std.specs.Prelude.{◌≡◌, ◌≤◌, ◌⊎◌, Some, IfOk, IfErr, true, false};
ghost use Rattle.serde_json.specs.View.{view as json_view, items_view, members_view};
ghost use Rattle.serde_json.specs.Data.{no_members};
ghost use Rattle.sky_base.specs.Val.{size, depth, is_plain, vals_plain, pairs_plain};
ghost use Rattle.sky_base.specs.View.{view, vals_of, pairs_of};
ghost use Rattle.ciel_json.specs.Text.{json_of, items_of, members_of, text_of};

use serde_json::{Map, Value as Json};
use sky_base::text::{Bytes, Memory};
use sky_base::value::{Pair, Value};
use std::alloc::{AllocError, AllocFailed, Global};

/// Why a value has no text.
#[derive(Clone, Copy, Debug, PartialEq, Eq)]
pub enum ToText {
    /// It holds a function or a reference.
    NotText,
    /// Want of memory.
    Memory,
}

impl From<AllocError> for ToText {
    ghost use Rattle.ciel_json.specs.declared.write.ToText.TheVariants.{Memory};
    ghost use Rattle.std.specs.Prelude.{◌≡◌};

    ghost from_gives = { λ _ e. e ≡ Memory };

    fn from(_refused: AllocError) -> ToText {
        ToText::Memory
    }
}

impl<T: Drop> From<AllocFailed<T>> for ToText {
    ghost use Rattle.ciel_json.specs.declared.write.ToText.TheVariants.{Memory};
    ghost use Rattle.std.specs.Prelude.{◌≡◌};

    ghost from_gives = { λ _ e. e ≡ Memory };

    fn from(_refused: AllocFailed<T>) -> ToText {
        ToText::Memory
    }
}

/// The compact JSON text of a value, as `serde_json` writes it: dictionaries in the order of their
/// keys, no spaces and no line feed.
///
/// Answers `NotText` exactly where the value holds a function or a reference, and `Memory` for want
/// of memory.
pub fn to_text(alloc: Global, value: &Value) -> Result<Bytes, ToText>
    requires deep { depth (view value.now) ≤ 100 }
    requires large { size (view value.now) ≤ 262144 }
    ensures text { IfOk result (λ b. text_of (view value.now) ≡ Some b) }
    ensures not_text { IfErr result (λ e. (e ≡ ToText.Memory)
        ⊎ ((e ≡ ToText.NotText) × (is_plain (view value.now) ≡ false))) }
{
    let json = give(alloc, value)?;
    let text = json.to_vec(alloc)?;
    match Bytes::new(alloc, text) {
        Ok(text) => Ok(text),
        Err(Memory) => Err(ToText::Memory),
    }
}

/// The value of `serde_json` that is written for a value.
#[cycle(give)]
fn give(alloc: Global, value: &Value) -> Result<Json, ToText>
    ensures json { IfOk result (λ j. json_view j ≡ json_of (view value.now)) }
    ensures plain { IfOk result (λ _. is_plain (view value.now) ≡ true) }
    ensures not_text { IfErr result (λ e. (e ≡ ToText.Memory)
        ⊎ ((e ≡ ToText.NotText) × (is_plain (view value.now) ≡ false))) }
{
    match value {
        Value::Null => Ok(Json::Null),
        Value::Bool(b) => Ok(Json::Bool(*b)),
        Value::Int(z) => Ok(Json::from(*z)),
        Value::Text(text) => Ok(Json::String(String::from_str(alloc, text.as_str())?)),
        Value::List(values) => Ok(Json::Array(give_items(alloc, values.as_slice())?)),
        Value::Dict(pairs) => Ok(Json::Object(give_members(alloc, pairs.as_slice())?)),
        Value::Fun { .. } | Value::Ref(_) => Err(ToText::NotText),
    }
}

#[cycle(give)]
fn give_items(alloc: Global, values: &[Value]) -> Result<Vec<Json>, ToText>
    ensures json { IfOk result (λ v. items_view v.items ≡ items_of (vals_of values.now)) }
    ensures plain { IfOk result (λ _. vals_plain (vals_of values.now) ≡ true) }
    ensures not_text { IfErr result (λ e. (e ≡ ToText.Memory)
        ⊎ ((e ≡ ToText.NotText) × (vals_plain (vals_of values.now) ≡ false))) }
{
    let mut items = Vec::with_capacity(alloc, values.len())?;
    for value in values {
        items.push(give(alloc, value)?)?;
    }
    Ok(items)
}

#[cycle(give)]
fn give_members(alloc: Global, pairs: &[Pair]) -> Result<Map<String, Json>, ToText>
    ensures json { IfOk result (λ m. members_view m.entries ≡ members_of (pairs_of pairs.now) no_members) }
    ensures plain { IfOk result (λ _. pairs_plain (pairs_of pairs.now) ≡ true) }
    ensures not_text { IfErr result (λ e. (e ≡ ToText.Memory)
        ⊎ ((e ≡ ToText.NotText) × (pairs_plain (pairs_of pairs.now) ≡ false))) }
{
    let mut members = Map::new(alloc);
    for pair in pairs {
        let key = String::from_str(alloc, pair.key.as_str())?;
        drop(members.insert(key, give(alloc, &pair.value)?)?);
    }
    Ok(members)
}
