// The inputs of an executor task: the bytes of each reference in its arguments, as often as it occurs,
// in order.

ghost use Rattle.std.specs.Prelude.{◌≡◌, IfOk, Ok, []};
ghost use Rattle.sky_base.specs.Val.{refs, vals_refs, pairs_refs};
ghost use Rattle.sky_base.specs.View.{view, vals_of, pairs_of};
ghost use Rattle.sky_base.specs.ObjectView.{object_view};
ghost use Rattle.ciel_json.specs.Text.{text_of as writes};
ghost use Rattle.sky_base_known.specs.Known.{KeptObject};
ghost use Rattle.sky_base_exec.specs.Perform.{all_bytes, bytes_of, listed, one_more};
ghost use Rattle.sky_base_exec.specs.Puts.{PutsSo, behind};

use sky_base::fault::{Fault, FaultKind};
use sky_base::object::Object;
use sky_base::text::{Bytes, Memory};
use sky_base::value::{Pair, Value};
use sky_base_waves::known::Known;
use sky_base_waves::wave::{json_line, no_place};
use std::alloc::Global;

// An object as an input: bytes as they are, data as its JSON text and a line feed.
fn as_bytes(alloc: Global, object: &Object) -> Result<Result<Bytes, Fault>, Memory>
    requires { KeptObject (object_view object.now) }
    ensures { IfOk result (λ r. r ≡ bytes_of writes (object_view object.now)) }
{
    match object {
        Object::Bytes(bytes) => Ok(Ok(bytes.share()?)),
        Object::Data(value) => json_line(alloc, value),
        Object::Fault(fault) => Ok(Err(*fault)),
    }
}

/// The inputs of a task with these arguments, or the first fault among them, in order. An object that isn't
/// known is NotText.
pub fn inputs<K: Known>(
    alloc: Global,
    args: &Value,
    objects: &K,
) -> Result<Result<Vec<Bytes>, Fault>, Memory>
    ensures { IfOk result (λ r. listed r ≡ all_bytes writes (K.knows objects.now) (refs (view args.now))) }
{
    let mut inputs = Vec::new(alloc);
    match put_all(alloc, args, objects, &mut inputs)? {
        Some(fault) => Ok(Err(fault)),
        None => Ok(Ok(inputs)),
    }
}

// Puts the inputs that a value refers to at the end, up to the first fault.
#[cycle(put_all)]
fn put_all<K: Known>(
    alloc: Global,
    value: &Value,
    objects: &K,
    inputs: &mut Vec<Bytes>,
) -> Result<Option<Fault>, Memory>
    ensures { IfOk result (λ o. PutsSo o inputs.new.items
        (behind inputs.old.items (all_bytes writes (K.knows objects.now) (refs (view value.now))))) }
{
    match value {
        Value::List(values) => put_values(alloc, values.as_slice(), objects, inputs),
        Value::Dict(pairs) => put_pairs(alloc, pairs.as_slice(), objects, inputs),
        Value::Fun { caught, .. } => put_pairs(alloc, caught.as_slice(), objects, inputs),
        Value::Ref(name) => {
            let Some(object) = objects.object(name) else {
                return Ok(Some(no_place(FaultKind::NotText)))
            };
            put_one(alloc, object, inputs)
        }
        _ => Ok(None),
    }
}

// Puts an object as an input at the end, if it is no fault.
fn put_one(alloc: Global, object: &Object, inputs: &mut Vec<Bytes>) -> Result<Option<Fault>, Memory>
    requires { KeptObject (object_view object.now) }
    ensures { IfOk result (λ o. PutsSo o inputs.new.items (behind inputs.old.items (one_more (bytes_of writes (object_view object.now)) (Ok [])))) }
{
    match as_bytes(alloc, object)? {
        Ok(bytes) => {
            let Ok(()) = inputs.push(bytes) else {
                return Err(Memory)
            };
            Ok(None)
        }
        Err(fault) => Ok(Some(fault)),
    }
}

#[cycle(put_all)]
#[tactic(auto, using(sky_base::proofs::Values::inside, crate::proofs::Takes::inputs))]
fn put_values<K: Known>(
    alloc: Global,
    values: &[Value],
    objects: &K,
    inputs: &mut Vec<Bytes>,
) -> Result<Option<Fault>, Memory>
    ensures { IfOk result (λ o. PutsSo o inputs.new.items
        (behind inputs.old.items (all_bytes writes (K.knows objects.now) (vals_refs (vals_of values.now))))) }
{
    for value in values {
        if let Some(fault) = put_all(alloc, value, objects, inputs)? {
            return Ok(Some(fault));
        }
    }
    Ok(None)
}

#[cycle(put_all)]
#[tactic(auto, using(sky_base::proofs::Values::inside, crate::proofs::Takes::inputs))]
fn put_pairs<K: Known>(
    alloc: Global,
    pairs: &[Pair],
    objects: &K,
    inputs: &mut Vec<Bytes>,
) -> Result<Option<Fault>, Memory>
    ensures { IfOk result (λ o. PutsSo o inputs.new.items
        (behind inputs.old.items (all_bytes writes (K.knows objects.now) (pairs_refs (pairs_of pairs.now))))) }
{
    for pair in pairs {
        if let Some(fault) = put_all(alloc, &pair.value, objects, inputs)? {
            return Ok(Some(fault));
        }
    }
    Ok(None)
}
