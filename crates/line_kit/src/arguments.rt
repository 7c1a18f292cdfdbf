// The arguments of an executor: a dictionary with the key `in`, a reference or a list of references,
// for `grep` the key `text` and for `head` the key `lines`, and no other key.

ghost use Rattle.std.specs.Prelude.{◌≡◌, Some, None, MatchOption};
ghost use Rattle.sky_base.specs.View.{view, vals_of, pairs_of};
ghost use Rattle.sky_base.specs.Op.{find, is_there};
ghost use Rattle.line_kit.specs.Table.{has_keys, all_fit, fits_at, fits_in, fits_other, is_ref, are_refs, text_of, lines_of};

use crate::executor::Executor;
use sky_base::value::{Pair, Value};
use std::cmp::Ordering;

/// The value at a key.
fn find<'a>(args: &'a [Pair], key: &str) -> Option<&'a Value>
    ensures { MatchOption result (find key.now (pairs_of args.now) ≡ None) (λ v. find key.now (pairs_of args.now) ≡ Some (view v.now)) }
{
    for pair in args {
        match key.cmp(pair.key.as_str()) {
            Ordering::Less => return None,
            Ordering::Equal => return Some(&pair.value),
            Ordering::Greater => {}
        }
    }
    None
}

fn has_key(args: &[Pair], key: &str) -> bool
    ensures { result ≡ is_there (find key.now (pairs_of args.now)) }
{
    find(args, key).is_some()
}

/// Whether each key of the executor is there.
pub fn has_keys(executor: Executor, args: &[Pair]) -> bool
    ensures { result ≡ has_keys executor (pairs_of args.now) }
{
    match executor {
        Executor::Grep => has_key(args, "in") && has_key(args, "text"),
        Executor::Head => has_key(args, "in") && has_key(args, "lines"),
        _ => has_key(args, "in"),
    }
}

fn is_ref(value: &Value) -> bool
    ensures { result ≡ is_ref (view value.now) }
{
    matches!(value, Value::Ref(_))
}

fn are_refs(values: &[Value]) -> bool
    ensures { result ≡ are_refs (vals_of values.now) }
{
    for value in values {
        if !is_ref(value) {
            return false;
        }
    }
    true
}

fn fits_in(executor: Executor, value: &Value) -> bool
    ensures { result ≡ fits_in executor (view value.now) }
{
    match value {
        Value::Ref(_) => executor != Executor::Same,
        Value::List(inputs) => {
            are_refs(inputs.as_slice()) && (executor != Executor::Same || inputs.len() == 2)
        }
        _ => false,
    }
}

fn fits_other(executor: Executor, key: &str, value: &Value) -> bool
    ensures { result ≡ fits_other executor key.now (view value.now) }
{
    match (executor, value) {
        (Executor::Grep, Value::Text(_)) => key == "text",
        (Executor::Head, Value::Int(lines)) => key == "lines" && *lines >= 0,
        _ => false,
    }
}

fn fits_at(executor: Executor, key: &str, value: &Value) -> bool
    ensures { result ≡ fits_at executor key.now (view value.now) }
{
    if key == "in" {
        fits_in(executor, value)
    } else {
        fits_other(executor, key, value)
    }
}

/// Whether each pair is one that the executor has.
pub fn all_fit(executor: Executor, args: &[Pair]) -> bool
    ensures { result ≡ all_fit executor (pairs_of args.now) }
{
    for pair in args {
        if !fits_at(executor, pair.key.as_str(), &pair.value) {
            return false;
        }
    }
    true
}

/// The text at the key `text`.
pub fn text_of(args: &[Pair]) -> &[u8]
    ensures { result.now ≡ text_of (pairs_of args.now) }
{
    match find(args, "text") {
        Some(Value::Text(text)) => text.as_str().as_bytes(),
        _ => &[],
    }
}

/// The number at the key `lines`.
pub fn lines_of(args: &[Pair]) -> u64
    ensures { result ≡ lines_of (pairs_of args.now) }
{
    match find(args, "lines") {
        Some(Value::Int(lines)) if *lines >= 0 => *lines as u64,
        _ => 0,
    }
}
