// A sum of a description, which takes time linear in its size. The same descriptions have the same sum,
// so a description need be compared only with those that have its sum.

ghost use Rattle.std.specs.Prelude.{◌≡◌};
ghost use Rattle.sky_base_known.specs.Sums.{mixed, text_sum, val_sum, vals_sum, pairs_sum, sum_of};
ghost use Rattle.sky_base.specs.View.{view, vals_of, pairs_of};
ghost use Rattle.sky_base.specs.ObjectView.{desc_view};

use sky_base::object::Desc1;
use sky_base::text::Txt;
use sky_base::value::{Pair, Value};

// Odd, so that no number is lost, and with its bits well spread.
const FACTOR: u64 = 0x9E37_79B9_7F4A_7C15;

// Stands behind the bytes of a text.
const TEXT_END: u64 = 256;

// Stands behind the values of a list and the pairs of a dictionary.
const ITEMS_END: u64 = 9;

/// The sum of a description.
pub fn sum(desc: &Desc1) -> u64
    ensures { result ≡ sum_of (desc_view desc.now) }
{
    match desc {
        Desc1::Call { fun, caught, args } => {
            let sum = with_bytes(with(0, 10), fun.as_str().as_bytes());
            let sum = with_pairs(sum, caught.as_slice());
            with_values(sum, args.as_slice())
        }
        Desc1::Exec {
            executor,
            args,
            outputs,
            index,
        } => {
            let sum = with_bytes(with(0, 11), executor.as_str().as_bytes());
            let sum = with_value(sum, args);
            with(with(sum, *outputs as u64), *index as u64)
        }
        Desc1::Input { key } => with_bytes(with(0, 12), key.as_str().as_bytes()),
    }
}

// The sum with one more number.
#[tactic(auto, unfolding(crate::specs::Sums::mixed))]
fn with(sum: u64, number: u64) -> u64
    ensures { result ≡ mixed sum number }
{
    sum.wrapping_mul(FACTOR).wrapping_add(number)
}

// The sum with the bytes of a text.
fn with_bytes(mut sum: u64, bytes: &[u8]) -> u64
    ensures { result ≡ text_sum sum bytes.now }
{
    for byte in bytes {
        sum = with(sum, *byte as u64);
    }
    with(sum, TEXT_END)
}

// The sum with a value.
#[cycle(sum)]
fn with_value(sum: u64, value: &Value) -> u64
    ensures { result ≡ val_sum sum (view value.now) }
{
    match value {
        Value::Null => with(sum, 0),
        Value::Bool(false) => with(sum, 1),
        Value::Bool(true) => with(sum, 2),
        Value::Int(n) => with(with(sum, 3), n.cast_unsigned()),
        Value::Text(text) => with_bytes(with(sum, 4), text.as_str().as_bytes()),
        Value::List(values) => with_values(with(sum, 5), values.as_slice()),
        Value::Dict(pairs) => with_pairs(with(sum, 6), pairs.as_slice()),
        Value::Fun { name, caught } => {
            let sum = with_bytes(with(sum, 7), name.as_str().as_bytes());
            with_pairs(sum, caught.as_slice())
        }
        Value::Ref(name) => with_bytes(with(with(sum, 8), 13), name.bytes()),
    }
}

#[cycle(sum)]
#[tactic(auto, using(sky_base::proofs::Values::inside))]
fn with_values(mut sum: u64, values: &[Value]) -> u64
    ensures { result ≡ vals_sum sum (vals_of values.now) }
{
    for value in values {
        sum = with_value(sum, value);
    }
    with(sum, ITEMS_END)
}

#[cycle(sum)]
#[tactic(auto, using(sky_base::proofs::Values::inside))]
fn with_pairs(mut sum: u64, pairs: &[Pair]) -> u64
    ensures { result ≡ pairs_sum sum (pairs_of pairs.now) }
{
    for pair in pairs {
        sum = with_bytes(sum, pair.key.as_str().as_bytes());
        sum = with_value(sum, &pair.value);
    }
    with(sum, ITEMS_END)
}
