//! The place of a key among keys that rise.

ghost use Rattle.std.specs.Prelude.{◌≡◌, ◌<◌, MatchOption, length};
ghost use Rattle.sky_base.specs.View.{view};
ghost use Rattle.ciel_memo_key.specs.Keys.{key_of};
ghost use Rattle.ciel_memo_key.specs.Sorted.{Lacks, Rises, at};

use crate::against::compare_key;
use crate::key::Key;
use sky_base::text::{Bytes, Txt};
use sky_base::value::Value;
use std::cmp::Ordering;

/// The place of the key of a question among keys that rise; `None` exactly where no key is this one. It takes no memory, and looks at as many
/// keys as their number has binary digits.
pub fn place_of(
    keys: &[Key],
    executor: &Txt,
    args: &Value,
    inputs: &[Bytes],
    outputs: u32,
) -> Option<usize>
    requires rises { Rises keys.now }
    ensures place { MatchOption result (Lacks keys.now (key_of executor.now (view args.now) inputs.now outputs))
        (λ i. (i < length keys.now) × (at keys.now i ≡ key_of executor.now (view args.now) inputs.now outputs)) }
{
    let mut low = 0;
    let mut high = keys.len();
    while low < high {
        let middle = low + (high - low) / 2;
        match compare_key(executor, args, inputs, outputs, keys[middle].as_slice()) {
            Ordering::Equal => return Some(middle),
            Ordering::Less => high = middle,
            Ordering::Greater => low = middle + 1,
        }
    }
    None
}
