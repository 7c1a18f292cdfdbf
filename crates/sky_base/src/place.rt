// The place of a key among pairs, by halving.

ghost use Rattle.std.specs.Prelude.{◌≡◌, IfOk, IfErr};
ghost use Rattle.sky_base.specs.Place.{IsPlace};
ghost use Rattle.sky_base.specs.Val.{Rising};
ghost use Rattle.sky_base.specs.View.{pairs_of};

use crate::text::Txt;
use crate::value::Pair;
use std::cmp::Ordering;

/// The place of a key, or the one where it is to be put.
pub fn place(items: &[Pair], key: &Txt) -> Result<usize, usize>
    requires { Rising (pairs_of items.now) }
    ensures { IsPlace result items.now key.now }
{
    let mut low = 0;
    let mut high = items.len();
    while low < high {
        let middle = low + (high - low) / 2;
        match key.cmp(&items[middle].key) {
            Ordering::Less => high = middle,
            Ordering::Equal => return Ok(middle),
            Ordering::Greater => low = middle + 1,
        }
    }
    Err(low)
}
