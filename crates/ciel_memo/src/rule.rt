//! What is kept in a vector that threads push to.

use crate::fixed::FixedKit;
use boxcar::Keeps;
use ciel_memo_file::entry::Entry;
use std::marker::PhantomData;

/// The rule of what is kept: what was made is what every value of the kit's type gives.
pub struct Right<K> {
    kit: PhantomData<K>,
}

impl<K: FixedKit> Keeps<Entry> for Right<K> {
    ghost use Rattle.ciel_memo_file.specs.Entries.{entry_view};
    ghost use Rattle.ciel_memo.specs.Right.{IsRight};

    ghost holds = { λ _ _ e. (k : K) → IsRight (K.gives k) (entry_view e) };
}
