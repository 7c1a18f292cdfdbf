//! Canonical bytes in an ordered set, so that those of one description are found among many without a search through all of them.

ghost use Rattle.std.specs.Prelude.{◌≡◌, ◌==◌, ◌||◌, ℕ, [], List, IfOk};
ghost use Rattle.std.proofs.Common.{rules};
ghost use Rattle.std.specs.Cmp.{partial_order_from_own_ties};
ghost use Rattle.std.specs.Cmp.Lexicographic.{pointwise, slice_cmp};
ghost use Rattle.std.specs.Cmp.Rules.{comparing};
ghost use Rattle.std.specs.Ordering.{as_partial_cmp, nat_cmp};
ghost use Rattle.sky_base.specs.Names.{is_among};
ghost use Rattle.sky_base.specs.Val.{same_text};

use sky_base::text::{Bytes, Memory};
use std::alloc::Global;
use std::cmp::Ordering;
use std::collections::BTreeSet;
use std::marker::Model;

/// Canonical bytes as a key.
#[derive(Drop)]
struct Key {
    bytes: Bytes,
}

impl Model for Key {
    ghost use Rattle.std.specs.Prelude.{List, ℕ};

    ghost Value = { List ℕ };

    ghost view = { λ k. k.bytes };
}

impl PartialEq for Key {
    ghost eq = { pointwise ◌==◌ };

    ghost laws = { Prim.search (comparing, rules) };

    fn eq(&self, other: &Key) -> bool {
        self.bytes.as_slice() == other.bytes.as_slice()
    }
}

impl Eq for Key {
    ghost laws = { Prim.search (comparing, rules) };
}

impl Ord for Key {
    ghost cmp = { slice_cmp nat_cmp };

    ghost total = { Prim.search (comparing, rules) };

    ghost matches_partial_cmp = { Prim.search (comparing, rules) };

    ghost matches_eq = { Prim.search (comparing, rules) };

    fn cmp(&self, other: &Key) -> Ordering {
        self.bytes.as_slice().cmp(other.bytes.as_slice())
    }
}

impl PartialOrd for Key {
    ghost partial_cmp = { as_partial_cmp (slice_cmp nat_cmp) };

    ghost laws = { partial_order_from_own_ties (Prim.search (comparing, rules)) (Prim.search (comparing, rules)) };

    fn partial_cmp(&self, other: &Key) -> Option<Ordering> {
        Some(self.cmp(other))
    }
}

/// Canonical bytes, each once.
#[derive(Drop)]
pub(crate) struct Spellings {
    keys: BTreeSet<Key>,
}

impl Model for Spellings {
    ghost use Rattle.std.specs.Prelude.{List, ℕ};

    ghost Value = { List (List ℕ) };

    ghost view = { λ s. s.keys.keys };
}

impl Spellings {
    /// None yet.
    pub(crate) fn new(alloc: Global) -> Spellings
        ensures { result ≡ [] }
    {
        Spellings {
            keys: BTreeSet::new(alloc),
        }
    }

    /// Whether these bytes are there.
    pub(crate) fn has(&self, bytes: Bytes) -> bool
        ensures { result ≡ is_among bytes self.now }
    {
        let key = Key { bytes };
        self.keys.contains(&key)
    }

    /// Puts these bytes there.
    pub(crate) fn put(&mut self, bytes: Bytes) -> Result<(), Memory>
        ensures { IfOk result (λ _. (x : List ℕ) → is_among x self.new ≡ (same_text x bytes || is_among x self.old)) }
    {
        let Ok(_) = self.keys.insert(Key { bytes }) else {
            return Err(Memory);
        };
        Ok(())
    }
}
