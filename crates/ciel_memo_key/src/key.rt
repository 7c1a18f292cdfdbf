//! Stored keys.

ghost use Rattle.std.specs.Prelude.{◌≡◌, IfOk};
ghost use Rattle.std.proofs.Common.{rules};
ghost use Rattle.std.specs.Cmp.{partial_order_from_own_ties};
ghost use Rattle.std.specs.Cmp.Lexicographic.{slice_cmp};
ghost use Rattle.std.specs.Cmp.Rules.{comparing};
ghost use Rattle.std.specs.Ordering.{as_partial_cmp, nat_cmp};
ghost use Rattle.sky_base.specs.Val.{same_text};
ghost use Rattle.sky_base.specs.View.{view};
ghost use Rattle.ciel_memo_key.specs.Keys.{key_of};

use crate::write::put_key;
use ciel_name::writer::Writer;
use sky_base::text::{Bytes, Memory, Txt};
use sky_base::value::Value;
use std::alloc::Global;
use std::cmp::Ordering;
use std::marker::Model;

/// The bytes of a key, ordered by them. Contracts see their list.
#[derive(Drop)]
pub struct Key {
    held: Bytes,
}

impl Model for Key {
    ghost use Rattle.std.specs.Prelude.{List, ℕ};

    ghost Value = { List ℕ };

    ghost view = { λ k. k.held };
}

impl Key {
    /// The key of so many outputs of an executor for these arguments and inputs.
    ///
    /// Answers `Memory` for want of memory.
    pub fn new(
        alloc: Global,
        executor: &Txt,
        args: &Value,
        inputs: &[Bytes],
        outputs: usize,
    ) -> Result<Key, Memory>
        ensures bytes { IfOk result (λ k. k ≡ key_of executor.now (view args.now) inputs.now outputs) }
    {
        let mut out = Writer::new(alloc);
        put_key(&mut out, executor, args, inputs, outputs)?;
        let held = out.finish(alloc)?;
        Ok(Key { held })
    }

    /// The key whose bytes these are. None is copied.
    pub fn of(held: Bytes) -> Key
        ensures bytes { result ≡ held }
    {
        Key { held }
    }

    /// The bytes themselves.
    pub fn as_slice(&self) -> &[u8]
        ensures bytes { result.now ≡ self.now }
    {
        self.held.as_slice()
    }
}

impl PartialEq for Key {
    ghost eq = { same_text };

    ghost laws = { Prim.search (comparing, rules) };

    fn eq(&self, other: &Key) -> bool {
        self.as_slice().cmp(other.as_slice()).is_eq()
    }
}

impl Eq for Key {
    ghost laws = { Prim.search (comparing, rules) };
}

impl Ord for Key {
    ghost cmp = { slice_cmp nat_cmp };

    ghost total = { Prim.search (comparing, rules) };

    ghost matches_partial_cmp = { Prim.search (comparing, rules) };

    ghost matches_eq = { Prim.search (comparing, rules) };

    fn cmp(&self, other: &Key) -> Ordering {
        self.as_slice().cmp(other.as_slice())
    }
}

impl PartialOrd for Key {
    ghost partial_cmp = { as_partial_cmp (slice_cmp nat_cmp) };

    ghost laws = { partial_order_from_own_ties (Prim.search (comparing, rules)) (Prim.search (comparing, rules)) };

    fn partial_cmp(&self, other: &Key) -> Option<Ordering> {
        Some(self.cmp(other))
    }
}
