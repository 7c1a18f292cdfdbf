//! The kit.

ghost use Rattle.std.specs.Prelude.{◌≡◌, ◌++◌, IfOk, List, Ok, length};
ghost use Rattle.sky_base.specs.View.{view};
ghost use Rattle.sky_base_law.specs.Tasks.{Each};
ghost use Rattle.ciel_memo_file.specs.Entries.{Entry as Seen};
ghost use Rattle.ciel_memo_file.specs.File.{IsMemo};
ghost use Rattle.ciel_memo.specs.Gives.{knows};
ghost use Rattle.ciel_memo.specs.Right.{IsRight};

use crate::fixed::FixedKit;
use crate::rule::Right;
use boxcar::Vec as Row;
use boxcar::tag::Tag;
use ciel_memo_file::entry::{Entry, shared};
use ciel_memo_file::fresh::Fresh;
use ciel_memo_file::memo::Memo;
use ciel_memo_file::write::MOST_OF_AN_ENTRY;
use sky_base::fault::FaultKind;
use sky_base::kit::Kit;
use sky_base::text::{Bytes, Memory, Txt};
use sky_base::value::Value;
use std::alloc::Global;
use std::marker::Model;
use std::sync::{Arc, Wait};

// What the owners of one kit share.
struct Shared<K: FixedKit + Drop, R: Wait + Drop> {
    rt: R,
    inner: K,
    memo: Memo,
    fresh: Row<Entry, Global, Right<K>>,
}

impl<K: FixedKit + Drop, R: Wait + Drop> Drop for Shared<K, R> {
    fn drop(self) {
        let Shared {
            rt: _,
            inner: _,
            memo: _,
            fresh: _,
        } = self;
    }
}

/// A kit that gives what the entries of a memo say, where one has the key and the inner kit knows the executor, and else what the inner kit
/// gives. Threads that share it keep what they made without a lock. Contracts see the inner kit and the entries.
#[derive(Drop)]
pub struct MemoKit<K: FixedKit + Drop, R: Wait + Drop> {
    held: Arc<Shared<K, R>, Global>,
}

impl<K: FixedKit + Drop, R: Wait + Drop> Model for MemoKit<K, R> {
    ghost use Rattle.std.specs.Arc.{arc_value};
    ghost use Rattle.std.specs.Coded.{codes};
    ghost use Rattle.sky_base.specs.Code.{pairs_code, val_code, vals_code};
    ghost use Rattle.ciel_memo.specs.Seen.{MemoSeen};

    ghost Value = { MemoSeen K };

    ghost coded = { Prim.hlevel (codes, val_code, vals_code, pairs_code) };

    ghost view = { λ m. record { inner = (arc_value m.held).inner; entries = (arc_value m.held).memo } };
}

impl<K: FixedKit + Drop, R: Wait + Drop> MemoKit<K, R> {
    /// A kit over this one, with these entries and nothing new.
    ///
    /// Answers `Memory` for want of memory.
    pub fn open(rt: R, alloc: Global, inner: K, memo: Memo) -> Result<MemoKit<K, R>, Memory>
        ensures kit { IfOk result (λ m. m ≡ record { inner = inner; entries = memo }) }
    {
        let Ok(fresh) = Row::with_rule(alloc, Tag::empty()) else {
            return Err(Memory);
        };
        let shared = Shared {
            rt,
            inner,
            memo,
            fresh,
        };
        match Arc::new(alloc, shared) {
            Ok(held) => Ok(MemoKit { held }),
            Err(_) => Err(Memory),
        }
    }

    /// A second owner of the same kit, in constant time. What one keeps is in the text of the other.
    ///
    /// Answers `Memory` for want of memory.
    pub fn share(&self) -> Result<MemoKit<K, R>, Memory>
        ensures same { IfOk result (λ m. m ≡ self.now) }
    {
        match Arc::try_clone(&self.held) {
            Ok(held) => Ok(MemoKit { held }),
            Err(_) => Err(Memory),
        }
    }

    /// The bytes of a file: the entries read, in order, and then new ones, each of which is what the inner kit gives. No two have the same key,
    /// and both limits are kept, so it is read again. Which of the new results are in it isn't said; those that would pass a limit aren't.
    ///
    /// Answers `Memory` for want of memory.
    pub fn text(&self, alloc: Global) -> Result<Bytes, Memory>
        ensures text { IfOk result (λ b. (new : List Seen) × IsMemo b (self.now.entries ++ new) × Each (IsRight (K.gives self.now.inner)) new) }
    {
        let held = &*self.held;
        let mut fresh = Fresh::new(alloc);
        let pushed = held.fresh.iter();
        for (_, entry) in pushed {
            fresh.add(alloc, entry)?;
        }
        let bytes = held.memo.file_with(alloc, &fresh)?;
        Ok(bytes)
    }

    /// Keeps what was made, where there is memory for it and it isn't too long.
    fn keep(&self, alloc: Global, executor: &Txt, args: &Value, inputs: &[Bytes], made: &[Bytes])
        requires { (k : K) → K.gives k executor.now (view args.now) inputs.now (length made.now) ≡ Ok made.now }
    {
        let held = &*self.held;
        if !are_short(inputs, made) {
            return;
        }
        if let Ok(entry) = Entry::of(alloc, executor, args, inputs, made) {
            let _ = held.fresh.push(&held.rt, entry);
        }
    }

    /// Whether the inner kit has an executor of this name.
    fn knows(&self, alloc: Global, executor: &Txt) -> Result<bool, Memory>
        ensures { IfOk result (λ b. b ≡ knows (K.gives self.now.inner) executor.now) }
    {
        let probe = self.held.inner.run(alloc, executor, &Value::Null, &[], 0)?;
        match probe {
            Err(FaultKind::BadExec) => Ok(false),
            _ => Ok(true),
        }
    }
}

/// Whether inputs and outputs have no more bytes together than an entry may have. A larger one would only be held to be left out at the end.
fn are_short(inputs: &[Bytes], made: &[Bytes]) -> bool {
    match left_of(MOST_OF_AN_ENTRY, inputs) {
        Some(left) => left_of(left, made).is_some(),
        None => false,
    }
}

/// What is left of a number when that of all bytes is taken from it, where it is large enough.
fn left_of(most: usize, all: &[Bytes]) -> Option<usize> {
    let mut left = most;
    for bytes in all {
        left = left.checked_sub(bytes.as_slice().len())?;
    }
    Some(left)
}

impl<K: FixedKit + Drop, R: Wait + Drop> Kit for MemoKit<K, R> {
    ghost use Rattle.ciel_memo.specs.Counts.{memo_counts};
    ghost use Rattle.ciel_memo.specs.Gives.{memo_gives};

    ghost gives = { λ m. memo_gives (K.gives m.inner) m.entries };

    ghost counts = { λ m. memo_counts (K.gives m.inner) m.entries (K.counts m.inner) };

    fn known(&self, executor: &Txt) -> bool {
        self.held.inner.known(executor)
    }

    /// Runs the executor. Where an entry has the key, its outputs are shared and the inner kit isn't asked to make them; else what it makes is
    /// kept, where there is memory for it.
    fn run(
        &self,
        alloc: Global,
        executor: &Txt,
        args: &Value,
        inputs: &[Bytes],
        outputs: u32,
    ) -> Result<Result<Vec<Bytes>, FaultKind>, Memory> {
        if let Some(made) = self.held.memo.find(executor, args, inputs, outputs) {
            if self.knows(alloc, executor)? {
                return Ok(Ok(shared(alloc, made.as_slice())?));
            }
        }
        let answer = self.held.inner.run(alloc, executor, args, inputs, outputs)?;
        if let Ok(made) = &answer {
            self.keep(alloc, executor, args, inputs, made.as_slice());
        }
        Ok(answer)
    }
}
