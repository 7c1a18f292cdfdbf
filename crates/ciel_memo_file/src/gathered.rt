//! The entries of a file that is being read, and the place of each key.

ghost use Rattle.std.specs.Prelude.{◌≡◌, ◌≢◌, [], IfErr, IfOk, length};
ghost use Rattle.ciel_memo_file.specs.Entries.{entry_view};
ghost use Rattle.ciel_memo_file.specs.File.{IsMemo, NoNext, file_bytes, key_bytes};
ghost use Rattle.ciel_memo_file.specs.Refused.{IfBad};
ghost use Rattle.ciel_memo_file.specs.Steps.{AddedSo, EndsWith, Goes, Placed, seen};

use crate::entry::Entry;
use crate::next::next_entry;
use crate::refusal::MemoRefusal;
use crate::write::MOST_OF_A_FILE;
use ciel_memo_key::key::Key;
use ciel_name::refusal::Decode;
use sky_base::text::{Bytes, Memory};
use std::alloc::Global;
use std::collections::BTreeMap;

/// Entries with distinct keys, and the place of each key among them.
#[derive(Drop)]
pub struct Gathered {
    pub entries: Vec<Entry>,
    pub places: BTreeMap<Key, usize>,
}

impl Gathered {
    /// None so far.
    pub fn new(alloc: Global) -> Gathered
        ensures empty { seen result ≡ [] }
        ensures placed { Placed (seen result) result.places.entries }
    {
        Gathered {
            entries: Vec::new(alloc),
            places: BTreeMap::new(alloc),
        }
    }

    /// Takes the next entry of a file, which begins at the place `at`; what stands behind it.
    pub fn next<'a>(
        &mut self,
        alloc: Global,
        file: &Bytes,
        front: &'a [u8],
        at: usize,
    ) -> Result<&'a [u8], MemoRefusal>
        requires stands { EndsWith file.now (length file.now) front.now }
        requires placed { Placed (seen self.old) self.old.places.entries }
        requires memo { IsMemo (file_bytes (seen self.old)) (seen self.old) }
        requires place { at ≡ length (file_bytes (seen self.old)) }
        ensures goes { IfOk result (λ rest. Goes (seen self.old) front.now (seen self.new) rest.now) }
        ensures placed { IfOk result (λ _. Placed (seen self.new) self.new.places.entries) }
        ensures refused { IfErr result (λ e. IfBad e (λ p. (p ≡ at) × NoNext (seen self.old) front.now)) }
    {
        let next = match next_entry(alloc, file, front, MOST_OF_A_FILE - at) {
            Ok(next) => next,
            Err(Decode::NotValue) => return Err(MemoRefusal::BadMemo { at: at as u64 }),
            Err(Decode::Memory) => return Err(MemoRefusal::Memory),
        };
        let rest = next.rest;
        let is_new = self.add(next.key, next.entry)?;
        if is_new {
            return Ok(rest);
        }
        Err(MemoRefusal::BadMemo { at: at as u64 })
    }

    /// Puts an entry at the end, where none has its key.
    fn add(&mut self, key: Key, entry: Entry) -> Result<bool, Memory>
        requires placed { Placed (seen self.old) self.old.places.entries }
        requires key { key ≡ key_bytes (entry_view entry) }
        ensures added { IfOk result (λ new. AddedSo new (seen self.old) (seen self.new) (entry_view entry)) }
        ensures placed { IfOk result (λ _. Placed (seen self.new) self.new.places.entries) }
    {
        if self.places.contains_key(&key) {
            return Ok(false);
        }
        let Ok(_) = self.places.insert(key, self.entries.len()) else {
            return Err(Memory);
        };
        let Ok(()) = self.entries.push(entry) else {
            return Err(Memory);
        };
        Ok(true)
    }
}
