//! Entries that were read.

ghost use Rattle.std.specs.Prelude.{◌≡◌, ◌++◌, [], None, Some, IfOk, MatchOption, flat_map, map};
ghost use Rattle.sky_base.specs.View.{view};
ghost use Rattle.ciel_memo_key.specs.Keys.{key_of};
ghost use Rattle.ciel_memo_file.specs.Entries.{entry_view, has_key, made_for};
ghost use Rattle.ciel_memo_file.specs.File.{IsMemo, entry_bytes, file_bytes, key_bytes};
ghost use Rattle.ciel_memo_file.specs.Ordered.{Ordered};
ghost use Rattle.ciel_memo_file.specs.Steps.{Placed, same_lengths, seen};

use crate::entry::Entry;
use crate::gathered::Gathered;
use crate::write::put_entries;
use ciel_memo_key::key::Key;
use ciel_memo_key::search::place_of;
use ciel_name::writer::Writer;
use sky_base::same::is_same;
use sky_base::text::{Bytes, Memory, Txt};
use sky_base::value::Value;
use std::alloc::Global;
use std::marker::Model;

/// Whole entries with distinct keys, in the order of their file. Contracts see their list.
pub struct Memo {
    entries: Vec<Entry>,
    // The keys in the order of their bytes, and the place of the entry of each.
    keys: Vec<Key>,
    order: Vec<usize>,
    // The bytes of the file that was read, which entries and keys are parts of.
    pub(crate) file: Option<Bytes>,
}

impl Drop for Memo {
    fn drop(self) {
        let Memo {
            entries: _,
            keys: _,
            order: _,
            file: _,
        } = self;
    }
}

impl Model for Memo {
    ghost use Rattle.std.specs.Prelude.{List, map};
    ghost use Rattle.std.specs.Coded.{codes};
    ghost use Rattle.sky_base.specs.Code.{pairs_code, val_code, vals_code};
    ghost use Rattle.ciel_memo_file.specs.Entries.{Entry as Seen, entry_view};
    ghost use Rattle.ciel_memo_file.specs.Ordered.{Stands};

    ghost Value = { List Seen };

    ghost coded = { Prim.hlevel (codes, val_code, vals_code, pairs_code) };

    ghost view = { λ m. map entry_view m.entries.items };

    ghost invariant = { λ m. Stands (map entry_view m.entries.items) m.keys.items m.order.items m.file };
}

impl Memo {
    /// No entries.
    pub fn new(alloc: Global) -> Memo
        ensures empty { result ≡ [] }
    {
        Memo {
            entries: Vec::new(alloc),
            keys: Vec::new(alloc),
            order: Vec::new(alloc),
            file: None,
        }
    }

    /// The entries of a file, with their keys in order.
    pub(crate) fn of(alloc: Global, gathered: Gathered, file: Bytes) -> Result<Memo, Memory>
        requires memo { IsMemo (file_bytes (seen gathered)) (seen gathered) }
        requires placed { Placed (seen gathered) gathered.places.entries }
        requires file { file ≡ file_bytes (seen gathered) }
        ensures same { IfOk result (λ m. m ≡ seen gathered) }
    {
        let Gathered { entries, places } = gathered;
        let mut keys = Vec::new(alloc);
        let mut order = Vec::new(alloc);
        for (key, place) in places {
            let Ok(()) = keys.push(key) else {
                return Err(Memory);
            };
            let Ok(()) = order.push(place) else {
                return Err(Memory);
            };
        }
        Ok(Memo {
            entries,
            keys,
            order,
            file: Some(file),
        })
    }

    /// Writes the entries in order, and what holds of every memo's.
    ///
    /// Answers `Memory` for want of memory. The buffer holds then what it held and a first part of these bytes, or none of them.
    pub fn put(&self, out: &mut Writer) -> Result<(), Memory>
        ensures bytes { IfOk result (λ _. out.new ≡ out.old ++ flat_map entry_bytes self.now) }
        ensures memo { IsMemo (file_bytes self.now) self.now }
    {
        put_entries(out, self.entries.as_slice())
    }

    /// What was made for this key; `None` exactly where no entry has it. It takes no memory, and no bytes are put together.
    pub fn find(
        &self,
        executor: &Txt,
        args: &Value,
        inputs: &[Bytes],
        outputs: u32,
    ) -> Option<&Vec<Bytes>>
        ensures made { MatchOption result (made_for self.now executor.now (view args.now) inputs.now outputs ≡ None)
            (λ v. made_for self.now executor.now (view args.now) inputs.now outputs ≡ Some v.now.items) }
    {
        find_in(
            self.entries.as_slice(),
            self.keys.as_slice(),
            self.order.as_slice(),
            executor,
            args,
            inputs,
            outputs,
        )
    }
}

/// Whether the bytes of each list are as long as those at its place in the other.
#[tactic(auto, using(crate::proofs::Keys::uneven))]
fn are_as_long(a: &[Bytes], b: &[Bytes]) -> bool
    ensures { result ≡ same_lengths a.now b.now }
{
    if a.len() != b.len() {
        return false;
    }
    for (i, bytes) in a.iter().enumerate() {
        if bytes.as_slice().len() != b[i].as_slice().len() {
            return false;
        }
    }
    true
}

/// Whether an entry whose key has the bytes of this one has this key. The bytes of its inputs are these where their lengths are.
fn has_key(entry: &Entry, executor: &Txt, args: &Value, inputs: &[Bytes], outputs: u32) -> bool
    requires { key_bytes (entry_view entry.now) ≡ key_of executor.now (view args.now) inputs.now outputs }
    ensures { result ≡ has_key executor.now (view args.now) inputs.now outputs (entry_view entry.now) }
{
    if !are_as_long(entry.inputs.as_slice(), inputs) {
        return false;
    }
    entry.executor == *executor
        && is_same(&entry.args, args)
        && entry.made.len() == outputs as usize
}

/// What was made for this key, by the order of the keys.
fn find_in<'a>(
    entries: &'a [Entry],
    keys: &[Key],
    order: &[usize],
    executor: &Txt,
    args: &Value,
    inputs: &[Bytes],
    outputs: u32,
) -> Option<&'a Vec<Bytes>>
    requires { Ordered (map entry_view entries.now) keys.now order.now }
    ensures { MatchOption result (made_for (map entry_view entries.now) executor.now (view args.now) inputs.now outputs ≡ None)
        (λ v. made_for (map entry_view entries.now) executor.now (view args.now) inputs.now outputs ≡ Some v.now.items) }
{
    let Some(at) = place_of(keys, executor, args, inputs, outputs) else {
        return None;
    };
    let place = order[at];
    let entry = &entries[place];
    if has_key(entry, executor, args, inputs, outputs) {
        return Some(&entry.made);
    }
    None
}
