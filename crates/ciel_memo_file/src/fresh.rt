//! New entries, which are put behind those of a memo.

ghost use Rattle.std.specs.Prelude.{◌≡◌, ◌≢◌, ◌≤◌, ◌⊎◌, [], false, true, is_some, IfOk, List, OnErr, length};
ghost use Rattle.std.specs.Str.{IsUtf8};
ghost use Rattle.sky_base_law.specs.Tasks.{In};
ghost use Rattle.ciel_name.specs.Spelled.{IsData};
ghost use Rattle.ciel_memo_file.specs.Added.{Behind, Puts, made_by};
ghost use Rattle.ciel_memo_file.specs.Entries.{Entry as Seen, entry_view};
ghost use Rattle.ciel_memo_file.specs.File.{IsMemo, IsSpelled, entry_bytes, file_bytes, key_bytes, most_of_an_entry};

use crate::entry::Entry;
use crate::memo::Memo;
use crate::write::{FORM, MARK, MOST_OF_A_FILE, MOST_OF_AN_ENTRY, put_entry};
use ciel_memo_key::key::Key;
use ciel_name::read::decode;
use ciel_name::refusal::Decode;
use ciel_name::write::encode;
use ciel_name::writer::Writer;
use sky_base::same::is_same;
use sky_base::text::{Bytes, Memory};
use std::alloc::Global;
use std::collections::BTreeMap;
use std::marker::Model;

/// New entries with distinct keys. Contracts see their list, in the order of the bytes of their keys.
#[derive(Drop)]
pub struct Fresh<'a> {
    by_key: BTreeMap<Key, &'a Entry>,
}

impl<'a> Model for Fresh<'a> {
    ghost use Rattle.std.specs.Prelude.{List};
    ghost use Rattle.std.specs.Coded.{codes};
    ghost use Rattle.sky_base.specs.Code.{pairs_code, val_code, vals_code};
    ghost use Rattle.sky_base_law.specs.Tasks.{Each};
    ghost use Rattle.ciel_memo_file.specs.Added.{IsKeyed, entries_of};
    ghost use Rattle.ciel_memo_file.specs.Entries.{Entry as Seen};

    ghost Value = { List Seen };

    ghost coded = { Prim.hlevel (codes, val_code, vals_code, pairs_code) };

    ghost view = { λ f. entries_of f.by_key.entries };

    ghost invariant = { λ f. Each IsKeyed f.by_key.entries };
}

impl<'a> Fresh<'a> {
    /// None.
    pub fn new(alloc: Global) -> Fresh<'a>
        ensures empty { result ≡ [] }
    {
        Fresh {
            by_key: BTreeMap::new(alloc),
        }
    }

    /// Puts an entry among them, in place of one with the same key.
    ///
    /// Answers `Memory` for want of memory. The entries are then as they were.
    pub fn add(&mut self, alloc: Global, entry: &'a Entry) -> Result<(), Memory>
        ensures added { IfOk result (λ _. In (entry_view entry.now) self.new) }
        ensures others { IfOk result (λ _. (e : Seen) → In e self.old → key_bytes e ≢ key_bytes (entry_view entry.now) → In e self.new) }
        ensures among { IfOk result (λ _. (e : Seen) → In e self.new → (e ≡ entry_view entry.now) ⊎ In e self.old) }
        ensures kept { OnErr result (self.new ≡ self.old) }
    {
        let key = entry.key(alloc)?;
        let Ok(_) = self.by_key.insert(key, entry) else {
            return Err(Memory);
        };
        Ok(())
    }
}

impl Memo {
    /// The bytes of a file: the entries of the memo, in order, and then of the new ones, in the order of the bytes of their keys, each that has
    /// another key than the memo's, can be read again, and passes no limit. Where nothing is new it is the file that was read, and no byte is copied.
    ///
    /// Answers `Memory` for want of memory.
    pub fn file_with(&self, alloc: Global, fresh: &Fresh) -> Result<Bytes, Memory>
        ensures file { IfOk result (λ b. (new : List Seen) × Behind self.now fresh.now b new) }
    {
        match &self.file {
            Some(file) if fresh.by_key.is_empty() => {
                let same = file.share()?;
                Ok(same)
            }
            _ => self.put_together(alloc, fresh),
        }
    }

    /// The same, written anew.
    fn put_together(&self, alloc: Global, fresh: &Fresh) -> Result<Bytes, Memory>
        ensures { IfOk result (λ b. (new : List Seen) × Behind self.now fresh.now b new) }
    {
        let mut out = Writer::new(alloc);
        out.byte(MARK)?;
        out.byte(FORM)?;
        self.put(&mut out)?;
        for (_key, entry) in &fresh.by_key {
            put_next(alloc, self, &mut out, entry)?;
        }
        let bytes = out.finish(alloc)?;
        Ok(bytes)
    }
}

/// Writes an entry, where it may stand in the file.
fn put_next(alloc: Global, memo: &Memo, out: &mut Writer, entry: &Entry) -> Result<(), Memory>
    requires { IsMemo (file_bytes memo.now) memo.now }
    ensures { IfOk result (λ _. Puts memo.now out.old out.new (entry_view entry.now)) }
{
    let can_be_read = is_readable(alloc, entry)?;
    if can_be_read {
        put_short(alloc, memo, out, entry)?;
    }
    Ok(())
}

/// Writes an entry that can be read again, where it is short enough and its key is new.
fn put_short(alloc: Global, memo: &Memo, out: &mut Writer, entry: &Entry) -> Result<(), Memory>
    requires memo { IsMemo (file_bytes memo.now) memo.now }
    requires text { IsUtf8 (entry_view entry.now).executor }
    requires args { IsData (entry_view entry.now).args }
    ensures { IfOk result (λ _. Puts memo.now out.old out.new (entry_view entry.now)) }
{
    let mut whole = Writer::new(alloc);
    put_entry(&mut whole, entry)?;
    let bytes = whole.as_slice();
    if bytes.len() > MOST_OF_AN_ENTRY || out.as_slice().len() > MOST_OF_A_FILE - bytes.len() {
        return Ok(());
    }
    if is_held(memo, entry) {
        return Ok(());
    }
    out.raw(bytes)?;
    Ok(())
}

/// Whether the memo has the key of an entry.
fn is_held(memo: &Memo, entry: &Entry) -> bool
    requires { length (entry_bytes (entry_view entry.now)) ≤ most_of_an_entry }
    ensures { result ≡ is_some (made_by (entry_view entry.now) memo.now) }
{
    let inputs = entry.inputs.as_slice();
    let outputs = entry.made.len() as u32;
    memo.find(&entry.executor, &entry.args, inputs, outputs)
        .is_some()
}

/// Whether an entry can be read again from its bytes, where they are few enough: its arguments keep the limits, and a named function in them
/// captured nothing.
fn is_readable(alloc: Global, entry: &Entry) -> Result<bool, Memory>
    ensures text { IfOk result (λ _. IsUtf8 (entry_view entry.now).executor) }
    ensures args { IfOk result (λ b. b ≡ true → IsData (entry_view entry.now).args) }
    ensures refused { IfOk result (λ b. b ≡ false → IsSpelled (entry_view entry.now) → ⊥) }
{
    let _text = entry.executor.as_str();
    let bytes = encode(alloc, &entry.args)?;
    match decode(alloc, bytes.as_slice()) {
        Ok(read) => Ok(is_same(&read, &entry.args)),
        Err(Decode::NotValue) => Ok(false),
        Err(Decode::Memory) => Err(Memory),
    }
}
