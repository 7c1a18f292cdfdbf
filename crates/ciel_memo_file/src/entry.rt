//! An entry: the whole key of a run of an executor, and what it made.

ghost use Rattle.std.specs.Prelude.{◌≡◌, IfOk};
ghost use Rattle.sky_base.specs.View.{view};
ghost use Rattle.ciel_memo_file.specs.Entries.{entry_view};
ghost use Rattle.ciel_memo_file.specs.File.{key_bytes};

use ciel_memo_key::key::Key;
use sky_base::text::{Bytes, Memory, Txt};
use sky_base::value::Value;
use std::alloc::Global;

/// What an executor made for its arguments, with slots for references, and the bytes of its inputs. It was asked for as many outputs as
/// were made.
pub struct Entry {
    pub executor: Txt,
    pub args: Value,
    pub inputs: Vec<Bytes>,
    pub made: Vec<Bytes>,
}

impl Drop for Entry {
    fn drop(self) {
        let Entry {
            executor: _,
            args: _,
            inputs: _,
            made: _,
        } = self;
    }
}

/// Second owners of bytes.
///
/// Answers `Memory` for want of memory.
pub fn shared(alloc: Global, all: &[Bytes]) -> Result<Vec<Bytes>, Memory>
    ensures same { IfOk result (λ v. v.items ≡ all.now) }
{
    let mut copies = Vec::new(alloc);
    for bytes in all {
        let Ok(()) = copies.push(bytes.share()?) else {
            return Err(Memory);
        };
    }
    Ok(copies)
}

impl Entry {
    /// An entry that shares what it is made of. No bytes are copied.
    ///
    /// Answers `Memory` for want of memory.
    pub fn of(
        alloc: Global,
        executor: &Txt,
        args: &Value,
        inputs: &[Bytes],
        made: &[Bytes],
    ) -> Result<Entry, Memory>
        ensures entry { IfOk result (λ e. entry_view e
            ≡ record { executor = executor.now; args = view args.now; inputs = inputs.now; made = made.now }) }
    {
        Ok(Entry {
            executor: executor.share()?,
            args: args.copy()?,
            inputs: shared(alloc, inputs)?,
            made: shared(alloc, made)?,
        })
    }

    /// The bytes of its key.
    ///
    /// Answers `Memory` for want of memory.
    pub fn key(&self, alloc: Global) -> Result<Key, Memory>
        ensures bytes { IfOk result (λ k. k ≡ key_bytes (entry_view self.now)) }
    {
        Key::new(
            alloc,
            &self.executor,
            &self.args,
            self.inputs.as_slice(),
            self.made.len(),
        )
    }
}
