// What files in memory have in common: the files, and the paths that were asked.

ghost use Rattle.std.specs.Prelude.{◌≡◌, ◌⊎◌, ◌+◌, ◌≤◌, IfOk, OnOk, OnErr, Err, [], length, option_map};
ghost use Rattle.ciel_io.specs.HeldFiles.{content_at, with_path, within};

use crate::files::FileRefusal;
use sky_base::text::{Bytes, Memory, Txt};
use std::alloc::Global;
use std::marker::Model;

/// Files in memory, and the paths asked so far.
#[derive(Drop)]
pub(crate) struct Shelf {
    files: Vec<(Txt, Bytes)>,
    asked: Vec<Txt>,
}

impl Model for Shelf {
    ghost use Rattle.ciel_io.specs.HeldFiles.{HeldFiles};

    ghost Value = { HeldFiles };

    ghost view = { λ s. record { files = s.files.items; asked = s.asked.items } };
}

impl Shelf {
    pub(crate) fn new(alloc: Global, files: Vec<(Txt, Bytes)>) -> Shelf
        ensures { result ≡ record { files = files.items; asked = [] } }
    {
        Shelf {
            files,
            asked: Vec::new(alloc),
        }
    }

    /// The bytes of the file at a path, where there is one.
    pub(crate) fn get(&self, path: &Txt) -> Option<&Bytes>
        ensures { option_map (λ b. b.now) result ≡ content_at self.now.files path.now }
    {
        for file in &self.files {
            if file.0.as_str() == path.as_str() {
                return Some(&file.1);
            }
        }
        None
    }

    /// The number of the next read, from 1.
    pub(crate) fn next_read(&self) -> u64
        ensures { result ≡ length self.now.asked + 1 }
    {
        self.asked.len() as u64 + 1
    }

    /// Notes that a path was asked.
    pub(crate) fn note(&mut self, path: &Txt) -> Result<(), Memory>
        ensures ok { OnOk result (self.new ≡ with_path self.old path.now) }
        ensures err { OnErr result (self.new ≡ self.old) }
    {
        let path = path.share()?;
        match self.asked.push(path) {
            Ok(()) => Ok(()),
            Err(_) => Err(Memory),
        }
    }
}

/// A second owner of these bytes, where they are at most `limit`.
pub(crate) fn share_within(bytes: &Bytes, limit: u64) -> Result<Bytes, FileRefusal>
    ensures { (result ≡ Err FileRefusal.Memory) ⊎ (result ≡ within limit bytes.now) }
{
    if bytes.as_slice().len() as u64 > limit {
        return Err(FileRefusal::TooLong { limit });
    }
    match bytes.share() {
        Ok(bytes) => Ok(bytes),
        Err(Memory) => Err(FileRefusal::Memory),
    }
}
