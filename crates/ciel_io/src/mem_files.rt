// Files in memory. They tell what they hold and each path that they were asked for.

ghost use Rattle.std.specs.Prelude.{◌≡◌, ◌⊎◌, ◌<◌, ◌≤◌, ◌-◌, ◌^◌, ℕ, List, Option, Some, None, Ok, Err, IfOk, IfErr, IfSome, [], length};
ghost use Rattle.ciel_io.specs.Faults.{HasRisen};
ghost use Rattle.ciel_io.specs.HeldFiles.{after_read, after_sure_read, bytes_at, content_at, read_answer, within};
ghost use Rattle.ciel_io.specs.Reads.{Asks, IfTooLong};

use crate::fails::has_call;
use crate::files::{FileRefusal, Files};
use crate::shelf::{Shelf, share_within};
use sky_base::text::{Bytes, Memory, Txt};
use std::alloc::Global;
use std::marker::Model;

/// Files in memory whose reads never fail: a path where there is no file is an empty file.
#[derive(Drop)]
pub struct SureFiles {
    shelf: Shelf,
}

impl Model for SureFiles {
    ghost use Rattle.ciel_io.specs.HeldFiles.{HeldFiles};

    ghost Value = { HeldFiles };

    ghost view = { λ f. f.shelf };
}

impl SureFiles {
    /// These files, each a path and its bytes. Of two at one path the first counts.
    pub fn new(alloc: Global, files: Vec<(Txt, Bytes)>) -> Result<SureFiles, Memory>
        ensures { IfOk result (λ f. f ≡ record { files = files.items; asked = [] }) }
    {
        Ok(SureFiles {
            shelf: Shelf::new(alloc, files),
        })
    }

    fn find(&self, alloc: Global, path: &Txt, limit: u64) -> Result<Bytes, FileRefusal>
        ensures { (result ≡ Err FileRefusal.Memory)
            ⊎ (result ≡ within limit (bytes_at self.now.files path.now)) }
    {
        match self.shelf.get(path) {
            Some(bytes) => share_within(bytes, limit),
            None => match Bytes::new(alloc, Vec::new(alloc)) {
                Ok(bytes) => Ok(bytes),
                Err(Memory) => Err(FileRefusal::Memory),
            },
        }
    }
}

impl Files for SureFiles {
    ghost content = { λ f path. Some (bytes_at f.files path) };

    ghost asked = { λ f. Some f.asked };

    ghost faults = { λ _. 0 };

    fn read(&mut self, alloc: Global, path: &Txt, limit: u64) -> Result<Bytes, FileRefusal>
        ensures answer { (result ≡ Err FileRefusal.Memory)
            ⊎ (result ≡ within limit (bytes_at self.old.files path.now)) }
        ensures after { self.new ≡ after_sure_read self.old path.now result }
    {
        let answer = self.find(alloc, path, limit);
        if matches!(answer, Err(FileRefusal::Memory)) || self.shelf.note(path).is_err() {
            return Err(FileRefusal::Memory);
        }
        answer
    }
}

/// Files in memory whose reads fail at the calls that they are given, and where there is no file.
#[derive(Drop)]
pub struct MemFiles {
    shelf: Shelf,
    fails: Vec<u32>,
    faults: u64,
}

impl Model for MemFiles {
    ghost use Rattle.ciel_io.specs.HeldFiles.{FailingFiles};

    ghost Value = { FailingFiles };

    ghost view = { λ f. record { held = f.shelf; fails = f.fails.items; faults = f.faults } };
}

impl MemFiles {
    /// These files, each a path and its bytes, whose reads of these numbers, from 1, fail. Of two
    /// at one path the first counts.
    pub fn new(alloc: Global, files: Vec<(Txt, Bytes)>, fails: Vec<u32>) -> Result<MemFiles, Memory>
        ensures { IfOk result (λ f. f ≡ record {
          held = record { files = files.items; asked = [] };
          fails = fails.items;
          faults = 0;
        }) }
    {
        Ok(MemFiles {
            shelf: Shelf::new(alloc, files),
            fails,
            faults: 0,
        })
    }

    fn find(&self, path: &Txt, limit: u64) -> Result<Bytes, FileRefusal>
        ensures { (result ≡ Err FileRefusal.Memory)
            ⊎ (result ≡ read_answer self.now path.now limit) }
    {
        if has_call(self.fails.as_slice(), self.shelf.next_read()) {
            return Err(FileRefusal::Failed);
        }
        match self.shelf.get(path) {
            Some(bytes) => share_within(bytes, limit),
            None => Err(FileRefusal::Failed),
        }
    }
}

impl Files for MemFiles {
    ghost content = { λ f. content_at f.held.files };

    ghost asked = { λ f. Some f.held.asked };

    ghost faults = { λ f. f.faults };

    fn read(&mut self, alloc: Global, path: &Txt, limit: u64) -> Result<Bytes, FileRefusal>
        ensures answer { (result ≡ Err FileRefusal.Memory)
            ⊎ (result ≡ read_answer self.old path.now limit) }
        ensures after { self.new ≡ after_read self.old path.now result }
        ensures never_falls { self.old.faults ≤ self.new.faults }
    {
        let answer = self.find(path, limit);
        if matches!(answer, Err(FileRefusal::Memory)) || self.shelf.note(path).is_err() {
            return Err(FileRefusal::Memory);
        }
        if matches!(answer, Err(FileRefusal::Failed)) {
            self.faults = self.faults.saturating_add(1);
        }
        answer
    }
}
