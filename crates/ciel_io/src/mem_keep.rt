// Kept files in memory. They take no memory after they are built, and tell exactly what they hold as long as it fits the room that they
// were built with.

ghost use Rattle.std.specs.Prelude.{◌≡◌, ◌≤◌, ◌++◌, ℕ, List, Option, Some, IfOk, IfSome, IsOk, [], is_err, is_some, option_map};
ghost use Rattle.ciel_io.specs.HeldFiles.{content_at};
ghost use Rattle.ciel_io.specs.HeldKeep.{after_call, after_failing_call, asked_of, files_of, handled, is_failing, put_so};
ghost use Rattle.ciel_io.specs.Rows.{has_row};

use crate::drawer::{Drawer, Way};
use crate::fails::has_call;
use crate::keep::Keep;
use crate::sink::Failed;
use sky_base::text::{Memory, Txt};
use std::alloc::Global;
use std::marker::Model;

/// Kept files in memory of which no call fails. They begin without files.
#[derive(Drop)]
pub struct SureKeep {
    drawer: Drawer,
}

impl Model for SureKeep {
    ghost use Rattle.ciel_io.specs.HeldKeep.{HeldKeep};

    ghost Value = { HeldKeep };

    ghost view = { λ k. k.drawer };
}

impl SureKeep {
    /// No files yet. What they hold is told while it fits the room: a byte counts one, as does each path, each file and each call, and
    /// the path of a call counts again. The room is made here, three times over and eight bytes for each of its places.
    pub fn new(alloc: Global, room: u64) -> Result<SureKeep, Memory>
        ensures { IfOk result (λ k. k ≡ record { room = room; told = Some (record { files = []; asked = [] }) }) }
    {
        Ok(SureKeep {
            drawer: Drawer::new(alloc, room as usize)?,
        })
    }

    /// What stands at a path, while it is told; none exactly where no call was asked with that path.
    pub fn file(&self, path: &Txt) -> Option<&[u8]>
        ensures found { IfSome self.now.told (λ k. option_map (λ b. b.now) result ≡ content_at k.files path.now) }
        ensures asked { IfSome self.now.told (λ k. is_some result ≡ has_row k.asked path.now) }
    {
        self.drawer.file(path)
    }
}

impl Keep for SureKeep {
    ghost files = { files_of };

    ghost asked = { asked_of };

    ghost faults = { λ _. 0 };

    fn append(&mut self, path: &Txt, piece: &[u8]) -> Result<(), Failed>
        ensures after { self.new ≡ after_call self.old path.now (λ old. old ++ piece.now) }
        ensures sure { IsOk result }
    {
        self.drawer.put(path, piece, Way::Behind);
        Ok(())
    }

    fn replace(&mut self, path: &Txt, piece: &[u8]) -> Result<(), Failed>
        ensures after { self.new ≡ after_call self.old path.now (λ _. piece.now) }
        ensures sure { IsOk result }
    {
        self.drawer.put(path, piece, Way::Instead);
        Ok(())
    }
}

/// Kept files in memory that fail at the calls that they are given. They begin without files.
#[derive(Drop)]
pub struct MemKeep {
    drawer: Drawer,
    fails: Vec<u32>,
    calls: u64,
    faults: u64,
}

impl Model for MemKeep {
    ghost use Rattle.ciel_io.specs.HeldKeep.{FailingKeep};

    ghost Value = { FailingKeep };

    ghost view = { λ k. record { held = k.drawer; fails = k.fails.items; calls = k.calls; faults = k.faults } };
}

impl MemKeep {
    /// No files yet, of which the calls of these numbers, from 1, fail: such a call handles the first half of its piece. What they hold is
    /// told while it fits the room, as `SureKeep::new` says.
    pub fn new(alloc: Global, room: u64, fails: Vec<u32>) -> Result<MemKeep, Memory>
        ensures { IfOk result (λ k. k ≡ record {
          held = record { room = room; told = Some (record { files = []; asked = [] }) };
          fails = fails.items;
          calls = 0;
          faults = 0;
        }) }
    {
        Ok(MemKeep {
            drawer: Drawer::new(alloc, room as usize)?,
            fails,
            calls: 0,
            faults: 0,
        })
    }

    /// What stands at a path, while it is told; none exactly where no call was asked with that path.
    pub fn file(&self, path: &Txt) -> Option<&[u8]>
        ensures found { IfSome self.now.held.told (λ k. option_map (λ b. b.now) result ≡ content_at k.files path.now) }
        ensures asked { IfSome self.now.held.told (λ k. is_some result ≡ has_row k.asked path.now) }
    {
        self.drawer.file(path)
    }

    // Puts a piece at a path, or its first half where the call fails.
    fn put(&mut self, path: &Txt, piece: &[u8], way: Way) -> Result<(), Failed>
        ensures after { self.new ≡ after_failing_call self.old path.now (put_so way (handled self.old piece.now)) }
        ensures fails { is_err result ≡ is_failing self.old }
        ensures never_falls { self.old.faults ≤ self.new.faults }
    {
        self.calls = self.calls.saturating_add(1);
        if has_call(self.fails.as_slice(), self.calls) {
            self.faults = self.faults.saturating_add(1);
            self.drawer.put(path, &piece[..piece.len() / 2], way);
            return Err(Failed);
        }
        self.drawer.put(path, piece, way);
        Ok(())
    }
}

impl Keep for MemKeep {
    ghost files = { λ k. files_of k.held };

    ghost asked = { λ k. asked_of k.held };

    ghost faults = { λ k. k.faults };

    fn append(&mut self, path: &Txt, piece: &[u8]) -> Result<(), Failed>
        ensures after { self.new ≡ after_failing_call self.old path.now (λ old. old ++ handled self.old piece.now) }
        ensures fails { is_err result ≡ is_failing self.old }
        ensures never_falls { self.old.faults ≤ self.new.faults }
    {
        self.put(path, piece, Way::Behind)
    }

    fn replace(&mut self, path: &Txt, piece: &[u8]) -> Result<(), Failed>
        ensures after { self.new ≡ after_failing_call self.old path.now (λ _. handled self.old piece.now) }
        ensures fails { is_err result ≡ is_failing self.old }
        ensures never_falls { self.old.faults ≤ self.new.faults }
    {
        self.put(path, piece, Way::Instead)
    }
}
