// Sinks in memory. They take no memory after they are built, and tell exactly what was put into
// them as long as it fits the room that they were built with.

ghost use Rattle.std.specs.Prelude.{◌≡◌, ◌≤◌, ℕ, List, Option, Some, IfOk, IfSome, OnOk, OnErr, IsOk, [], is_err};
ghost use Rattle.ciel_io.specs.Faults.{HasRisen};
ghost use Rattle.ciel_io.specs.HeldBytes.{after_put, is_failing, with_piece};
ghost use Rattle.ciel_io.specs.Tells.{Tells, TellsPart};

use crate::fails::has_call;
use crate::room::Room;
use crate::sink::{Failed, Sink};
use sky_base::text::Memory;
use std::alloc::Global;
use std::marker::Model;

/// A sink in memory that never fails.
#[derive(Drop)]
pub struct SureSink {
    room: Room,
}

impl Model for SureSink {
    ghost use Rattle.ciel_io.specs.HeldBytes.{HeldBytes};

    ghost Value = { HeldBytes };

    ghost view = { λ s. s.room };
}

impl SureSink {
    /// A sink that tells its bytes while they are at most `room`. The room is made here.
    pub fn new(alloc: Global, room: u64) -> Result<SureSink, Memory>
        ensures { IfOk result (λ s. s ≡ record { room = room; written = Some [] }) }
    {
        Ok(SureSink {
            room: Room::new(alloc, room as usize)?,
        })
    }

    /// The bytes written, while they are told.
    pub fn bytes(&self) -> &[u8]
        ensures { IfSome self.now.written (λ b. result.now ≡ b) }
    {
        self.room.bytes()
    }
}

impl Sink for SureSink {
    ghost written = { λ s. s.written };

    ghost faults = { λ _. 0 };

    fn put(&mut self, piece: &[u8]) -> Result<(), Failed>
        ensures after { self.new ≡ with_piece self.old piece.now }
        ensures sure { IsOk result }
    {
        self.room.put(piece);
        Ok(())
    }
}

/// A sink in memory that fails at the calls that it is given.
#[derive(Drop)]
pub struct MemSink {
    room: Room,
    fails: Vec<u32>,
    calls: u64,
    faults: u64,
}

impl Model for MemSink {
    ghost use Rattle.ciel_io.specs.HeldBytes.{FailingBytes};

    ghost Value = { FailingBytes };

    ghost view = { λ s. record { held = s.room; fails = s.fails.items; calls = s.calls; faults = s.faults } };
}

impl MemSink {
    /// A sink that tells its bytes while they are at most `room`, and whose puts of these numbers,
    /// from 1, fail. The room is made here.
    pub fn new(alloc: Global, room: u64, fails: Vec<u32>) -> Result<MemSink, Memory>
        ensures { IfOk result (λ s. s ≡ record {
          held = record { room = room; written = Some [] };
          fails = fails.items;
          calls = 0;
          faults = 0;
        }) }
    {
        Ok(MemSink {
            room: Room::new(alloc, room as usize)?,
            fails,
            calls: 0,
            faults: 0,
        })
    }

    /// The bytes written, while they are told.
    pub fn bytes(&self) -> &[u8]
        ensures { IfSome self.now.held.written (λ b. result.now ≡ b) }
    {
        self.room.bytes()
    }
}

impl Sink for MemSink {
    ghost written = { λ s. s.held.written };

    ghost faults = { λ s. s.faults };

    fn put(&mut self, piece: &[u8]) -> Result<(), Failed>
        ensures after { self.new ≡ after_put self.old piece.now }
        ensures fails { is_err result ≡ is_failing self.old }
        ensures part { OnErr result (TellsPart self.old.held.written self.new.held.written piece.now) }
        ensures never_falls { self.old.faults ≤ self.new.faults }
    {
        self.calls = self.calls.saturating_add(1);
        if has_call(self.fails.as_slice(), self.calls) {
            self.faults = self.faults.saturating_add(1);
            self.room.put(&piece[..piece.len() / 2]);
            return Err(Failed);
        }
        self.room.put(piece);
        Ok(())
    }
}
