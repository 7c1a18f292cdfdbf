//! The log: where records are put, how many bytes it has, and how it stands.

ghost use Rattle.std.specs.Prelude.{◌≡◌, ◌≤◌, IfOk};
ghost use Rattle.sky_base.specs.Tree.{Script};
ghost use Rattle.ciel_task_order.specs.Places.{EndAt};
ghost use Rattle.ciel_log_records.specs.Records.{in_file, start_record};
ghost use Rattle.ciel_log.specs.Logging.{Adds, IsRecordOf, Tried, most};
ghost use Rattle.ciel_log.specs.declared.state.LogState.{LogState as state};

use crate::reading::record_of;
use crate::state::LogState;
use ciel_io::keep::Keep;
use ciel_log_records::start::put_start;
use ciel_name::writer::Writer;
use ciel_store::seats::Eye;
use ciel_store::shelves::Shelves;
use ciel_task_order::block::Block;
use ciel_task_order::order::Order;
use ciel_task_order::report::Report;
use sky_base::text::{Memory, Txt};
use std::alloc::{AllocError, Global};
use std::marker::Model;

/// The most bytes that a log has.
pub const MOST: u64 = 268_435_456;

/// The file at a path of a keeper that is lent, with an eye that reads what reports give. Contracts see which keeper that is, at whose words
/// the eye sits, and what is told of the log.
pub(crate) struct Log<'k, D: Keep> {
    alloc: Global,
    keep: &'k mut D,
    path: Txt,
    eye: Eye,
    held: u64,
    state: LogState,
}

impl<'k, D: Keep> Model for Log<'k, D> {
    ghost use Rattle.std.specs.Prelude.{◌≤◌};
    ghost use Rattle.ciel_log.specs.Logging.{LogKept, most};

    ghost Value = { LogKept };

    ghost view = { λ l. record {
      keep = l.keep.ghost_name;
      of = l.eye.of;
      seen = record {
        path = l.path;
        files = D.files l.keep.now;
        asked = D.asked l.keep.now;
        faults = D.faults l.keep.now;
        held = l.held;
        state = l.state;
        losses = l.eye.losses;
      };
    } };

    ghost invariant = { λ l. l.held ≤ most };
}

impl<'k, D: Keep> Log<'k, D> {
    /// The log at a path, of so many bytes.
    pub(crate) fn open(alloc: Global, keep: &'k mut D, path: Txt, eye: Eye, held: u64) -> Log<'k, D>
        requires held { held ≤ most }
        ensures same_reference { result.keep ≡ keep.entry.ghost_name }
        ensures of { result.of ≡ eye.of }
        ensures seen { result.seen ≡ record {
          path = path;
          files = D.files keep.entry.now;
          asked = D.asked keep.entry.now;
          faults = D.faults keep.entry.now;
          held = held;
          state = state.Whole;
          losses = eye.losses;
        } }
    {
        Log {
            alloc,
            keep,
            path,
            eye,
            held,
            state: LogState::Whole,
        }
    }

    /// How it stands.
    pub(crate) fn state(&self) -> LogState
        ensures { result ≡ self.now.seen.state }
    {
        self.state
    }

    /// The keeper, handed back.
    pub(crate) fn into_keep(self) -> &'k mut D
        ensures same_reference { result.ghost_name ≡ self.entry.keep }
        ensures files { D.files result.now ≡ self.entry.seen.files }
        ensures asked { D.asked result.now ≡ self.entry.seen.asked }
        ensures faults { D.faults result.now ≡ self.entry.seen.faults }
    {
        let Log {
            alloc: _,
            keep,
            path: _,
            eye: _,
            held: _,
            state: _,
        } = self;
        keep
    }

    /// Puts the record of a start behind it, if every one before is there.
    pub(crate) fn start(&mut self, order: &Order)
        ensures keep { self.new.keep ≡ self.old.keep }
        ensures of { self.new.of ≡ self.old.of }
        ensures path { self.new.seen.path ≡ self.old.seen.path }
        ensures losses { self.new.seen.losses ≡ self.old.seen.losses }
        ensures adds { Adds (λ bytes. bytes ≡ start_record order.now.number order.now.worker order.now.from order.now.task)
            self.old.seen self.new.seen }
    {
        let LogState::Whole = self.state else {
            return;
        };
        match start_of(self.alloc, order) {
            Ok(record) => self.put(record.as_slice()),
            Err(_) => self.state = LogState::Memory,
        }
    }

    /// Puts the record of a report behind it, if every one before is there.
    pub(crate) fn report(&mut self, shelves: &Shelves<Block>, report: &Report)
        requires of { self.old.of ≡ shelves.now.of }
        requires places { (sc : Script) × EndAt shelves.now report.now.worker sc report.now.task report.now.end }
        ensures keep { self.new.keep ≡ self.old.keep }
        ensures of { self.new.of ≡ self.old.of }
        ensures path { self.new.seen.path ≡ self.old.seen.path }
        ensures adds { Adds (IsRecordOf report.now self.old.seen.losses self.new.seen.losses) self.old.seen self.new.seen }
    {
        let LogState::Whole = self.state else {
            return;
        };
        match record_of(self.alloc, shelves, &mut self.eye, report) {
            Ok(record) => self.put(record.as_slice()),
            Err(_) => self.state = LogState::Memory,
        }
    }

    // Puts a record behind it, where every one before is there.
    fn put(&mut self, told: &[u8])
        ensures keep { self.new.keep ≡ self.old.keep }
        ensures of { self.new.of ≡ self.old.of }
        ensures path { self.new.seen.path ≡ self.old.seen.path }
        ensures losses { self.new.seen.losses ≡ self.old.seen.losses }
        ensures tried { self.old.seen.state ≡ state.Whole → Tried (λ bytes. bytes ≡ told.now) self.old.seen self.new.seen }
    {
        let length = told.len() as u64 + 4;
        if length > MOST - self.held {
            self.state = LogState::Full { held: self.held };
            return;
        }
        let Ok(piece) = in_file(self.alloc, told) else {
            self.state = LogState::Memory;
            return;
        };
        match self.keep.append(&self.path, piece.as_slice()) {
            Ok(()) => self.held += length,
            Err(_) => self.state = LogState::Failed,
        }
    }
}

// The record of a start.
fn start_of(alloc: Global, order: &Order) -> Result<Writer, Memory>
    ensures { IfOk result (λ out. out ≡ start_record order.now.number order.now.worker order.now.from order.now.task) }
{
    let mut out = Writer::new(alloc);
    put_start(
        &mut out,
        order.number,
        order.worker,
        order.from,
        &order.task,
    )?;
    Ok(out)
}

// A record, as it stands in the file, in one piece of memory.
#[tactic(auto, using(ciel_name::proofs::Numbers::numbers))]
fn in_file(alloc: Global, told: &[u8]) -> Result<Vec<u8>, AllocError>
    ensures { IfOk result (λ out. out.items ≡ in_file told.now) }
{
    let length = (told.len() as u64).to_be_bytes();
    let mut out = Vec::with_capacity(alloc, told.len() + 4)?;
    out.extend_from_slice(&length[4..])?;
    out.extend_from_slice(told)?;
    Ok(out)
}
