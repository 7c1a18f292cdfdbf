//! What stands while a log is told: which orders are out, which workers are lost.

ghost use Rattle.std.specs.Prelude.{◌≡◌, ◌+◌, ◌<◌, ◌≤◌, ◌^◌, ℕ, false, IfOk, MatchOption, ◌||◌, option_map, slice_get};
ghost use Rattle.ciel_journal.specs.Turns.{FirstDue};
ghost use Rattle.ciel_log_read.specs.View.{record_view, report_view};
ghost use Rattle.ciel_look_story.specs.Inside.{stand_of};
ghost use Rattle.ciel_look_story.specs.Story.{Rests, after, before_all, closed, is_out, lose, tell, with_open};
ghost use Rattle.ciel_look_told.specs.View.{told_view};

use crate::outcome::{is_shown, outcome_of};
use ciel_journal::turn::{first_due, has};
use ciel_log_read::record::{LoggedReport, Record};
use ciel_look_told::told::{Ended, Told};
use sky_base::text::Memory;
use std::alloc::Global;
use std::collections::BTreeMap;

/// At which worker each order was started that isn't closed, the lost workers, how many reports closed an order, and whether the root task
/// is done.
#[derive(Drop)]
pub struct Teller {
    pub worker_of: BTreeMap<u64, u32>,
    pub gone: Vec<u32>,
    pub closes: u64,
    pub over: bool,
}

impl Teller {
    /// Nothing was told.
    pub fn new(alloc: Global) -> Teller
        ensures stand { stand_of result ≡ before_all }
    {
        Teller {
            worker_of: BTreeMap::new(alloc),
            gone: Vec::new(alloc),
            closes: 0,
            over: false,
        }
    }

    /// Whether the order of this number is out.
    pub fn is_out(&self, number: u64) -> bool
        ensures { result ≡ is_out (stand_of self.now) number }
    {
        match self.worker_of.get(&number) {
            Some(worker) => !has(self.gone.as_slice(), *worker),
            None => false,
        }
    }

    /// The worker that is lost next; none exactly where no loss comes there.
    pub fn next_loss(&self, losses: &[(u32, u32)]) -> Option<u32>
        ensures { MatchOption result (Rests losses.now (stand_of self.now)) (λ w. (loss : ℕ) × ((self.now.over ≡ false)
            × FirstDue losses.now self.now.closes self.now.gone.items loss w)) }
    {
        if self.over {
            return None;
        }
        match first_due(losses, self.closes, self.gone.as_slice()) {
            Some(place) => worker_at(losses, place),
            None => None,
        }
    }

    /// A worker is lost.
    pub fn lose(&mut self, worker: u32) -> Result<(), Memory>
        ensures stand { IfOk result (λ _. stand_of self.new ≡ lose (stand_of self.old) worker) }
    {
        match self.gone.push(worker) {
            Ok(()) => Ok(()),
            Err(_) => Err(Memory),
        }
    }

    /// What a record tells.
    pub fn tell(&mut self, alloc: Global, next: Record) -> Result<Told, Memory>
        requires room { self.old.closes + 1 < 2 ^ 64 }
        ensures told { IfOk result (λ t. told_view t ≡ tell (stand_of self.old) (record_view next)) }
        ensures stand { IfOk result (λ _. stand_of self.new ≡ after (stand_of self.old) (record_view next)) }
        ensures closes { IfOk result (λ _. self.new.closes ≤ self.old.closes + 1) }
    {
        match next {
            Record::Start {
                number,
                worker,
                from,
                task,
            } => {
                self.begin(number, worker)?;
                Ok(Told::Start {
                    number,
                    worker,
                    from,
                    task,
                })
            }
            Record::Report(report) => self.report(alloc, report),
            Record::Dropped { number } => Ok(Told::Late { number }),
        }
    }

    /// An order is started at a worker.
    fn begin(&mut self, number: u64, worker: u32) -> Result<(), Memory>
        ensures stand { IfOk result (λ _. stand_of self.new ≡ with_open (stand_of self.old) number worker) }
    {
        match self.worker_of.insert(number, worker) {
            Ok(_) => Ok(()),
            Err(_) => Err(Memory),
        }
    }

    /// What a report tells, which closes its order where that is out.
    fn report(&mut self, alloc: Global, report: LoggedReport) -> Result<Told, Memory>
        requires room { self.old.closes + 1 < 2 ^ 64 }
        ensures told { IfOk result (λ t. told_view t ≡ tell (stand_of self.old) (report_view report)) }
        ensures stand { IfOk result (λ _. stand_of self.new ≡ after (stand_of self.old) (report_view report)) }
        ensures closes { IfOk result (λ _. self.new.closes ≤ self.old.closes + 1) }
    {
        let LoggedReport {
            number,
            spawned,
            copied,
            end,
        } = report;
        if !self.is_out(number) {
            return Ok(Told::Late { number });
        }
        let how = outcome_of(alloc, &end)?;
        self.close(number, is_shown(&end));
        Ok(Told::Ended(Ended {
            number,
            spawned,
            copied,
            how,
        }))
    }

    /// An order is closed, by which the root task may be done.
    fn close(&mut self, number: u64, shown: bool)
        requires room { self.old.closes + 1 < 2 ^ 64 }
        ensures stand { stand_of self.new ≡ closed (stand_of self.old) number shown }
    {
        self.worker_of.remove(&number);
        self.closes += 1;
        self.over = either(self.over, shown);
    }
}

/// Whether one of the two holds.
fn either(one: bool, other: bool) -> bool
    ensures { result ≡ (one || other) }
{
    one || other
}

/// The worker of the loss at a place.
fn worker_at(losses: &[(u32, u32)], place: usize) -> Option<u32>
    ensures { result ≡ option_map (λ l. l.1) (slice_get losses.now place) }
{
    match losses.get(place) {
        Some(loss) => Some(loss.1),
        None => None,
    }
}
