//! Ready jobs, and the seats that take them.

ghost use Rattle.std.specs.Prelude.{◌≡◌, ℕ, ◌<◌, ◌≤◌, ◌++◌, List, [], ◌∷◌, length, All, Some, IfOk, IfNone, MatchOption, MatchResult};
ghost use Rattle.std.specs.Arc.{arc_value};
ghost use Rattle.ciel_steal_ready.specs.Balance.{idle, has_put};
ghost use Rattle.ciel_steal_ready.specs.Found.{FoundEmpty};
ghost use Rattle.ciel_steal_ready.specs.Seen.{known_own};
ghost use Rattle.ciel_steal_ready.specs.Seats.{SeatSeen, Tallies};
ghost use Rattle.crossbeam_deque.specs.Handles.{worker_flavor};
ghost use Rattle.crossbeam_deque.specs.Injected.{IsInjectorPassOf, injector_view};

use crate::ends::{Ends, Other};
use crate::keeps::{Keeps, Took};
use crate::log::Log;
use crate::rule::{Fair, Hand, Puts};
use crossbeam_deque::{Injector, InjectorPass, Worker};
use std::alloc::{AllocError, Global};
use std::marker::Model;
use std::sync::{Arc, Wait};

type Shared<T, P> = Injector<T, Global, Hand<T>, P>;

type Own<T, P> = Worker<T, Global, Hand<T>, P>;

/// The queue that feeds the seats. Contracts see the jobs that were put.
pub struct Ready<T: Drop, P: Keeps<T> = Fair> {
    queue: Arc<Shared<T, P>, Global>,
    pass: InjectorPass<T, Hand<T>>,
}

impl<T: Drop, P: Keeps<T>> Model for Ready<T, P> {
    ghost use Rattle.std.specs.Prelude.{◌≡◌, List, []};
    ghost use Rattle.std.specs.Arc.{arc_value};
    ghost use Rattle.crossbeam_deque.specs.Injected.{IsInjectorPassOf};
    ghost use Rattle.ciel_steal_ready.specs.Seen.{known_by};

    ghost Value = { List T };

    ghost view = { λ r. (known_by r.pass).put };

    ghost invariant = { λ r. IsInjectorPassOf (arc_value r.queue) r.pass × ((known_by r.pass).taken ≡ []) };
}

// Written here, so that each exit of a function that holds one has one call and not the drops of all that it owns.
impl<T: Drop, P: Keeps<T>> Drop for Ready<T, P> {
    fn drop(self) {
        let Ready { queue: _, pass: _ } = self;
    }
}

/// A place to take jobs. Contracts see the jobs that it has taken, in order, and what it knows of each queue. What it has taken, with
/// what it laid into its own queue, is what it has taken off the queues, each job as often.
pub struct Seat<T: Drop, P: Keeps<T> = Fair> {
    ends: Ends<T, Hand<T>, P>,
    log: Log<T>,
}

impl<T: Drop, P: Keeps<T>> Model for Seat<T, P> {
    ghost use Rattle.ciel_steal_ready.specs.Seats.{SeatSeen, Tallies};

    ghost Value = { SeatSeen T };

    ghost view = { λ s. record { taken = s.log; knows = s.ends } };

    ghost invariant = { λ s. Tallies s.ends s.log };
}

impl<T: Drop, P: Keeps<T>> Drop for Seat<T, P> {
    fn drop(self) {
        let Seat { ends: _, log: _ } = self;
    }
}

// Puts a job into the queue, or hands it back.
fn push<T: Drop, P: Keeps<T>, R: Wait>(
    rt: &R,
    queue: &Shared<T, P>,
    pass: &mut InjectorPass<T, Hand<T>>,
    job: T,
) -> Result<(), T>
    requires pass { IsInjectorPassOf queue.now pass.old }
    ensures pass { IsInjectorPassOf queue.now pass.new }
    ensures put { MatchResult result (λ _. injector_view pass.new ≡ has_put (injector_view pass.old) (job ∷ []))
        (λ x. (x ≡ job) × (injector_view pass.new ≡ injector_view pass.old)) }
{
    queue.push_as::<Puts, R>(rt, pass, job)
}

impl<T: Drop, P: Keeps<T>> Ready<T, P> {
    /// Puts a job. Where there is no memory for it the job is handed back, and the list stays.
    pub fn put<R: Wait>(&mut self, rt: &R, job: T) -> Result<(), T>
        ensures put { MatchResult result (λ _. self.new ≡ self.old ++ job ∷ []) (λ x. (x ≡ job) × (self.new ≡ self.old)) }
    {
        push(rt, &self.queue, &mut self.pass, job)
    }
}

impl<T: Drop, P: Keeps<T>> Seat<T, P> {
    /// The front of the own queue; else the first of a batch of the shared one, whose others join the own; else the front of another seat's. It
    /// is then the last of the jobs taken. `None` only where each of these queues was empty at a moment of this call. It takes no memory that
    /// it can't do without: a batch is cut where the own queue can't grow.
    pub fn take<R: Wait>(&mut self, rt: &R) -> Option<T>
        ensures taken { MatchOption result (self.new ≡ self.old) (λ x. self.new.taken ≡ self.old.taken ++ x ∷ []) }
        ensures empty { IfNone result (FoundEmpty P.empty self.old.knows) }
    {
        let job = self.ends.find::<Took<P>, Puts, R>(rt)?;
        self.log.add(&job);
        Some(job)
    }

    /// What it has taken, with what it laid into its own queue, is what it has taken off all queues, each job as often; and it laid nothing into
    /// others. This does nothing: it is the law of each seat.
    pub fn tally(&self)
        ensures tally { Tallies self.now.knows self.now.taken }
    {
        let _ends = &self.ends;
    }
}

// The own queue of a seat that is to be.
#[derive(Drop)]
struct Owned<T: Drop, P: Keeps<T>> {
    own: Own<T, P>,
    ghost fifo: { worker_flavor own ≡ 0 },
    ghost fresh: { known_own own ≡ idle },
}

// The other seats' queues, for a seat that is to be.
#[derive(Drop)]
struct Row<T: Drop, P: Keeps<T>> {
    others: Vec<Other<T, Hand<T>, P>>,
    ghost fresh: { All (λ v. v ≡ idle) others.items },
}

// A queue of one's own, with room for a few jobs at first.
fn queue_of<T: Drop, P: Keeps<T>>(alloc: Global) -> Result<Owned<T, P>, AllocError>
    requires begins { P.holds [] (idle ∷ []) }
{
    let own = Own::<T, P>::fifo_as(alloc, 8)?;
    Ok(Owned { own })
}

// As many as threads.
fn all_owned<T: Drop, P: Keeps<T>>(
    alloc: Global,
    threads: u32,
) -> Result<Vec<Owned<T, P>>, AllocError>
    requires begins { P.holds [] (idle ∷ []) }
    ensures { IfOk result (λ v. length v.items ≡ threads) }
{
    let mut all = Vec::new(alloc);
    for _ in 0..threads {
        all.push(queue_of::<T, P>(alloc)?)?;
    }
    Ok(all)
}

// The end by which another seat steals from it.
fn other_of<T: Drop, P: Keeps<T>>(owned: &Owned<T, P>) -> Result<Other<T, Hand<T>, P>, AllocError>
    ensures { IfOk result (λ v. v ≡ idle) }
{
    let thief = owned.own.stealer()?;
    let pass = thief.pass();
    Ok(Other { thief, pass })
}

// Those of all other seats.
fn row_of<T: Drop, P: Keeps<T>>(
    alloc: Global,
    all: &Vec<Owned<T, P>>,
    seat: usize,
) -> Result<Row<T, P>, AllocError> {
    let mut others = Vec::new(alloc);
    for at in 0..all.len() {
        if at != seat {
            others.push(other_of(&all[at])?)?;
        }
    }
    Ok(Row { others })
}

// So for each seat.
fn rows_of<T: Drop, P: Keeps<T>>(
    alloc: Global,
    all: &Vec<Owned<T, P>>,
    threads: u32,
) -> Result<Vec<Row<T, P>>, AllocError>
    ensures { IfOk result (λ v. length v.items ≡ threads) }
{
    let mut rows = Vec::new(alloc);
    for seat in 0..threads {
        rows.push(row_of(alloc, all, seat as usize)?)?;
    }
    Ok(rows)
}

// A seat that has taken nothing.
fn seat_of<T: Drop, P: Keeps<T>>(
    alloc: Global,
    queue: &Arc<Shared<T, P>, Global>,
    owned: Owned<T, P>,
    row: Row<T, P>,
) -> Result<Seat<T, P>, AllocError>
    ensures { IfOk result (λ s. s.taken ≡ []) }
{
    let shared = Arc::try_clone(queue)?;
    let pass = shared.pass();
    let log = Log::new(alloc)?;
    let Owned { own } = owned;
    let Row { others } = row;
    let ends = Ends {
        own,
        shared,
        pass,
        others,
    };
    Ok(Seat { ends, log })
}

// So each of them.
fn seats_of<T: Drop, P: Keeps<T>>(
    alloc: Global,
    queue: &Arc<Shared<T, P>, Global>,
    all: Vec<Owned<T, P>>,
    rows: Vec<Row<T, P>>,
) -> Result<Vec<Seat<T, P>>, AllocError>
    requires { length rows.items ≡ length all.items }
    ensures seats { IfOk result (λ v. length v.items ≡ length all.items) }
    ensures fresh { IfOk result (λ v. All (λ s. s.taken ≡ []) v.items) }
{
    let mut seats = Vec::new(alloc);
    let mut rows = rows.into_iter();
    for owned in all {
        match rows.next() {
            Some(row) => seats.push(seat_of(alloc, queue, owned, row)?)?,
            None => unreachable!(),
        }
    }
    Ok(seats)
}

impl<T: Drop, P: Keeps<T>> Ready<T, P> {
    /// An empty queue, and as many seats as threads, which have taken nothing.
    ///
    /// Answers `AllocError` for want of memory.
    pub fn open(alloc: Global, threads: u32) -> Result<(Ready<T, P>, Vec<Seat<T, P>>), AllocError>
        requires begins { P.holds [] (idle ∷ []) }
        requires some { 0 < threads }
        ensures ready { IfOk result (λ r. r.0 ≡ []) }
        ensures seats { IfOk result (λ r. length r.1.items ≡ threads) }
        ensures fresh { IfOk result (λ r. All (λ s. s.taken ≡ []) r.1.items) }
    {
        let (injector, pass) = Shared::<T, P>::new_as(alloc)?;
        let queue = Arc::new(alloc, injector)?;
        let all = all_owned::<T, P>(alloc, threads)?;
        let rows = rows_of(alloc, &all, threads)?;
        let seats = seats_of(alloc, &queue, all, rows)?;
        Ok((Ready { queue, pass }, seats))
    }
}
