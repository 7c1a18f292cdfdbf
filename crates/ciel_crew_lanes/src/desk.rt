// The two ends of a desk: the master lays a job on it and takes the output, the worker takes the job and lays the
// output. One who takes its own note back lays it there again, and says so.

ghost use Rattle.std.specs.Prelude.{◌≡◌, ◌+◌, ◌++◌, ◌<◌, [], ◌∷◌, length, Some, None, true, false, IfOk, IfSome, IsSome, MatchBool, MatchOption};
ghost use Rattle.ciel_crew_lanes.specs.Seen.{known, DeskSeen, ChairSeen, desk_seen, chair_seen, IsDesk, IsChair};
ghost use Rattle.crossbeam_channel.specs.Claims.{view, IsSeatAt};
ghost use Rattle.crossbeam_channel.specs.Ends.{sends_on, receives_on, ruled_capacity};
ghost use Rattle.ciel_crew_lanes.specs.Desk.{fresh_master, fresh_worker, HasPut, HasTaken, MayPut, MayTake};
ghost use Rattle.ciel_crew_lanes.specs.declared.notes.Role.TheVariants.{Master, Worker};

use crate::notes::{Knows, Note};
use crate::rule::{DeskPass, DeskReceiver, DeskSender, Law, Puts, Seats, Takes};
use crate::work::Work;
use crossbeam_channel::bounded_with;
use std::alloc::{AllocError, Global};
use std::marker::Model;
use std::sync::Wait;

// Puts a note, and tries again for as long as it comes back.
fn send<W: Work, R: Wait>(
    rt: &R,
    to: &DeskSender<W>,
    pass: &mut DeskPass<W>,
    mut note: Note<W::In, W::Out>,
)
    requires seat { IsSeatAt (sends_on to.now) pass.old }
    requires may { MayPut W.takes W.fits (view pass.old) note }
    ensures seat { IsSeatAt (sends_on to.now) pass.new }
    ensures put { HasPut (view pass.old) note (view pass.new) }
{
    for _ in rt.forever() {
        match to.send_as::<Puts<W>, R>(rt, pass, note) {
            Ok(()) => return,
            Err(error) => note = error.into_inner(),
        }
    }
    unreachable!()
}

// Takes what lies on the desk, and waits for it.
fn receive<W: Work, R: Wait>(
    rt: &R,
    from: &DeskReceiver<W>,
    pass: &mut DeskPass<W>,
) -> Note<W::In, W::Out>
    requires seat { IsSeatAt (receives_on from.now) pass.old }
    requires may { MayTake (view pass.old) }
    ensures seat { IsSeatAt (receives_on from.now) pass.new }
    ensures taken { HasTaken W.takes W.fits (view pass.old) result (view pass.new) }
{
    for _ in rt.forever() {
        if let Ok(note) = from.recv_as::<Takes<W>, R>(rt, pass) {
            return note;
        }
    }
    unreachable!()
}

/// The master's end. Contracts see the jobs that were put, the one that is out, and how many were taken back.
pub struct Desk<W: Work> {
    to: DeskSender<W>,
    from: DeskReceiver<W>,
    pass: DeskPass<W>,
}

impl<W: Work> Model for Desk<W> {
    ghost Value = { DeskSeen W.In };

    ghost view = { λ d. desk_seen (known d.pass) };

    ghost invariant = { λ d. IsSeatAt (sends_on d.to) d.pass × (receives_on d.from ≡ sends_on d.to) × IsDesk (known d.pass) };
}

// Written here, so that each exit of a function that holds one has one call and not the drops of all that it owns.
impl<W: Work> Drop for Desk<W> {
    fn drop(self) {
        let Desk {
            to: _,
            from: _,
            pass: _,
        } = self;
    }
}

/// The worker's end. Contracts see how many jobs were taken, and how many outputs were taken back.
pub struct Chair<W: Work> {
    to: DeskSender<W>,
    from: DeskReceiver<W>,
    pass: DeskPass<W>,
}

impl<W: Work> Model for Chair<W> {
    ghost Value = { ChairSeen };

    ghost view = { λ d. chair_seen (known d.pass) };

    ghost invariant = { λ d. IsSeatAt (sends_on d.to) d.pass × (receives_on d.from ≡ sends_on d.to) × IsChair (known d.pass) };
}

impl<W: Work> Drop for Chair<W> {
    fn drop(self) {
        let Chair {
            to: _,
            from: _,
            pass: _,
        } = self;
    }
}

impl<W: Work> Desk<W> {
    /// The two ends of one desk.
    pub fn pair(alloc: Global) -> Result<(Desk<W>, Chair<W>), AllocError>
        ensures fresh { IfOk result (λ r. (r.0 ≡ record { put = []; out = None; back = 0 }) × (r.1 ≡ record { taken = 0; back = 0 })) }
    {
        let (to, from, mut pass) = bounded_with::<
            Note<W::In, W::Out>,
            Knows<W::In>,
            Law<W>,
            Global,
        >(alloc, 1)?;
        let other = to.another::<Seats>(&mut pass);
        let chair = Chair {
            to: to.try_clone()?,
            from: from.try_clone()?,
            pass: other,
        };
        Ok((Desk { to, from, pass }, chair))
    }

    /// Puts a job, which is then out. It takes no memory.
    pub fn put<R: Wait>(&mut self, rt: &R, job: W::In)
        requires none { self.old.out ≡ None }
        requires takes { W.takes job }
        ensures put { self.new ≡ record { put = self.old.put ++ job ∷ []; out = Some job; back = self.old.back } }
    {
        send::<W, R>(rt, &self.to, &mut self.pass, Note::Job(job));
    }

    /// An output that fits the job that is out, which it waits for. `None` only where this call took the job itself
    /// back and put it again, so that the count of those rose.
    pub fn take<R: Wait>(&mut self, rt: &R) -> Option<W::Out>
        requires out { IsSome self.old.out }
        ensures taken { MatchOption result (self.new ≡ record self.old { back = self.old.back + 1 })
            (λ x. IfSome self.old.out (λ job. W.fits job x) × (self.new ≡ record self.old { out = None })) }
    {
        match receive::<W, R>(rt, &self.from, &mut self.pass) {
            Note::Output(output) => Some(output),
            Note::Job(job) => {
                send::<W, R>(rt, &self.to, &mut self.pass, Note::Job(job));
                None
            }
        }
    }
}

impl<W: Work> Chair<W> {
    /// Takes a job, which it waits for, works it and puts the output. False only where this call took its own output
    /// back and put it again, so that the count of those rose.
    pub fn work_one<R: Wait>(&mut self, rt: &R) -> bool
        ensures worked { MatchBool result (self.new ≡ record self.old { taken = self.old.taken + 1 })
            (self.new ≡ record self.old { back = self.old.back + 1 }) }
    {
        match receive::<W, R>(rt, &self.from, &mut self.pass) {
            Note::Job(job) => {
                let output = W::work(job);
                send::<W, R>(rt, &self.to, &mut self.pass, Note::Output(output));
                true
            }
            Note::Output(output) => {
                send::<W, R>(rt, &self.to, &mut self.pass, Note::Output(output));
                false
            }
        }
    }
}
