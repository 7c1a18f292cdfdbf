//! A worker's place at the master's side: its desk, and whether its number is here, while nobody works at its chair.

ghost use Rattle.std.specs.Prelude.{◌≡◌, ◌↔◌, ◌++◌, ◌∷◌, [], Some, None, is_some, IsTrue, IsSome, IfSome, MatchOption};
ghost use Rattle.ciel_crew_lanes.specs.Seen.{LaneSeen};

use ciel_crew_lanes::desk::Desk;
use ciel_crew_lanes::work::Work;
use std::marker::Model;
use std::sync::Wait;

/// A worker's place. Contracts see the jobs that were put and the one that is out.
#[derive(Drop)]
pub(crate) struct Place<W: Work> {
    pub(crate) desk: Desk<W>,
    pub(crate) is_out: bool,
    pub(crate) is_here: bool,
}

impl<W: Work> Model for Place<W> {
    ghost Value = { LaneSeen W.In };

    ghost view = { λ l. record { put = l.desk.put; out = l.desk.out } };

    ghost invariant = { λ l. is_some l.desk.out ≡ l.is_out };
}

impl<W: Work> Place<W> {
    pub(crate) fn is_out(&self) -> bool
        ensures out { IsTrue result ↔ IsSome self.now.out }
    {
        self.is_out
    }

    pub(crate) fn is_here(&self) -> bool {
        self.is_here
    }

    /// Its number came back, or left.
    pub(crate) fn lay(&mut self, is_here: bool)
        ensures same { self.new ≡ self.old }
    {
        self.is_here = is_here;
    }

    pub(crate) fn put<R: Wait>(&mut self, rt: &R, job: W::In)
        requires none { self.old.out ≡ None }
        requires takes { W.takes job }
        ensures put { self.new ≡ record { put = self.old.put ++ job ∷ []; out = Some job } }
    {
        self.desk.put(rt, job);
        self.is_out = true;
    }

    /// What lies on the desk, where it is an output.
    pub(crate) fn take<R: Wait>(&mut self, rt: &R) -> Option<W::Out>
        requires out { IsSome self.old.out }
        ensures taken { MatchOption result (self.new ≡ self.old)
            (λ x. IfSome self.old.out (λ job. W.fits job x) × (self.new ≡ record self.old { out = None })) }
    {
        let taken = self.desk.take(rt);
        if taken.is_some() {
            self.is_out = false;
        }
        taken
    }
}
