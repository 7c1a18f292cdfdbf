// One lane: a worker with its desk, and a thread of its own where one can be had. Where none can, whoever takes
// the output does the work first.

ghost use Rattle.std.specs.Prelude.{◌≡◌, ◌↔◌, ◌++◌, ◌∷◌, [], Some, None, is_some, IsTrue, IsSome, IfSome, MatchOption};
ghost use Rattle.ciel_crew_lanes.specs.Seen.{LaneSeen};

use crate::bells::{Listener, Ringer};
use crate::desk::{Chair, Desk};
use crate::work::Work;
use std::marker::Model;
use std::sync::Wait;
use std::thread;
use std::thread::{JoinHandle, Threads};

/// What a worker's thread hears.
#[derive(Clone, Copy)]
pub(crate) enum Bell {
    /// A job lies on the desk.
    Work,
    /// The thread is to end.
    Last,
}

// What a worker's thread is given.
#[derive(Drop)]
pub(crate) struct Post<W: Work> {
    pub(crate) chair: Chair<W>,
    pub(crate) bells: Listener<Bell>,
    pub(crate) master: Ringer<u32>,
    pub(crate) lane: u32,
}

// Works until the last bell, and gives the chair back.
pub(crate) fn serve<W: Work, R: Wait + Drop>(rt: R, post: Post<W>) -> Chair<W> {
    let Post {
        mut chair,
        mut bells,
        mut master,
        lane,
    } = post;
    for _ in rt.forever() {
        match bells.hear(&rt) {
            Bell::Work => {
                let _ = chair.work_one(&rt);
                master.ring(&rt, lane);
            }
            Bell::Last => break,
        }
    }
    chair
}

// Who works at a chair.
#[derive(Drop)]
pub(crate) enum Hands<W: Work> {
    Thread(JoinHandle<Chair<W>>),
    Own(Chair<W>),
}

// Starts a thread. Where none can be had, the closure is called here after a last bell, and gives the chair back.
pub(crate) fn hire<W: Work, R: Threads + Wait + Copy + Send + Drop + 'static>(
    rt: R,
    bell: &mut Ringer<Bell>,
    post: Post<W>,
) -> Hands<W>
where
    W: Send + 'static,
    W::In: Send + 'static,
    W::Out: Send + 'static,
{
    match thread::spawn(&rt, move || serve::<W, R>(rt, post)) {
        Ok(handle) => Hands::Thread(handle),
        Err(refused) => {
            bell.ring(&rt, Bell::Last);
            Hands::Own((refused.value)())
        }
    }
}

/// A worker with its desk.
#[derive(Drop)]
pub(crate) struct Lane<W: Work> {
    pub(crate) desk: Desk<W>,
    pub(crate) bell: Ringer<Bell>,
    pub(crate) hands: Hands<W>,
    pub(crate) is_out: bool,
    // the lane rang for the output that lies there
    pub(crate) rang: bool,
}

impl<W: Work> Model for Lane<W> {
    ghost Value = { LaneSeen W.In };

    ghost view = { λ l. record { put = l.desk.put; out = l.desk.out } };

    ghost invariant = { λ l. is_some l.desk.out ≡ l.is_out };
}

impl<W: Work> Lane<W> {
    pub(crate) fn is_out(&self) -> bool
        ensures { IsTrue result ↔ IsSome self.now.out }
    {
        self.is_out
    }

    pub(crate) fn has_thread(&self) -> bool {
        matches!(self.hands, Hands::Thread(_))
    }

    /// Whether the lane's bell is still to be heard before its output is taken.
    pub(crate) fn is_awaited(&self) -> bool {
        self.is_out && self.has_thread() && !self.rang
    }

    pub(crate) fn rings(&mut self)
        ensures { self.new ≡ self.old }
    {
        self.rang = true;
    }

    pub(crate) fn put<R: Wait>(&mut self, rt: &R, job: W::In)
        requires none { self.old.out ≡ None }
        requires takes { W.takes job }
        ensures { self.new ≡ record { put = self.old.put ++ job ∷ []; out = Some job } }
    {
        self.desk.put(rt, job);
        self.is_out = true;
        self.rang = false;
        if let Hands::Thread(_) = &self.hands {
            self.bell.ring(rt, Bell::Work);
        }
    }

    /// Works the job that is out, where the lane has no thread.
    pub(crate) fn work<R: Wait>(&mut self, rt: &R)
        ensures { self.new ≡ self.old }
    {
        if let Hands::Own(chair) = &mut self.hands {
            let _ = chair.work_one(rt);
        }
    }

    pub(crate) fn take<R: Wait>(&mut self, rt: &R) -> Option<W::Out>
        requires { IsSome self.old.out }
        ensures { MatchOption result (self.new ≡ self.old)
            (λ x. IfSome self.old.out (λ job. W.fits job x) × (self.new ≡ record self.old { out = None })) }
    {
        let taken = self.desk.take(rt);
        if taken.is_some() {
            self.is_out = false;
        }
        taken
    }

    /// Works the job where the lane has no thread, and takes what lies on the desk.
    pub(crate) fn worked<R: Wait>(&mut self, rt: &R) -> Option<W::Out>
        requires { IsSome self.old.out }
        ensures { MatchOption result (self.new ≡ self.old)
            (λ x. IfSome self.old.out (λ job. W.fits job x) × (self.new ≡ record self.old { out = None })) }
    {
        self.work(rt);
        self.take(rt)
    }
}
