//! Where workers go out and come back, by their numbers.

use crate::serve::{Bell, work_at, work_at_one};
use ciel_crew_lanes::bells::{Listener, Ringer};
use ciel_crew_lanes::desk::Chair;
use ciel_crew_lanes::work::Work;
use ciel_steal_ready::ready::{Ready, Seat};
use std::alloc::Global;
use std::sync::{Arc, Mutex, Wait};

/// The numbers of ready workers, the bells, the chairs, and the master's own seat, at which it works where there is no thread.
#[derive(Drop)]
pub(crate) struct Hall<W: Work> {
    pub(crate) ready: Ready<u32>,
    pub(crate) seat: Seat<u32>,
    pub(crate) bell: Ringer<Bell>,
    pub(crate) bells: Listener<Bell>,
    pub(crate) back: Listener<u32>,
    pub(crate) chairs: Arc<Vec<Mutex<Chair<W>>>, Global>,
    pub(crate) staffed: bool,
}

impl<W: Work> Hall<W> {
    /// Puts a worker's number among the ready ones and rings. False where there is no memory for it.
    pub(crate) fn send_out<R: Wait>(&mut self, rt: &R, worker: u32) -> bool {
        if self.ready.put(rt, worker).is_err() {
            return false;
        }
        self.bell.ring(rt, Bell::Work);
        true
    }

    /// The number of the next worker at whose chair somebody worked, which it waits for. Where there is no thread it works itself.
    pub(crate) fn next<R: Wait>(&mut self, rt: &R) -> u32 {
        if self.staffed {
            return self.back.hear(rt);
        }
        let _ = self.bells.hear(rt);
        work_at_one(rt, &self.chairs, &mut self.seat)
    }

    /// Works at a worker's chair here, where the worker isn't out.
    pub(crate) fn work<R: Wait>(&self, rt: &R, worker: usize) {
        work_at(rt, &self.chairs, worker);
    }
}
