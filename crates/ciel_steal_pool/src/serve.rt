//! What a thread does.

use ciel_crew_lanes::bells::{Listener, Ringer};
use ciel_crew_lanes::desk::Chair;
use ciel_crew_lanes::work::Work;
use ciel_steal_ready::ready::Seat;
use std::alloc::Global;
use std::sync::{Arc, Mutex, Wait};
use std::thread;

/// What a thread hears.
#[derive(Clone, Copy)]
pub(crate) enum Bell {
    /// One worker more is ready.
    Work,
    /// One thread is to end.
    Last,
}

/// What a thread is given.
#[derive(Drop)]
pub(crate) struct Post<W: Work> {
    pub(crate) seat: Seat<u32>,
    pub(crate) bells: Listener<Bell>,
    pub(crate) back: Ringer<u32>,
    pub(crate) chairs: Arc<Vec<Mutex<Chair<W>>>, Global>,
}

// The number of a ready worker, which it looks for until it has one.
fn seek<R: Wait>(rt: &R, seat: &mut Seat<u32>) -> u32 {
    for _ in rt.forever() {
        match seat.take(rt) {
            Some(worker) => return worker,
            None => thread::yield_now(),
        }
    }
    unreachable!()
}

/// Works once at a worker's chair.
pub(crate) fn work_at<W: Work, R: Wait>(rt: &R, chairs: &Vec<Mutex<Chair<W>>>, worker: usize) {
    if let Some(chair) = chairs.get(worker) {
        let _ = chair.lock(rt).work_one(rt);
    }
}

/// Looks for a ready worker and works at its chair once. Its number.
pub(crate) fn work_at_one<W: Work, R: Wait>(
    rt: &R,
    chairs: &Vec<Mutex<Chair<W>>>,
    seat: &mut Seat<u32>,
) -> u32 {
    let worker = seek(rt, seat);
    work_at(rt, chairs, worker as usize);
    worker
}

/// Works until the last bell.
pub(crate) fn serve<W: Work, R: Wait + Drop>(rt: R, post: Post<W>) {
    let Post {
        mut seat,
        mut bells,
        mut back,
        chairs,
    } = post;
    for _ in rt.forever() {
        match bells.hear(&rt) {
            Bell::Work => {
                let worker = work_at_one(&rt, &chairs, &mut seat);
                back.ring(&rt, worker);
            }
            Bell::Last => return,
        }
    }
}
