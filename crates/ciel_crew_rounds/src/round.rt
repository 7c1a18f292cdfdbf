//! A round: all jobs that were sent are put on the lanes, and then what comes of each is taken. In a round a worker's order stays the same.

ghost use Rattle.std.specs.Prelude.{◌≡◌, ◌<◌, ℕ, None, IfSome, IsSome, length, map, slice_set};
ghost use Rattle.ciel_crew_lanes.specs.Seen.{lane_at};
ghost use Rattle.ciel_task_crew.specs.Crews.{IsOut};
ghost use Rattle.ciel_crew_work.specs.Crewed.{CanBeDone};
ghost use Rattle.ciel_crew_rounds.specs.Seats.{CanPlay, GoEach, Goes, IsHome, away_of, kept_of, order_of, outs_of, seat_at, sent_of};

use crate::seat::{Seat, first_kept};
use ciel_crew_lanes::lanes::Lanes;
use ciel_crew_work::performing::Performing;
use ciel_gate::gate::Gate;
use ciel_name::name::Namer;
use sky_base::kit::Kit;
use std::mem;
use std::snapshot::Snapshot;
use std::sync::Wait;

/// The least worker of which a report is kept, after a round where none was.
pub(crate) fn kept_after<K: Kit + Drop, N: Namer + Drop, G: Gate, R: Wait + Copy + Drop>(
    lanes: &mut Lanes<Performing<K, N, G, R>, R>,
    seats: &mut Vec<Seat<K, N, G, R>>,
) -> usize
    requires can { CanPlay K.gives N.digest lanes.old seats.old.items }
    requires out { IsOut (map order_of seats.old.items) }
    ensures can { CanPlay K.gives N.digest lanes.new seats.new.items }
    ensures goes { GoEach K.gives N.digest G.entered seats.old.items seats.new.items }
    ensures worker { result < length seats.new.items }
    ensures kept { IsSome (kept_of (seat_at seats.new.items result)) }
{
    if let Some(worker) = first_kept(seats.as_slice()) {
        return worker;
    }
    play(lanes, seats);
    match first_kept(seats.as_slice()) {
        Some(worker) => worker,
        None => unreachable!(),
    }
}

/// Performs all orders that were sent, beside one another, and keeps their reports.
pub(crate) fn play<K: Kit + Drop, N: Namer + Drop, G: Gate, R: Wait + Copy + Drop>(
    lanes: &mut Lanes<Performing<K, N, G, R>, R>,
    seats: &mut Vec<Seat<K, N, G, R>>,
)
    requires can { CanPlay K.gives N.digest lanes.old seats.old.items }
    ensures can { CanPlay K.gives N.digest lanes.new seats.new.items }
    ensures goes { GoEach K.gives N.digest G.entered seats.old.items seats.new.items }
    ensures home { IsHome seats.new.items }
{
    put_all(lanes, seats);
    take_all(lanes, seats);
}

// Puts all jobs that were sent on their lanes.
fn put_all<K: Kit + Drop, N: Namer + Drop, G: Gate, R: Wait + Copy + Drop>(
    lanes: &mut Lanes<Performing<K, N, G, R>, R>,
    seats: &mut Vec<Seat<K, N, G, R>>,
)
    requires can { CanPlay K.gives N.digest lanes.old seats.old.items }
    ensures can { CanPlay K.gives N.digest lanes.new seats.new.items }
    ensures goes { GoEach K.gives N.digest G.entered seats.old.items seats.new.items }
    ensures none { (k : ℕ) → sent_of (seat_at seats.new.items k) ≡ None }
{
    for worker in 0..(seats.len() as u32) {
        put_one(lanes, &mut seats[worker as usize], worker);
    }
}

// Puts a worker's job on its lane, if one was sent.
fn put_one<K: Kit + Drop, N: Namer + Drop, G: Gate, R: Wait + Copy + Drop>(
    lanes: &mut Lanes<Performing<K, N, G, R>, R>,
    seat: &mut Seat<K, N, G, R>,
    worker: u32,
)
    requires lane { worker < length lanes.old }
    requires out { (lane_at lanes.old worker).out ≡ away_of seat.old }
    requires can { IfSome (sent_of seat.old) (CanBeDone K.gives N.digest) }
    ensures goes { Goes K.gives N.digest G.entered seat.old seat.new }
    ensures none { sent_of seat.new ≡ None }
    ensures outs { outs_of lanes.new ≡ slice_set (outs_of lanes.old) worker (away_of seat.new) }
{
    if let Seat::Sent(job) = &*seat {
        let away = Snapshot::of(job);
        match mem::replace(seat, Seat::Away(away)).into_sent() {
            Some(job) => lanes.put(worker, job),
            None => unreachable!(),
        }
    }
}

// Takes what comes of all jobs that are at their lanes.
fn take_all<K: Kit + Drop, N: Namer + Drop, G: Gate, R: Wait + Copy + Drop>(
    lanes: &mut Lanes<Performing<K, N, G, R>, R>,
    seats: &mut Vec<Seat<K, N, G, R>>,
)
    requires can { CanPlay K.gives N.digest lanes.old seats.old.items }
    requires none { (k : ℕ) → sent_of (seat_at seats.old.items k) ≡ None }
    ensures can { CanPlay K.gives N.digest lanes.new seats.new.items }
    ensures goes { GoEach K.gives N.digest G.entered seats.old.items seats.new.items }
    ensures home { IsHome seats.new.items }
{
    for worker in 0..(seats.len() as u32) {
        take_one(lanes, &mut seats[worker as usize], worker);
    }
}

// Takes what comes of a worker's job, if it is at its lane.
fn take_one<K: Kit + Drop, N: Namer + Drop, G: Gate, R: Wait + Copy + Drop>(
    lanes: &mut Lanes<Performing<K, N, G, R>, R>,
    seat: &mut Seat<K, N, G, R>,
    worker: u32,
)
    requires lane { worker < length lanes.old }
    requires out { (lane_at lanes.old worker).out ≡ away_of seat.old }
    requires none { sent_of seat.old ≡ None }
    ensures goes { Goes K.gives N.digest G.entered seat.old seat.new }
    ensures none { sent_of seat.new ≡ None }
    ensures home { away_of seat.new ≡ None }
    ensures outs { outs_of lanes.new ≡ slice_set (outs_of lanes.old) worker None }
{
    if let Seat::Away(_) = &*seat {
        *seat = Seat::Kept(lanes.take_at(worker));
    }
}
