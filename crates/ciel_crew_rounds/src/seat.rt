//! The seat of a worker: what is kept of it, and what becomes of it where an order is sent and where its report is given.

ghost use Rattle.std.specs.Prelude.{◌≡◌, ◌<◌, ◌≤◌, ℕ, [], None, IfSome, IsSome, MatchOption, length, vec_capacity};
ghost use Rattle.ciel_crew_rounds.specs.Seats.{gate_in, gates_in, idle_of, kept_of, seat_at, seats_of, sent_of};

use ciel_crew_work::closing::{gate_of, keep};
use ciel_crew_work::performing::{Done, Job, Tools};
use ciel_gate::gate::Gate;
use ciel_store::seats::Eye;
use ciel_task_order::order::Order;
use ciel_task_order::report::Report;
use ciel_task_order::shop::Shop;
use sky_base::text::Memory;
use std::alloc::Global;
use std::mem;
use std::snapshot::Snapshot;
use std::sync::Arc;

/// What is kept of a worker.
pub(crate) enum Seat<K, N, G, R> {
    /// Its gate and eye: it has no order.
    Idle(Tools<G>),
    /// The job that was sent, and is not yet put on its lane.
    Sent(Job<K, N, G, R>),
    /// Nothing: this job is at its lane.
    Away(Snapshot<Job<K, N, G, R>>),
    /// The report of its order, with the gate and the eye.
    Kept(Done<G>),
    /// Nothing, within one function that takes something out and puts something in.
    Vacant,
}

impl<K: Drop, N: Drop, G: Drop, R: Drop> Drop for Seat<K, N, G, R> {
    fn drop(self) {
        match self {
            Seat::Idle(_) => {}
            Seat::Sent(_) => {}
            Seat::Away(_) => {}
            Seat::Kept(_) => {}
            Seat::Vacant => {}
        }
    }
}

impl<K: Drop, N: Drop, G: Gate, R: Drop> Seat<K, N, G, R> {
    /// The gate and the eye, where there is no order.
    pub(crate) fn into_idle(self) -> Option<Tools<G>>
        ensures { result ≡ idle_of self }
    {
        match self {
            Seat::Idle(tools) => Some(tools),
            _ => None,
        }
    }

    /// The job, where it isn't yet put on its lane.
    pub(crate) fn into_sent(self) -> Option<Job<K, N, G, R>>
        ensures { result ≡ sent_of self }
    {
        match self {
            Seat::Sent(job) => Some(job),
            _ => None,
        }
    }

    /// The report, where one is kept.
    pub(crate) fn into_kept(self) -> Option<Done<G>>
        ensures { result ≡ kept_of self }
    {
        match self {
            Seat::Kept(done) => Some(done),
            _ => None,
        }
    }

    /// The gate, where nothing is still to be performed.
    fn into_gate(self) -> Option<G>
        ensures { result ≡ gate_in self }
    {
        match self {
            Seat::Idle(tools) => Some(gate_of(tools)),
            Seat::Kept(done) => {
                let Done { tools, .. } = done;
                Some(gate_of(tools))
            }
            _ => None,
        }
    }
}

/// Each gate with its eye, in the room made for them.
pub(crate) fn seated<K: Drop, N: Drop, G: Gate, R: Drop>(
    room: Vec<Seat<K, N, G, R>>,
    gates: Vec<G>,
    eyes: Vec<Eye>,
) -> Vec<Seat<K, N, G, R>>
    requires empty { room.items ≡ [] }
    requires room { length gates.items ≤ vec_capacity room }
    requires eyes { length eyes.items ≡ length gates.items }
    ensures seats { result.items ≡ seats_of gates.items eyes.items }
{
    let mut seats = room;
    let mut eyes = eyes.into_iter();
    for gate in gates {
        match eyes.next() {
            Some(eye) => seats.push_reserved(Seat::Idle(Tools { gate, eye })),
            None => unreachable!(),
        }
    }
    seats
}

/// Gives an idle worker an order, with the shop.
pub(crate) fn give<K: Drop, N: Drop, G: Gate, R: Drop>(
    seat: &mut Seat<K, N, G, R>,
    rt: R,
    alloc: Global,
    shop: Arc<Shop<K, N>, Global>,
    order: Order,
)
    requires idle { IsSome (idle_of seat.old) }
    ensures sent { IfSome (idle_of seat.old) (λ tools. seat.new ≡ Seat.Sent record {
      rt = rt;
      alloc = alloc;
      shop = shop;
      order = order;
      tools = tools;
    }) }
{
    let Some(tools) = mem::replace(seat, Seat::Vacant).into_idle() else {
        unreachable!()
    };
    *seat = Seat::Sent(Job {
        rt,
        alloc,
        shop,
        order,
        tools,
    });
}

/// The first worker of which a report is kept. It takes no memory.
pub(crate) fn first_kept<K, N, G, R>(seats: &[Seat<K, N, G, R>]) -> Option<usize>
    ensures { MatchOption result ((k : ℕ) → kept_of (seat_at seats.now k) ≡ None)
        (λ i. (i < length seats.now) × IsSome (kept_of (seat_at seats.now i))) }
{
    for worker in 0..seats.len() {
        if let Seat::Kept(_) = &seats[worker] {
            return Some(worker);
        }
    }
    None
}

/// Hands out the report that is kept, after which the worker is idle.
pub(crate) fn hand_out<K: Drop, N: Drop, G: Gate, R: Drop>(
    seat: &mut Seat<K, N, G, R>,
) -> Result<Report, Memory>
    requires kept { IsSome (kept_of seat.old) }
    ensures idle { IfSome (kept_of seat.old) (λ done. seat.new ≡ Seat.Idle done.tools) }
    ensures report { IfSome (kept_of seat.old) (λ done. result ≡ done.report) }
{
    let Some(done) = mem::replace(seat, Seat::Vacant).into_kept() else {
        unreachable!()
    };
    let Done { report, tools, .. } = done;
    *seat = Seat::Idle(tools);
    report
}

/// The gates in order of workers, in the room made for them. A report that is kept is dropped.
pub(crate) fn gates_of<K: Drop, N: Drop, G: Gate, R: Drop>(
    seats: Vec<Seat<K, N, G, R>>,
    room: Vec<G>,
) -> Vec<G>
    requires empty { room.items ≡ [] }
    requires room { length seats.items ≤ vec_capacity room }
    ensures gates { result.items ≡ gates_in seats.items }
{
    let mut gates = room;
    for seat in seats {
        keep(&mut gates, seat.into_gate());
    }
    gates
}
