//! Lanes, some of which follow a stream, and what is kept of streams.

ghost use Rattle.std.specs.Prelude.{◌≡◌, ◌<◌, ◌≤◌, ◌^◌, ◌++◌, [], ◌∷◌, false, None, Some, IfSome, length, slice_set, vec_capacity};
ghost use Rattle.std.specs.Arc.{arc_value};
ghost use Rattle.line_kit.specs.Gives.{gives};
ghost use Rattle.ciel_crew_lanes.specs.Seen.{HasTaken, lane_at};
ghost use Rattle.ciel_flow_work.specs.Crewed.{CanBeDone, IsDoneOf, orders_of};
ghost use Rattle.ciel_flow_work.specs.Crews.{IsOut};
ghost use Rattle.ciel_flow_work.specs.Flowing.{as_crew, done_of, follows};
ghost use Rattle.ciel_flow.specs.Streaming.{IsBegun, IsFree, Match, follows_in, kept_left};

use crate::begin::Begun;
use ciel_crew_lanes::lanes::Lanes;
use ciel_crew_work::performing::{Done, Job};
use ciel_flow_pieces::follow::Left;
use ciel_flow_work::job::{FlowDone, FlowJob, Flowing, Perform, Performed};
use ciel_gate::gate::Gate;
use ciel_name::name::Namer;
use ciel_task_order::order::Order;
use ciel_task_order::shop::Shop;
use sky_base::kit::Kit;
use sky_base::object::Desc1;
use sky_base::same::is_same_desc;
use std::sync::Wait;

/// What is kept of a stream, by the lane that followed it.
#[derive(Drop)]
pub enum Stream {
    /// The lane still follows, for this task.
    Follows(Desc1),
    /// What was computed ahead for this task.
    Has(Desc1, Left),
}

// Keeps what a lane that followed has left.
fn keep_left(stream: &mut Option<Stream>, left: Option<Left>)
    ensures { stream.new ≡ kept_left stream.old left }
{
    match stream.take() {
        Some(Stream::Follows(consumer)) => if let Some(left) = left {
            *stream = Some(Stream::Has(consumer, left));
        },
        Some(Stream::Has(..)) => {}
        None => {}
    }
}

/// Waits until this lane, if it follows, has ended, and keeps what is left.
pub(crate) fn settle<K: Kit + Drop, N: Namer + Drop, G: Gate, R: Wait + Copy + Drop>(
    shop: &Shop<K, N>,
    lanes: &mut Lanes<Flowing<K, N, G, R>, R>,
    streams: &mut Vec<Option<Stream>>,
    lane: u32,
)
    requires lane { lane < length lanes.old }
    requires agree { Match N.digest shop.now lanes.old streams.old.items }
    ensures agree { Match N.digest shop.now lanes.new streams.new.items }
    ensures same { as_crew lanes.new ≡ as_crew lanes.old }
    ensures none { follows (lane_at lanes.new lane).out ≡ false }
    ensures still { (k : _) → follows (lane_at lanes.old k).out ≡ false → follows (lane_at lanes.new k).out ≡ false }
{
    let at = lane as usize;
    if is_following(&streams[at]) {
        match lanes.take_at(lane) {
            FlowDone::Followed(left) => keep_left(&mut streams[at], left),
            FlowDone::Performed(_) => unreachable!(),
        }
    }
}

// Whether it is kept for this task.
fn is_for(stream: &Option<Stream>, consumer: &Desc1) -> bool {
    match stream {
        Some(Stream::Follows(desc)) => is_same_desc(desc, consumer),
        Some(Stream::Has(desc, _)) => is_same_desc(desc, consumer),
        None => false,
    }
}

// What was computed ahead, if it was.
fn left_in(stream: Option<Stream>) -> Option<Left> {
    match stream {
        Some(Stream::Has(_, left)) => Some(left),
        Some(Stream::Follows(_)) => None,
        None => None,
    }
}

// What is kept at this lane, where that is for the task. It is waited for where the lane still follows.
fn take_from<K: Kit + Drop, N: Namer + Drop, G: Gate, R: Wait + Copy + Drop>(
    shop: &Shop<K, N>,
    lanes: &mut Lanes<Flowing<K, N, G, R>, R>,
    streams: &mut Vec<Option<Stream>>,
    lane: u32,
    consumer: &Desc1,
) -> Option<Left>
    requires lane { lane < length lanes.old }
    requires agree { Match N.digest shop.now lanes.old streams.old.items }
    ensures agree { Match N.digest shop.now lanes.new streams.new.items }
    ensures same { as_crew lanes.new ≡ as_crew lanes.old }
    ensures still { (k : _) → follows (lane_at lanes.old k).out ≡ false → follows (lane_at lanes.new k).out ≡ false }
{
    let at = lane as usize;
    if !is_for(&streams[at], consumer) {
        return None;
    }
    settle(shop, lanes, streams, lane);
    let kept = streams[at].take();
    left_in(kept)
}

/// What was computed ahead for the order's task, which is waited for where a lane still follows for it.
pub(crate) fn take_ahead<K: Kit + Drop, N: Namer + Drop, G: Gate, R: Wait + Copy + Drop>(
    shop: &Shop<K, N>,
    lanes: &mut Lanes<Flowing<K, N, G, R>, R>,
    streams: &mut Vec<Option<Stream>>,
    order: &Order,
) -> Option<Left>
    requires agree { Match N.digest shop.now lanes.old streams.old.items }
    requires few { length lanes.old < 2 ^ 32 }
    ensures agree { Match N.digest shop.now lanes.new streams.new.items }
    ensures same { as_crew lanes.new ≡ as_crew lanes.old }
    ensures still { (k : _) → follows (lane_at lanes.old k).out ≡ false → follows (lane_at lanes.new k).out ≡ false }
{
    let Some(consumer) = &order.desc else {
        return None;
    };
    let mut found = None;
    for at in 0..streams.len() {
        let left = take_from(shop, lanes, streams, at as u32, consumer);
        if left.is_some() {
            found = left;
        }
    }
    found
}

/// Whether a lane still follows.
pub(crate) fn is_following(stream: &Option<Stream>) -> bool
    ensures { result ≡ follows_in stream.now }
{
    matches!(stream, Some(Stream::Follows(_)))
}

/// Lays the order's job, and beside it what the lane of a stream is to follow.
pub(crate) fn lay<K: Kit + Drop, N: Namer + Drop, G: Gate, R: Wait + Copy + Drop>(
    shop: &Shop<K, N>,
    lanes: &mut Lanes<Flowing<K, N, G, R>, R>,
    streams: &mut Vec<Option<Stream>>,
    worker: u32,
    job: Job<K, N, G, R>,
    ahead: Option<Left>,
    begun: Option<Begun<R>>,
)
    requires worker { worker < length lanes.old }
    requires agree { Match N.digest shop.now lanes.old streams.old.items }
    requires none { (lane_at lanes.old worker).out ≡ None }
    requires own { arc_value job.shop ≡ shop.now }
    requires takes { CanBeDone K.gives N.digest job }
    requires flow { K.gives (arc_value job.shop).kit ≡ gives }
    requires begun { IfSome begun (IsBegun N.digest shop.now job.order) }
    requires free { IfSome begun (λ b. IsFree lanes.old worker b.lane) }
    ensures agree { Match N.digest shop.now lanes.new streams.new.items }
    ensures laid { as_crew lanes.new ≡ slice_set (as_crew lanes.old) worker record {
      put = (lane_at (as_crew lanes.old) worker).put ++ job ∷ [];
      out = Some job;
    } }
{
    match begun {
        None => lanes.put(
            worker,
            FlowJob::Perform(Perform {
                job,
                ahead,
                producer: None,
            }),
        ),
        Some(begun) => {
            let Begun {
                lane,
                consumer,
                follow,
                producer,
                index,
            } = begun;
            lanes.put(
                worker,
                FlowJob::Perform(Perform {
                    job,
                    ahead,
                    producer: Some((producer, index)),
                }),
            );
            lanes.put(lane, FlowJob::Follow(follow));
            streams[lane as usize] = Some(Stream::Follows(consumer));
        }
    }
}

/// What an order came to. What lanes that followed have left meanwhile is kept.
pub(crate) fn take_done<K: Kit + Drop, N: Namer + Drop, G: Gate, R: Wait + Copy + Drop>(
    rt: &R,
    shop: &Shop<K, N>,
    lanes: &mut Lanes<Flowing<K, N, G, R>, R>,
    streams: &mut Vec<Option<Stream>>,
) -> (u32, Performed<G>)
    requires out { IsOut (orders_of (as_crew lanes.old)) }
    requires agree { Match N.digest shop.now lanes.old streams.old.items }
    ensures agree { Match N.digest shop.now lanes.new streams.new.items }
    ensures taken { HasTaken (IsDoneOf K.gives N.digest G.entered) (as_crew lanes.old) result.0 result.1.done (as_crew lanes.new) }
{
    for _ in rt.forever() {
        let (lane, out) = lanes.take();
        match out {
            FlowDone::Performed(performed) => return (lane, performed),
            FlowDone::Followed(left) => keep_left(&mut streams[lane as usize], left),
        }
    }
    unreachable!()
}

// Puts an output behind the others, where it came back from an order.
fn keep_done<G: Gate>(all: &mut Vec<(u32, Done<G>)>, lane: u32, out: FlowDone<G>)
    requires room { length all.old.items < vec_capacity all.old }
    ensures capacity { vec_capacity all.new ≡ vec_capacity all.old }
    ensures items { all.new.items ≡ all.old.items ++ done_of ((lane, out) ∷ []) }
{
    match out {
        FlowDone::Performed(performed) => {
            let Performed { done, .. } = performed;
            all.push_reserved((lane, done));
        }
        FlowDone::Followed(_) => {}
    }
}

/// What came back from orders, in the room made for it.
pub(crate) fn done_alone<G: Gate>(
    outs: Vec<(u32, FlowDone<G>)>,
    room: Vec<(u32, Done<G>)>,
) -> Vec<(u32, Done<G>)>
    requires empty { room.items ≡ [] }
    requires room { length outs.items ≤ vec_capacity room }
    ensures { result.items ≡ done_of outs.items }
{
    let mut all = room;
    for (lane, out) in outs {
        keep_done(&mut all, lane, out);
    }
    all
}
