//! The work of a lane: an order that is performed, or a stream that is followed.

ghost use Rattle.std.specs.Prelude.{◌≡◌, [], IfSome};
ghost use Rattle.ciel_flow_work.specs.Flowing.{CanPerform, IsLeftOf, IsPerformedOf};

use crate::order::{ReportSo, perform_with};
use ciel_crew_lanes::work::Work;
use ciel_crew_work::performing::{Done, Job};
use ciel_flow_pieces::ends::{Follower, Producer};
use ciel_flow_pieces::follow::{Left, follow};
use ciel_gate::gate::Gate;
use ciel_name::name::Namer;
use sky_base::kit::Kit;
use sky_base::text::Txt;
use sky_base::value::Value;
use std::alloc::Global;
use std::marker::PhantomData;
use std::sync::Wait;

/// An order with its worker's gate and eye, what was computed ahead of it, and the end of the stream of its output of this index.
#[derive(Drop)]
pub struct Perform<K, N, G, R> {
    pub job: Job<K, N, G, R>,
    pub ahead: Option<Left>,
    pub producer: Option<(Producer, u32)>,
}

/// The call of an executor with one input, its arguments with slots, and the stream that is its input.
#[derive(Drop)]
pub struct Follow<R> {
    pub rt: R,
    pub alloc: Global,
    pub executor: Txt,
    pub args: Value,
    pub outputs: u32,
    pub follower: Follower,
}

/// What lies on a lane's desk.
#[derive(Drop)]
pub enum FlowJob<K, N, G, R> {
    Perform(Perform<K, N, G, R>),
    Follow(Follow<R>),
}

/// What a lane's order came to, and whether it was computed ahead.
#[derive(Drop)]
pub struct Performed<G> {
    pub done: Done<G>,
    pub ahead: bool,
}

/// What a lane lays there in its place.
#[derive(Drop)]
pub enum FlowDone<G> {
    Performed(Performed<G>),
    Followed(Option<Left>),
}

/// The work of a lane.
pub struct Flowing<K, N, G, R> {
    of: PhantomData<(K, N, G, R)>,
}

impl<K: Kit + Drop, N: Namer + Drop, G: Gate, R: Wait + Drop> Work for Flowing<K, N, G, R> {
    type In = FlowJob<K, N, G, R>;

    type Out = FlowDone<G>;

    ghost use Rattle.ciel_flow_work.specs.Flowing.{CanFlow, FitsFlow};

    ghost takes = { CanFlow K.gives N.digest };

    ghost fits = { FitsFlow K.gives N.digest G.entered };

    fn work(job: FlowJob<K, N, G, R>) -> FlowDone<G> {
        match job {
            FlowJob::Perform(perform) => FlowDone::Performed(perform_job(perform)),
            FlowJob::Follow(follow) => FlowDone::Followed(follow_job(follow)),
        }
    }
}

// Performs the order.
fn perform_job<K: Kit + Drop, N: Namer + Drop, G: Gate, R: Wait + Drop>(
    perform: Perform<K, N, G, R>,
) -> Performed<G>
    requires { CanPerform K.gives N.digest perform }
    ensures { IsPerformedOf K.gives N.digest G.entered perform result }
{
    let Perform {
        job,
        ahead,
        producer,
    } = perform;
    let Job {
        rt,
        alloc,
        shop,
        order,
        mut tools,
    } = job;
    match perform_with(&rt, alloc, &shop, &order, ahead, producer, &mut tools) {
        Ok(ReportSo { report, ahead }) => Performed {
            done: Done {
                order,
                report: Ok(report),
                tools,
            },
            ahead,
        },
        Err(memory) => Performed {
            done: Done {
                order,
                report: Err(memory),
                tools,
            },
            ahead: false,
        },
    }
}

// Follows the stream.
fn follow_job<R: Wait + Drop>(job: Follow<R>) -> Option<Left>
    requires { job.follower.pieces ≡ [] }
    ensures { IfSome result (IsLeftOf job) }
{
    let Follow {
        rt,
        alloc,
        executor,
        args,
        outputs,
        follower,
    } = job;
    follow(&rt, alloc, executor, args, outputs, follower)
}
