//! Which stream is begun beside an order.

ghost use Rattle.std.specs.Prelude.{◌≡◌, ◌<◌, ◌^◌, [], true, None, IfOk, IfSome, Some, length, slice_index_or};
ghost use Rattle.sky_base.specs.JobView.{job_view};
ghost use Rattle.sky_base.specs.Name.{digested};
ghost use Rattle.sky_base.specs.Val.{out};
ghost use Rattle.sky_base.specs.View.{view};
ghost use Rattle.sky_base.specs.declared.object.Desc1.{Desc1 as DescSeen};
ghost use Rattle.line_kit.specs.Table.{executor_of};
ghost use Rattle.ciel_flow_pieces.specs.Source.{hands_out};
ghost use Rattle.ciel_flow_work.specs.Flowing.{as_crew, follows, source_of};
ghost use Rattle.ciel_crew_lanes.specs.Seen.{lane_at};
ghost use Rattle.ciel_master_safe.specs.Views.{out_view};
ghost use Rattle.ciel_task_crew.specs.Hints.{LeadsTo};
ghost use Rattle.ciel_flow.specs.Streaming.{HasGates, IsBegun, IsFree, IsSaid, ReadsOutput, follows_in};

use crate::lanes::{Stream, is_following};
use ciel_crew_lanes::lanes::Lanes;
use ciel_crew_work::performing::Tools;
use ciel_flow_pieces::ends::{Follower, Producer, stream};
use ciel_flow_pieces::lead::hands_out;
use ciel_flow_work::job::{Flowing, Follow};
use ciel_gate::gate::Gate;
use ciel_name::name::Namer;
use ciel_name::object::canon;
use ciel_task_order::block::Held;
use ciel_task_order::order::Order;
use ciel_task_order::ready::ReadyJob;
use ciel_task_order::shop::Shop;
use sky_base::kit::Kit;
use sky_base::name::Name;
use sky_base::object::{Desc1, TaskId};
use sky_base::text::{Memory, Txt};
use sky_base::value::Value;
use sky_base_exec::slots::slots;
use std::alloc::Global;
use std::marker::Brand;
use std::sync::Wait;

/// What the crew was told of an order that is sent next: which one it is, and the task that reads what it makes.
#[derive(Drop)]
pub(crate) struct Hint {
    pub(crate) number: u64,
    pub(crate) worker: u32,
    pub(crate) task: TaskId,
    pub(crate) from: u32,
    pub(crate) consumer: Desc1,
}

impl Hint {
    /// That this task reads what the order makes.
    ///
    /// Answers `Memory` for want of memory.
    pub(crate) fn new(order: &Order, consumer: &Desc1) -> Result<Hint, Memory>
        ensures { IfOk result (λ h. h ≡ record {
          number = order.now.number;
          worker = order.now.worker;
          task = order.now.task;
          from = order.now.from;
          consumer = consumer.now;
        }) }
    {
        Ok(Hint {
            number: order.number,
            worker: order.worker,
            task: order.task,
            from: order.from,
            consumer: consumer.copy()?,
        })
    }

    // Whether it was told of this order.
    fn is_of(&self, order: &Order) -> bool
        ensures { result ≡ true → out_view order.now ≡ record {
          number = self.now.number;
          worker = self.now.worker;
          task = self.now.task;
          from = self.now.from;
        } }
    {
        self.number == order.number
            && self.worker == order.worker
            && self.task == order.task
            && self.from == order.from
    }
}

/// A stream that is begun: the lane that follows it and for which task, with what that runs; and the end for the order's worker.
#[derive(Drop)]
pub(crate) struct Begun<R> {
    pub(crate) lane: u32,
    pub(crate) consumer: Desc1,
    pub(crate) follow: Follow<R>,
    pub(crate) producer: Producer,
    pub(crate) index: u32,
}

// A lane beside this worker's that has no job and a thread of its own, if there is one: one that keeps nothing, where there is such.
fn free_lane<K: Kit + Drop, N: Namer + Drop, G: Gate, R: Wait + Copy + Drop>(
    lanes: &Lanes<Flowing<K, N, G, R>, R>,
    idle: &[Option<Tools<G>>],
    streams: &[Option<Stream>],
    worker: u32,
) -> Option<u32>
    requires many { length streams.now ≡ length lanes.now }
    requires agree { (k : _) → follows_in (slice_index_or streams.now k None) ≡ follows (lane_at lanes.now k).out }
    requires gates { HasGates (as_crew lanes.now) idle.now }
    requires few { length lanes.now < 2 ^ 32 }
    ensures { IfSome result (IsFree lanes.now worker) }
{
    let mut found = None;
    for at in 0..idle.len() {
        let lane = at as u32;
        if lane != worker
            && idle[at].is_some()
            && !is_following(&streams[at])
            && lanes.runs_beside(lane)
        {
            if streams[at].is_none() {
                return Some(lane);
            }
            found = Some(lane);
        }
    }
    found
}

// Which output of an executor's task has this name, if one has.
fn index_of<N: Namer>(
    alloc: Global,
    namer: &N,
    executor: &Txt,
    args: &Value,
    outputs: u32,
    name: &Name,
) -> Result<Option<u32>, Memory>
    ensures { IfOk result (λ r. IfSome r (λ i. name.now ≡ digested (N.digest namer.now) (out executor.now (view args.now) outputs i))) }
{
    for index in 0..outputs {
        let desc = Desc1::Exec {
            executor: executor.share()?,
            args: args.copy()?,
            outputs,
            index,
        };
        let bytes = canon(alloc, &desc)?;
        if namer.name(bytes.as_slice()) == *name {
            return Ok(Some(index));
        }
    }
    Ok(None)
}

// The stream of an output of an executor's order, whose inputs are what the order brings along.
fn stream_of(
    alloc: Global,
    executor: &Txt,
    args: &Value,
    outputs: u32,
    index: u32,
    held: &Vec<Held>,
    job: &ReadyJob,
) -> Result<(Producer, Follower), Memory>
    ensures put { IfOk result (λ r. r.0 ≡ record {
      source = source_of (job_view job.now).inputs held.now.items executor.now args.now outputs index;
      pieces = [];
    }) }
    ensures taken { IfOk result (λ r. r.1 ≡ r.0) }
{
    match stream::<Brand, Vec<Held>, ReadyJob>(alloc, executor, args, outputs, index, held, job) {
        Ok(ends) => Ok(ends),
        Err(_) => Err(Memory),
    }
}

// Which output of the order's task the one reference in these arguments names, if it is one.
fn read_by<N: Namer>(
    alloc: Global,
    namer: &N,
    executor: &Txt,
    args: &Value,
    outputs: u32,
    consumer: &Value,
) -> Result<Option<u32>, Memory>
    ensures { IfOk result (λ r. IfSome r (ReadsOutput (N.digest namer.now) consumer.now executor.now args.now outputs)) }
{
    let names = consumer.refs(alloc)?;
    match names.as_slice() {
        [name] => {
            let index = index_of(alloc, namer, executor, args, outputs, name)?;
            Ok(index)
        }
        _ => Ok(None),
    }
}

// The stream from an executor's order to another executor's task, of which a lane runs the call.
fn begin_for<K: Kit, N: Namer, R: Wait + Drop>(
    rt: R,
    alloc: Global,
    shop: &Shop<K, N>,
    order: &Order,
    executor: &Txt,
    args: &Value,
    outputs: u32,
    consumer: Desc1,
    lane: u32,
) -> Result<Option<Begun<R>>, Memory>
    requires desc { order.now.desc ≡ Some (DescSeen.Exec executor.now args.now outputs 0) }
    requires hands { hands_out (executor_of executor.now) ≡ true }
    requires leads { LeadsTo N.digest shop.now order.now consumer }
    ensures begun { IfOk result (λ r. IfSome r (IsBegun N.digest shop.now order.now)) }
    ensures lane { IfOk result (λ r. IfSome r (λ b. b.lane ≡ lane)) }
{
    let Desc1::Exec {
        executor: follower,
        args: read,
        outputs: made,
        ..
    } = &consumer
    else {
        return Ok(None);
    };
    let Some(index) = read_by(alloc, &shop.namer, executor, args, outputs, read)? else {
        return Ok(None);
    };
    let slotted = slots(alloc, read)?;
    let follower = follower.share()?;
    let made = *made;
    let (producer, pieces) = stream_of(
        alloc,
        executor,
        args,
        outputs,
        index,
        &order.inputs,
        &shop.job,
    )?;
    Ok(Some(Begun {
        lane,
        consumer,
        follow: Follow {
            rt,
            alloc,
            executor: follower,
            args: slotted,
            outputs: made,
            follower: pieces,
        },
        producer,
        index,
    }))
}

/// Begins a stream from the order to the task that it was said to make the input of, where its executor's output can be had line by line,
/// and where its lane and another one without a job have threads of their own.
///
/// Answers `Memory` for want of memory.
pub(crate) fn begin<K: Kit + Drop, N: Namer + Drop, G: Gate, R: Wait + Copy + Drop>(
    rt: R,
    alloc: Global,
    shop: &Shop<K, N>,
    order: &Order,
    hinted: Option<Hint>,
    lanes: &Lanes<Flowing<K, N, G, R>, R>,
    idle: &[Option<Tools<G>>],
    streams: &[Option<Stream>],
) -> Result<Option<Begun<R>>, Memory>
    requires worker { order.now.worker < length lanes.now }
    requires many { length streams.now ≡ length lanes.now }
    requires agree { (k : _) → follows_in (slice_index_or streams.now k None) ≡ follows (lane_at lanes.now k).out }
    requires gates { HasGates (as_crew lanes.now) idle.now }
    requires few { length lanes.now < 2 ^ 32 }
    requires hinted { IfSome hinted (IsSaid N.digest shop.now) }
    ensures begun { IfOk result (λ r. IfSome r (IsBegun N.digest shop.now order.now)) }
    ensures free { IfOk result (λ r. IfSome r (λ b. IsFree lanes.now order.now.worker b.lane)) }
{
    let Some(hint) = hinted else {
        return Ok(None);
    };
    if !hint.is_of(order) {
        return Ok(None);
    }
    if !lanes.runs_beside(order.worker) {
        return Ok(None);
    }
    let Hint { consumer, .. } = hint;
    let Some(lane) = free_lane(lanes, idle, streams, order.worker) else {
        return Ok(None);
    };
    match &order.desc {
        Some(
            Desc1::Exec {
                executor,
                args,
                outputs,
                index: 0,
            },
        ) => {
            if hands_out(executor) {
                let begun = begin_for(
                    rt, alloc, shop, order, executor, args, *outputs, consumer, lane,
                )?;
                Ok(begun)
            } else {
                Ok(None)
            }
        }
        _ => Ok(None),
    }
}
