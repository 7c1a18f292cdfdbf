//! The crew: an order is laid on its worker's desk, beside it perhaps what another lane is to follow, and a report is taken from the first
//! worker that has one.

ghost use Rattle.std.specs.Prelude.{◌≡◌, ◌<◌, ◌^◌, true, None, IfErr, IfOk, length, map, replicate};
ghost use Rattle.std.specs.Arc.{arc_value};
ghost use Rattle.sky_base.specs.JobView.{job_view};
ghost use Rattle.line_kit.specs.Gives.{gives};
ghost use Rattle.ciel_flow_work.specs.Onward.{IsRead};
ghost use Rattle.ciel_flow_work.specs.Shop.{InputsInOrder};
ghost use Rattle.ciel_flow_work.specs.Seen.{AllLook};
ghost use Rattle.ciel_flow.specs.Streaming.{AllAhead};

use crate::begin::{Hint, begin};
use crate::lanes::{Stream, done_alone, lay, settle, take_ahead, take_done};
use ciel_crew_lanes::lanes::Lanes;
use ciel_crew_work::closing::gather;
use ciel_crew_work::crew::Crew;
use ciel_crew_work::opening::{equipped, room_for};
use ciel_crew_work::performing::{Done, Job, Tools};
use ciel_flow_work::job::{Flowing, Performed};
use ciel_gate::gate::Gate;
use ciel_name::name::Namer;
use ciel_store::seats::Eye;
use ciel_task_order::order::Order;
use ciel_task_order::report::Report;
use ciel_task_order::shop::Shop;
use sky_base::kit::Kit;
use sky_base::object::Desc1;
use sky_base::text::Memory;
use std::alloc::Global;
use std::marker::Model;
use std::sync::{Arc, Wait};
use std::thread::Threads;

/// Long-lived workers that begin on what is still made. Contracts see the crew, and how many orders were answered with what was computed
/// ahead.
#[derive(Drop)]
pub struct Streams<K: Kit + Drop, N: Namer + Drop, G: Gate, R: Wait + Drop> {
    rt: R,
    alloc: Global,
    shop: Arc<Shop<K, N>, Global>,
    lanes: Lanes<Flowing<K, N, G, R>, R>,
    idle: Vec<Option<Tools<G>>>,
    streams: Vec<Option<Stream>>,
    hinted: Option<Hint>,
    followed: u64,
    room: Vec<G>,
    back: Vec<(u32, Done<G>)>,
    broken: bool,
}

impl<K: Kit + Drop, N: Namer + Drop, G: Gate, R: Wait + Drop> Model for Streams<K, N, G, R> {
    ghost use Rattle.std.specs.Prelude.{not, vec_capacity};
    ghost use Rattle.std.specs.Arc.{arc_value};
    ghost use Rattle.std.specs.Coded.{codes};
    ghost use Rattle.sky_base.specs.Code.{pairs_code, val_code, vals_code};
    ghost use Rattle.sky_base.specs.ScriptCode.{script_code};
    ghost use Rattle.sky_frozen_bytes.specs.FrozenCode.{stand_code};
    ghost use Rattle.ciel_flow_work.specs.Crewed.{lanes_told, orders_of};
    ghost use Rattle.ciel_flow_work.specs.Flowing.{as_crew};
    ghost use Rattle.ciel_flow.specs.Streaming.{StandsSo, StreamsSeen};

    ghost Value = { StreamsSeen K N };

    ghost coded = { Prim.hlevel (codes, script_code, val_code, vals_code, pairs_code, stand_code) };

    ghost view = { λ c. record {
      crew = record {
        shop = arc_value c.shop;
        out = orders_of (as_crew c.lanes);
        told = lanes_told G.entered (as_crew c.lanes) c.idle.items;
        sound =
            not c.broken;
      };
      followed = c.followed;
      kept = c.streams.items;
    } };

    ghost invariant = { λ c. StandsSo K.gives N.digest (arc_value c.shop) c.lanes c.idle.items c.room.items (vec_capacity c.room) c.streams.items
        c.hinted c.back.items (vec_capacity c.back) };
}

// So many lanes that have followed nothing.
fn no_streams(alloc: Global, many: usize) -> Result<Vec<Option<Stream>>, Memory>
    ensures { IfOk result (λ v. v.items ≡ replicate many None) }
{
    let mut all = room_for(alloc, many)?;
    for _lane in 0..many {
        all.push_reserved(None);
    }
    Ok(all)
}

// How many orders were answered with what was computed ahead, with one that may have been.
fn counted(followed: u64, ahead: bool) -> u64 {
    if ahead {
        followed.saturating_add(1)
    } else {
        followed
    }
}

impl<K, N, G, R> Streams<K, N, G, R>
where
    K: Kit + Send + Sync + Drop + 'static,
    N: Namer + Send + Sync + Drop + 'static,
    G: Gate + Send + 'static,
    R: Threads + Wait + Copy + Send + Drop + 'static,
{
    /// A crew over this shop, of as many workers as there are gates, each with its eye and with a thread where one can be had. The room
    /// that `close` needs is made here. Where there is no memory for it the gates are handed back.
    ///
    /// There is at least one gate, and fewer than 4,294,967,296. The kit gives what the executors over lines give.
    pub fn open(
        rt: R,
        alloc: Global,
        shop: Arc<Shop<K, N>, Global>,
        gates: Vec<G>,
        eyes: Vec<Eye>,
    ) -> Result<Streams<K, N, G, R>, (Vec<G>, Memory)>
        requires some { 0 < length gates.items }
        requires few { length gates.items < 2 ^ 32 }
        requires read { IsRead (job_view (arc_value shop).job).script }
        requires inputs { InputsInOrder (job_view (arc_value shop).job) }
        requires eyes { length eyes.items ≡ length gates.items }
        requires look { AllLook (arc_value shop) eyes.items }
        requires flow { K.gives (arc_value shop).kit ≡ gives }
        ensures opened { IfOk result (λ c. c ≡ record {
          crew = record {
            shop = arc_value shop;
            out = replicate (length gates.items) None;
            told =
                map G.entered gates.items;
            sound = true;
          };
          followed = 0;
          kept = replicate (length gates.items) None;
        }) }
        ensures back { IfErr result (λ e. e.0 ≡ gates) }
    {
        let workers = gates.len();
        let Ok(idle) = room_for(alloc, workers) else {
            return Err((gates, Memory));
        };
        let Ok(room) = room_for(alloc, workers) else {
            return Err((gates, Memory));
        };
        let Ok(back) = room_for(alloc, workers) else {
            return Err((gates, Memory));
        };
        let Ok(streams) = no_streams(alloc, workers) else {
            return Err((gates, Memory));
        };
        let Ok(lanes) = Lanes::<Flowing<K, N, G, R>, R>::open(rt, alloc, workers as u32) else {
            return Err((gates, Memory));
        };
        Ok(Streams {
            rt,
            alloc,
            shop,
            lanes,
            idle: equipped(idle, gates, eyes),
            streams,
            hinted: None,
            followed: 0,
            room,
            back,
            broken: false,
        })
    }
}

impl<K: Kit + Drop, N: Namer + Drop, G: Gate, R: Wait + Drop> Streams<K, N, G, R> {
    /// How many orders were answered with what was computed ahead. It takes no memory.
    pub fn followed(&self) -> u64
        ensures followed { result ≡ self.now.followed }
    {
        self.followed
    }

    /// What is kept for the orders of tasks to come is what their executors give for the whole outputs of orders that they were said to
    /// follow. It does nothing.
    pub fn keeps_ahead(&self)
        ensures ahead { AllAhead N.digest self.now.crew.shop self.now.kept }
    {
        let _ = &self.rt;
    }
}

impl<K: Kit + Drop, N: Namer + Drop, G: Gate, R: Threads + Wait + Copy + Drop> Crew
    for Streams<K, N, G, R> {
    type Gate = G;

    type K = K;

    type N = N;

    ghost shop = { λ c. c.crew.shop };

    ghost out = { λ c. c.crew.out };

    ghost told = { λ c. c.crew.told };

    ghost is_sound = { λ c. c.crew.sound };

    ghost Stays = { Unit {0} };

    ghost stays = { λ c. tt };

    ghost Record = { Unit {0} };

    ghost record_of = { λ c. tt };

    ghost goes = { λ before call after. Unit {0} };

    fn send(&mut self, order: Order) -> Result<(), Memory> {
        self.broken = true;
        let Ok(shop) = Arc::try_clone(&self.shop) else {
            return Err(Memory);
        };
        let rt = self.rt;
        let alloc = self.alloc;
        let worker = order.worker;
        settle(&self.shop, &mut self.lanes, &mut self.streams, worker);
        let ahead = take_ahead(&self.shop, &mut self.lanes, &mut self.streams, &order);
        let hinted = self.hinted.take();
        let begun = begin(
            rt,
            alloc,
            &self.shop,
            &order,
            hinted,
            &self.lanes,
            self.idle.as_slice(),
            self.streams.as_slice(),
        )?;
        let Some(tools) = self.idle[worker as usize].take() else {
            unreachable!()
        };
        let job = Job {
            rt,
            alloc,
            shop,
            order,
            tools,
        };
        lay(
            &self.shop,
            &mut self.lanes,
            &mut self.streams,
            worker,
            job,
            ahead,
            begun,
        );
        self.broken = false;
        Ok(())
    }

    fn hint(&mut self, order: &Order, consumer: &Desc1) -> Result<(), Memory> {
        self.broken = true;
        let hint = Hint::new(order, consumer)?;
        self.hinted = Some(hint);
        self.broken = false;
        Ok(())
    }

    fn next(&mut self) -> Result<Report, Memory> {
        self.broken = true;
        let rt = self.rt;
        let (worker, performed) = take_done(&rt, &self.shop, &mut self.lanes, &mut self.streams);
        let Performed { done, ahead } = performed;
        self.followed = counted(self.followed, ahead);
        let Done { report, tools, .. } = done;
        self.idle[worker as usize] = Some(tools);
        let report = report?;
        self.broken = false;
        Ok(report)
    }

    fn close(self) -> Vec<G> {
        let Streams {
            lanes,
            idle,
            room,
            back,
            ..
        } = self;
        let done = done_alone(lanes.close(), back);
        gather(idle, done, room)
    }
}
