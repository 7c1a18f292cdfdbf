//! The crew: an order is laid on its worker's desk, and a report is taken from the first worker that has one.

ghost use Rattle.std.specs.Prelude.{◌≡◌, ◌<◌, ◌≤◌, ◌^◌, true, None, IfErr, IfOk, length, map, replicate};
ghost use Rattle.std.specs.Arc.{arc_value};
ghost use Rattle.sky_base.specs.JobView.{job_view};
ghost use Rattle.ciel_crew_work.specs.Onward.{IsRead};
ghost use Rattle.ciel_crew_work.specs.Shop.{InputsInOrder};
ghost use Rattle.ciel_crew_work.specs.Seen.{AllLook};

use ciel_crew_work::closing::gather;
use ciel_crew_work::crew::Crew;
use ciel_crew_work::opening::{equipped, room_for};
use ciel_crew_work::order::Order;
use ciel_crew_work::performing::{Done, Job, Performing, Tools};
use ciel_crew_work::report::Report;
use ciel_crew_work::shop::Shop;
use ciel_gate::gate::Gate;
use ciel_name::name::Namer;
use ciel_steal_pool::pool::Pool;
use ciel_store::seats::Eye;
use sky_base::kit::Kit;
use sky_base::text::Memory;
use std::alloc::Global;
use std::marker::Model;
use std::sync::{Arc, Wait};
use std::thread::Threads;

/// Workers that share a few threads. Contracts see the shop, the orders whose reports weren't given yet, what the gates will have told, and whether no
/// call has failed.
#[derive(Drop)]
pub struct Steal<K: Kit + Drop, N: Namer + Drop, G: Gate, R: Wait + Drop> {
    rt: R,
    alloc: Global,
    shop: Arc<Shop<K, N>, Global>,
    lanes: Pool<Performing<K, N, G, R>, R>,
    idle: Vec<Option<Tools<G>>>,
    room: Vec<G>,
    broken: bool,
}

impl<K: Kit + Drop, N: Namer + Drop, G: Gate, R: Wait + Drop> Model for Steal<K, N, G, R> {
    ghost use Rattle.std.specs.Prelude.{not, vec_capacity};
    ghost use Rattle.std.specs.Arc.{arc_value};
    ghost use Rattle.std.specs.Coded.{codes};
    ghost use Rattle.sky_base.specs.Code.{pairs_code, val_code, vals_code};
    ghost use Rattle.sky_base.specs.ScriptCode.{script_code};
    ghost use Rattle.sky_frozen_bytes.specs.FrozenCode.{stand_code};
    ghost use Rattle.ciel_crew_work.specs.Seen.{CrewSeen};
    ghost use Rattle.ciel_crew_work.specs.Crewed.{Stands, lanes_told, orders_of};

    ghost Value = { CrewSeen K N };

    ghost coded = { Prim.hlevel (codes, script_code, val_code, vals_code, pairs_code, stand_code) };

    ghost view = { λ c. record {
      shop = arc_value c.shop;
      out = orders_of c.lanes;
      told = lanes_told G.entered c.lanes c.idle.items;
      sound =
          not c.broken;
    } };

    ghost invariant = { λ c. Stands (arc_value c.shop) c.lanes c.idle.items c.room.items (vec_capacity c.room) };
}

impl<K, N, G, R> Steal<K, N, G, R>
where
    K: Kit + Send + Sync + Drop + 'static,
    N: Namer + Send + Sync + Drop + 'static,
    G: Gate + Send + 'static,
    R: Threads + Wait + Copy + Send + Drop + 'static,
{
    /// A crew over this shop, of as many workers as there are gates, each with its eye, over as many of these threads as can be had. Where
    /// none can be had, the caller works itself. The room that `close` needs is made here. Where there is no memory for it the gates are
    /// handed back.
    ///
    /// There is at least one gate, and fewer than 4,294,967,296; at most 64 threads.
    pub fn open(
        rt: R,
        alloc: Global,
        shop: Arc<Shop<K, N>, Global>,
        gates: Vec<G>,
        eyes: Vec<Eye>,
        threads: u32,
    ) -> Result<Steal<K, N, G, R>, (Vec<G>, Memory)>
        requires some { 0 < length gates.items }
        requires few { length gates.items < 2 ^ 32 }
        requires threads { threads ≤ 64 }
        requires read { IsRead (job_view (arc_value shop).job).script }
        requires inputs { InputsInOrder (job_view (arc_value shop).job) }
        requires eyes { length eyes.items ≡ length gates.items }
        requires look { AllLook (arc_value shop) eyes.items }
        ensures opened { IfOk result (λ c. c ≡ record {
          shop = arc_value shop;
          out = replicate (length gates.items) None;
          told =
              map G.entered gates.items;
          sound = true;
        }) }
        ensures back { IfErr result (λ e. e.0 ≡ gates) }
    {
        let workers = gates.len() as u32;
        let Ok(idle) = room_for(alloc, gates.len()) else {
            return Err((gates, Memory));
        };
        let Ok(room) = room_for(alloc, gates.len()) else {
            return Err((gates, Memory));
        };
        let Ok(lanes) = Pool::<Performing<K, N, G, R>, R>::open(rt, alloc, workers, threads) else {
            return Err((gates, Memory));
        };
        Ok(Steal {
            rt,
            alloc,
            shop,
            lanes,
            idle: equipped(idle, gates, eyes),
            room,
            broken: false,
        })
    }
}

impl<K: Kit + Drop, N: Namer + Drop, G: Gate, R: Threads + Wait + Copy + Drop> Crew
    for Steal<K, N, G, R> {
    type Gate = G;

    type K = K;

    type N = N;

    ghost shop = { λ c. c.shop };

    ghost out = { λ c. c.out };

    ghost told = { λ c. c.told };

    ghost is_sound = { λ c. c.sound };

    ghost Stays = { Unit {0} };

    ghost stays = { λ c. tt };

    ghost Record = { Unit {0} };

    ghost record_of = { λ c. tt };

    ghost goes = { λ before call after. Unit {0} };

    fn send(&mut self, order: Order) -> Result<(), Memory> {
        self.broken = true;
        let Ok(shop) = Arc::try_clone(&self.shop) else {
            return Err(Memory);
        };
        let worker = order.worker;
        let Some(tools) = self.idle[worker as usize].take() else {
            unreachable!()
        };
        let rt = self.rt;
        let alloc = self.alloc;
        let job = Job {
            rt,
            alloc,
            shop,
            order,
            tools,
        };
        self.lanes.put(worker, job);
        self.broken = false;
        Ok(())
    }

    fn next(&mut self) -> Result<Report, Memory> {
        self.broken = true;
        let (worker, done) = self.lanes.take();
        let Done { report, tools, .. } = done;
        self.idle[worker as usize] = Some(tools);
        let report = report?;
        self.broken = false;
        Ok(report)
    }

    fn close(self) -> Vec<G> {
        let Steal {
            lanes,
            idle,
            room,
            ..
        } = self;
        gather(idle, lanes.close(), room)
    }
}
