//! The crew: an order that is sent is kept, and a report is taken from those of the last round, or after a further one.

ghost use Rattle.std.specs.Prelude.{◌≡◌, ◌<◌, ◌^◌, true, None, IfErr, IfOk, length, map, replicate};
ghost use Rattle.std.specs.Arc.{arc_value};
ghost use Rattle.sky_base.specs.JobView.{job_view};
ghost use Rattle.ciel_crew_work.specs.Onward.{IsRead};
ghost use Rattle.ciel_task_order.specs.Shop.{InputsInOrder};
ghost use Rattle.ciel_task_crew.specs.Seen.{AllLook};

use crate::round::{kept_after, play};
use crate::seat::{Seat, gates_of, give, hand_out, seated};
use ciel_crew_lanes::lanes::Lanes;
use ciel_crew_work::opening::room_for;
use ciel_crew_work::performing::Performing;
use ciel_gate::gate::Gate;
use ciel_name::name::Namer;
use ciel_store::seats::Eye;
use ciel_task_crew::crew::Crew;
use ciel_task_order::order::Order;
use ciel_task_order::report::Report;
use ciel_task_order::shop::Shop;
use sky_base::kit::Kit;
use sky_base::text::Memory;
use std::alloc::Global;
use std::marker::Model;
use std::sync::{Arc, Wait};
use std::thread::Threads;

/// Workers whose orders are performed by rounds. Contracts see the shop, the orders whose reports weren't given yet, what the gates tell or
/// will have told, and whether no call has failed.
#[derive(Drop)]
pub struct Rounds<K: Kit + Drop, N: Namer + Drop, G: Gate, R: Wait + Drop> {
    rt: R,
    alloc: Global,
    shop: Arc<Shop<K, N>, Global>,
    lanes: Lanes<Performing<K, N, G, R>, R>,
    seats: Vec<Seat<K, N, G, R>>,
    room: Vec<G>,
    broken: bool,
}

impl<K: Kit + Drop, N: Namer + Drop, G: Gate, R: Wait + Drop> Model for Rounds<K, N, G, R> {
    ghost use Rattle.std.specs.Prelude.{map, not, vec_capacity};
    ghost use Rattle.std.specs.Arc.{arc_value};
    ghost use Rattle.std.specs.Coded.{codes};
    ghost use Rattle.sky_base.specs.Code.{pairs_code, val_code, vals_code};
    ghost use Rattle.sky_base.specs.ScriptCode.{script_code};
    ghost use Rattle.sky_frozen_bytes.specs.FrozenCode.{stand_code};
    ghost use Rattle.ciel_task_crew.specs.Seen.{CrewSeen};
    ghost use Rattle.ciel_crew_rounds.specs.Seats.{Stands, order_of, told_of};

    ghost Value = { CrewSeen K N };

    ghost coded = { Prim.hlevel (codes, script_code, val_code, vals_code, pairs_code, stand_code) };

    ghost view = { λ c. record {
      shop = arc_value c.shop;
      out = map order_of c.seats.items;
      told = map (told_of G.entered) c.seats.items;
      sound =
          not c.broken;
    } };

    ghost invariant = { λ c. Stands K.gives N.digest (arc_value c.shop) c.lanes c.seats.items c.room.items (vec_capacity c.room) };
}

impl<K, N, G, R> Rounds<K, N, G, R>
where
    K: Kit + Send + Sync + Drop + 'static,
    N: Namer + Send + Sync + Drop + 'static,
    G: Gate + Send + 'static,
    R: Threads + Wait + Copy + Send + Drop + 'static,
{
    /// A crew over this shop, of as many workers as there are gates, each with its eye and with a thread where one can be had. The room
    /// that `close` needs is made here. Where there is no memory for it the gates are handed back.
    ///
    /// There is at least one gate, and fewer than 4,294,967,296.
    pub fn open(
        rt: R,
        alloc: Global,
        shop: Arc<Shop<K, N>, Global>,
        gates: Vec<G>,
        eyes: Vec<Eye>,
    ) -> Result<Rounds<K, N, G, R>, (Vec<G>, Memory)>
        requires some { 0 < length gates.items }
        requires few { length gates.items < 2 ^ 32 }
        requires read { IsRead (job_view (arc_value shop).job).script }
        requires inputs { InputsInOrder (job_view (arc_value shop).job) }
        requires eyes { length eyes.items ≡ length gates.items }
        requires look { AllLook (arc_value shop) eyes.items }
        ensures opened { IfOk result (λ c. c ≡ record {
          shop = arc_value shop;
          out = replicate (length gates.items) None;
          told =
              map G.entered gates.items;
          sound = true;
        }) }
        ensures back { IfErr result (λ e. e.0 ≡ gates) }
    {
        let workers = gates.len() as u32;
        let Ok(seats) = room_for(alloc, gates.len()) else {
            return Err((gates, Memory));
        };
        let Ok(room) = room_for(alloc, gates.len()) else {
            return Err((gates, Memory));
        };
        let Ok(lanes) = Lanes::<Performing<K, N, G, R>, R>::open(rt, alloc, workers) else {
            return Err((gates, Memory));
        };
        Ok(Rounds {
            rt,
            alloc,
            shop,
            lanes,
            seats: seated(seats, gates, eyes),
            room,
            broken: false,
        })
    }
}

impl<K: Kit + Drop, N: Namer + Drop, G: Gate, R: Threads + Wait + Copy + Drop> Crew
    for Rounds<K, N, G, R> {
    type Gate = G;

    type K = K;

    type N = N;

    ghost shop = { λ c. c.shop };

    ghost out = { λ c. c.out };

    ghost told = { λ c. c.told };

    ghost is_sound = { λ c. c.sound };

    ghost Stays = { Unit {0} };

    ghost stays = { λ c. tt };

    ghost Record = { Unit {0} };

    ghost record_of = { λ c. tt };

    ghost goes = { λ before call after. Unit {0} };

    fn send(&mut self, order: Order) -> Result<(), Memory> {
        self.broken = true;
        let Ok(shop) = Arc::try_clone(&self.shop) else {
            return Err(Memory);
        };
        let worker = order.worker as usize;
        let rt = self.rt;
        let alloc = self.alloc;
        give(&mut self.seats[worker], rt, alloc, shop, order);
        self.broken = false;
        Ok(())
    }

    fn next(&mut self) -> Result<Report, Memory> {
        self.broken = true;
        let worker = kept_after(&mut self.lanes, &mut self.seats);
        let report = hand_out(&mut self.seats[worker]);
        let report = report?;
        self.broken = false;
        Ok(report)
    }

    fn close(self) -> Vec<G> {
        let Rounds {
            mut lanes,
            mut seats,
            room,
            ..
        } = self;
        play(&mut lanes, &mut seats);
        let _ = lanes.close();
        gates_of(seats, room)
    }
}
