//! A crew in one thread: who sends an order performs it.

ghost use Rattle.std.specs.Prelude.{◌≡◌, true, None, IfErr, IfOk, length, map, replicate};
ghost use Rattle.std.specs.Arc.{arc_value};
ghost use Rattle.sky_base.specs.JobView.{job_view};
ghost use Rattle.ciel_task.specs.Onward.{IsRead};
ghost use Rattle.ciel_task_order.specs.Shop.{InputsInOrder};
ghost use Rattle.ciel_task.specs.Seen.{AllLook};

use crate::seats::{Kept, first_kept, perform_one};
use ciel_gate::gate::Gate;
use ciel_name::name::Namer;
use ciel_store::seats::Eye;
use ciel_task::crew::Crew;
use ciel_task_order::order::Order;
use ciel_task_order::report::Report;
use ciel_task_order::shop::Shop;
use sky_base::kit::Kit;
use sky_base::text::Memory;
use std::alloc::Global;
use std::marker::Model;
use std::sync::{Arc, Wait};

/// Workers whose orders are performed where they are sent. Contracts see the shop, the orders whose reports weren't given yet, what
/// the gates tell, and whether no call has failed.
#[derive(Drop)]
pub struct Inline<K: Kit, N: Namer, G: Gate, R> {
    rt: R,
    alloc: Global,
    shop: Arc<Shop<K, N>, Global>,
    gates: Vec<G>,
    eyes: Vec<Eye>,
    kept: Vec<Option<Kept>>,
    broken: bool,
}

impl<K: Kit, N: Namer, G: Gate, R> Model for Inline<K, N, G, R> {
    ghost use Rattle.std.specs.Prelude.{length, map, not};
    ghost use Rattle.std.specs.Arc.{arc_value};
    ghost use Rattle.std.specs.Coded.{codes};
    ghost use Rattle.sky_base.specs.Code.{pairs_code, val_code, vals_code};
    ghost use Rattle.sky_base.specs.ScriptCode.{script_code};
    ghost use Rattle.sky_frozen_bytes.specs.FrozenCode.{stand_code};
    ghost use Rattle.ciel_task.specs.Seen.{CrewSeen};
    ghost use Rattle.ciel_crew_inline.specs.Kept.{Stands, order_of};

    ghost Value = { CrewSeen K N };

    ghost coded = { Prim.hlevel (codes, script_code, val_code, vals_code, pairs_code, stand_code) };

    ghost view = { λ c. record {
      shop = arc_value c.shop;
      out = map order_of c.kept.items;
      told = map G.entered c.gates.items;
      sound =
          not c.broken;
    } };

    ghost invariant = { λ c. Stands K.gives N.digest (arc_value c.shop) (length c.gates.items) c.eyes.items c.kept.items };
}

impl<K: Kit + Drop, N: Namer + Drop, G: Gate, R: Wait + Drop> Inline<K, N, G, R> {
    /// A crew over this shop, of as many workers as there are gates, each with its eye. Where there is no memory for it the gates are
    /// handed back.
    pub fn open(
        rt: R,
        alloc: Global,
        shop: Arc<Shop<K, N>, Global>,
        gates: Vec<G>,
        eyes: Vec<Eye>,
    ) -> Result<Inline<K, N, G, R>, (Vec<G>, Memory)>
        requires read { IsRead (job_view (arc_value shop).job).script }
        requires inputs { InputsInOrder (job_view (arc_value shop).job) }
        requires eyes { length eyes.items ≡ length gates.items }
        requires look { AllLook (arc_value shop) eyes.items }
        ensures opened { IfOk result (λ c. c ≡ record {
          shop = arc_value shop;
          out = replicate (length gates.items) None;
          told =
              map G.entered gates.items;
          sound = true;
        }) }
        ensures back { IfErr result (λ e. e.0 ≡ gates) }
    {
        match nothing_kept(alloc, gates.len()) {
            Ok(kept) => Ok(Inline {
                rt,
                alloc,
                shop,
                gates,
                eyes,
                kept,
                broken: false,
            }),
            Err(memory) => Err((gates, memory)),
        }
    }
}

// So many workers with no report.
fn nothing_kept(alloc: Global, workers: usize) -> Result<Vec<Option<Kept>>, Memory>
    ensures { IfOk result (λ kept. kept.items ≡ replicate workers None) }
{
    let mut kept = Vec::new(alloc);
    for _ in 0..workers {
        let Ok(()) = kept.push(None) else {
            return Err(Memory);
        };
    }
    Ok(kept)
}

impl<K: Kit + Drop, N: Namer + Drop, G: Gate, R: Wait + Drop> Crew for Inline<K, N, G, R> {
    type Gate = G;

    type K = K;

    type N = N;

    ghost shop = { λ c. c.shop };

    ghost out = { λ c. c.out };

    ghost told = { λ c. c.told };

    ghost is_sound = { λ c. c.sound };

    ghost Stays = { Unit {0} };

    ghost stays = { λ c. tt };

    ghost Record = { Unit {0} };

    ghost record_of = { λ c. tt };

    ghost goes = { λ before call after. Unit {0} };

    fn send(&mut self, order: Order) -> Result<(), Memory> {
        self.broken = true;
        let worker = order.worker as usize;
        let kept = perform_one(
            &self.rt,
            self.alloc,
            &self.shop,
            &order,
            &mut self.gates[worker],
            &mut self.eyes[worker],
        )?;
        self.kept[worker] = Some(kept);
        self.broken = false;
        Ok(())
    }

    fn next(&mut self) -> Result<Report, Memory> {
        let Some(worker) = first_kept(self.kept.as_slice()) else {
            unreachable!()
        };
        match self.kept[worker].take() {
            Some(kept) => {
                let Kept { report, .. } = kept;
                Ok(report)
            }
            None => unreachable!(),
        }
    }

    fn close(self) -> Vec<G> {
        let Inline { gates, .. } = self;
        gates
    }
}
