// A crew of one worker without a gate, which takes orders and gives no report.

ghost use Rattle.std.specs.Prelude.{◌≡◌, [], None, true};
ghost use Rattle.std.specs.Arc.{arc_value};
ghost use Rattle.ciel_log_tests.specs.Deaf.{out_of};

use crate::kit::Lines;
use crate::made::LineShop;
use ciel_gate::open::Open;
use ciel_name::name::Sha1Namer;
use ciel_task_crew::crew::Crew;
use ciel_task_order::order::Order;
use ciel_task_order::report::Report;
use sky_base::text::Memory;
use std::alloc::Global;
use std::snapshot::Snapshot;
use std::sync::Arc;

/// An order that was sent.
#[derive(Drop)]
pub struct Sent {
    pub of: Snapshot<Order>,
}

/// The crew.
#[derive(Drop)]
pub struct Deaf {
    pub alloc: Global,
    pub shop: Arc<LineShop, Global>,
    pub sent: Option<Sent>,
}

impl Crew for Deaf {
    type Gate = Open;

    type K = Lines;

    type N = Sha1Namer;

    ghost shop = { λ c. arc_value c.shop };

    ghost out = { λ c. out_of (λ s. s.of.value) c.sent };

    ghost told = { λ c. [] };

    ghost is_sound = { λ c. true };

    ghost Stays = { Unit {0} };

    ghost stays = { λ c. tt };

    ghost Record = { Unit {0} };

    ghost record_of = { λ c. tt };

    ghost goes = { λ before call after. Unit {0} };

    fn send(&mut self, order: Order) -> Result<(), Memory> {
        let of = Snapshot::of(&order);
        self.sent = Some(Sent { of });
        Ok(())
    }

    fn next(&mut self) -> Result<Report, Memory> {
        Err(Memory)
    }

    fn close(self) -> Vec<Open> {
        Vec::new(self.alloc)
    }
}
