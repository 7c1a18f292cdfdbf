//! A crew that keeps a log of its run.

ghost use Rattle.std.specs.Prelude.{◌≡◌, ◌≤◌};
ghost use Rattle.std.specs.Arc.{arc_value};
ghost use Rattle.ciel_log.specs.Logging.{CrewLog, GoesOn, Stay, most};
ghost use Rattle.ciel_log.specs.declared.state.LogState.{LogState as state};

use crate::log::Log;
use crate::state::LogState;
use ciel_io::keep::Keep;
use ciel_name::name::Namer;
use ciel_store::seats::Eye;
use ciel_task_crew::crew::Crew;
use ciel_task_order::order::Order;
use ciel_task_order::report::Report;
use ciel_task_order::shop::Shop;
use sky_base::kit::Kit;
use sky_base::object::Desc1;
use sky_base::text::{Memory, Txt};
use std::alloc::Global;
use std::marker::Model;
use std::sync::Arc;

/// A crew that puts a record of each order behind a log before it is sent, and of each report before it is handed out. It passes everything
/// on to the inner crew, and goes on where the log can't. Contracts see the inner crew, which keeper was lent, and what is told of the log.
pub struct Logged<'k, C: Crew<K = K, N = N>, D: Keep, K: Kit, N: Namer> {
    inner: C,
    shop: Arc<Shop<K, N>, Global>,
    log: Log<'k, D>,
}

impl<'k, C: Crew<K = K, N = N>, D: Keep, K: Kit, N: Namer> Model for Logged<'k, C, D, K, N> {
    ghost use Rattle.std.specs.Prelude.{◌≡◌};
    ghost use Rattle.std.specs.Arc.{arc_value};
    ghost use Rattle.ciel_log.specs.Logging.{LoggedSeen};

    ghost Value = { LoggedSeen C };

    ghost view = { λ l. record { inner = l.inner; keep = l.log.keep; log = l.log.seen } };

    ghost invariant = { λ l. (C.shop l.inner ≡ arc_value l.shop) × (l.log.of ≡ (arc_value l.shop).shelves.of) };
}

/// What a crew with a log was made of, and how the log stands.
pub struct Closed<'k, C, D> {
    pub inner: C,
    pub keep: &'k mut D,
    pub state: LogState,
}

impl<'k, C: Crew<K = K, N = N>, D: Keep, K: Kit + Drop, N: Namer + Drop> Logged<'k, C, D, K, N> {
    /// A crew over this one, with the log at a path, which has so many bytes. The inner crew was opened with this shop, at whose shelves the
    /// eye looks.
    pub fn open(
        alloc: Global,
        inner: C,
        shop: Arc<Shop<K, N>, Global>,
        eye: Eye,
        keep: &'k mut D,
        path: Txt,
        held: u64,
    ) -> Logged<'k, C, D, K, N>
        requires shop { C.shop inner ≡ arc_value shop }
        requires eye { eye.of ≡ (arc_value shop).shelves.of }
        requires held { held ≤ most }
        ensures inner { result.inner ≡ inner }
        ensures same_reference { result.keep ≡ keep.entry.ghost_name }
        ensures log { result.log ≡ record {
          path = path;
          files = D.files keep.entry.now;
          asked = D.asked keep.entry.now;
          faults = D.faults keep.entry.now;
          held = held;
          state = state.Whole;
          losses = eye.losses;
        } }
    {
        let log = Log::open(alloc, keep, path, eye, held);
        Logged { inner, shop, log }
    }

    /// How the log stands. It takes no memory.
    pub fn state(&self) -> LogState
        ensures { result ≡ self.now.log.state }
    {
        self.log.state()
    }

    /// The inner crew and the keeper, handed back, and how the log stands.
    pub fn into_parts(self) -> Closed<'k, C, D>
        ensures inner { result.inner ≡ self.entry.inner }
        ensures same_reference { result.keep.ghost_name ≡ self.entry.keep }
        ensures files { D.files result.keep.now ≡ self.entry.log.files }
        ensures asked { D.asked result.keep.now ≡ self.entry.log.asked }
        ensures faults { D.faults result.keep.now ≡ self.entry.log.faults }
        ensures state { result.state ≡ self.entry.log.state }
    {
        let Logged {
            inner,
            shop: _,
            log,
        } = self;
        let state = log.state();
        Closed {
            inner,
            keep: log.into_keep(),
            state,
        }
    }
}

impl<'k, C: Crew<K = K, N = N>, D: Keep, K: Kit + Drop, N: Namer + Drop> Crew
    for Logged<'k, C, D, K, N> {
    type Gate = C::Gate;

    type K = K;

    type N = N;

    ghost shop = { λ l. C.shop l.inner };

    ghost out = { λ l. C.out l.inner };

    ghost told = { λ l. C.told l.inner };

    ghost is_sound = { λ l. C.is_sound l.inner };

    ghost Stays = { Stay C.Stays };

    ghost stays = { λ l. record { keep = l.keep; path = l.log.path; inner = C.stays l.inner } };

    ghost Record = { CrewLog C.Record };

    ghost record_of = { λ l. record { inner = C.record_of l.inner; log = l.log } };

    ghost goes = { GoesOn C.goes };

    fn send(&mut self, order: Order) -> Result<(), Memory> {
        self.log.start(&order);
        self.inner.send(order)
    }

    fn hint(&mut self, order: &Order, consumer: &Desc1) -> Result<(), Memory> {
        self.inner.hint(order, consumer)?;
        Ok(())
    }

    fn next(&mut self) -> Result<Report, Memory> {
        match self.inner.next() {
            Ok(report) => {
                self.log.report(&self.shop.shelves, &report);
                Ok(report)
            }
            Err(memory) => Err(memory),
        }
    }

    fn close(self) -> Vec<C::Gate> {
        let Logged {
            inner,
            shop: _,
            log,
        } = self;
        let _keep = log.into_keep();
        inner.close()
    }
}
