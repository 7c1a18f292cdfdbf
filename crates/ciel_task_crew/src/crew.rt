//! What a crew is.

ghost use Rattle.std.specs.Prelude.{◌≡◌, ◌<◌, ℕ, Bool, true, List, Option, Some, None, IfOk, OnOk, length, map, slice_set};
ghost use Rattle.sky_base.specs.declared.object.TaskId.{TaskId};
ghost use Rattle.ciel_master_safe.specs.Order.{Order as OrderSeen};
ghost use Rattle.ciel_master_safe.specs.Shop.{Shop};
ghost use Rattle.ciel_task_crew.specs.Calls.{Call, next_call, send_call};
ghost use Rattle.ciel_task_crew.specs.Crews.{FadesEach, IsOut, Reports, Takes, TellsTask, order_at};
ghost use Rattle.ciel_task_crew.specs.Hints.{LeadsTo};

use ciel_gate::gate::Gate;
use ciel_master_safe::order::Order;
use ciel_master_safe::report::Report;
use ciel_name::name::Namer;
use sky_base::kit::Kit;
use sky_base::object::Desc1;
use sky_base::text::Memory;

/// The workers of a shop, each with its gate, numbered from 0. A worker has one order at a time.
pub trait Crew {
    type Gate: Gate;

    type K: Kit;

    type N: Namer;

    /// The shop that it was opened with.
    ghost shop: { Self → Shop Self.K Self.N };

    /// The order of each worker that has one, which was sent and whose report wasn't given yet.
    ghost out: { Self → List (Option OrderSeen) };

    /// For each worker the tasks that its gate will have told when the crew is closed, where the gate tells them.
    ghost told: { Self → List (Option (List TaskId)) };

    /// No call has failed. After one that has, the crew can only be closed.
    ghost is_sound: { Self → Bool };

    /// What stays through each call, also where it fails.
    ghost Stays: { Type 0 };

    ghost stays: { Self → Stays };

    /// What it tells of the calls that it was asked, and what a call makes of that.
    ghost Record: { Type 0 };

    ghost record_of: { Self → Record };

    ghost goes: { Record → Call → Record → Type 0 };

    /// Sends an order to its worker, which has none.
    ///
    /// Answers `Memory` for want of memory. The order is then gone, and the crew can only be closed.
    fn send(&mut self, order: Order) -> Result<(), Memory>
        requires sound { is_sound self.old ≡ true }
        requires worker { order.worker < length (out self.old) }
        requires free { order_at (out self.old) order.worker ≡ None }
        requires takes { Takes Self.K.gives Self.N.digest (shop self.old) order }
        ensures shop { shop self.new ≡ shop self.old }
        ensures sound { OnOk result (is_sound self.new ≡ true) }
        ensures out { OnOk result (out self.new ≡ slice_set (out self.old) order.worker (Some order)) }
        ensures told { OnOk result (TellsTask order (told self.old) (told self.new)) }
        ensures gates { length (told self.new) ≡ length (told self.old) }
        ensures stays { stays self.new ≡ stays self.old }
        ensures goes { goes (record_of self.old) (send_call order result) (record_of self.new) };

    /// Says that the order, which is sent next, makes what this executor's task reads, so that a crew may begin on it meanwhile. It
    /// changes nothing that is promised, and does nothing where a crew has no use for it.
    ///
    /// Answers `Memory` for want of memory. The crew can then only be closed.
    fn hint(&mut self, order: &Order, consumer: &Desc1) -> Result<(), Memory>
        requires sound { is_sound self.old ≡ true }
        requires reach { LeadsTo Self.N.digest (shop self.old) order.now consumer.now }
        ensures shop { shop self.new ≡ shop self.old }
        ensures sound { OnOk result (is_sound self.new ≡ true) }
        ensures out { out self.new ≡ out self.old }
        ensures told { told self.new ≡ told self.old }
        ensures stays { stays self.new ≡ stays self.old }
        ensures recorded { record_of self.new ≡ record_of self.old }
    {
        let _ = order;
        let _ = consumer;
        Ok(())
    }

    /// The report of an order that is out. That of each order is given once.
    ///
    /// Answers `Memory` for want of memory. The crew can then only be closed.
    fn next(&mut self) -> Result<Report, Memory>
        requires sound { is_sound self.old ≡ true }
        requires out { IsOut (out self.old) }
        ensures shop { shop self.new ≡ shop self.old }
        ensures sound { OnOk result (is_sound self.new ≡ true) }
        ensures told { OnOk result (FadesEach (told self.old) (told self.new)) }
        ensures gates { length (told self.new) ≡ length (told self.old) }
        ensures stays { stays self.new ≡ stays self.old }
        ensures goes { goes (record_of self.old) (next_call result) (record_of self.new) }
        ensures report { IfOk result (Reports Self.K.gives Self.N.digest (shop self.old) (out self.old) (out self.new)) };

    /// All gates, in order of workers. Each has entered the tasks of the orders that were sent to its worker, in order, unless a call
    /// has failed.
    fn close(self) -> Vec<Self::Gate>
        ensures all { length result.items ≡ length (told self) }
        ensures told { is_sound self ≡ true → FadesEach (told self) (map Self.Gate.entered result.items) };
}
