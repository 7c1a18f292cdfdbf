//! The orders that were out are sent again.

ghost use Rattle.std.specs.Prelude.{◌≡◌, OnOk, map, true};
ghost use Rattle.ciel_journal.specs.Job.{Each};
ghost use Rattle.ciel_log_file.specs.Sending.{CanSend, sent_to};
ghost use Rattle.ciel_run_onward.specs.Gates.{ToldOpen};
ghost use Rattle.ciel_run_onward.specs.Open.{begun_of};
ghost use Rattle.ciel_task_crew.specs.Crews.{Takes};

use ciel_name::name::Namer;
use ciel_task_crew::crew::Crew;
use ciel_task_order::order::Order;
use sky_base::kit::Kit;
use sky_base::text::Memory;

/// Sends orders to their workers, one after the other.
///
/// Answers `Memory` for want of memory. The crew can then only be closed.
pub(crate) fn send_all<K: Kit + Drop, N: Namer + Drop, C: Crew<K = K, N = N>>(
    crew: &mut C,
    orders: Vec<Order>,
) -> Result<(), Memory>
    requires sound { C.is_sound crew.old ≡ true }
    requires takes { Each (Takes K.gives N.digest (C.shop crew.old)) orders.items }
    requires sends { CanSend (C.out crew.old) orders.items }
    ensures shop { C.shop crew.new ≡ C.shop crew.old }
    ensures sound { OnOk result (C.is_sound crew.new ≡ true) }
    ensures out { OnOk result (C.out crew.new ≡ sent_to (C.out crew.old) orders.items) }
    ensures told { OnOk result (ToldOpen (map begun_of orders.items) (C.told crew.old) (C.told crew.new)) }
{
    for order in orders {
        crew.send(order)?;
    }
    Ok(())
}
