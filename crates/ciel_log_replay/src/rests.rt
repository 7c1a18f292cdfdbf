//! Whether a report may come.

ghost use Rattle.std.specs.Prelude.{◌≡◌, IfOk, false, true};
ghost use Rattle.ciel_journal.specs.Entries.{Entry};
ghost use Rattle.ciel_log_replay.specs.Between.{Between, job_of};
ghost use Rattle.ciel_log_replay.specs.Next.{CanBeNext, IsClose};
ghost use Rattle.ciel_master_board.specs.Driving.{RestsNow};
ghost use Rattle.ciel_run_drive.specs.Kept.{Kept};

use ciel_master::master::Master;
use ciel_name::name::Namer;
use ciel_task_order::order::Order;
use ciel_task_order::shop::Shop;
use sky_base::kit::Kit;
use sky_base::text::Memory;

/// Whether the report of an order that is out may come now: no loss is due, and nobody is idle or nothing can run.
///
/// Where a run's history is followed: if it may, each driven journal that goes on from the one so far goes on by closing a Start; if it
/// may not, none does.
///
/// Answers `Memory` for want of memory.
pub fn rests<K: Kit + Drop, N: Namer + Drop>(
    master: &mut Master<K, N>,
    shop: &Shop<K, N>,
    out: &[Option<Order>],
    state: u64,
) -> Result<bool, Memory>
    requires between { Between K.gives N.digest shop.now master.old out.now state }
    ensures same { master.new ≡ master.old }
    ensures rests { IfOk result (λ r. r ≡ true → RestsNow master.old.board) }
    ensures goes_on { IfOk result (λ r. r ≡ false → RestsNow master.old.board → ⊥) }
    ensures closes { IfOk result (λ r. r ≡ true → Kept K.gives N.digest shop.now true master.old out.now state → (e : Entry)
        → CanBeNext (job_of K.gives N.digest shop.now) master.old.board.plan master.old.board.journal e → IsClose e) }
    ensures none_closes { IfOk result (λ r. r ≡ false → Kept K.gives N.digest shop.now true master.old out.now state → (e : Entry)
        → CanBeNext (job_of K.gives N.digest shop.now) master.old.board.plan master.old.board.journal e → IsClose e → ⊥) }
{
    if master.due().is_some() {
        return Ok(false);
    }
    let idle = master.idle()?;
    if idle.is_empty() {
        return Ok(true);
    }
    let count = master.count()?;
    Ok(count == 0)
}
