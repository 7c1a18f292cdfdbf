//! Losses that are due, and the orders that they close.

ghost use Rattle.std.specs.Prelude.{◌≡◌, ◌<◌, ◌++◌, ◌∷◌, [], ℕ, List, map, true};
ghost use Rattle.ciel_journal.specs.Entries.{Entry};
ghost use Rattle.ciel_journal.specs.Turns.{FirstDue};
ghost use Rattle.ciel_log_replay.specs.Between.{Between, job_of};
ghost use Rattle.ciel_log_replay.specs.Next.{MustGoOn, OnlyNext};
ghost use Rattle.ciel_log_replay.specs.Steps.{LostBy, while_out};
ghost use Rattle.ciel_master_board.specs.Driving.{Quiet};
ghost use Rattle.ciel_master_board.specs.Moves.{lost_at};
ghost use Rattle.ciel_master_law.specs.Ends.{worker_of};
ghost use Rattle.ciel_run_drive.specs.Kept.{Kept, left};
ghost use Rattle.ciel_run_drive.specs.Working.{Working};

use ciel_master::master::Master;
use ciel_master_safe::{rows_stay, tasks_stay, turns_come_to_an_end};
use ciel_name::name::Namer;
use ciel_task_order::order::Order;
use ciel_task_order::shop::Shop;
use sky_base::kit::Kit;

/// Carries out the losses that are due, one after another, and takes the orders that they close out of the list. It takes no memory.
///
/// Where a run's history is followed, each driven journal that goes on from the one before goes on with the entries of these losses.
pub fn lose_due<K: Kit + Drop, N: Namer + Drop>(
    master: &mut Master<K, N>,
    shop: &Shop<K, N>,
    out: &mut [Option<Order>],
    state: u64,
)
    requires between { Between K.gives N.digest shop.now master.old out.old state }
    ensures between { Between K.gives N.digest shop.now master.new out.new state }
    ensures quiet { Quiet master.new.board }
    ensures lost { (es : List Entry) × LostBy master.old.board es master.new.board }
    ensures out { out.new ≡ map (while_out master.new.board) out.old }
    ensures model { Kept K.gives N.digest shop.now true master.old out.old state → Kept K.gives N.digest shop.now true master.new out.new state }
    ensures must { Kept K.gives N.digest shop.now true master.old out.old state → (es : List Entry)
        → master.new.board.journal ≡ master.old.board.journal ++ es
        → MustGoOn (job_of K.gives N.digest shop.now) master.old.board.plan master.old.board.journal es }
{
    let Some(_) = master.due() else {
        return;
    };
    lose_all(master, shop, out, state);
    drop_closed(master, out);
}

// Carries out the losses that are due. The orders that they close stay in the list.
fn lose_all<K: Kit + Drop, N: Namer + Drop>(
    master: &mut Master<K, N>,
    shop: &Shop<K, N>,
    out: &[Option<Order>],
    state: u64,
)
    requires working { Working K.gives N.digest shop.now true master.old out.now }
    ensures working { Working K.gives N.digest shop.now true master.new out.now }
    ensures quiet { Quiet master.new.board }
    ensures lost { (es : List Entry) × LostBy master.old.board es master.new.board }
    ensures model { Kept K.gives N.digest shop.now true master.old out.now state → Kept K.gives N.digest shop.now true master.new out.now state }
    ensures must { Kept K.gives N.digest shop.now true master.old out.now state → (es : List Entry)
        → master.new.board.journal ≡ master.old.board.journal ++ es
        → MustGoOn (job_of K.gives N.digest shop.now) master.old.board.plan master.old.board.journal es }
{
    'losses: loop {
        match master.due() {
            Some(loss) => lose_one(master, shop, out, state, loss),
            None => return,
        }
    }
}

// Carries out a loss that is due.
fn lose_one<K: Kit + Drop, N: Namer + Drop>(
    master: &mut Master<K, N>,
    shop: &Shop<K, N>,
    out: &[Option<Order>],
    state: u64,
    loss: u32,
)
    requires working { Working K.gives N.digest shop.now true master.old out.now }
    requires due { (worker : ℕ) × FirstDue master.old.board.plan.losses master.old.board.closes master.old.board.table.gone loss worker }
    ensures working { Working K.gives N.digest shop.now true master.new out.now }
    ensures less { left master.new out.now < left master.old out.now }
    ensures lost { (worker : ℕ) × FirstDue master.old.board.plan.losses master.old.board.closes master.old.board.table.gone loss worker
        × (master.new ≡ record master.old { board = lost_at worker_of worker master.old.board }) }
    ensures model { Kept K.gives N.digest shop.now true master.old out.now state → Kept K.gives N.digest shop.now true master.new out.now state }
    ensures must { Kept K.gives N.digest shop.now true master.old out.now state → (e : Entry)
        → master.new.board.journal ≡ master.old.board.journal ++ e ∷ []
        → OnlyNext (job_of K.gives N.digest shop.now) master.old.board.plan master.old.board.journal e }
{
    rows_stay();
    turns_come_to_an_end();
    tasks_stay();
    master.lose(loss);
}

// Takes what is out no longer out of the list.
fn drop_closed<K: Drop, N: Namer + Drop>(master: &Master<K, N>, out: &mut [Option<Order>])
    ensures out { out.new ≡ map (while_out master.now.board) out.old }
{
    for slot in out.iter_mut() {
        drop_one(master, slot);
    }
}

// Takes it out of one worker's place.
fn drop_one<K: Drop, N: Namer + Drop>(master: &Master<K, N>, slot: &mut Option<Order>)
    ensures slot { slot.new ≡ while_out master.now.board slot.old }
{
    let closed = match &*slot {
        Some(order) => !master.is_out(order.number),
        None => false,
    };
    if closed {
        *slot = None;
    }
}
