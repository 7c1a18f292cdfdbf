//! Orders that are closed, and their tasks with them: what is kept of the tasks that can run has the tasks of the orders as out.

ghost use Rattle.std.specs.Prelude.{◌≡◌, filter, map, nat_eq, not};
ghost use Rattle.ciel_master_board.specs.Board as b;
ghost use Rattle.ciel_master_board.specs.Board.{tasks_out};
ghost use Rattle.ciel_master_board.specs.Moves.{without};
ghost use Rattle.ciel_journal.specs.Job.{In};
ghost use Rattle.ciel_master.specs.Orders.{OneEach};
ghost use Rattle.ciel_master.specs.Views.{kept_view};

use crate::orders::{OrderOut, close, close_at, find_at};
use ciel_store::shelves::Place;
use ciel_task_order::block::Block;
use ciel_want_ready::ready::Ready;

/// An order that is out is closed, and its task with it.
pub(crate) fn close_order(
    ready: &mut Ready<Place<Block>>,
    orders: &mut Vec<OrderOut>,
    order: &OrderOut,
)
    requires out { ready.old.out ≡ tasks_out (map kept_view orders.old.items) }
    requires one { OneEach (map kept_view orders.old.items) }
    requires here { In (kept_view order.now) (map kept_view orders.old.items) }
    ensures orders { map kept_view orders.new.items ≡ without order.now.number (map kept_view orders.old.items) }
    ensures ready { ready.new ≡ record ready.old { out = tasks_out (map kept_view orders.new.items) } }
{
    close(orders, order.number);
    ready.close(&order.task);
}

/// What is out at a worker is closed, and its task with it.
pub(crate) fn close_lost(ready: &mut Ready<Place<Block>>, orders: &mut Vec<OrderOut>, worker: u32)
    requires out { ready.old.out ≡ tasks_out (map kept_view orders.old.items) }
    requires one { OneEach (map kept_view orders.old.items) }
    ensures orders { map kept_view orders.new.items ≡ filter (λ (x : b.OrderOut). not (nat_eq worker x.worker)) (map kept_view orders.old.items) }
    ensures ready { ready.new ≡ record ready.old { out = tasks_out (map kept_view orders.new.items) } }
{
    if let Some(order) = find_at(orders, worker) {
        close_at(orders, worker);
        ready.close(&order.task);
    }
}
