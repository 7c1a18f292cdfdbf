//! Orders that are out: at most one for each worker.

ghost use Rattle.std.specs.Prelude.{◌≡◌, ◌<◌, ℕ, false, filter, map, not, nat_eq, true, IfOk};
ghost use Rattle.std.specs.Option.{option_map};
ghost use Rattle.std.specs.List.{list_any};
ghost use Rattle.ciel_master_board.specs.Board as b;
ghost use Rattle.ciel_master_board.specs.Board.{find_order, tasks_out, workers_out};
ghost use Rattle.ciel_journal.specs.Turns.{is_idle};
ghost use Rattle.ciel_master_board.specs.Moves.{without};
ghost use Rattle.ciel_master.specs.Orders.{worker_order};
ghost use Rattle.ciel_master.specs.Views.{kept_view};

use sky_base::object::TaskId;
use sky_base::text::Memory;
use std::alloc::Global;

/// An order that is out.
#[derive(Clone, Copy, Debug, Drop)]
pub struct OrderOut {
    pub number: u64,
    pub worker: u32,
    pub task: TaskId,
    pub from: u32,
}

/// The one of this number.
pub(crate) fn find(orders: &[OrderOut], number: u64) -> Option<OrderOut>
    ensures { option_map kept_view result ≡ find_order number (map kept_view orders.now) }
{
    let mut best = None;
    let mut i = orders.len();
    while i > 0 {
        i -= 1;
        let order = &orders[i];
        if number == order.number {
            best = Some(*order);
        }
    }
    best
}

/// The one of this worker.
pub(crate) fn find_at(orders: &[OrderOut], worker: u32) -> Option<OrderOut>
    ensures { option_map kept_view result ≡ worker_order worker (map kept_view orders.now) }
{
    let mut best = None;
    let mut i = orders.len();
    while i > 0 {
        i -= 1;
        let order = &orders[i];
        if worker == order.worker {
            best = Some(*order);
        }
    }
    best
}

/// Whether a worker has one.
fn is_busy(orders: &[OrderOut], worker: u32) -> bool
    ensures { result ≡ list_any (nat_eq worker) (workers_out (map kept_view orders.now)) }
{
    let mut busy = false;
    let mut i = orders.len();
    while i > 0 {
        i -= 1;
        if worker == orders[i].worker {
            busy = true;
        }
    }
    busy
}

/// Whether it is among these workers.
pub(crate) fn has(workers: &[u32], worker: u32) -> bool
    ensures { result ≡ list_any (nat_eq worker) workers.now }
{
    let mut found = false;
    let mut i = workers.len();
    while i > 0 {
        i -= 1;
        if worker == workers[i] {
            found = true;
        }
    }
    found
}

/// Whether each of so many workers is among these.
pub(crate) fn all_among(lost: &[u32], workers: u32) -> bool
    ensures all { result ≡ true → (worker : ℕ) → worker < workers → list_any (nat_eq worker) lost.now ≡ true }
    ensures some { result ≡ false → (worker : ℕ) × (worker < workers) × (list_any (nat_eq worker) lost.now ≡ false) }
{
    let mut i = 0;
    while i < workers {
        if !has(lost, i) {
            return false;
        }
        i += 1;
    }
    true
}

/// Whether a worker isn't among the lost ones and has no order.
pub(crate) fn can_work(lost: &[u32], orders: &[OrderOut], worker: u32) -> bool
    ensures { result ≡ is_idle lost.now (workers_out (map kept_view orders.now)) worker }
{
    !has(lost, worker) && !is_busy(orders, worker)
}

/// Takes the one of this number off the list.
pub(crate) fn close(orders: &mut Vec<OrderOut>, number: u64)
    ensures { map kept_view orders.new.items ≡ without number (map kept_view orders.old.items) }
{
    orders.retain(|order| number != order.number);
}

/// Takes what is out at a worker off the list.
pub(crate) fn close_at(orders: &mut Vec<OrderOut>, worker: u32)
    ensures { map kept_view orders.new.items ≡ filter (λ (x : b.OrderOut). not (nat_eq worker x.worker)) (map kept_view orders.old.items) }
{
    orders.retain(|order| worker != order.worker);
}

/// The tasks that are out.
pub(crate) fn tasks(alloc: Global, orders: &[OrderOut]) -> Result<Vec<TaskId>, Memory>
    ensures { IfOk result (λ ts. ts.items ≡ tasks_out (map kept_view orders.now)) }
{
    let mut tasks = Vec::new(alloc);
    for i in 0..orders.len() {
        if tasks.push(orders[i].task).is_err() {
            return Err(Memory);
        }
    }
    Ok(tasks)
}

/// The workers that have an order.
pub(crate) fn workers(alloc: Global, orders: &[OrderOut]) -> Result<Vec<u32>, Memory>
    ensures { IfOk result (λ ws. ws.items ≡ workers_out (map kept_view orders.now)) }
{
    let mut workers = Vec::new(alloc);
    for i in 0..orders.len() {
        if workers.push(orders[i].worker).is_err() {
            return Err(Memory);
        }
    }
    Ok(workers)
}
