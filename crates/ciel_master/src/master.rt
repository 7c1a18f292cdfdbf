//! The master itself.

ghost use Rattle.std.specs.Prelude.{◌≡◌, ◌≤◌, ◌<◌, ◌^◌, ℕ, [], IfErr, IfNone, IfOk, IfSome, OnErr, OnOk, Some, false, is_some, length, map, nat_eq};
ghost use Rattle.std.specs.Prelude.{nat_lt, true, vec_capacity, ◌&&◌};
ghost use Rattle.std.specs.Arc.{arc_value};
ghost use Rattle.std.specs.List.{IsDistinct, list_any};
ghost use Rattle.sky_base.specs.Val.{no_pairs, no_vals, same_text};
ghost use Rattle.sky_base.specs.declared.object.Desc1.{Desc1};
ghost use Rattle.sky_base.specs.declared.object.TaskId.{TaskId};
ghost use Rattle.ciel_master_board.specs.Board as b;
ghost use Rattle.ciel_master_board.specs.Board.{FollowerOf, board_graph, find_order, idle_of, workers_out};
ghost use Rattle.ciel_master_board.specs.Moves.{accepted, empty, lost_at, opened, order_for, started};
ghost use Rattle.ciel_master_board.specs.Reports.{IsNamed};
ghost use Rattle.ciel_master_board.specs.Sound.{MissFits};
ghost use Rattle.ciel_journal.specs.Graph.{Circle, Picks, Runnable};
ghost use Rattle.ciel_journal.specs.Job.{Each, In};
ghost use Rattle.ciel_journal.specs.Turns.{FirstDue, NothingDue, is_idle};
ghost use Rattle.ciel_table.specs.Learning.{learned};
ghost use Rattle.ciel_want.specs.Waited.{tasks_in_order};
ghost use Rattle.ciel_want_ready.specs.Seen.{CanRunAt, CanRunMany};
ghost use Rattle.ciel_task_order.specs.Views.{P, order_view, report_end};
ghost use Rattle.ciel_master_safe.specs.Laws.{OrderIsGood};
ghost use Rattle.ciel_master.specs.Orders.{ready_of};
ghost use Rattle.ciel_master.specs.Fitting.{FitsOneOut, FitsUnlessMissing, IsMissedOf};
ghost use Rattle.ciel_master.specs.Marked.{IsCarriedOut, Marked};
ghost use Rattle.ciel_master.specs.Refusals.{FirstStops, UnlessMemory, refused_at};
ghost use Rattle.ciel_master.specs.Seen.{MasterSeen, most_descriptions, plan_view};
ghost use Rattle.ciel_master.specs.Taking.{LearnedFor, now_of};
ghost use Rattle.ciel_master_bring.specs.Brings.{worker_of};
ghost use Rattle.ciel_master.specs.Views.{entry_view};

use crate::closing::{close_lost, close_order};
use crate::entry::Entry;
use crate::learning::learn_for;
use crate::marks::confirm;
use crate::orders::{OrderOut, all_among, can_work, find, has, tasks, workers};
use crate::plan::RunPlan;
use crate::stop::{Now, Stop};
use crate::taking::{begin, is_last, note_loss, take_end};
use ciel_journal::turn::{first_due, idle};
use ciel_master_bring::bring::order_at;
use ciel_master_safe::orders_are_safe;
use ciel_name::name::Namer;
use ciel_store::loss::Loss;
use ciel_store::seats::Marker;
use ciel_store::shelves::Place;
use ciel_table::table::Table;
use ciel_task_order::block::Block;
use ciel_task_order::order::Order;
use ciel_task_order::report::Report;
use ciel_task_order::shop::Shop;
use ciel_want::want::{circle, runnable};
use ciel_want_ready::ready::Ready;
use sky_base::name::Name;
use sky_base::names::Names;
use sky_base::object::{Desc1, Named, TaskId};
use sky_base::text::Memory;
use std::alloc::Global;
use std::marker::Model;
use std::sync::Arc;

/// Hands out tasks, takes what workers report, and keeps the journal of it. Contracts see the state by names, and what gives the
/// names.
#[derive(Drop)]
pub struct Master<K, N: Namer> {
    shop: Arc<Shop<K, N>, Global>,
    plan: RunPlan,
    main: Name,
    ready: Ready<Place<Block>>,
    orders: Vec<OrderOut>,
    starts: u64,
    closes: u64,
    journal: Vec<Entry>,
    stopped: bool,
    lost: Vec<u32>,
    marker: Marker,
    alloc: Global,
}

impl<K, N: Namer> Model for Master<K, N> {
    ghost use Rattle.std.specs.Arc.{arc_value};
    ghost use Rattle.std.specs.Coded.{codes};
    ghost use Rattle.std.specs.Prelude.{vec_capacity};
    ghost use Rattle.sky_base.specs.Code.{pairs_code, val_code, vals_code};
    ghost use Rattle.sky_base.specs.ScriptCode.{script_code};
    ghost use Rattle.sky_frozen_bytes.specs.FrozenCode.{stand_code};
    ghost use Rattle.ciel_master.specs.Seen.{MasterSeen, MasterStands, board_of};

    ghost Value = { MasterSeen N };

    ghost coded = { Prim.hlevel (codes, val_code, vals_code, pairs_code, stand_code, script_code) };

    ghost view = { λ m. record {
      namer = (arc_value m.shop).namer;
      shelves = (arc_value m.shop).shelves;
      script = (arc_value m.shop).job.script;
      board =
          board_of m.plan (arc_value m.shop).job.script.keys m.main m.ready.table m.orders.items m.starts m.closes m.journal.items m.stopped;
    } };

    ghost invariant = { λ m. MasterStands (N.digest (arc_value m.shop).namer)
        (board_of m.plan (arc_value m.shop).job.script.keys m.main m.ready.table m.orders.items m.starts m.closes m.journal.items m.stopped)
        m.lost.items (vec_capacity m.journal) (vec_capacity m.lost) (arc_value m.shop).shelves (arc_value m.shop).job.script m.marker m.ready };
}

/// A table that knows the main call alone, with nothing out.
fn first_ready<N: Namer>(
    alloc: Global,
    main: &Named,
    namer: &N,
) -> Result<Ready<Place<Block>>, Memory>
    ensures { IfOk result (λ r. r ≡ record {
      table = learned (N.digest namer.now) main.now (empty most_descriptions);
      main = main.now.name;
      out =
          [];
    }) }
{
    let mut ready = Ready::open(alloc, main.name, 65_536)?;
    match ready.learn(main, namer) {
        Ok(_) => Ok(ready),
        Err(_) => Err(Memory),
    }
}

/// An empty list with room for so many.
fn with_room<T>(alloc: Global, room: usize) -> Result<Vec<T>, Memory>
    ensures empty { IfOk result (λ v. v.items ≡ []) }
    ensures room { IfOk result (λ v. room ≤ vec_capacity v) }
{
    match Vec::with_capacity(alloc, room) {
        Ok(items) => Ok(items),
        Err(_) => Err(Memory),
    }
}

impl<K: Drop, N: Namer + Drop> Master<K, N> {
    /// A master that has started nothing, of this shop's job. `marker` marks losses at the words of the shop's shelves, and has marked
    /// none. `main` is the main call with its name by the shop's namer.
    ///
    /// Answers `Memory` for want of memory.
    pub fn open(
        alloc: Global,
        shop: Arc<Shop<K, N>, Global>,
        marker: Marker,
        main: Named,
        plan: RunPlan,
    ) -> Result<Master<K, N>, Memory>
        requires of { marker.of ≡ (arc_value shop).shelves.of }
        requires unmarked { marker.losses ≡ [] }
        requires workers { plan.workers ≡ length (arc_value shop).shelves.rows }
        requires losses { Each (λ (loss : ℕ × ℕ). loss.1 < plan.workers) plan.losses }
        requires named { IsNamed (N.digest (arc_value shop).namer) main }
        requires keys { length (arc_value shop).job.script.keys < 2 ^ 32 }
        requires main { main.desc ≡ Desc1.Call [] no_pairs no_vals }
        ensures opened { IfOk result (λ m. m ≡ record {
          namer = (arc_value shop).namer;
          shelves = (arc_value shop).shelves;
          script = (arc_value shop).job.script;
          board =
              opened (N.digest (arc_value shop).namer) (plan_view plan) (arc_value shop).job.script.keys main;
        }) }
    {
        let ready = first_ready(alloc, &main, &shop.namer)?;
        let losses = plan.losses.len();
        let journal = with_room(alloc, losses)?;
        let lost = with_room(alloc, losses)?;
        Ok(Master {
            shop,
            plan,
            main: main.name,
            ready,
            orders: Vec::new(alloc),
            starts: 0,
            closes: 0,
            journal,
            stopped: false,
            lost,
            marker,
            alloc,
        })
    }

    /// The tasks that can run, in the order of their least rows, the root task last: the whole table is searched. For tests and callers
    /// that want them all; a run asks how many there are (`count`) and for the one that it draws (`nth`).
    ///
    /// Answers `Memory` for want of memory.
    pub fn runnable(&self) -> Result<Vec<TaskId>, Memory>
        requires going { self.now.board.stopped ≡ false }
        ensures runnable { IfOk result (λ ts. Picks (Runnable (board_graph self.now.board)) (tasks_in_order self.now.board.table) ts.items) }
    {
        let out = tasks(self.alloc, &self.orders)?;
        let tasks = runnable(self.alloc, self.ready.table(), &self.main, &out)?;
        Ok(tasks)
    }

    /// How many tasks can run. It costs as much as what has changed since it was asked for last, and after a loss as much as the table.
    ///
    /// Answers `Memory` for want of memory.
    pub fn count(&mut self) -> Result<usize, Memory>
        requires going { self.old.board.stopped ≡ false }
        ensures count { IfOk result (λ n. CanRunMany (ready_of self.old.board) n) }
        ensures same { self.new ≡ self.old }
    {
        let count = self.ready.count()?;
        Ok(count)
    }

    /// The k-th of the tasks that can run, from 0, in the order of their least rows, the root task last.
    ///
    /// Answers `Memory` for want of memory.
    pub fn nth(&mut self, k: usize) -> Result<TaskId, Memory>
        requires going { self.old.board.stopped ≡ false }
        requires within { (n : ℕ) × CanRunMany (ready_of self.old.board) n × (k < n) }
        ensures task { IfOk result (λ task. CanRunAt (ready_of self.old.board) k task) }
        ensures same { self.new ≡ self.old }
    {
        let task = self.ready.nth(k)?;
        Ok(task)
    }

    /// The executor's task that follows that of an order, by its first output: the first that is reached and isn't out, and that reads
    /// one thing, once, which the order's task makes. `None` where none does. It can begin on that while the order is out.
    ///
    /// Answers `Memory` for want of memory.
    pub fn follower(&mut self, order: &Order) -> Result<Option<Desc1>, Memory>
        requires going { self.old.board.stopped ≡ false }
        ensures follower { IfOk result (λ o. FollowerOf self.old.board order.now.task o) }
        ensures same { self.new ≡ self.old }
    {
        let follower = self.ready.follower(&order.task)?;
        Ok(follower)
    }

    /// A circle of waits, where nothing is out. `None` exactly where a task can run.
    ///
    /// Answers `Memory` for want of memory.
    pub fn circle(&self) -> Result<Option<Names>, Memory>
        requires going { self.now.board.stopped ≡ false }
        requires none_out { self.now.board.orders ≡ [] }
        ensures circle { IfOk result (λ o. IfSome o (λ ns. Circle (board_graph self.now.board) ns)) }
        ensures distinct { IfOk result (λ o. IfSome o (λ ns. IsDistinct same_text ns)) }
        ensures stuck { IfOk result (λ o. IfSome o (λ _. (task : TaskId) → Runnable (board_graph self.now.board) task → ⊥)) }
        ensures none { IfOk result (λ o. IfNone o ((task : TaskId) × Runnable (board_graph self.now.board) task)) }
    {
        let found = circle(self.alloc, self.ready.table(), &self.main)?;
        Ok(found)
    }

    /// Starts a task at a worker: the order goes on with the task there from its last saved wait.
    ///
    /// Answers `Memory` for want of memory; the master is then as it was.
    pub fn start(&mut self, task: &TaskId, worker: u32) -> Result<Order, Memory>
        requires going { self.old.board.stopped ≡ false }
        requires runnable { Runnable (board_graph self.old.board) task.now }
        requires idle { In worker (idle_of self.old.board) }
        ensures order { IfOk result (λ o. order_view o ≡ order_for worker_of self.old.board task.now worker) }
        ensures good { IfOk result (OrderIsGood (N.digest self.old.namer) self.old.shelves self.old.script (length self.old.script.keys) self.old.board) }
        ensures started { OnOk result (self.new ≡ record self.old { board = started worker_of self.old.board task.now worker }) }
        ensures kept { OnErr result (self.new ≡ self.old) }
    {
        orders_are_safe();
        let number = self.starts;
        let keys = self.shop.job.script().keys().as_slice();
        let order = order_at(
            self.alloc,
            keys,
            &self.main,
            self.ready.table(),
            number,
            task,
            worker,
        )?;
        let out = OrderOut {
            number,
            worker,
            task: *task,
            from: order.from,
        };
        let room = self.plan.losses.len();
        begin(
            &mut self.ready,
            &mut self.orders,
            &mut self.journal,
            out,
            room,
        )?;
        self.starts += 1;
        Ok(order)
    }

    /// Takes what a worker reports of an order that is out, which it fits: learns what it spawned, places what it made, and writes it
    /// into the journal. Where something was missing the order is closed, and nothing else changes; the loss with which it is missing is
    /// one of the plan's that was carried out.
    ///
    /// Answers what refuses the first description that isn't learned, and `Memory` for want of memory. The journal is then as it
    /// was, and the run has stopped. After a refusal of learning what comes before that description is learned and nothing is placed;
    /// after `Memory` a part of the report may be learned and placed. Of a master that has stopped only the journal may be asked.
    pub fn accept(&mut self, report: Report) -> Result<Now, Stop>
        requires going { self.old.board.stopped ≡ false }
        requires fits { FitsOneOut (N.digest self.old.namer) self.old.shelves self.old.script self.old.board report }
        ensures accepted { OnOk result ((x : b.OrderOut) × (find_order report.number self.old.board.orders ≡ Some x)
            × (self.new ≡ record self.old {
              board = accepted (N.digest self.old.namer) worker_of self.old.board x report.spawned.items (report_end report);
            })) }
        ensures learned { OnOk result (LearnedFor (N.digest self.old.namer) report.end report.spawned.items self.old.board.table) }
        ensures carried { IsCarriedOut self.old.board report.end }
        ensures missing { (x : b.Order P) → IsMissedOf (N.digest self.old.namer) self.old.board x report.end
            → MissFits (N.digest self.old.namer) worker_of self.old.board x (report_end report) }
        ensures now { IfOk result (λ now. now ≡ now_of report.end) }
        ensures journal { OnErr result (self.new.board.journal ≡ self.old.board.journal) }
        ensures stopped { OnErr result (self.new.board.stopped ≡ true) }
        ensures refused { IfErr result (λ e. FirstStops (N.digest self.old.namer) report.spawned.items self.old.board.table e) }
        ensures unplaced { IfErr result (λ e. UnlessMemory e (self.new ≡ record self.old {
          board = refused_at (N.digest self.old.namer) self.old.board report.spawned.items;
        })) }
    {
        let report = confirm(&self.shop.shelves, &mut self.marker, report);
        let now = self.take(report)?;
        Ok(now)
    }

    /// The number of the loss that comes next, of those whose count of closed Starts is reached and whose worker isn't lost: the one
    /// with the least count, and of equal ones the first. It takes no memory.
    pub fn due(&self) -> Option<u32>
        requires going { self.now.board.stopped ≡ false }
        ensures first { IfSome result (λ loss. (worker : ℕ)
            × FirstDue self.now.board.plan.losses self.now.board.closes self.now.board.table.gone loss worker) }
        ensures none { IfNone result (NothingDue self.now.board.plan.losses self.now.board.closes self.now.board.table.gone) }
    {
        match first_due(
            self.plan.losses.as_slice(),
            self.closes,
            self.lost.as_slice(),
        ) {
            Some(loss) => Some(loss as u32),
            None => None,
        }
    }

    /// Whether each worker of the plan is lost. It takes no memory.
    pub fn all_lost(&self) -> bool
        requires going { self.now.board.stopped ≡ false }
        ensures all { result ≡ true → (worker : ℕ) → worker < self.now.board.plan.workers → list_any (nat_eq worker) self.now.board.table.gone
            ≡ true }
        ensures some { result ≡ false → (worker : ℕ) × (worker < self.now.board.plan.workers)
            × (list_any (nat_eq worker) self.now.board.table.gone ≡ false) }
    {
        all_among(&self.lost, self.plan.workers)
    }

    /// The workers that are neither lost nor have an order, rising.
    ///
    /// Answers `Memory` for want of memory.
    pub fn idle(&self) -> Result<Vec<u32>, Memory>
        requires going { self.now.board.stopped ≡ false }
        ensures idle { IfOk result (λ ws. ws.items ≡ idle_of self.now.board) }
    {
        let busy = workers(self.alloc, &self.orders)?;
        match idle(
            self.alloc,
            self.plan.workers,
            self.lost.as_slice(),
            busy.as_slice(),
        ) {
            Ok(idle) => Ok(idle),
            Err(_) => Err(Memory),
        }
    }

    /// Whether nothing is out. It takes no memory.
    pub fn is_at_rest(&self) -> bool
        ensures none { result ≡ true → self.now.board.orders ≡ [] }
        ensures some { result ≡ false → 0 < length self.now.board.orders }
    {
        self.orders.is_empty()
    }

    /// Carries out the loss that comes next: it is marked at the shelves, its worker's places and the stacks that it saved are dropped, and the order
    /// that it had is closed. It takes no memory.
    pub fn lose(&mut self, number: u32)
        requires going { self.old.board.stopped ≡ false }
        requires due { (worker : ℕ) × FirstDue self.old.board.plan.losses self.old.board.closes self.old.board.table.gone number worker }
        ensures lost { (worker : ℕ) → FirstDue self.old.board.plan.losses self.old.board.closes self.old.board.table.gone number worker
            → self.new ≡ record self.old { board = lost_at worker_of worker self.old.board } }
    {
        let losses = self.plan.losses.as_slice();
        let worker = losses[number as usize].1;
        let loss = Loss { number, worker };
        self.shop.shelves.mark_lost(&mut self.marker, loss);
        note_loss(&mut self.lost, &mut self.journal, worker, self.closes);
        self.ready.drop_worker(worker);
        close_lost(&mut self.ready, &mut self.orders, worker);
    }

    /// Whether it is one of the plan's workers, isn't lost and has no order. It takes no memory.
    pub fn is_idle(&self, worker: u32) -> bool
        requires going { self.now.board.stopped ≡ false }
        ensures { result ≡ (nat_lt worker self.now.board.plan.workers
            && is_idle self.now.board.table.gone (workers_out self.now.board.orders) worker) }
    {
        worker < self.plan.workers && can_work(&self.lost, &self.orders, worker)
    }

    /// The journal, where the run has ended.
    pub fn into_journal(self) -> Vec<Entry>
        ensures { map entry_view result.items ≡ self.board.journal }
    {
        let Master { journal, .. } = self;
        journal
    }

    /// The journal so far.
    pub fn journal(&self) -> &Vec<Entry>
        ensures { map entry_view result.now.items ≡ self.now.board.journal }
    {
        &self.journal
    }

    /// The marker, which has marked one loss of each lost worker, in order: a loss of the plan that names it, and of these the one that was
    /// carried out, the first by its count and then by its place.
    pub fn marker(&self) -> &Marker
        requires going { self.now.board.stopped ≡ false }
        ensures marked { Marked self.now.board.plan.losses self.now.board.table.gone self.now.shelves result.now }
    {
        &self.marker
    }

    /// The plan of the run.
    pub fn plan(&self) -> &RunPlan
        ensures { plan_view result.now ≡ self.now.board.plan }
    {
        &self.plan
    }

    /// What is known: a row for each description, with the places of its object, and the waits that were saved.
    pub fn table(&self) -> &Table<Place<Block>>
        ensures { result.now ≡ self.now.board.table }
    {
        self.ready.table()
    }

    /// Whether a worker is lost. It takes no memory.
    pub fn is_lost(&self, worker: u32) -> bool
        requires going { self.now.board.stopped ≡ false }
        ensures { result ≡ list_any (nat_eq worker) self.now.board.table.gone }
    {
        has(&self.lost, worker)
    }

    /// Whether an order of this number is out. It takes no memory.
    pub fn is_out(&self, number: u64) -> bool
        ensures { result ≡ is_some (find_order number self.now.board.orders) }
    {
        find(&self.orders, number).is_some()
    }
}

impl<K: Drop, N: Namer + Drop> Master<K, N> {
    // Takes a report that fits its order, unless something was missing.
    fn take(&mut self, report: Report) -> Result<Now, Stop>
        requires going { self.old.board.stopped ≡ false }
        requires fits { (x : b.Order P) × (find_order report.number self.old.board.orders ≡ Some x.out)
            × FitsUnlessMissing (N.digest self.old.namer) self.old.shelves self.old.script self.old.board x report.spawned.items report.copied.items report.end }
        ensures accepted { OnOk result ((x : b.OrderOut) × (find_order report.number self.old.board.orders ≡ Some x)
            × (self.new ≡ record self.old {
              board = accepted (N.digest self.old.namer) worker_of self.old.board x report.spawned.items (report_end report);
            })) }
        ensures learned { OnOk result (LearnedFor (N.digest self.old.namer) report.end report.spawned.items self.old.board.table) }
        ensures now { IfOk result (λ now. now ≡ now_of report.end) }
        ensures journal { OnErr result (self.new.board.journal ≡ self.old.board.journal) }
        ensures stopped { OnErr result (self.new.board.stopped ≡ true) }
        ensures refused { IfErr result (λ e. FirstStops (N.digest self.old.namer) report.spawned.items self.old.board.table e) }
        ensures unplaced { IfErr result (λ e. UnlessMemory e (self.new ≡ record self.old {
          board = refused_at (N.digest self.old.namer) self.old.board report.spawned.items;
        })) }
    {
        self.stopped = true;
        let Report {
            number,
            spawned,
            copied,
            end,
            ..
        } = report;
        let Some(order) = find(&self.orders, number) else {
            unreachable!()
        };
        let last = is_last(&order.task, &end, copied.as_slice());
        learn_for(&mut self.ready, &self.shop.namer, spawned.as_slice(), &end)?;
        let room = self.plan.losses.len();
        let now = take_end(
            self.alloc,
            &mut self.ready,
            &mut self.journal,
            &order,
            copied.as_slice(),
            end,
            room,
        )?;
        close_order(&mut self.ready, &mut self.orders, &order);
        self.closes += 1;
        self.stopped = last;
        Ok(now)
    }
}
