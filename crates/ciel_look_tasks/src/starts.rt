//! The orders of a run.

ghost use Rattle.std.specs.Prelude.{◌≡◌, ◌+◌, [], ◌∷◌, ◌++◌, ℕ, List, IfOk, IfSome, MatchOption, None, Some, is_some, length, map};
ghost use Rattle.std.specs.Prelude.{set, slice_get};
ghost use Rattle.std.specs.BTreeMap.{get};
ghost use Rattle.std.specs.Option.{option_map};
ghost use Rattle.std.specs.Ordering.{nat_cmp};
ghost use Rattle.ciel_look_told.specs.Told.{Outcome};
ghost use Rattle.ciel_look_tasks.specs.CutPlaces.{if_out, out_places};
ghost use Rattle.ciel_look_tasks.specs.Happened.{closing};
ghost use Rattle.ciel_look_tasks.specs.Orders.{Ending, closed, cut, cut_so_far, ended, is_open_at, is_out, is_out_at, last_of, out};
ghost use Rattle.ciel_look_tasks.specs.ReportView.{makes_view, takes_view, whose};
ghost use Rattle.ciel_look_tasks.specs.SceneView.{made_how};
ghost use Rattle.ciel_look_tasks.specs.Tasks.{Start};
ghost use Rattle.ciel_look_tasks.specs.View.{agains_view, ending_view, how_ending, numbers, order_ends, orders_view, starts_view};

use crate::places::push;
use crate::scene::{End, How, Run};
use sky_base::object::TaskId;
use sky_base::text::Memory;
use std::alloc::Global;
use std::collections::BTreeMap;

/// An order that is out: its place, its worker, and its task.
#[derive(Clone, Copy)]
pub struct Held {
    pub run: usize,
    pub worker: u32,
    pub id: TaskId,
}

/// The orders, and the place of the last one of each number.
#[derive(Drop)]
pub struct Starts {
    pub runs: Vec<Run>,
    pub run_of: BTreeMap<u64, usize>,
    ghost last: { (n : ℕ) → get nat_cmp run_of n ≡ last_of n (numbers runs.items) },
}

impl Starts {
    /// None.
    pub fn new(alloc: Global) -> Starts
        ensures starts { starts_view result.runs.items ≡ [] }
        ensures orders { orders_view result.runs.items ≡ [] }
        ensures agains { agains_view result.runs.items ≡ [] }
        ensures took { takes_view result.runs.items ≡ [] }
        ensures made { makes_view result.runs.items ≡ [] }
    {
        Starts {
            runs: Vec::new(alloc),
            run_of: BTreeMap::new(alloc),
        }
    }

    /// One order more; its place.
    pub fn begin(&mut self, run: Run) -> Result<usize, Memory>
        ensures added { IfOk result (λ _. self.new.runs.items ≡ self.old.runs.items ++ run ∷ []) }
        ensures place { IfOk result (λ p. p ≡ length (starts_view self.old.runs.items)) }
    {
        let place = self.runs.len();
        let number = run.number;
        push(&mut self.runs, run)?;
        match self.run_of.insert(number, place) {
            Ok(_) => Ok(place),
            Err(_) => {
                self.runs.pop();
                Err(Memory)
            }
        }
    }

    /// The place of the last order of this number.
    fn place(&self, number: u64) -> Option<usize>
        ensures place { result ≡ last_of number (numbers self.now.runs.items) }
    {
        self.run_of.get(&number).copied()
    }

    /// The last order of this number, where it is out.
    pub fn order(&self, number: u64) -> Option<Held>
        ensures order { MatchOption result ((how : Outcome) → closed number how (orders_view self.now.runs.items) ≡ orders_view self.now.runs.items)
            (λ h. (s : Start) × (slice_get (orders_view self.now.runs.items) h.run ≡ Some (s, out))
            × ((how : Outcome) → closed number how (orders_view self.now.runs.items) ≡ set (orders_view self.now.runs.items) h.run (s, ended how))) }
        ensures place { option_map (λ h. h.run) result ≡ closing number (orders_view self.now.runs.items) }
        ensures start { IfSome result (λ h. option_map whose (slice_get (starts_view self.now.runs.items) h.run) ≡ Some (h.worker, h.id)) }
    {
        match self.place(number) {
            Some(place) => self.held(place),
            None => None,
        }
    }

    /// The order at a place, where it is out.
    fn held(&self, run: usize) -> Option<Held>
        ensures open { is_some result ≡ is_open_at (slice_get (orders_view self.now.runs.items) run) }
        ensures place { IfSome result (λ h. h.run ≡ run) }
        ensures start { IfSome result (λ h. option_map whose (slice_get (starts_view self.now.runs.items) h.run) ≡ Some (h.worker, h.id)) }
    {
        match self.runs.get(run) {
            Some(one) => {
                if is_out(&one.end) {
                    return Some(Held {
                        run,
                        worker: one.worker,
                        id: one.id,
                    });
                }
                None
            }
            None => None,
        }
    }

    /// The order at a place ended.
    pub fn close(&mut self, run: usize, end: End)
        ensures starts { starts_view self.new.runs.items ≡ starts_view self.old.runs.items }
        ensures agains { agains_view self.new.runs.items ≡ agains_view self.old.runs.items }
        ensures orders { (s : Start) (e : Ending) → slice_get (orders_view self.old.runs.items) run ≡ Some (s, e)
            → orders_view self.new.runs.items ≡ set (orders_view self.old.runs.items) run (s, how_ending end.how) }
        ensures took { takes_view self.new.runs.items ≡ set (takes_view self.old.runs.items) run end.took.items }
        ensures made { makes_view self.new.runs.items ≡ set (makes_view self.old.runs.items) run (made_how end.how) }
    {
        if let Some(held) = self.runs.get_mut(run) {
            held.end = Some(end);
        }
    }

    /// The orders that are out at a worker end with it; their places.
    pub fn cut(
        &mut self,
        alloc: Global,
        worker: u32,
        at: usize,
        loss: usize,
    ) -> Result<Vec<usize>, Memory>
        ensures starts { starts_view self.new.runs.items ≡ starts_view self.old.runs.items }
        ensures agains { agains_view self.new.runs.items ≡ agains_view self.old.runs.items }
        ensures took { takes_view self.new.runs.items ≡ takes_view self.old.runs.items }
        ensures made { makes_view self.new.runs.items ≡ makes_view self.old.runs.items }
        ensures orders { IfOk result (λ _. orders_view self.new.runs.items ≡ map (cut worker) (orders_view self.old.runs.items)) }
        ensures places { IfOk result (λ ps. ps.items ≡ out_places worker 0 (orders_view self.old.runs.items)) }
    {
        let mut runs = Vec::new(alloc);
        for run in 0..self.runs.len() {
            self.cut_at(alloc, &mut runs, run, worker, at, loss)?;
        }
        Ok(runs)
    }

    /// The order at a place ends with its worker, where it is out there; its place is one more of these.
    fn cut_at(
        &mut self,
        alloc: Global,
        runs: &mut Vec<usize>,
        run: usize,
        worker: u32,
        at: usize,
        loss: usize,
    ) -> Result<(), Memory>
        ensures starts { starts_view self.new.runs.items ≡ starts_view self.old.runs.items }
        ensures agains { agains_view self.new.runs.items ≡ agains_view self.old.runs.items }
        ensures took { takes_view self.new.runs.items ≡ takes_view self.old.runs.items }
        ensures made { makes_view self.new.runs.items ≡ makes_view self.old.runs.items }
        ensures orders { IfOk result (λ _. (os : List (Start × Ending)) → orders_view self.old.runs.items ≡ cut_so_far worker run os
            → orders_view self.new.runs.items ≡ cut_so_far worker (run + 1) os) }
        ensures places { IfOk result (λ _. (os : List (Start × Ending)) → orders_view self.old.runs.items ≡ cut_so_far worker run os
            → runs.new.items ≡ runs.old.items ++ if_out worker run (slice_get os run)) }
    {
        if self.is_out_at(run, worker) {
            self.close(
                run,
                End {
                    at,
                    how: How::Lost { loss },
                    took: Vec::new(alloc),
                },
            );
            push(runs, run)?;
            return Ok(());
        }
        Ok(())
    }

    /// Whether the order at a place is out at a worker.
    fn is_out_at(&self, run: usize, worker: u32) -> bool
        ensures { result ≡ is_out_at worker (slice_get (orders_view self.now.runs.items) run) }
    {
        match self.runs.get(run) {
            Some(held) => is_out_with(held, worker),
            None => false,
        }
    }
}

/// Whether an order is out at a worker.
fn is_out_with(run: &Run, worker: u32) -> bool
    ensures { result ≡ is_out_at worker (Some (order_ends run.now)) }
{
    is_out(&run.end) && worker == run.worker
}

/// Whether an order with this end is out.
fn is_out(end: &Option<End>) -> bool
    ensures { result ≡ is_out (ending_view end.now) }
{
    match end {
        None => true,
        Some(end) => match &end.how {
            How::Told {
                outcome: _,
                made: _,
            } => false,
            How::Lost { loss: _ } => false,
        },
    }
}
