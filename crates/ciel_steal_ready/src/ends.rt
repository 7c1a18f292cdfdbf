//! The ends by which a thread takes jobs: its own queue, the shared one, and those of the other seats. They are generic in the rule of the
//! queues, so that what they say of an empty queue can come from a look at it alone.

ghost use Rattle.std.specs.Prelude.{◌≡◌, ℕ, ◌<◌, ◌≤◌, List, [], ◌∷◌, length, take, All, IfOk, MatchOption};
ghost use Rattle.std.specs.Arc.{arc_value};
ghost use Rattle.crossbeam_deque.specs.Tasks.{Pushes, Takes, Finds, Admits};
ghost use Rattle.crossbeam_deque.specs.Handles.{IsPassOf, stealer_deque, worker_flavor, worker_view, stealer_flavor};
ghost use Rattle.crossbeam_deque.specs.Injected.{IsInjectorPassOf, injector_view};
ghost use Rattle.ciel_steal_ready.specs.Found.{EndsSeen, Got, Stolen, FoundEmpty};
ghost use Rattle.ciel_steal_ready.specs.Seen.{known};

use crossbeam_deque::protocol::{Outcome, Protocol};
use crossbeam_deque::{Injector, InjectorPass, Pass, Steal, Stealer, Worker};
use std::alloc::Global;
use std::marker::Model;
use std::sync::{Arc, Wait};

// The most jobs of a batch.
const BATCH: usize = 8;

/// The queue of another seat. Contracts see what the pass knows.
#[derive(Drop)]
pub struct Other<T: Drop, V, P: Protocol<T, V>> {
    pub(crate) thief: Stealer<T, Global, V, P>,
    pub(crate) pass: Pass<T, V>,
}

impl<T: Drop, V, P: Protocol<T, V>> Model for Other<T, V, P> {
    ghost use Rattle.std.specs.Prelude.{◌≡◌};
    ghost use Rattle.crossbeam_deque.specs.Handles.{IsPassOf, stealer_deque, stealer_flavor};
    ghost use Rattle.ciel_steal_ready.specs.Seen.{known};

    ghost Value = { V };

    ghost view = { λ o. known o.pass };

    ghost invariant = { λ o. IsPassOf (stealer_deque o.thief) o.pass × (stealer_flavor o.thief ≡ 0) };
}

// The front of a queue, which is tried for as long as another thread was faster.
fn steal<T: Drop, V, P: Protocol<T, V>, M: Outcome<T, V>, R: Wait>(
    rt: &R,
    thief: &Stealer<T, Global, V, P>,
    pass: &mut Pass<T, V>,
) -> Option<T>
    requires pass { IsPassOf (stealer_deque thief.now) pass.old }
    requires fifo { stealer_flavor thief.now ≡ 0 }
    requires takes { (port : ℕ) (v : V) (most : ℕ) → Takes P.holds port v most (M.then v) }
    requires finds { (port : ℕ) (v : V) → Finds P.holds port v (M.empty v) }
    ensures pass { IsPassOf (stealer_deque thief.now) pass.new }
    ensures stolen { MatchOption result ((known pass.new ≡ known pass.old) × M.empty (known pass.old))
        (λ x. M.then (known pass.old) (x ∷ []) (known pass.new)) }
{
    for _ in rt.forever() {
        match thief.steal_as::<M>(pass) {
            Steal::Success(job) => return Some(job),
            Steal::Empty => return None,
            Steal::Retry => {}
        }
    }
    unreachable!()
}

impl<T: Drop, V, P: Protocol<T, V>> Other<T, V, P> {
    // The front of its queue.
    fn steal<M: Outcome<T, V>, R: Wait>(&mut self, rt: &R) -> Option<T>
        requires takes { (port : ℕ) (v : V) (most : ℕ) → Takes P.holds port v most (M.then v) }
        requires finds { (port : ℕ) (v : V) → Finds P.holds port v (M.empty v) }
        ensures stolen { MatchOption result ((self.new ≡ self.old) × M.empty self.old) (λ x. M.then self.old (x ∷ []) self.new) }
    {
        steal::<T, V, P, M, R>(rt, &self.thief, &mut self.pass)
    }
}

// The front of the first other queue that isn't empty.
fn steal_one<T: Drop, V, P: Protocol<T, V>, M: Outcome<T, V>, N: Outcome<T, V>, R: Wait>(
    rt: &R,
    others: &mut Vec<Other<T, V, P>>,
) -> Option<T>
    requires takes { (port : ℕ) (v : V) (most : ℕ) → Takes P.holds port v most (M.then v) }
    requires finds { (port : ℕ) (v : V) → Finds P.holds port v (M.empty v) }
    ensures stolen { MatchOption result ((others.new.items ≡ others.old.items) × All M.empty others.old.items)
        (λ x. Stolen M.then N.then x others.old.items others.new.items) }
{
    for at in 0..others.len() {
        let stolen = others[at].steal::<M, R>(rt);
        if stolen.is_some() {
            return stolen;
        }
    }
    None
}

/// What a thread takes jobs by. Contracts see what it knows of each queue.
pub struct Ends<T: Drop, V, P: Protocol<T, V>> {
    pub(crate) own: Worker<T, Global, V, P>,
    pub(crate) shared: Arc<Injector<T, Global, V, P>, Global>,
    pub(crate) pass: InjectorPass<T, V>,
    pub(crate) others: Vec<Other<T, V, P>>,
}

impl<T: Drop, V, P: Protocol<T, V>> Model for Ends<T, V, P> {
    ghost use Rattle.std.specs.Prelude.{◌≡◌};
    ghost use Rattle.std.specs.Arc.{arc_value};
    ghost use Rattle.crossbeam_deque.specs.Handles.{worker_flavor};
    ghost use Rattle.crossbeam_deque.specs.Injected.{IsInjectorPassOf};
    ghost use Rattle.ciel_steal_ready.specs.Found.{EndsSeen};
    ghost use Rattle.ciel_steal_ready.specs.Seen.{known_by, known_own};

    ghost Value = { EndsSeen V };

    ghost view = { λ e. record { own = known_own e.own; shared = known_by e.pass; others = e.others.items } };

    ghost invariant = { λ e. IsInjectorPassOf (arc_value e.shared) e.pass × (worker_flavor e.own ≡ 0) };
}

// Written here, so that each exit of a function that holds one has one call and not the drops of all that it owns.
impl<T: Drop, V, P: Protocol<T, V>> Drop for Ends<T, V, P> {
    fn drop(self) {
        let Ends {
            own: _,
            shared: _,
            pass: _,
            others: _,
        } = self;
    }
}

// The first of a batch of the shared queue, whose others join the own one.
fn fetch<T: Drop, V, P: Protocol<T, V>, M: Outcome<T, V>, N: Outcome<T, V>, R: Wait>(
    rt: &R,
    shared: &Injector<T, Global, V, P>,
    pass: &mut InjectorPass<T, V>,
    own: &mut Worker<T, Global, V, P>,
) -> Option<T>
    requires pass { IsInjectorPassOf shared.now pass.old }
    requires fifo { worker_flavor own.old ≡ 0 }
    requires takes { (port : ℕ) (v : V) (most : ℕ) → Takes P.holds port v most (M.then v) }
    requires finds { (port : ℕ) (v : V) → Finds P.holds port v (M.empty v) }
    requires pushes { (port : ℕ) (v : V) (xs : List T) → Pushes P.holds port v xs (N.then v xs) }
    requires admits { Admits P.holds P.guest }
    ensures pass { IsInjectorPassOf shared.now pass.new }
    ensures fifo { worker_flavor own.new ≡ 0 }
    ensures fetched { MatchOption result
        ((injector_view pass.new ≡ injector_view pass.old) × (worker_view own.new ≡ worker_view own.old) × M.empty (injector_view pass.old))
        (λ x. (rest : List T) × M.then (injector_view pass.old) (x ∷ rest) (injector_view pass.new)
        × N.then (worker_view own.old) rest (worker_view own.new)) }
{
    for _ in rt.forever() {
        match shared.steal_batch_and_pop_as::<Global, V, P, M, N, R>(rt, pass, own, BATCH) {
            Steal::Success(job) => return Some(job),
            Steal::Empty => return None,
            Steal::Retry => {}
        }
    }
    unreachable!()
}

impl<T: Drop, V, P: Protocol<T, V>> Ends<T, V, P> {
    /// The front of the own queue; else the first of a batch from the shared one, whose others join the own; else the front of
    /// another seat's. `None` only where each of them was empty at a moment of this call.
    pub fn find<M: Outcome<T, V>, N: Outcome<T, V>, R: Wait>(&mut self, rt: &R) -> Option<T>
        requires takes { (port : ℕ) (v : V) (most : ℕ) → Takes P.holds port v most (M.then v) }
        requires finds { (port : ℕ) (v : V) → Finds P.holds port v (M.empty v) }
        requires pushes { (port : ℕ) (v : V) (xs : List T) → Pushes P.holds port v xs (N.then v xs) }
        requires admits { Admits P.holds P.guest }
        ensures found { MatchOption result ((self.new ≡ self.old) × FoundEmpty M.empty self.old) (λ x. Got M.then N.then x self.old self.new) }
    {
        if let Some(job) = self.own.pop_as::<M>() {
            return Some(job);
        }
        let fetched = fetch::<T, V, P, M, N, R>(rt, &self.shared, &mut self.pass, &mut self.own);
        if fetched.is_some() {
            return fetched;
        }
        steal_one::<T, V, P, M, N, R>(rt, &mut self.others)
    }
}
