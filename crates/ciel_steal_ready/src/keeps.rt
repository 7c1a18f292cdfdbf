//! Rules under which seats can work.

use crate::rule::{Fair, Hand};
use crossbeam_deque::protocol::{Outcome, Protocol};
use std::marker::PhantomData;

/// A rule of a queue under which puts and takes can go on, and what it tells one who finds the queue empty.
///
/// That the rule holds at the start is asked where queues are opened, and is no law here: else a `take` could make up a run that leaves
/// its queues empty, in place of a look.
pub trait Keeps<T>: Protocol<T, Hand<T>> {
    ghost use Rattle.std.specs.Prelude.{◌≡◌, ℕ, List};
    ghost use Rattle.ciel_steal_ready.specs.declared.rule.Hand.{Hand};
    ghost use Rattle.crossbeam_deque.specs.Tasks.{Pushes, Takes, Finds, Admits};
    ghost use Rattle.ciel_steal_ready.specs.Balance.{has_put, has_taken, idle};

    ghost empty: { Hand T → Type 0 };

    ghost takes: { (port : ℕ) (v : Hand T) (most : ℕ) → Takes Self.holds port v most (λ xs w. w ≡ has_taken v xs) };

    ghost finds: { (port : ℕ) (v : Hand T) → Finds Self.holds port v (empty v) };

    ghost pushes: { (port : ℕ) (v : Hand T) (xs : List T) → Pushes Self.holds port v xs (λ w. w ≡ has_put v xs) };

    ghost admits: { Admits Self.holds Self.guest };

    ghost first_is: { Self.first ≡ idle };

    ghost guest_is: { Self.guest ≡ idle };
}

impl<T> Keeps<T> for Fair {
    ghost use Rattle.ciel_steal_ready.specs.Balance.{WasEmpty};
    ghost use Rattle.ciel_steal_ready.specs.Balancing.{takes, finds, puts, admits};
    ghost use Rattle.std.specs.Prelude.{refl};

    ghost empty = { WasEmpty };

    ghost takes = { takes };

    ghost finds = { finds };

    ghost pushes = { puts };

    ghost admits = { admits };

    ghost first_is = { refl };

    ghost guest_is = { refl };
}

/// What a take tells, and what one learns that finds the queue empty.
pub struct Took<P> {
    of: PhantomData<P>,
}

impl<T, P: Keeps<T>> Outcome<T, Hand<T>> for Took<P> {
    ghost use Rattle.std.specs.Prelude.{◌≡◌};
    ghost use Rattle.ciel_steal_ready.specs.Balance.{has_taken};

    ghost then = { λ v xs w. w ≡ has_taken v xs };

    ghost empty = { P.empty };
}
