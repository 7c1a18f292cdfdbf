//! The rule of each queue: what was put is what was taken and what it holds. What a pass knows is seen by proofs alone.

use crossbeam_deque::protocol::{Outcome, Protocol};
use std::collections::LinkedList;

/// What a pass has put and taken. No value of it is made.
pub struct Hand<T> {
    pub put: LinkedList<T>,
    pub taken: LinkedList<T>,
}

/// The rule of a queue.
pub struct Fair;

impl<T> Protocol<T, Hand<T>> for Fair {
    ghost use Rattle.ciel_steal_ready.specs.Balance.{Balanced, idle};

    ghost holds = { Balanced };

    ghost first = { idle };

    ghost guest = { idle };
}

/// What a put tells.
pub struct Puts;

impl<T> Outcome<T, Hand<T>> for Puts {
    ghost use Rattle.std.specs.Prelude.{◌≡◌};
    ghost use Rattle.ciel_steal_ready.specs.Balance.{has_put};

    ghost then = { λ v xs w. w ≡ has_put v xs };
}
