//! The plan of a run.

ghost use Rattle.std.specs.Prelude.{◌≡◌, ◌<◌, ◌^◌, length};

use std::marker::Model;

/// Losses, numbered from 0: each a count of closed Starts and the worker that is lost as soon as it is reached. Their numbers have
/// 32 bits.
#[derive(Drop)]
pub struct Losses {
    items: Vec<(u32, u32)>,
}

impl Model for Losses {
    ghost use Rattle.std.specs.Prelude.{List, ℕ, ◌<◌, ◌^◌, length};

    ghost Value = { List (ℕ × ℕ) };

    ghost view = { λ a. a.items.items };

    ghost invariant = { λ a. length a.items.items < 2 ^ 32 };
}

impl Losses {
    /// The losses, in order.
    pub fn of(items: Vec<(u32, u32)>) -> Losses
        requires few { length items.items < 2 ^ 32 }
        ensures { result ≡ items.items }
    {
        Losses { items }
    }

    /// How many there are.
    pub fn len(&self) -> usize
        ensures len { result ≡ length self.now }
        ensures few { result < 2 ^ 32 }
    {
        self.items.len()
    }

    /// The losses in order.
    pub fn as_slice(&self) -> &[(u32, u32)]
        ensures losses { result.now ≡ self.now }
        ensures few { length self.now < 2 ^ 32 }
    {
        self.items.as_slice()
    }
}

/// How many workers there are, the seed number, and the losses.
#[derive(Drop)]
pub struct RunPlan {
    pub workers: u32,
    pub seed: u64,
    pub losses: Losses,
}
