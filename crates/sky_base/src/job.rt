// A job: a script, and the inputs that it is run on.

ghost use Rattle.std.specs.Prelude.{◌≡◌};

use crate::script::Script;
use crate::text::{Bytes, Txt};
use std::marker::Model;

/// The inputs of a job, each with its name. Contracts see them as a list of pairs.
#[derive(Drop)]
pub struct Inputs {
    items: Vec<(Txt, Bytes)>,
}

impl Model for Inputs {
    ghost use Rattle.std.specs.Prelude.{List, ℕ};

    ghost Value = { List (List ℕ × List ℕ) };

    ghost view = { λ a. a.items.items };
}

impl Inputs {
    /// The inputs, in order.
    pub fn of(items: Vec<(Txt, Bytes)>) -> Inputs
        ensures { result ≡ items.items }
    {
        Inputs { items }
    }

    /// The inputs themselves.
    pub fn as_slice(&self) -> &[(Txt, Bytes)]
        ensures { result.now ≡ self.now }
    {
        self.items.as_slice()
    }
}

/// A script with its inputs, which stand in the order of the script's `keys`. What it stands for is
/// `job_view` of specs/JobView.
#[derive(Drop)]
pub struct Job {
    pub script: Script,
    pub inputs: Inputs,
}
