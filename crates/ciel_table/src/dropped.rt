//! The workers that were dropped. That a place is never at one of them is a condition of the calls that add one, so no
//! code has to look; and dropping a worker may take no memory. So the list stands in contracts alone.

ghost use Rattle.std.specs.Prelude.{◌≡◌, ℕ, List, [], ◌∷◌, ◌++◌};
ghost use Rattle.std.specs.Borrow.{ftrue};

use std::marker::Model;

/// The workers that were dropped, in order. It takes no bytes, and its calls do nothing.
#[derive(Drop)]
pub(crate) struct Dropped {
    pub(crate) ghost workers: { List ℕ },
}

impl Model for Dropped {
    ghost also_owns = { λ _. ftrue };
}

impl Dropped {
    /// None.
    pub(crate) fn new() -> Dropped
        ensures { result.workers ≡ [] }
    {
        Dropped {}
    }

    /// These, and one more.
    pub(crate) fn with(_before: &Dropped, _worker: &u32) -> Dropped
        ensures { result.workers ≡ _before.now.workers ++ _worker.now ∷ [] }
    {
        Dropped {}
    }
}
