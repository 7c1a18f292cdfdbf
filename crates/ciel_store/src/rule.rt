// The rule of the words, and what each step at them tells (`specs/Words`); these types hand both to the table.

use crate::loss::View;
use atomic_table::{Join, Play, Seat, Split, Table, TableRule};
use std::alloc::Global;

/// The rule of the words.
pub struct Law;

impl TableRule<(), View, u64> for Law {
    ghost use Rattle.std.specs.Prelude.{[]};
    ghost use Rattle.ciel_store.specs.Words.{Kept, marker};

    ghost holds = { Kept };

    ghost first = { λ _. marker [] [] };
}

/// What the marking of a loss tells.
pub struct Marks;

impl Play<(), View> for Marks {
    ghost use Rattle.std.specs.Prelude.{◌≡◌};
    ghost use Rattle.ciel_store.specs.Words.{HasMarked};

    ghost then = { λ st m n w. HasMarked st.word st.second m.0 n w.0 × (w.1 ≡ m.1) };
}

/// What a load of a worker's word tells an eye.
pub struct Looks;

impl Play<(), View> for Looks {
    ghost use Rattle.std.specs.Prelude.{◌≡◌};
    ghost use Rattle.ciel_store.specs.Words.{HasLooked};

    ghost then = { λ st m n w. HasLooked st.word m.0 n w.0 × (w.1 ≡ m.1) };
}

/// What a load tells the marker after it took a list that was seen.
pub struct Confirms;

impl Play<(), View> for Confirms {
    ghost use Rattle.std.specs.Prelude.{◌≡◌};
    ghost use Rattle.ciel_store.specs.Words.{AllIn};

    ghost then = { λ st m n w. (w ≡ m) × AllIn m.0.beside m.0.own };
}

/// A new eye, which has seen nothing.
pub struct NewEye;

impl Split<View> for NewEye {
    ghost use Rattle.std.specs.Prelude.{[]};
    ghost use Rattle.ciel_store.specs.Words.{eye};

    ghost left = { λ v. v };

    ghost right = { λ v. eye [] };
}

/// A seat that has seen what an eye has.
pub struct Shows;

impl Split<View> for Shows {
    ghost use Rattle.ciel_store.specs.Words.{eye};

    ghost left = { λ v. v };

    ghost right = { λ v. eye v.own };
}

/// The marker takes what a seat has seen.
pub struct Takes;

impl Join<View> for Takes {
    ghost use Rattle.std.specs.Prelude.{[]};
    ghost use Rattle.ciel_store.specs.Words.{eye, marker};

    ghost both = { λ v w. marker v.own w.own };

    ghost spent = { eye [] };
}

/// A word for each worker.
pub type Words = Table<(), View, u64, Law, Global>;

/// A seat at the words.
pub type WordSeat = Seat<(), View>;
