// The seats at the words. Contracts see each as the words that it is a seat at and a list of losses.

ghost use Rattle.std.specs.Prelude.{◌≡◌, true, false, []};
ghost use Rattle.ciel_store.specs.Seen.{SeatSeen};
ghost use Rattle.ciel_store.specs.Words.{eye};

use crate::rule::WordSeat;
use std::marker::Model;

/// The seat that marks losses. Contracts see those that it has marked.
#[derive(Drop)]
pub struct Marker {
    pub(crate) seat: WordSeat,
}

impl Model for Marker {
    ghost Value = { SeatSeen };

    ghost view = { λ m. record { of = m.seat.table_id; losses = m.seat.me.0.own } };

    ghost invariant = { λ m. (m.seat.me.0.marks ≡ true) × (m.seat.me.1 ≡ []) };
}

/// A worker's seat. Contracts see the losses that it has seen.
#[derive(Drop)]
pub struct Eye {
    pub(crate) seat: WordSeat,
}

impl Model for Eye {
    ghost Value = { SeatSeen };

    ghost view = { λ m. record { of = m.seat.table_id; losses = m.seat.me.0.own } };

    ghost invariant = { λ m. (m.seat.me.0.marks ≡ false) × (m.seat.me.1 ≡ []) };
}

/// What an eye has seen, to be handed to the marker.
#[derive(Drop)]
pub struct Seen {
    pub(crate) seat: WordSeat,
}

impl Model for Seen {
    ghost Value = { SeatSeen };

    ghost view = { λ m. record { of = m.seat.table_id; losses = m.seat.me.0.own } };

    ghost invariant = { λ m. (m.seat.me.0.marks ≡ false) × (m.seat.me.1 ≡ []) };
}
