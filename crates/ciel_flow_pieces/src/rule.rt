//! The rule of the channel, and what each step at it tells.

ghost use Rattle.ciel_flow_pieces.specs.declared.piece.Source.{Source as SourceSeen};

use crate::piece::{Knows, Piece};
use crossbeam_channel::protocol::{Lesson, Outcome, Protocol, Split};
use std::marker::{Brand, PhantomData};

/// The rule.
pub struct Law;

impl Protocol<Piece, Knows> for Law {
    ghost use Rattle.ciel_flow_pieces.specs.Pieces.{Stands, alone};

    ghost holds = { Stands };

    ghost first = { alone };
}

/// What a put tells.
pub struct Puts;

impl Outcome<Piece, Knows> for Puts {
    ghost use Rattle.ciel_flow_pieces.specs.Pieces.{HasPut};

    ghost then = { HasPut };
}

impl Lesson<Piece, Knows> for Puts {
    ghost use Rattle.std.specs.Prelude.{⊤};

    ghost fact = { λ v items. ⊤ };
}

/// What a take tells.
pub struct Takes;

impl Outcome<Piece, Knows> for Takes {
    ghost use Rattle.ciel_flow_pieces.specs.Pieces.{HasTaken};

    ghost then = { HasTaken };
}

impl Lesson<Piece, Knows> for Takes {
    ghost use Rattle.std.specs.Prelude.{⊤};

    ghost fact = { λ v items. ⊤ };
}

/// What a stream is of. Each call that makes one picks it.
pub trait Origin {
    ghost source: { SourceSeen };
}

impl Origin for Brand {
    ghost use Rattle.ciel_flow_pieces.specs.Pieces.{nothing};

    ghost source = { nothing };
}

/// How the first pass of a channel becomes the producer's and the follower's.
pub struct Begins<S> {
    of: PhantomData<S>,
}

impl<S: Origin> Split<Knows> for Begins<S> {
    ghost use Rattle.std.specs.Prelude.{[]};
    ghost use Rattle.ciel_flow_pieces.specs.Pieces.{producer, follower};

    ghost left = { λ v. producer S.source [] };

    ghost right = { λ v. follower S.source [] };
}
