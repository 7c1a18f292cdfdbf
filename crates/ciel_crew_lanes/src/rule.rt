// The rule of a desk, and what each step at it tells. The rule is a fact about what lies on the desk and what its
// two passes know (`specs/Desk`); these types hand it to the channel.
use crate::notes::{Knows, Note};
use crate::work::Work;
use crossbeam_channel::protocol::{Lesson, Outcome, Protocol, Split};
use crossbeam_channel::{Pass, RuledReceiver, RuledSender};
use std::marker::PhantomData;

/// The rule of a desk.
pub struct Law<W> {
    of: PhantomData<W>,
}

impl<W: Work> Protocol<Note<W::In, W::Out>, Knows<W::In>> for Law<W> {
    ghost use Rattle.ciel_crew_lanes.specs.Desk.{Stands, alone};

    ghost holds = { Stands W.takes W.fits };

    ghost first = { alone };
}

/// What a put tells.
pub struct Puts<W> {
    of: PhantomData<W>,
}

impl<W: Work> Outcome<Note<W::In, W::Out>, Knows<W::In>> for Puts<W> {
    ghost use Rattle.ciel_crew_lanes.specs.Desk.{HasPut};

    ghost then = { HasPut };
}

impl<W: Work> Lesson<Note<W::In, W::Out>, Knows<W::In>> for Puts<W> {
    ghost use Rattle.std.specs.Prelude.{⊤};

    ghost fact = { λ v items. ⊤ };
}

/// What a take tells.
pub struct Takes<W> {
    of: PhantomData<W>,
}

impl<W: Work> Outcome<Note<W::In, W::Out>, Knows<W::In>> for Takes<W> {
    ghost use Rattle.ciel_crew_lanes.specs.Desk.{HasTaken};

    ghost then = { HasTaken W.takes W.fits };
}

impl<W: Work> Lesson<Note<W::In, W::Out>, Knows<W::In>> for Takes<W> {
    ghost use Rattle.std.specs.Prelude.{⊤};

    ghost fact = { λ v items. ⊤ };
}

/// How the first pass of a desk becomes the master's and the worker's.
pub struct Seats;

impl<I> Split<Knows<I>> for Seats {
    ghost use Rattle.ciel_crew_lanes.specs.Desk.{fresh_master, fresh_worker};

    ghost left = { λ v. fresh_master };

    ghost right = { λ v. fresh_worker };
}

/// A pass of a desk.
pub type DeskPass<W> = Pass<Note<<W as Work>::In, <W as Work>::Out>, Knows<<W as Work>::In>>;

/// The end of a desk on which notes are put.
pub type DeskSender<W> = RuledSender<
    Note<<W as Work>::In, <W as Work>::Out>,
    Knows<<W as Work>::In>,
    Law<W>,
>;

/// The end of a desk from which notes are taken.
pub type DeskReceiver<W> = RuledReceiver<
    Note<<W as Work>::In, <W as Work>::Out>,
    Knows<<W as Work>::In>,
    Law<W>,
>;
