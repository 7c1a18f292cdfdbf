// Channels of bells. A bell carries no fact: it says that it is worth while to look at a desk. Each end notes its own bells, for proofs alone.

ghost use Rattle.std.specs.Prelude.{◌≡◌, ◌<◌, ◌++◌, [], ◌∷◌, IfOk, replicate};
ghost use Rattle.ciel_crew_lanes.specs.Seen.{BellsSeen, known};
ghost use Rattle.crossbeam_channel.specs.Claims.{IsSeatAt};
ghost use Rattle.crossbeam_channel.specs.Ends.{sends_on, receives_on, ruled_capacity};

use crossbeam_channel::protocol::{Lesson, Outcome, Protocol, Split};
use crossbeam_channel::{Pass, RuledReceiver, RuledSender, bounded_with};
use std::alloc::{AllocError, Global};
use std::collections::LinkedList;
use std::marker::Model;
use std::sync::Wait;

// The rule of bells, which asks nothing. A step tells that the end has noted its bell, and a further end has noted none.
struct Noted;

impl<T> Protocol<T, LinkedList<T>> for Noted {
    ghost use Rattle.std.specs.Prelude.{⊤};

    ghost holds = { λ items views. ⊤ };

    ghost first = { [] };
}

impl<T> Outcome<T, LinkedList<T>> for Noted {
    ghost then = { λ bells bell after. after ≡ bells ++ bell ∷ [] };
}

impl<T> Lesson<T, LinkedList<T>> for Noted {
    ghost use Rattle.std.specs.Prelude.{⊤};

    ghost fact = { λ bells items. ⊤ };
}

impl<T> Split<LinkedList<T>> for Noted {
    ghost left = { λ bells. bells };

    ghost right = { λ bells. [] };
}

type BellPass<T> = Pass<T, LinkedList<T>>;

type BellSender<T> = RuledSender<T, LinkedList<T>, Noted>;

type BellReceiver<T> = RuledReceiver<T, LinkedList<T>, Noted>;

/// The end that rings. Contracts see which channel it is at, for how many bells there is room, and the bells that it rang.
pub struct Ringer<T: Drop> {
    to: BellSender<T>,
    pass: BellPass<T>,
}

impl<T: Drop> Model for Ringer<T> {
    ghost Value = { BellsSeen T };

    ghost view = { λ r. record { at = r.pass.table_id; room = ruled_capacity (sends_on r.to); bells = known r.pass } };

    ghost invariant = { λ r. IsSeatAt (sends_on r.to) r.pass };
}

// Written here, so that each exit of a function that holds one has one call and not the drops of all that it owns.
impl<T: Drop> Drop for Ringer<T> {
    fn drop(self) {
        let Ringer { to: _, pass: _ } = self;
    }
}

/// The end that hears. Contracts see which channel it is at, for how many bells there is room, and the bells that it heard.
pub struct Listener<T: Drop> {
    from: BellReceiver<T>,
    pass: BellPass<T>,
}

impl<T: Drop> Model for Listener<T> {
    ghost Value = { BellsSeen T };

    ghost view = { λ l. record { at = l.pass.table_id; room = ruled_capacity (receives_on l.from); bells = known l.pass } };

    ghost invariant = { λ l. IsSeatAt (receives_on l.from) l.pass };
}

impl<T: Drop> Drop for Listener<T> {
    fn drop(self) {
        let Listener { from: _, pass: _ } = self;
    }
}

// Rings, and again for as long as the bell comes back.
fn ring_on<T: Drop, R: Wait>(rt: &R, to: &BellSender<T>, pass: &mut BellPass<T>, mut bell: T)
    requires seat { IsSeatAt (sends_on to.now) pass.old }
    ensures seat { IsSeatAt (sends_on to.now) pass.new }
    ensures rung { known pass.new ≡ known pass.old ++ bell ∷ [] }
{
    for _ in rt.forever() {
        match to.send_as::<Noted, R>(rt, pass, bell) {
            Ok(()) => return,
            Err(error) => bell = error.into_inner(),
        }
    }
    unreachable!()
}

// The next bell, which it waits for, and again where the channel gave none.
fn hear_on<T: Drop, R: Wait>(rt: &R, from: &BellReceiver<T>, pass: &mut BellPass<T>) -> T
    requires seat { IsSeatAt (receives_on from.now) pass.old }
    ensures seat { IsSeatAt (receives_on from.now) pass.new }
    ensures heard { known pass.new ≡ known pass.old ++ result ∷ [] }
{
    for _ in rt.forever() {
        if let Ok(bell) = from.recv_as::<Noted, R>(rt, pass) {
            return bell;
        }
    }
    unreachable!()
}

impl<T: Drop> Ringer<T> {
    /// Rings, and waits where the channel is full.
    pub fn ring<R: Wait>(&mut self, rt: &R, bell: T)
        ensures rung { self.new ≡ record self.old { bells = self.old.bells ++ bell ∷ [] } }
    {
        ring_on(rt, &self.to, &mut self.pass, bell);
    }

    /// A second end that rings at the same channel, so the same listener. It has rung nothing yet.
    ///
    /// Answers `AllocError` for want of memory.
    pub fn again(&mut self) -> Result<Ringer<T>, AllocError>
        ensures same { self.new ≡ self.old }
        ensures again { IfOk result (λ r. r ≡ record self.old { bells = [] }) }
    {
        let to = self.to.try_clone()?;
        let pass = to.another::<Noted>(&mut self.pass);
        Ok(Ringer { to, pass })
    }
}

impl<T: Drop> Listener<T> {
    /// The next bell, which it waits for.
    pub fn hear<R: Wait>(&mut self, rt: &R) -> T
        ensures heard { self.new ≡ record self.old { bells = self.old.bells ++ result ∷ [] } }
    {
        hear_on(rt, &self.from, &mut self.pass)
    }
}

/// The two ends of a channel of bells with room for so many.
///
/// Answers `AllocError` for want of memory.
pub fn bells<T: Drop>(alloc: Global, room: usize) -> Result<(Ringer<T>, Listener<T>), AllocError>
    requires room { 0 < room }
    ensures one { IfOk result (λ r. r.1 ≡ r.0) }
    ensures room { IfOk result (λ r. r.0.room ≡ room) }
    ensures none { IfOk result (λ r. r.0.bells ≡ []) }
{
    let (to, from, mut pass) = bounded_with::<T, LinkedList<T>, Noted, Global>(alloc, room)?;
    let other = to.another::<Noted>(&mut pass);
    Ok((Ringer { to, pass }, Listener { from, pass: other }))
}

/// The ends of a channel of bells with room for so many: one that rings, and so many that hear. Each bell is heard at one of them.
///
/// Answers `AllocError` for want of memory.
pub fn bells_of<T: Drop>(
    alloc: Global,
    room: usize,
    ears: usize,
) -> Result<(Ringer<T>, Vec<Listener<T>>), AllocError>
    requires room { 0 < room }
    ensures room { IfOk result (λ r. r.0.room ≡ room) }
    ensures none { IfOk result (λ r. r.0.bells ≡ []) }
    ensures ears { IfOk result (λ r. r.1.items ≡ replicate ears r.0) }
{
    let made = bounded_with::<T, LinkedList<T>, Noted, Global>(alloc, room);
    let (to, from, mut pass) = made?;
    let mut all = Vec::new(alloc);
    for _ in 0..ears {
        let pass = to.another::<Noted>(&mut pass);
        let from = from.try_clone()?;
        all.push(Listener { from, pass })?;
    }
    Ok((Ringer { to, pass }, all))
}
