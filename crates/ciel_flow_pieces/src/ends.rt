//! The two ends of a stream of pieces. One who has to wait waits; whatever comes back is put again.

ghost use Rattle.std.specs.Prelude.{◌≡◌, ◌++◌, [], ◌∷◌, IfOk};
ghost use Rattle.crossbeam_channel.specs.Claims.{view, IsSeatAt};
ghost use Rattle.crossbeam_channel.specs.Ends.{sends_on, receives_on};
ghost use Rattle.ciel_flow_pieces.specs.declared.piece.Piece.TheVariants.{Broken};
ghost use Rattle.ciel_flow_pieces.specs.Pieces.{AllParts, HasPut, HasTaken, LawOf, MayPut, MayTake};

use crate::piece::{Knows, Piece};
use crate::rule::{Begins, Law, Origin, Puts, Takes};
use crossbeam_channel::{Pass, RuledReceiver, RuledSender, bounded_with};
use sky_base::text::Txt;
use sky_base::value::Value;
use std::alloc::{AllocError, Global};
use std::marker::Model;
use std::sync::Wait;

/// How many pieces may lie in a stream. A part has at most 65,536 bytes, so at most eight times as many bytes of an output lie there.
pub const ROOM: usize = 8;

// Puts a piece, and tries again for as long as it comes back.
fn send<R: Wait>(
    rt: &R,
    to: &RuledSender<Piece, Knows, Law>,
    pass: &mut Pass<Piece, Knows>,
    mut piece: Piece,
)
    requires seat { IsSeatAt (sends_on to.now) pass.old }
    requires may { MayPut (view pass.old) piece }
    ensures seat { IsSeatAt (sends_on to.now) pass.new }
    ensures put { HasPut (view pass.old) piece (view pass.new) }
{
    for _ in rt.forever() {
        match to.send_as::<Puts, R>(rt, pass, piece) {
            Ok(()) => return,
            Err(error) => piece = error.into_inner(),
        }
    }
    unreachable!()
}

// Takes the next piece, and waits for it.
fn receive<R: Wait>(
    rt: &R,
    from: &RuledReceiver<Piece, Knows, Law>,
    pass: &mut Pass<Piece, Knows>,
) -> Piece
    requires seat { IsSeatAt (receives_on from.now) pass.old }
    requires may { MayTake (view pass.old) }
    ensures seat { IsSeatAt (receives_on from.now) pass.new }
    ensures taken { HasTaken (view pass.old) result (view pass.new) }
{
    for _ in rt.forever() {
        if let Ok(piece) = from.recv_as::<Takes, R>(rt, pass) {
            return piece;
        }
    }
    unreachable!()
}

/// The end that puts. Contracts see what the stream is of, and the pieces that were put.
pub struct Producer {
    to: RuledSender<Piece, Knows, Law>,
    pass: Pass<Piece, Knows>,
}

impl Model for Producer {
    ghost use Rattle.std.specs.Prelude.{◌≡◌};
    ghost use Rattle.std.specs.Coded.{codes};
    ghost use Rattle.sky_base.specs.Code.{pairs_code, val_code, vals_code};
    ghost use Rattle.crossbeam_channel.specs.Claims.{IsSeatAt};
    ghost use Rattle.crossbeam_channel.specs.Ends.{sends_on};
    ghost use Rattle.ciel_flow_pieces.specs.Pieces.{LawOf, StreamSeen, known, producer_seen};
    ghost use Rattle.ciel_flow_pieces.specs.declared.piece.Role.TheVariants.{Producer as IsProducer};

    ghost Value = { StreamSeen };

    ghost coded = { Prim.hlevel (codes, val_code, vals_code, pairs_code) };

    ghost view = { λ p. producer_seen (known p.pass) };

    ghost invariant = { λ p. IsSeatAt (sends_on p.to) p.pass × ((known p.pass).role ≡ IsProducer) × LawOf (known p.pass).source (known p.pass).put };
}

impl Drop for Producer {
    fn drop(self) {
        let Producer { to: _, pass: _ } = self;
    }
}

/// The end that takes. Contracts see what the stream is of, and the pieces that were taken.
pub struct Follower {
    from: RuledReceiver<Piece, Knows, Law>,
    pass: Pass<Piece, Knows>,
}

impl Model for Follower {
    ghost use Rattle.std.specs.Prelude.{◌≡◌};
    ghost use Rattle.std.specs.Coded.{codes};
    ghost use Rattle.sky_base.specs.Code.{pairs_code, val_code, vals_code};
    ghost use Rattle.crossbeam_channel.specs.Claims.{IsSeatAt};
    ghost use Rattle.crossbeam_channel.specs.Ends.{receives_on};
    ghost use Rattle.ciel_flow_pieces.specs.Pieces.{LawOf, StreamSeen, known, follower_seen};
    ghost use Rattle.ciel_flow_pieces.specs.declared.piece.Role.TheVariants.{Follower as IsFollower};

    ghost Value = { StreamSeen };

    ghost coded = { Prim.hlevel (codes, val_code, vals_code, pairs_code) };

    ghost view = { λ p. follower_seen (known p.pass) };

    ghost invariant = { λ p. IsSeatAt (receives_on p.from) p.pass × ((known p.pass).role ≡ IsFollower) × LawOf (known p.pass).source (known p.pass).taken };
}

impl Drop for Follower {
    fn drop(self) {
        let Follower { from: _, pass: _ } = self;
    }
}

/// The two ends of one stream, of the output that the call picks by these: of an executor's call, of what its inputs are told by, and of
/// what these belong to.
///
/// Answers `AllocError` for want of memory.
pub fn stream<S: Origin, I, J>(
    alloc: Global,
    executor: &Txt,
    args: &Value,
    outputs: u32,
    index: u32,
    inputs: &I,
    of: &J,
) -> Result<(Producer, Follower), AllocError>
    ensures { IfOk result (λ r. (r.0 ≡ record { source = S.source; pieces = [] }) × (r.1 ≡ record { source = S.source; pieces = [] })) }
{
    let _ = executor;
    let _ = args;
    let _ = outputs;
    let _ = index;
    let _ = inputs;
    let _ = of;
    let (to, from, mut pass) = bounded_with::<Piece, Knows, Law, Global>(alloc, ROOM)?;
    let other = to.another::<Begins<S>>(&mut pass);
    Ok((Producer { to, pass }, Follower { from, pass: other }))
}

impl Producer {
    /// Puts a piece, and waits where there is no room. It takes no memory.
    pub fn put<R: Wait>(&mut self, rt: &R, piece: Piece)
        requires may { AllParts self.old.pieces }
        requires law { LawOf self.old.source (self.old.pieces ++ piece ∷ []) }
        ensures put { self.new ≡ record { source = self.old.source; pieces = self.old.pieces ++ piece ∷ [] } }
    {
        send(rt, &self.to, &mut self.pass, piece);
    }

    /// Puts that there is no output, or no more of it. It takes no memory.
    pub fn give_up<R: Wait>(&mut self, rt: &R)
        requires may { AllParts self.old.pieces }
        ensures put { self.new ≡ record { source = self.old.source; pieces = self.old.pieces ++ Broken ∷ [] } }
    {
        send(rt, &self.to, &mut self.pass, Piece::Broken);
    }
}

impl Follower {
    /// The next piece, which it waits for. It takes no memory.
    pub fn take<R: Wait>(&mut self, rt: &R) -> Piece
        requires more { AllParts self.old.pieces }
        ensures taken { self.new ≡ record { source = self.old.source; pieces = self.old.pieces ++ result ∷ [] } }
        ensures law { LawOf self.new.source self.new.pieces }
    {
        receive(rt, &self.from, &mut self.pass)
    }
}
