// Rows of bytes one behind the other in one list, whose room is made once, so that what changes them later takes no memory.

ghost use Rattle.std.specs.Prelude.{◌≡◌, ◌+◌, ◌^◌, ◌++◌, ◌∷◌, ◌<◌, ◌≤◌, [], IfOk, drop, get_or, length, set, take, vec_capacity};
ghost use Rattle.ciel_io.specs.Rows.{place_of, space, total};

use sky_base::text::Memory;
use std::alloc::Global;
use std::marker::Model;

/// Rows of bytes.
#[derive(Drop)]
pub(crate) struct Rows {
    room: usize,
    lengths: Vec<usize>,
    bytes: Vec<u8>,
}

impl Model for Rows {
    ghost use Rattle.std.specs.Prelude.{◌+◌, ◌≡◌, ◌≤◌, length, vec_capacity};
    ghost use Rattle.ciel_io.specs.Rows.{HeldRows, cut, total};

    ghost Value = { HeldRows };

    ghost view = { λ r. record { room = r.room; rows = cut r.lengths.items r.bytes.items } };

    ghost invariant = { λ r. (total r.lengths.items ≡ length r.bytes.items)
        × (length r.bytes.items + length r.lengths.items ≤ r.room)
        × (r.room ≤ vec_capacity r.bytes) × (r.room ≤ vec_capacity r.lengths) };
}

impl Rows {
    /// No rows, with this room.
    pub(crate) fn new(alloc: Global, room: usize) -> Result<Rows, Memory>
        ensures { IfOk result (λ r. r ≡ record { room = room; rows = [] }) }
    {
        let Ok(lengths) = Vec::with_capacity(alloc, room) else {
            return Err(Memory);
        };
        match Vec::with_capacity(alloc, room) {
            Ok(bytes) => Ok(Rows {
                room,
                lengths,
                bytes,
            }),
            Err(_) => Err(Memory),
        }
    }

    /// What they take of the room.
    #[tactic(auto, using(crate::proofs::RowsLaw::space_cut))]
    pub(crate) fn size(&self) -> usize
        ensures size { result ≡ space self.now.rows }
        ensures within { result ≤ self.now.room }
    {
        self.bytes.len() + self.lengths.len()
    }

    /// Puts a row behind the others.
    #[tactic(auto, using(crate::proofs::RowsLaw::space_cut, crate::proofs::RowsLaw::total_push, crate::proofs::RowsLaw::cut_push))]
    pub(crate) fn push(&mut self, row: &[u8])
        requires { space self.old.rows + length row.now + 1 ≤ self.old.room }
        ensures { self.new ≡ record self.old { rows = self.old.rows ++ row.now ∷ [] } }
    {
        let _ = self.bytes.extend_from_slice(row);
        let _ = self.lengths.push(row.len());
    }

    /// Puts a piece behind the row at a place.
    #[tactic(auto, using(crate::proofs::RowsLaw::length_cut, crate::proofs::RowsLaw::total_set, crate::proofs::RowsLaw::space_cut))]
    pub(crate) fn extend(&mut self, place: usize, piece: &[u8])
        requires place { place < length self.old.rows }
        requires room { space self.old.rows + length piece.now ≤ self.old.room }
        ensures { self.new ≡ record self.old { rows = set self.old.rows place (get_or self.old.rows place [] ++ piece.now) } }
    {
        let (_, end) = bounds_of(self.lengths.as_slice(), place);
        insert(&mut self.bytes, end, piece);
        self.lengths[place] += piece.len();
    }

    /// Takes away the bytes of the row at a place.
    #[tactic(auto, using(crate::proofs::RowsLaw::length_cut, crate::proofs::RowsLaw::total_set))]
    pub(crate) fn empty(&mut self, place: usize)
        requires { place < length self.old.rows }
        ensures { self.new ≡ record self.old { rows = set self.old.rows place [] } }
    {
        let (start, end) = bounds_of(self.lengths.as_slice(), place);
        remove(&mut self.bytes, start, end);
        self.lengths[place] = 0;
    }

    /// The row at a place.
    #[tactic(auto, using(crate::proofs::RowsLaw::length_cut, crate::proofs::RowsLaw::row_at))]
    pub(crate) fn row(&self, place: usize) -> &[u8]
        requires { place < length self.now.rows }
        ensures { result.now ≡ get_or self.now.rows place [] }
    {
        let (start, end) = bounds_of(self.lengths.as_slice(), place);
        &self.bytes[start..end]
    }

    /// The place of a row, of two the first.
    #[tactic(auto, using(crate::proofs::RowsLaw::length_cut))]
    pub(crate) fn find(&self, row: &[u8]) -> Option<usize>
        ensures { result ≡ place_of self.now.rows row.now }
    {
        for place in 0..self.lengths.len() {
            if self.row(place) == row {
                return Some(place);
            }
        }
        None
    }
}

/// Where the row at a place begins and ends.
#[tactic(auto, using(crate::proofs::RowsLaw::total_next, crate::proofs::RowsLaw::total_part))]
fn bounds_of(lengths: &[usize], place: usize) -> (usize, usize)
    requires place { place < length lengths.now }
    requires fits { total lengths.now < 2 ^ 64 }
    ensures start { result.0 ≡ total (take place lengths.now) }
    ensures end { result.1 ≡ total (take place lengths.now) + get_or lengths.now place 0 }
    ensures within { result.1 ≤ total lengths.now }
{
    let start = start_of(lengths, place);
    (start, start + lengths[place])
}

/// What the first lengths come to, so many.
fn start_of(lengths: &[usize], place: usize) -> usize
    requires place { place ≤ length lengths.now }
    requires fits { total lengths.now < 2 ^ 64 }
    ensures { result ≡ total (take place lengths.now) }
{
    let mut start = 0usize;
    for length in &lengths[..place] {
        start += *length;
    }
    start
}

/// Puts a piece at a place, where there is room for it: what stands behind the place is turned to the front, and back.
#[tactic(auto, using(crate::proofs::RowsLaw::turned_more))]
fn insert(bytes: &mut Vec<u8>, place: usize, piece: &[u8])
    requires place { place ≤ length bytes.old.items }
    requires room { length bytes.old.items + length piece.now ≤ vec_capacity bytes.old }
    ensures items { bytes.new.items ≡ take place bytes.old.items ++ (piece.now ++ drop place bytes.old.items) }
    ensures capacity { vec_capacity bytes.old ≤ vec_capacity bytes.new }
{
    let behind = bytes.len() - place;
    bytes.rotate_left(place);
    let _ = bytes.extend_from_slice(piece);
    bytes.rotate_left(behind);
}

/// Takes away what stands from one place to another.
#[tactic(auto, using(crate::proofs::RowsLaw::turned_less))]
fn remove(bytes: &mut Vec<u8>, start: usize, end: usize)
    requires place { (start ≤ end) × (end ≤ length bytes.old.items) }
    ensures items { bytes.new.items ≡ take start bytes.old.items ++ drop end bytes.old.items }
    ensures capacity { vec_capacity bytes.old ≤ vec_capacity bytes.new }
{
    let behind = bytes.len() - end;
    bytes.rotate_left(end);
    bytes.truncate(behind + start);
    bytes.rotate_left(behind);
}
