// The shelves and their places. A place carries what the push of its block gave, which shows the block for good.

ghost use Rattle.std.specs.Prelude.{◌≡◌, ◌<◌, ◌≤◌, ◌++◌, [], ◌∷◌, ℕ, List, length, map, All, IfOk, IfErr, MatchResult, IsErrAnd, slice_index_or};
ghost use Rattle.ciel_store.specs.Seen.{ShelvesSeen, PlaceSeen, IsPlaceOf, marked, no_row};
ghost use Rattle.ciel_store.specs.Words.{Has, AllIn, loss};
ghost use Rattle.ciel_store.specs.declared.loss.Loss.{Loss};

use crate::loss::Loss;
use crate::rule::{Confirms, Looks, Marks, NewEye, Shows, Takes, Words};
use crate::seats::{Eye, Marker, Seen};
use boxcar::{Pushed, Vec as Row};
use sky_base::at::At;
use std::alloc::{AllocError, Global};
use std::marker::Model;
use std::sync::Wait;

/// A place of a block, at the worker on whose shelf it was put. Contracts see that worker, and the block by what
/// the push of it showed.
#[derive(Drop)]
pub struct Place<B> {
    worker: u32,
    pushed: Pushed<B>,
}

impl<B> Model for Place<B> {
    ghost Value = { PlaceSeen B };

    ghost view = { λ p. record { worker = p.worker; at = p.pushed } };
}

/// Each worker's shelf, and for each a word that is 0 or holds its loss. Contracts see the words that its seats sit
/// at, and a row for each worker.
#[derive(Drop)]
pub struct Shelves<B: Drop> {
    words: Words,
    rows: Vec<Row<B>>,
}

impl<B: Drop> Model for Shelves<B> {
    ghost Value = { ShelvesSeen };

    ghost view = { λ s. record { of = s.words.shared.table_id; rows = s.rows.items } };

    ghost invariant = { λ s. (s.words.shared.key ≡ length s.rows.items) × (s.words.shared.table_id.words ≡ length s.rows.items)
        × (0 < length s.rows.items) };
}

/// The worker of the place is lost.
#[derive(Clone, Copy, PartialEq, Eq, Debug)]
pub struct Gone {
    pub loss: Loss,
}

impl<B> Place<B> {
    /// The worker on whose shelf the block lies. It takes no memory.
    pub fn worker(&self) -> u32
        ensures worker { result ≡ self.now.worker }
    {
        self.worker
    }

    /// A second place of the same block. It takes no memory.
    pub fn share(&self) -> Place<B>
        ensures same { result ≡ self.now }
    {
        Place {
            worker: self.worker,
            pushed: self.pushed.again(),
        }
    }
}

impl<B> At for Place<B> {
    ghost at = { λ p. p.worker };

    fn worker(&self) -> u32 {
        self.worker
    }
}

impl<B: Drop> Shelves<B> {
    /// Puts a block on a worker's shelf. Where there is no memory for it the block is handed back.
    pub fn put<R: Wait>(&self, rt: &R, worker: u32, block: B) -> Result<Place<B>, B>
        requires worker { worker < length self.now.rows }
        ensures put { IfOk result (λ p. IsPlaceOf self.now p × (p.worker ≡ worker) × (p.at.value ≡ block)) }
        ensures back { IfErr result (λ b. b ≡ block) }
    {
        let pushed = self.rows[worker as usize].push_shown(rt, block)?;
        Ok(Place { worker, pushed })
    }

    /// The block at a place, or the loss of its worker where that was marked. It loads the worker's word once, and
    /// takes no lock and no memory. An eye that has seen a loss of that worker gets that loss again.
    pub fn fetch<'a>(&'a self, place: &'a Place<B>, eye: &mut Eye) -> Result<&'a B, Gone>
        requires place { IsPlaceOf self.now place.now }
        requires eye { eye.old.of ≡ self.now.of }
        ensures of { eye.new.of ≡ eye.old.of }
        ensures found { MatchResult result (λ b. (b.now ≡ place.now.at.value) × (eye.new ≡ eye.old))
            (λ gone. (gone.loss.worker ≡ place.now.worker) × (eye.new.losses ≡ eye.old.losses ++ gone.loss ∷ [])) }
        ensures again { (l : Loss) → Has eye.old.losses l → l.worker ≡ place.now.worker → IsErrAnd result (λ gone. gone.loss ≡ l) }
    {
        let worker = place.worker;
        let found = self
            .words
            .shared
            .load::<Looks>(&mut eye.seat, worker as usize);
        if found > 0 {
            let number = (found - 1) as u32;
            return Err(Gone {
                loss: Loss { number, worker },
            });
        }
        Ok(self.rows[worker as usize].value(&place.pushed))
    }

    /// What the eye has seen, for the marker. It takes no memory.
    pub fn show(&self, eye: &mut Eye) -> Seen
        requires { eye.old.of ≡ self.now.of }
        ensures { (result ≡ eye.old) × (eye.new ≡ eye.old) }
    {
        let seat = self.words.shared.split_seat::<Shows>(&mut eye.seat);
        Seen { seat }
    }

    /// A further eye, which has seen what this one has. It takes no memory.
    pub fn another(&self, eye: &mut Eye) -> Eye
        requires { eye.old.of ≡ self.now.of }
        ensures { (result ≡ eye.old) × (eye.new ≡ eye.old) }
    {
        let Seen { seat } = self.show(eye);
        Eye { seat }
    }

    /// Marks the loss of a worker; where it is lost already nothing changes. It takes no lock and no memory.
    pub fn mark_lost(&self, marker: &mut Marker, loss: Loss)
        requires of { marker.old.of ≡ self.now.of }
        requires worker { loss.worker < length self.now.rows }
        ensures { marker.new ≡ record { of = marker.old.of; losses = marked marker.old.losses loss } }
    {
        self.words.shared.compare_exchange::<Marks>(
            &mut marker.seat,
            loss.worker as usize,
            0,
            u64::from(loss.number) + 1,
        );
    }

    /// Every loss that was seen is one that the marker has marked. It takes no memory.
    pub fn confirm(&self, marker: &mut Marker, seen: Seen)
        requires { (marker.old.of ≡ self.now.of) × (seen.of ≡ self.now.of) }
        ensures same { marker.new ≡ marker.old }
        ensures confirmed { AllIn seen.losses marker.new.losses }
    {
        let Seen { seat } = seen;
        self.words.shared.join_seat::<Takes>(&mut marker.seat, seat);
        self.words.shared.load::<Confirms>(&mut marker.seat, 0);
    }

    // An eye that has seen nothing.
    fn new_eye(&self, marker: &mut Marker) -> Eye
        requires { marker.old.of ≡ self.now.of }
        ensures { (marker.new ≡ marker.old) × (result ≡ record { of = self.now.of; losses = [] }) }
    {
        let seat = self.words.shared.split_seat::<NewEye>(&mut marker.seat);
        Eye { seat }
    }
}

// Takes an eye for each worker off the marker.
fn eyes_of<B: Drop>(
    alloc: Global,
    shelves: &Shelves<B>,
    marker: &mut Marker,
    workers: u32,
) -> Result<Vec<Eye>, AllocError>
    requires { marker.old.of ≡ shelves.now.of }
    ensures marker { marker.new ≡ marker.old }
    ensures eyes { IfOk result (λ v. (length v.items ≡ workers) × All (λ e. (e.of ≡ shelves.now.of) × (e.losses ≡ [])) v.items) }
{
    let mut eyes = Vec::new(alloc);
    for _ in 0..workers {
        eyes.push(shelves.new_eye(marker))?;
    }
    Ok(eyes)
}

// An empty shelf for each worker.
fn rows_of<B: Drop>(alloc: Global, workers: u32) -> Result<Vec<Row<B>>, AllocError>
    ensures { IfOk result (λ v. length v.items ≡ workers) }
{
    let mut rows = Vec::new(alloc);
    for _ in 0..workers {
        rows.push(Row::new(alloc)?)?;
    }
    Ok(rows)
}

impl<B: Drop> Shelves<B> {
    /// Empty shelves for 1 to 64 workers, the seat that marks losses, and an eye for each worker.
    pub fn new(alloc: Global, workers: u32) -> Result<(Shelves<B>, Marker, Vec<Eye>), AllocError>
        requires workers { (0 < workers) × (workers ≤ 64) }
        ensures rows { IfOk result (λ r. length r.0.rows ≡ workers) }
        ensures marker { IfOk result (λ r. (r.1.of ≡ r.0.of) × (r.1.losses ≡ [])) }
        ensures eyes { IfOk result (λ r. (length r.2.items ≡ workers) × All (λ e. (e.of ≡ r.0.of) × (e.losses ≡ [])) r.2.items) }
    {
        let zeros = Vec::from_elem(alloc, 0, workers as usize)?;
        let (words, seat) = Words::of_words(alloc, zeros.as_slice(), &u64::from(workers))?;
        let rows = rows_of(alloc, workers)?;
        let mut marker = Marker { seat };
        let shelves = Shelves { words, rows };
        let eyes = eyes_of(alloc, &shelves, &mut marker, workers)?;
        Ok((shelves, marker, eyes))
    }
}
