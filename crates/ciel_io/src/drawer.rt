// What kept files in memory have in common: what stands at each path, and the paths that were asked, told while they fit the room.

ghost use Rattle.std.specs.Prelude.{◌≡◌, ◌+◌, ◌<◌, ◌≤◌, IfOk, IfSome, Some, [], get_or, is_some, length, option_map, set, zip};
ghost use Rattle.ciel_io.specs.HeldFiles.{content_at};
ghost use Rattle.ciel_io.specs.HeldKeep.{after_call, changed, put_so, taken};
ghost use Rattle.ciel_io.specs.Rows.{has_row, place_of, space};

use crate::rows::Rows;
use sky_base::text::{Memory, Txt};
use std::alloc::Global;
use std::marker::Model;

/// Kept files: the path of each and what stands there, at the same place of two lists, and the paths asked so far.
#[derive(Drop)]
pub(crate) struct Drawer {
    room: usize,
    told: bool,
    paths: Rows,
    contents: Rows,
    asked: Rows,
}

impl Model for Drawer {
    ghost use Rattle.std.specs.Prelude.{◌≡◌, ◌+◌, ◌≤◌, ℕ, List, Some, None, length, zip, if◌then◌else◌};
    ghost use Rattle.ciel_io.specs.HeldKeep.{HeldKeep};
    ghost use Rattle.ciel_io.specs.Rows.{has_row, space};

    ghost Value = { HeldKeep };

    ghost view = { λ d. record {
      room = d.room;
      told = if d.told then Some (record { files = zip d.paths.rows d.contents.rows; asked = d.asked.rows }) else None;
    } };

    ghost invariant = { λ d. (length d.paths.rows ≡ length d.contents.rows)
        × (space d.paths.rows + space d.contents.rows + space d.asked.rows ≤ d.room)
        × ((d.paths.room ≡ d.room) × (d.contents.room ≡ d.room) × (d.asked.room ≡ d.room))
        × ((path : List ℕ) → has_row d.paths.rows path ≡ has_row d.asked.rows path) };
}

/// How a piece comes to stand at a path.
#[derive(Clone, Copy)]
pub(crate) enum Way {
    /// Behind what stands there.
    Behind,
    /// In the place of what stands there.
    Instead,
}

impl Drawer {
    /// No files, with room for what is told of them.
    pub(crate) fn new(alloc: Global, room: usize) -> Result<Drawer, Memory>
        ensures { IfOk result (λ d. d ≡ record { room = room; told = Some (record { files = []; asked = [] }) }) }
    {
        Ok(Drawer {
            room,
            told: true,
            paths: Rows::new(alloc, room)?,
            contents: Rows::new(alloc, room)?,
            asked: Rows::new(alloc, room)?,
        })
    }

    /// Puts a piece at a path.
    pub(crate) fn put(&mut self, path: &Txt, piece: &[u8], way: Way)
        ensures { self.new ≡ after_call self.old path.now (put_so way piece.now) }
    {
        let path = path.as_str().as_bytes();
        let place = self.paths.find(path);
        if !self.told {
            return;
        }
        let taken = taken_after(
            &self.paths,
            &self.contents,
            &self.asked,
            path,
            place,
            piece,
            way,
        );
        if taken > self.room as u128 {
            self.told = false;
            return;
        }
        self.asked.push(path);
        match place {
            Some(place) => put_there(&mut self.contents, place, piece, way),
            None => {
                self.paths.push(path);
                self.contents.push(piece);
            }
        }
    }

    /// What stands at a path, while it is told; none where no call asked it.
    pub(crate) fn file(&self, path: &Txt) -> Option<&[u8]>
        ensures found { IfSome self.now.told (λ k. option_map (λ b. b.now) result ≡ content_at k.files path.now) }
        ensures asked { IfSome self.now.told (λ k. is_some result ≡ has_row k.asked path.now) }
    {
        match self.paths.find(path.as_str().as_bytes()) {
            Some(place) => Some(self.contents.row(place)),
            None => None,
        }
    }
}

/// What the files and the paths asked take of the room once a piece is put at a path.
fn taken_after(
    paths: &Rows,
    contents: &Rows,
    asked: &Rows,
    path: &[u8],
    place: Option<usize>,
    piece: &[u8],
    way: Way,
) -> u128
    requires place { place ≡ place_of paths.now.rows path.now }
    requires same { length paths.now.rows ≡ length contents.now.rows }
    ensures { result ≡ taken (changed (record {
      files = zip paths.now.rows contents.now.rows;
      asked = asked.now.rows;
    }) path.now (put_so way piece.now)) }
{
    let taken = paths.size() as u128 + contents.size() as u128 + asked.size() as u128;
    let taken = taken + path.len() as u128 + 1;
    match place {
        Some(place) => match way {
            Way::Behind => taken + piece.len() as u128,
            Way::Instead => taken - contents.row(place).len() as u128 + piece.len() as u128,
        },
        None => taken + path.len() as u128 + piece.len() as u128 + 2,
    }
}

/// Puts a piece where something stands.
#[tactic(auto, using(crate::proofs::DrawerLaw::space_set, crate::proofs::DrawerLaw::emptied))]
fn put_there(contents: &mut Rows, place: usize, piece: &[u8], way: Way)
    requires place { place < length contents.old.rows }
    requires room { space contents.old.rows + length (put_so way piece.now (get_or contents.old.rows place []))
        ≤ contents.old.room + length (get_or contents.old.rows place []) }
    ensures { contents.new ≡ record contents.old {
      rows = set contents.old.rows place (put_so way piece.now (get_or contents.old.rows place []));
    } }
{
    match way {
        Way::Behind => contents.extend(place, piece),
        Way::Instead => {
            contents.empty(place);
            contents.extend(place, piece);
        }
    }
}
