//! The next entry of a file, read from a window: no more of the file is looked at than an entry may have.

ghost use Rattle.std.specs.Prelude.{◌≡◌, ◌≤◌, IfErr, IfOk, flat_map, length};
ghost use Rattle.ciel_name.specs.Spelled.{Refuses};
ghost use Rattle.ciel_memo_key.specs.Keys.{block};
ghost use Rattle.ciel_memo_file.specs.Entries.{entry_view};
ghost use Rattle.ciel_memo_file.specs.File.{most_of_an_entry};
ghost use Rattle.ciel_memo_file.specs.Steps.{EndsWith, NextRead, NoneWithin};

use crate::entry::Entry;
use crate::read_entry::read_entry;
use crate::write::MOST_OF_AN_ENTRY;
use ciel_memo_key::key::Key;
use ciel_name::reader::Reader;
use ciel_name::refusal::Decode;
use sky_base::text::Bytes;
use std::alloc::Global;

/// An entry, its key, and what stands behind it.
#[derive(Drop)]
pub struct Next<'a> {
    pub entry: Entry,
    pub key: Key,
    pub rest: &'a [u8],
}

/// The whole entry of at most `room` bytes that stands in front of what a file ends with.
pub fn next_entry<'a>(
    alloc: Global,
    file: &Bytes,
    front: &'a [u8],
    room: usize,
) -> Result<Next<'a>, Decode>
    requires { EndsWith file.now (length file.now) front.now }
    ensures next { IfOk result (λ n. NextRead room front.now (entry_view n.entry) n.key n.rest.now) }
    ensures refused { IfErr result (λ e. Refuses e (NoneWithin room front.now)) }
{
    let at = file.as_slice().len() - front.len();
    let most = front.len().min(room).min(MOST_OF_AN_ENTRY);
    let mut reader = Reader::new(&front[..most]);
    let entry = match read_entry(alloc, file, at + most, &mut reader) {
        Ok(entry) => entry,
        Err(refusal) => return Err(refusal),
    };
    let length = most - reader.len();
    let key_length = length - blocks_length(entry.made.as_slice());
    let key = Key::of(file.part(at, at + key_length)?);
    Ok(Next {
        entry,
        key,
        rest: &front[length..],
    })
}

/// How many bytes blocks have with their lengths.
fn blocks_length(blocks: &[Bytes]) -> usize
    requires few { length (flat_map block blocks.now) ≤ most_of_an_entry }
    ensures length { result ≡ length (flat_map block blocks.now) }
{
    let mut length = 0;
    for bytes in blocks {
        length += 4 + bytes.as_slice().len();
    }
    length
}
