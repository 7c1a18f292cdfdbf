//! The bytes of entries.

ghost use Rattle.std.specs.Prelude.{◌≡◌, ◌++◌, IfOk, flat_map, map};
ghost use Rattle.ciel_memo_file.specs.Entries.{entry_view};
ghost use Rattle.ciel_memo_file.specs.File.{entry_bytes};

use crate::entry::Entry;
use ciel_memo_key::write::{put_blocks, put_key};
use ciel_name::writer::Writer;
use sky_base::text::Memory;

/// The first byte of a memo's file.
pub const MARK: u8 = b'M';

/// The second byte: the number of this form of the file.
pub const FORM: u8 = 1;

/// The most bytes of an entry.
pub const MOST_OF_AN_ENTRY: usize = 1_048_576;

/// The most bytes of a memo's file.
pub const MOST_OF_A_FILE: usize = 67_108_864;

/// Writes an entry: its key, and then each output behind its length.
///
/// Answers `Memory` for want of memory. The buffer holds then what it held and a first part of these bytes, or none of them.
#[tactic(auto, using(ciel_name::proofs::Numbers::appends))]
pub fn put_entry(out: &mut Writer, entry: &Entry) -> Result<(), Memory>
    ensures bytes { IfOk result (λ _. out.new ≡ out.old ++ entry_bytes (entry_view entry.now)) }
{
    put_key(
        out,
        &entry.executor,
        &entry.args,
        entry.inputs.as_slice(),
        entry.made.len(),
    )?;
    put_blocks(out, entry.made.as_slice())
}

/// Writes entries in order.
///
/// Answers `Memory` for want of memory. The buffer holds then what it held and a first part of these bytes, or none of them.
#[tactic(auto, using(ciel_name::proofs::Numbers::appends))]
pub fn put_entries(out: &mut Writer, entries: &[Entry]) -> Result<(), Memory>
    ensures bytes { IfOk result (λ _. out.new ≡ out.old ++ flat_map entry_bytes (map entry_view entries.now)) }
{
    for entry in entries {
        put_entry(out, entry)?;
    }
    Ok(())
}
