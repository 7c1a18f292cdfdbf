//! What records are made of: numbers of eight bytes, blocks, and names.

ghost use Rattle.std.specs.Prelude.{◌≡◌, ◌++◌, IfOk};
ghost use Rattle.sky_base.specs.Name.{big_endian, name_bytes};
ghost use Rattle.ciel_log_records.specs.Records.{block};

use ciel_name::writer::Writer;
use sky_base::name::Name;
use sky_base::text::Memory;

/// Writes a number in eight bytes.
pub fn put_long(out: &mut Writer, number: u64) -> Result<(), Memory>
    ensures { IfOk result (λ _. out.new ≡ out.old ++ big_endian 8 number) }
{
    out.raw(number.to_be_bytes().as_slice())
}

/// Writes bytes behind their number.
pub fn put_block(out: &mut Writer, bytes: &[u8]) -> Result<(), Memory>
    ensures { IfOk result (λ _. out.new ≡ out.old ++ block bytes.now) }
{
    out.count(bytes.len())?;
    out.raw(bytes)
}

/// Writes a name as the bytes of a reference to it.
pub fn put_name(out: &mut Writer, name: &Name) -> Result<(), Memory>
    ensures { IfOk result (λ _. out.new ≡ out.old ++ name_bytes name.now) }
{
    let bytes = name.bytes();
    out.byte(if bytes.len() == 20 { 8 } else { 9 })?;
    out.raw(bytes)
}
