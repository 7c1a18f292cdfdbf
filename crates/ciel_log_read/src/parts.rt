//! What records are made of: numbers, blocks and names.

ghost use Rattle.std.specs.Prelude.{◌≡◌, MatchOption};
ghost use Rattle.sky_base.specs.Name.{big_endian, name_bytes};
ghost use Rattle.sky_frozen_bytes.specs.Codes.{Fits32, NoneAs, ReadAs};
ghost use Rattle.ciel_log_records.specs.Records.{block};
ghost use Rattle.ciel_log_read.specs.Recorded.{Fits64, FitsBlock, IsNamed};

use ciel_name::reader::Reader;
use sky_base::name::Name;

/// The number in the next four bytes, if there are as many.
pub fn read_number(reader: &mut Reader) -> Option<u32>
    ensures { MatchOption result (NoneAs (big_endian 4) Fits32 reader.old) (λ n. ReadAs (big_endian 4) Fits32 reader.old n reader.new) }
{
    reader.number()
}

/// The number in the next eight bytes, if there are as many.
pub fn read_long(reader: &mut Reader) -> Option<u64>
    ensures { MatchOption result (NoneAs (big_endian 8) Fits64 reader.old) (λ n. ReadAs (big_endian 8) Fits64 reader.old n reader.new) }
{
    Some(long_of(reader.array::<8>()?))
}

/// The number that these bytes are, the highest first.
fn long_of(bytes: [u8; 8]) -> u64
    ensures { big_endian 8 result ≡ bytes }
{
    u64::from_be_bytes(bytes)
}

/// The bytes that stand behind their number.
pub fn read_block<'a>(reader: &mut Reader<'a>) -> Option<&'a [u8]>
    ensures { MatchOption result (NoneAs block FitsBlock reader.old) (λ s. ReadAs block FitsBlock reader.old s.now reader.new) }
{
    let count = reader.number()?;
    reader.bytes(count as usize)
}

/// The name that is spelled as a reference to it.
pub fn read_name(reader: &mut Reader) -> Option<Name>
    ensures { MatchOption result (NoneAs name_bytes IsNamed reader.old) (λ n. ReadAs name_bytes IsNamed reader.old n reader.new) }
{
    match reader.byte()? {
        8 => Some(Name::short(reader.array::<20>()?)),
        9 => Some(Name::long(reader.array::<32>()?)),
        _ => None,
    }
}
