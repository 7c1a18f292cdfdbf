//! The bytes of keys, and of blocks.

ghost use Rattle.std.specs.Prelude.{◌≡◌, ◌++◌, IfOk, flat_map};
ghost use Rattle.sky_base.specs.View.{view};
ghost use Rattle.ciel_memo_key.specs.Keys.{block, key_of};

use ciel_name::write::put_value;
use ciel_name::writer::Writer;
use sky_base::text::{Bytes, Memory, Txt};
use sky_base::value::Value;

/// Writes blocks one behind the other, each behind its length.
///
/// Answers `Memory` for want of memory. The buffer holds then what it held and a first part of these bytes, or none of them.
#[tactic(auto, using(ciel_name::proofs::Numbers::appends))]
pub fn put_blocks(out: &mut Writer, blocks: &[Bytes]) -> Result<(), Memory>
    ensures bytes { IfOk result (λ _. out.new ≡ out.old ++ flat_map block blocks.now) }
{
    for bytes in blocks {
        out.count(bytes.as_slice().len())?;
        out.raw(bytes.as_slice())?;
    }
    Ok(())
}

/// Writes the key of so many outputs of an executor for these arguments and inputs.
///
/// Answers `Memory` for want of memory. The buffer holds then what it held and a first part of these bytes, or none of them.
#[tactic(auto, using(ciel_name::proofs::Numbers::appends))]
pub fn put_key(
    out: &mut Writer,
    executor: &Txt,
    args: &Value,
    inputs: &[Bytes],
    outputs: usize,
) -> Result<(), Memory>
    ensures bytes { IfOk result (λ _. out.new ≡ out.old ++ key_of executor.now (view args.now) inputs.now outputs) }
{
    out.text(executor)?;
    put_value(out, args)?;
    out.count(outputs)?;
    out.count(inputs.len())?;
    put_blocks(out, inputs)
}
