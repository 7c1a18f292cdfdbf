// Bytes that are read as a state of a script.

use sky_frozen::fitting::Fitting;
use sky_frozen::read::read_frozen;
use sky_frozen_bytes::refusal::ReadFrozen;
use sky_machine_numbers::code::number_script;
use sky_machine_test_scripts::script::script;
use std::alloc::Global;
use std::process::Abort;
use std::test::Fail;

/// Whether the bytes are those of a state that fits, and the state that is read has them.
fn fits(alloc: Global, fitting: &Fitting, bytes: &[u8]) -> Result<bool, Fail> {
    match read_frozen(alloc, bytes, fitting) {
        Ok(frozen) => Ok(frozen.bytes() == bytes),
        Err(ReadFrozen::BadFrozen) => Ok(false),
        Err(ReadFrozen::Memory) => Err(Fail::from("memory")),
    }
}

/// Whether no proper prefix of the bytes is read.
fn no_prefix_fits(alloc: Global, fitting: &Fitting, bytes: &[u8]) -> Result<bool, Fail> {
    for count in 0..bytes.len() {
        if fits(alloc, fitting, &bytes[..count])? {
            return Ok(false);
        }
    }
    Ok(true)
}

/// Whether the bytes with one more behind them are read.
fn longer_fits(alloc: Global, fitting: &Fitting, bytes: &[u8]) -> Result<bool, Fail> {
    let mut more = Vec::from_slice(alloc, bytes)?;
    more.push(0)?;
    let fits = fits(alloc, fitting, more.as_slice())?;
    Ok(fits)
}

/// Whether the bytes are read, but no proper prefix of them and none with a byte more.
fn fits_alone(alloc: Global, fitting: &Fitting, bytes: &[u8]) -> Result<bool, Fail> {
    let whole = fits(alloc, fitting, bytes)?;
    let none_shorter = no_prefix_fits(alloc, fitting, bytes)?;
    let longer = longer_fits(alloc, fitting, bytes)?;
    Ok(whole && none_shorter && !longer)
}

/// The bytes of a state of this script: they are read again, but no proper prefix of them, and none with a byte more.
pub fn is_read(rt: &impl Abort, alloc: Global, text: &str, bytes: &[u8]) -> Result<(), Fail> {
    let script = script(alloc, text)?;
    let tables = number_script(alloc, &script)?;
    let numbered = tables.over(&script);
    let fitting = Fitting::new(alloc, &numbered)?;
    let alone = fits_alone(alloc, &fitting, bytes)?;
    assert!(rt; alone);
    Ok(())
}

/// Bytes of a state of this script, with another byte at a place: whether these are read.
pub fn with_byte(
    alloc: Global,
    text: &str,
    bytes: &[u8],
    at: usize,
    byte: u8,
) -> Result<bool, Fail> {
    let script = script(alloc, text)?;
    let tables = number_script(alloc, &script)?;
    let numbered = tables.over(&script);
    let fitting = Fitting::new(alloc, &numbered)?;
    let mut other = Vec::from_slice(alloc, bytes)?;
    if at < other.len() {
        other[at] = byte;
    }
    let fits = fits(alloc, &fitting, other.as_slice())?;
    Ok(fits)
}
