// Descriptions and objects by their bytes, in hexadecimal digits.

ghost use Rattle.std.specs.Prelude.{IfOk};
ghost use Rattle.sky_base.specs.ObjectView.{desc_view};
ghost use Rattle.ciel_master_board.specs.Reports.{named_view};
ghost use Rattle.ciel_name.specs.Laws.{SpelledDesc};

use ciel_name::name::{Namer, Sha1Namer};
use ciel_name::read_object::{read_desc, read_object};
use hex::decode;
use sky_base::name::Name;
use sky_base::object::{Desc1, Named, Object};
use std::alloc::Global;
use std::test::Fail;

/// The bytes of digits.
pub fn bytes(alloc: Global, digits: &str) -> Result<Vec<u8>, Fail> {
    match decode(alloc, digits.as_bytes()) {
        Ok(bytes) => Ok(bytes),
        Err(_) => Err(Fail::from("no digits")),
    }
}

/// A description.
pub fn desc(alloc: Global, digits: &str) -> Result<Desc1, Fail>
    ensures spelled { IfOk result (λ d. SpelledDesc (desc_view d)) }
{
    let bytes = bytes(alloc, digits)?;
    match read_desc(alloc, bytes.as_slice()) {
        Ok(desc) => Ok(desc),
        Err(_) => Err(Fail::from("no description")),
    }
}

/// An object.
pub fn object(alloc: Global, digits: &str) -> Result<Object, Fail> {
    let bytes = bytes(alloc, digits)?;
    match read_object(alloc, bytes.as_slice()) {
        Ok(object) => Ok(object),
        Err(_) => Err(Fail::from("no object")),
    }
}

/// The name of a description.
pub fn name(alloc: Global, digits: &str) -> Result<Name, Fail> {
    let bytes = bytes(alloc, digits)?;
    Ok(Sha1Namer.name(bytes.as_slice()))
}

/// A description with its name.
pub fn named(alloc: Global, digits: &str) -> Result<Named, Fail>
    ensures spelled { IfOk result (λ n. SpelledDesc (named_view n)) }
{
    let name = name(alloc, digits)?;
    let desc = desc(alloc, digits)?;
    Ok(Named { name, desc })
}
