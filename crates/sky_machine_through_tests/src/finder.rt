// A finder with the same bytes for each description but one.

ghost use Rattle.std.specs.Prelude.{◌≡◌, IfOk, true};
ghost use Rattle.sky_machine_through_tests.specs.Rows.{shelved};

use sky_base::name::Name;
use sky_base::object::Object;
use sky_base::text::{Bytes, Memory};
use sky_machine_through::find::Finds;
use std::alloc::Global;
#[cfg(test)]
use std::test::Fail;

/// The bytes, the name of the description that isn't there, if one isn't, and whether the bytes are never handed out.
#[derive(Drop)]
pub struct Shelf {
    pub bytes: Bytes,
    pub lacks: Option<Name>,
    pub refuses: bool,
}

/// It doesn't hand them out.
#[derive(Clone, Copy)]
pub struct Refused;

impl Finds for Shelf {
    type Refusal = Refused;

    ghost finds = { shelved };

    ghost ready = { λ s. Unit {0} };

    ghost Stays = { Unit {0} };

    ghost stays = { λ s. tt };

    ghost Told = { Unit {0} };

    ghost told = { λ s. tt };

    ghost notes = { λ t n. t };

    ghost refuses = { λ s r. s.refuses ≡ true };

    fn has(&self, name: &Name) -> bool {
        match &self.lacks {
            Some(lacking) => lacking != name,
            None => true,
        }
    }

    fn find(&mut self, _alloc: Global, _name: &Name) -> Result<Result<Object, Refused>, Memory> {
        if self.refuses {
            return Ok(Err(Refused));
        }
        let bytes = self.bytes.share()?;
        Ok(Ok(Object::Bytes(bytes)))
    }
}

#[cfg(test)]
fn bytes(alloc: Global, bytes: &[u8]) -> Result<Bytes, Fail> {
    Ok(Bytes::new(alloc, Vec::from_slice(alloc, bytes)?)?)
}

/// A finder.
#[cfg(test)]
pub fn shelf_of(
    alloc: Global,
    text: &[u8],
    lacks: Option<Name>,
    refuses: bool,
) -> Result<Shelf, Fail>
    ensures { IfOk result (λ s. s.lacks ≡ lacks) }
{
    let bytes = bytes(alloc, text)?;
    Ok(Shelf {
        bytes,
        lacks,
        refuses,
    })
}
