// Bytes are written in the rows as hexadecimal text; the digests were computed elsewhere.

use std::alloc::Global;
use std::process::Abort;
use std::test::Fail;

/// The bytes of a text.
pub fn bytes_of(alloc: Global, text: &str) -> Result<Vec<u8>, Fail> {
    match hex::decode(alloc, text) {
        Ok(bytes) => Ok(bytes),
        Err(_) => Err(Fail::from("no hexadecimal text")),
    }
}

/// These are the bytes of the text.
pub fn are(rt: &impl Abort, alloc: Global, bytes: &[u8], want: &str) -> Result<(), Fail> {
    let found = hex::encode(alloc, bytes)?;
    assert!(rt; found.as_str() == want, "{found} for {want}");
    Ok(())
}
