// Files, and questions, that are short to write.

use ciel_memo_file::memo::Memo;
use ciel_memo_file::refusal::MemoRefusal;
use line_kit_tests::calls::{Arg, bytes_of, dictionary};
use sky_base::fault::FaultKind;
use sky_base::kit::Kit;
use sky_base::text::{Bytes, Txt};
use std::alloc::Global;
use std::test::Fail;

/// What a kit answers: the bytes of its one output, or a fault.
pub type Answer = Result<Vec<u8>, FaultKind>;

/// The entry of `count` over `{"in": slot(0)}`: one output, and one empty input. It says `9` and a line feed, which isn't what `count` gives.
pub const NINE: [u8; 59] =
    *b"\x00\x00\x00\x05count\x06\x00\x00\x00\x01\x00\x00\x00\x02in\x08\x00\x00\x00\x00\x00\x00\x00\x00\x00\x00\x00\x00\x00\x00\x00\x00\x00\x00\x00\x00\x00\x00\x00\x01\x00\x00\x00\x01\x00\x00\x00\x00\x00\x00\x00\x029\n";

/// The same over the input `a`, of no output: an entry of another key.
pub const NONE: [u8; 54] =
    *b"\x00\x00\x00\x05count\x06\x00\x00\x00\x01\x00\x00\x00\x02in\x08\x00\x00\x00\x00\x00\x00\x00\x00\x00\x00\x00\x00\x00\x00\x00\x00\x00\x00\x00\x00\x00\x00\x00\x00\x00\x00\x00\x01\x00\x00\x00\x01a";

/// A file of these entries.
pub fn file(alloc: Global, entries: &[&[u8]]) -> Result<Vec<u8>, Fail> {
    let mut bytes = Vec::from_slice(alloc, b"M\x01")?;
    for entry in entries {
        bytes.extend_from_slice(*entry)?;
    }
    Ok(bytes)
}

/// The place of the bad entry of a file, and none where it is a memo's.
pub fn bad(alloc: Global, bytes: &[u8]) -> Result<Option<u64>, Fail> {
    let held = Bytes::new(alloc, Vec::from_slice(alloc, bytes)?)?;
    match Memo::read(alloc, &held) {
        Ok(_) => Ok(None),
        Err(MemoRefusal::BadMemo { at }) => Ok(Some(at)),
        Err(MemoRefusal::Memory) => Err(Fail::from("memory")),
    }
}

/// The memo of a file.
pub fn memo(alloc: Global, bytes: &[u8]) -> Result<Memo, Fail> {
    let held = Bytes::new(alloc, Vec::from_slice(alloc, bytes)?)?;
    match Memo::read(alloc, &held) {
        Ok(memo) => Ok(memo),
        Err(_) => Err(Fail::from("no memo")),
    }
}

/// What a kit gives for one output of an executor over one input.
pub fn ask<K: Kit>(alloc: Global, kit: &K, executor: &str, input: &str) -> Result<Answer, Fail> {
    let args = dictionary(alloc, &[("in", Arg::One)])?;
    let inputs = bytes_of(alloc, &[input])?;
    let name = Txt::new(alloc, executor)?;
    match kit.run(alloc, &name, &args, inputs.as_slice(), 1)? {
        Ok(made) => match made.first() {
            Some(bytes) => Ok(Ok(Vec::from_slice(alloc, bytes.as_slice())?)),
            None => Err(Fail::from("no output")),
        },
        Err(kind) => Ok(Err(kind)),
    }
}
