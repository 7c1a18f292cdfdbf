// The program over a log at the path `l`, in memory. One helper calls it, and its contract says nothing: what the program promises would else
// be carried through every row.

use ciel_io::mem_files::MemFiles;
use ciel_io::mem_sink::MemSink;
use ciel_look_run::ends::Why;
use ciel_look_run::look::look;
use ciel_look_run::message::put_message;
use sky_base::text::{Bytes, Txt};
use std::alloc::Global;
use std::test::Fail;

/// How the program ended, what it wrote, and its message.
#[derive(Drop)]
pub struct Got {
    pub why: Why,
    pub out: MemSink,
    pub log: MemSink,
}

/// A list of this number.
fn only(alloc: Global, number: u32) -> Result<Vec<u32>, Fail> {
    let mut numbers = Vec::new(alloc);
    numbers.push(number)?;
    Ok(numbers)
}

/// The log at the path `l`, as hexadecimal digits.
fn files(alloc: Global, digits: &str, fails: u32) -> Result<MemFiles, Fail> {
    let Ok(bytes) = hex::decode(alloc, digits) else {
        return Err(Fail::from("digits"));
    };
    let bytes = Bytes::new(alloc, bytes)?;
    let mut files = Vec::new(alloc);
    files.push((Txt::new(alloc, "l")?, bytes))?;
    let files = MemFiles::new(alloc, files, only(alloc, fails)?)?;
    Ok(files)
}

fn sink(alloc: Global, fails: u32) -> Result<MemSink, Fail> {
    let sink = MemSink::new(alloc, 20_000, only(alloc, fails)?)?;
    Ok(sink)
}

/// The words of a row: a space stands between two words.
fn words_of(alloc: Global, row: &str) -> Result<Vec<Txt>, Fail> {
    let mut words = Vec::new(alloc);
    for word in row.split(' ') {
        words.push(Txt::new(alloc, word)?)?;
    }
    Ok(words)
}

/// The program over the words of a row and a log, where this read and this write fail, counted from 1, 0 where none does.
pub fn seen(alloc: Global, row: &str, digits: &str, read: u32, write: u32) -> Result<Got, Fail> {
    let mut files = files(alloc, digits, read)?;
    let words = words_of(alloc, row)?;
    let mut out = sink(alloc, write)?;
    let mut log = sink(alloc, 0)?;
    let why = look(alloc, &words, &mut files, &mut out);
    let _ = put_message(&why, &mut log);
    Ok(Got { why, out, log })
}
