// The program over a script at the path `s`, an input of the lines `b` and `a` at the path `f` and a log at the path `l`, in memory. One helper
// calls it, and its contract says nothing: what the program promises would else be carried through every row.

ghost use Rattle.std.specs.Prelude.{◌≡◌, IfOk, length};

use ciel_gate::gate::Gate;
use ciel_gate::open::Open;
use ciel_io::mem_files::MemFiles;
use ciel_io::mem_keep::MemKeep;
use ciel_io::mem_sink::MemSink;
use ciel_run::top::ciel_main;
use ciel_run_log::why::Ended;
use sky_base::text::{Bytes, Txt};
use std::alloc::Global;
use std::sync::Wait;
use std::test::Fail;
use std::thread::Threads;

/// Which read, which write of the result, which write on the log and which call of the keeper fails, counted from 1; 0 where none does.
pub type Fails = (u32, u32, u32, u32);

/// A file with these bytes.
fn file(alloc: Global, path: &str, bytes: &[u8]) -> Result<(Txt, Bytes), Fail> {
    let bytes = Bytes::new(alloc, Vec::from_slice(alloc, bytes)?)?;
    Ok((Txt::new(alloc, path)?, bytes))
}

/// A list of this number.
fn only(alloc: Global, number: u32) -> Result<Vec<u32>, Fail> {
    let mut numbers = Vec::new(alloc);
    numbers.push(number)?;
    Ok(numbers)
}

/// The script, the input and the log.
fn files(alloc: Global, source: &str, log: &[u8], fails: u32) -> Result<MemFiles, Fail> {
    let mut files = Vec::new(alloc);
    files.push(file(alloc, "s", source.as_bytes())?)?;
    files.push(file(alloc, "f", b"b\na\n")?)?;
    files.push(file(alloc, "l", log)?)?;
    let files = MemFiles::new(alloc, files, only(alloc, fails)?)?;
    Ok(files)
}

fn sink(alloc: Global, fails: u32) -> Result<MemSink, Fail> {
    let sink = MemSink::new(alloc, 1_000, only(alloc, fails)?)?;
    Ok(sink)
}

fn keep(alloc: Global, fails: u32) -> Result<MemKeep, Fail> {
    let keep = MemKeep::new(alloc, 10_000, only(alloc, fails)?)?;
    Ok(keep)
}

/// The words of a row: a space stands between two words.
fn words_of(alloc: Global, row: &str) -> Result<Vec<Txt>, Fail> {
    let mut words = Vec::new(alloc);
    for word in row.split(' ') {
        words.push(Txt::new(alloc, word)?)?;
    }
    Ok(words)
}

/// How the program ended, what it wrote, what it told on its log, and what files it keeps.
#[derive(Drop)]
pub struct Got {
    pub ended: Ended,
    pub out: MemSink,
    pub log: MemSink,
    pub keep: MemKeep,
}

/// A gate for each worker that there may be.
pub fn open_gates(alloc: Global) -> Result<Vec<Open>, Fail>
    ensures { IfOk result (λ gates. length gates.items ≡ 64) }
{
    match Vec::from_elem(alloc, Open, 64) {
        Ok(gates) => Ok(gates),
        Err(_) => Err(Fail::from("memory")),
    }
}

/// The program over the words of a row, a script and these gates; the log that stands at its path is empty.
pub fn outcome<G: Gate + Send + 'static, R: Threads + Wait + Copy + Send + Sync + Drop + 'static>(
    rt: R,
    alloc: Global,
    row: &str,
    source: &str,
    fails: Fails,
    gates: &mut Vec<G>,
) -> Result<Got, Fail>
    requires { length gates.old.items ≡ 64 }
{
    let got = outcome_from(rt, alloc, row, source, &[], fails, gates)?;
    Ok(got)
}

/// The same with the bytes of the log.
pub fn outcome_from<
    G: Gate + Send + 'static,
    R: Threads + Wait + Copy + Send + Sync + Drop + 'static,
>(
    rt: R,
    alloc: Global,
    row: &str,
    source: &str,
    log: &[u8],
    fails: Fails,
    gates: &mut Vec<G>,
) -> Result<Got, Fail>
    requires { length gates.old.items ≡ 64 }
{
    let mut files = files(alloc, source, log, fails.0)?;
    let words = words_of(alloc, row)?;
    let mut out = sink(alloc, fails.1)?;
    let mut log = sink(alloc, fails.2)?;
    let mut keep = keep(alloc, fails.3)?;
    let ended = ciel_main(
        rt, alloc, &words, &mut files, &mut out, &mut log, gates, &mut keep,
    );
    Ok(Got {
        ended,
        out,
        log,
        keep,
    })
}
