// Files and sinks: what no clause says, that the calls succeed with ample memory, and what the host does.

use ciel_io::files::{FileRefusal, Files};
use ciel_io::host::{HostErr, HostFiles, HostOut, HostStream};
use ciel_io::mem_files::{MemFiles, SureFiles};
use ciel_io::mem_sink::{MemSink, SureSink};
use ciel_io::sink::{Failed, Sink};
use sky_base::text::{Bytes, Txt};
use std::alloc::Global;
use std::fmt::Display;
use std::io::ErrorKind;
use std::process::Abort;
use std::test::Fail;
use std::{fs, io};

/// A path, a limit, and the answer of a read of them.
type Row = (&'static str, u64, Result<&'static str, FileRefusal>);

fn reads<F: Files>(
    rt: &impl Abort,
    alloc: Global,
    files: &mut F,
    rows: &[Row],
) -> Result<(), Fail> {
    for (number, (path, limit, want)) in rows.iter().enumerate() {
        assert!(rt; *limit < u64::MAX);
        let got = files.read(alloc, &Txt::new(alloc, path)?, *limit);
        match (&got, want) {
            (Ok(bytes), Ok(text)) => {
                assert!(rt; bytes.as_slice() == text.as_bytes(), "row {number}");
            }
            (Err(got), Err(want)) => assert!(rt; got == want, "row {number}"),
            _ => assert!(rt; false, "row {number}"),
        }
    }
    Ok(())
}

fn two_files(alloc: Global) -> Result<Vec<(Txt, Bytes)>, Fail> {
    let mut files = Vec::new(alloc);
    for (path, text) in [("a", "3\n"), ("b", "hello")] {
        let bytes = Vec::from_slice(alloc, text.as_bytes())?;
        files
            .push((Txt::new(alloc, path)?, Bytes::new(alloc, bytes)?))
            .map_err(|_| Failed)?;
    }
    Ok(files)
}

#[test]
fn files_in_memory(rt: HostRuntime) -> Result<(), Fail> {
    let alloc = rt.alloc();
    let mut fails = Vec::new(alloc);
    fails.push(2u32)?;
    let mut files = MemFiles::new(alloc, two_files(alloc)?, fails)?;
    let failed = Err(FileRefusal::Failed);
    let rows = [
        ("a", 100, Ok("3\n")),
        ("a", 100, failed),
        ("c", 100, failed),
        ("b", 5, Ok("hello")),
        ("b", 4, Err(FileRefusal::TooLong { limit: 4 })),
        ("a", 100, Ok("3\n")),
    ];
    reads(&rt, alloc, &mut files, rows.as_slice())?;
    let mut files = SureFiles::new(alloc, two_files(alloc)?)?;
    let rows = [
        ("b", 5, Ok("hello")),
        ("b", 4, Err(FileRefusal::TooLong { limit: 4 })),
        ("c", 0, Ok("")),
    ];
    reads(&rt, alloc, &mut files, rows.as_slice())
}

fn put<S: Sink>(sink: &mut S, piece: &str) -> bool {
    sink.put(piece.as_bytes()).is_ok()
}

#[test]
fn sinks_in_memory(rt: HostRuntime) -> Result<(), Fail> {
    let alloc = rt.alloc();
    let mut fails = Vec::new(alloc);
    fails.push(1u32)?;
    let mut sink = MemSink::new(alloc, 4, fails)?;
    assert!(rt; !put(&mut sink, "3\n"));
    assert!(rt; sink.bytes() == b"3".as_slice());
    assert!(rt; put(&mut sink, "42\n"));
    assert!(rt; sink.bytes() == b"342\n".as_slice());
    let mut sink = SureSink::new(alloc, 4)?;
    assert!(rt; put(&mut sink, "abcd"));
    assert!(rt; sink.bytes() == b"abcd".as_slice());
    assert!(rt; put(&mut sink, "e"));
    assert!(rt; sink.bytes() == b"abcd".as_slice());
    Ok(())
}

#[test]
fn files_of_the_host(rt: HostRuntime) -> Result<(), Fail> {
    let alloc = rt.alloc();
    fs::write(&rt, "b", "hello")?;
    let mut files = HostFiles::new(rt.clone()?);
    let rows = [
        ("b", 5, Ok("hello")),
        ("b", 4, Err(FileRefusal::TooLong { limit: 4 })),
        ("c", 5, Err(FileRefusal::Failed)),
        (".", 5, Err(FileRefusal::Failed)),
        ("b", u64::MAX - 1, Ok("hello")),
    ];
    reads(&rt, alloc, &mut files, rows.as_slice())
}

/// A stream that takes nothing.
#[derive(Drop)]
struct Full;

impl Print for Full {
    fn print<D: Display + Drop>(&self, _value: D) -> io::Result<()> {
        Err(io::Error::from(ErrorKind::WriteZero))
    }

    fn println<D: Display + Drop>(&self, _value: D) -> io::Result<()> {
        Err(io::Error::from(ErrorKind::WriteZero))
    }

    fn write_all(&self, _bytes: &[u8]) -> io::Result<()> {
        Err(io::Error::from(ErrorKind::WriteZero))
    }
}

#[test]
fn streams_of_the_host(rt: HostRuntime) {
    assert!(rt; put(&mut HostOut::new(rt.stdout()), "out\n"));
    assert!(rt; put(&mut HostErr::new(rt.stderr()), "err\n"));
    assert!(rt; !put(&mut HostStream::new(Full), "none\n"));
}
