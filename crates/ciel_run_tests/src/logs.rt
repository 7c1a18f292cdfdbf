// What the program puts into the log of a run, to the byte, and how it goes on from one.

use crate::calls::{Got, open_gates, outcome_from};
use sky_base::text::Txt;
use std::alloc::Global;
use std::process::Abort;
use std::sync::Wait;
use std::test::Fail;
use std::thread::Threads;

// The records of a sum: the header, and the start and the report of each of its two tasks.
static SUM: [&[u8]; 5] = [
    b"\x00\x00\x00*H\x00\x00\x00\x01\x00\x00\x00\x00\x00\x00\x00\x00\x00\x00\x00\x00\x01(7.\xc2\x05\x87\xae\x1e\xab\x9e\x86\x03\xc4\xb1'K\x8eXs%\x00\x00\x00\x00",
    b"\x00\x00\x00'S\x00\x00\x00\x00\x00\x00\x00\x00\x00\x00\x00\x00\x00\x00\x00\x00\x01\x08O\x931\xfa\x01\xfa\xff\x9e\x84\x84\xf3\xc4\xe4\x01\xe9!\xb5p\x16k",
    b"\x00\x00\x00$R\x00\x00\x00\x00\x00\x00\x00\x00\x00\x00\x00\x00\x00\x00\x00\x00\x01\x00\x00\x00\x01\x00\x00\x00\x0aD\x03\x00\x00\x00\x00\x00\x00\x00\x03",
    b"\x00\x00\x00\x12S\x00\x00\x00\x00\x00\x00\x00\x01\x00\x00\x00\x00\x00\x00\x00\x00\x00",
    b"\x00\x00\x00\x18R\x00\x00\x00\x00\x00\x00\x00\x01\x00\x00\x00\x00\x00\x00\x00\x00\x03\x00\x00\x00\x023\x0a",
];

// The records one behind the other.
fn joined(alloc: Global, records: &[&[u8]]) -> Result<Vec<u8>, Fail> {
    let mut all = Vec::new(alloc);
    for record in records {
        all.extend_from_slice(record)?;
    }
    Ok(all)
}

// The program over a sum, with these bytes at the path of its log.
fn ran<R: Threads + Wait + Copy + Send + Sync + Drop + 'static>(
    rt: R,
    alloc: Global,
    row: &str,
    log: &[u8],
) -> Result<Got, Fail> {
    let mut gates = open_gates(alloc)?;
    outcome_from(
        rt,
        alloc,
        row,
        "return 1 + 2;",
        log,
        (0, 0, 0, 0),
        &mut gates,
    )
}

fn wrote(rt: &impl Abort, got: &Got) -> Result<(), Fail> {
    assert_eq!(rt; got.ended.status, 0);
    assert!(rt; got.out.bytes() == b"3\n".as_slice());
    Ok(())
}

fn kept(rt: &impl Abort, alloc: Global, got: &Got) -> Result<(), Fail> {
    let log = joined(alloc, SUM.as_slice())?;
    let path = Txt::new(alloc, "l")?;
    assert!(rt; got.keep.file(&path) == Some(log.as_slice()));
    Ok(())
}

// The sum is written, and its log is whole.
fn ends<R: Abort + Threads + Wait + Copy + Send + Sync + Drop + 'static>(
    rt: R,
    alloc: Global,
    row: &str,
    log: &[u8],
) -> Result<(), Fail> {
    let got = ran(rt, alloc, row, log)?;
    wrote(&rt, &got)?;
    kept(&rt, alloc, &got)
}

#[test]
fn the_log_of_a_sum(rt: HostRuntime) -> Result<(), Fail> {
    ends(rt, rt.alloc(), "s --log l", &[])
}

// The log is cut within its header, behind it, within the first task's report, and behind it, and isn't cut: what is lacking comes again.
#[test]
fn a_sum_goes_on_from_its_log(rt: HostRuntime) -> Result<(), Fail> {
    for cut in [45usize, 46, 95, 129, 179] {
        let mut log = joined(rt.alloc(), SUM.as_slice())?;
        log.truncate(cut);
        ends(rt, rt.alloc(), "s --resume l", log.as_slice())?;
    }
    Ok(())
}
