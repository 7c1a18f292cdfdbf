// Reads, writes, logs and memos that fail: the first read that fails is told, none is tried where the script is none, and a log that fails changes
// no status but that of a journal behind a result, nor does a memo but that of an answer.

use crate::calls::{Fails, Got, open_gates, outcome};
use std::alloc::Global;
use std::process::Abort;
use std::sync::Wait;
use std::test::Fail;
use std::thread::Threads;

fn over<R: Threads + Wait + Copy + Send + Sync + Drop + 'static>(
    rt: R,
    alloc: Global,
    row: &str,
    source: &str,
    fails: Fails,
) -> Result<Got, Fail> {
    let mut gates = open_gates(alloc)?;
    outcome(rt, alloc, row, source, fails, &mut gates)
}

/// The words of a run, the script, what fails, the status, what is written, and what is told. Where the result or the log fails, a beginning
/// of that is written there.
type Row = (
    &'static str,
    &'static str,
    Fails,
    u8,
    &'static str,
    &'static str,
);

const SUM: &str = "return 1 + 2;";

static ROWS: [Row; 27] = [
    ("s", SUM, (1, 0, 0, 0), 8, "", "ciel: read fault s\n"),
    ("s t=f", SUM, (2, 0, 0, 0), 8, "", "ciel: read fault f\n"),
    (
        "s t=f u=g v=h",
        SUM,
        (9, 0, 0, 0),
        8,
        "",
        "ciel: read fault g\n",
    ),
    (
        "s t=g",
        "return 1",
        (9, 0, 0, 0),
        2,
        "",
        "ciel: syntax NoSentence 1:9\n",
    ),
    (
        "s a=f b=f",
        SUM,
        (3, 0, 0, 0),
        8,
        "",
        "ciel: read fault f\n",
    ),
    ("s", SUM, (0, 1, 0, 0), 9, "3\n", "ciel: write fault\n"),
    (
        "s --plain",
        SUM,
        (0, 1, 0, 0),
        9,
        "3\n",
        "ciel: write fault\n",
    ),
    (
        "s",
        "function bad(){return 1/0;} return *spawn(bad, []);",
        (0, 0, 1, 0),
        3,
        "",
        "ciel: fault DivZero 1:24\n",
    ),
    (
        "s",
        "return 9223372036854775807 + 1;",
        (0, 0, 1, 0),
        3,
        "",
        "ciel: fault Overflow 1:28\n",
    ),
    (
        "s --log l",
        SUM,
        (0, 0, 0, 1),
        14,
        "",
        "ciel: keep fault l\n",
    ),
    (
        "s --log l",
        SUM,
        (0, 0, 0, 2),
        14,
        "3\n",
        "ciel: keep fault l\n",
    ),
    (
        "s --log=l",
        SUM,
        (0, 0, 0, 5),
        14,
        "3\n",
        "ciel: keep fault l\n",
    ),
    ("s --log l", SUM, (0, 0, 0, 6), 0, "3\n", ""),
    (
        "s --log l",
        SUM,
        (0, 1, 0, 2),
        9,
        "3\n",
        "ciel: write fault\n",
    ),
    (
        "s --resume l",
        SUM,
        (2, 0, 0, 0),
        8,
        "",
        "ciel: read fault l\n",
    ),
    (
        "s --resume l",
        SUM,
        (0, 0, 0, 1),
        14,
        "",
        "ciel: keep fault l\n",
    ),
    (
        "s --resume l",
        SUM,
        (0, 0, 0, 2),
        14,
        "3\n",
        "ciel: keep fault l\n",
    ),
    ("s --resume l", SUM, (0, 0, 0, 6), 0, "3\n", ""),
    (
        "s --log l",
        "return 1 / 0;",
        (0, 0, 0, 2),
        3,
        "",
        "ciel: fault DivZero 1:10\n",
    ),
    (
        "s --memo-new m",
        SUM,
        (0, 0, 0, 1),
        14,
        "3\n",
        "ciel: keep fault m\n",
    ),
    (
        "s --memo-new m",
        SUM,
        (0, 1, 0, 1),
        9,
        "3\n",
        "ciel: write fault\n",
    ),
    (
        "s --memo-new m",
        "return 1 / 0;",
        (0, 0, 0, 1),
        3,
        "",
        "ciel: fault DivZero 1:10\n",
    ),
    (
        "s --log l --memo-new m",
        SUM,
        (0, 0, 0, 6),
        14,
        "3\n",
        "ciel: keep fault m\n",
    ),
    (
        "s --log l --memo-new m",
        SUM,
        (0, 0, 0, 5),
        14,
        "3\n",
        "ciel: keep fault l\n",
    ),
    (
        "s --memo l",
        SUM,
        (2, 0, 0, 0),
        8,
        "",
        "ciel: read fault l\n",
    ),
    (
        "s --memo l",
        SUM,
        (0, 0, 0, 0),
        17,
        "",
        "ciel: bad memo l 0\n",
    ),
    (
        "s --memo l",
        "return 1",
        (2, 0, 0, 0),
        2,
        "",
        "ciel: syntax NoSentence 1:9\n",
    ),
];

/// These bytes are the text, or where they could not all be written a beginning of it.
fn is(bytes: &[u8], text: &str, failed: u32) -> bool {
    text.as_bytes().starts_with(bytes)
        && (bytes.len() < text.len()) == (failed > 0 && !text.is_empty())
}

fn ends<R: Abort + Threads + Wait + Copy + Send + Sync + Drop + 'static>(
    rt: R,
    alloc: Global,
    row: &Row,
) -> Result<(), Fail> {
    let got = over(rt, alloc, row.0, row.1, row.2)?;
    assert_eq!(rt; got.ended.status, row.3, "for {}", row.0);
    assert!(rt; is(got.out.bytes(), row.4, row.2.1), "not {}", row.4);
    assert!(rt; is(got.log.bytes(), row.5, row.2.2), "not {}", row.5);
    Ok(())
}

#[test]
fn what_fails_is_told(rt: HostRuntime) -> Result<(), Fail> {
    for row in &ROWS {
        ends(rt, rt.alloc(), row)?;
    }
    Ok(())
}

/// A script, which write of its journal fails, the status, and what is written.
static JOURNALS: [(&str, u32, u8, &str); 7] = [
    (SUM, 1, 9, "3\n"),
    (SUM, 2, 9, "3\n"),
    (SUM, 12, 9, "3\n"),
    (SUM, 23, 9, "3\n"),
    (SUM, 60, 0, "3\n"),
    ("return 1 / 0;", 1, 3, ""),
    ("return 1 / 0;", 12, 3, ""),
];

#[test]
fn journals_that_fail(rt: HostRuntime) -> Result<(), Fail> {
    for row in &JOURNALS {
        let got = over(rt, rt.alloc(), "s --trace", row.0, (0, 0, row.1, 0))?;
        assert_eq!(&rt; got.ended.status, row.2);
        assert!(&rt; is(got.out.bytes(), row.3, 0));
    }
    Ok(())
}
