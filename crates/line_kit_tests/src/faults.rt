// Each fault, and which of two comes.

use crate::calls::{Arg, Args, ONE};
use crate::kit::{answer, faults};
use line_kit::kit::LineKit;
use sky_base::fault::FaultKind;
use sky_base::kit::Kit;
use sky_base::text::Txt;
use sky_base::value::Value;
use std::alloc::Global;
use std::test::Fail;

type Row = (&'static str, Args<'static>, &'static str, u32, FaultKind);

const T: &str = "ab\nb\nxab\n";

const NOTHING: Args<'static> = &[];

const OTHER: Args<'static> = &[("im", Arg::One)];

const BOTH: Args<'static> = &[("in", Arg::Text("a")), ("b", Arg::One)];

const A_TEXT: Args<'static> = &[("in", Arg::Text("t"))];

const MIXED: Args<'static> = &[("in", Arg::Mixed)];

const THREE: Args<'static> = &[("in", Arg::Many(3))];

const TEXT: Args<'static> = &[("in", Arg::One), ("text", Arg::Text("t"))];

const MORE: Args<'static> = &[("in", Arg::One), ("other", Arg::One)];

const TEXT_NUMBER: Args<'static> = &[("in", Arg::One), ("text", Arg::Number(1))];

const TEXT_REFERENCE: Args<'static> = &[("in", Arg::One), ("text", Arg::One)];

const BELOW_ZERO: Args<'static> = &[("in", Arg::One), ("lines", Arg::Number(-1))];

const LINES_TEXT: Args<'static> = &[("in", Arg::One), ("lines", Arg::Text("1"))];

// The faults in their order; then arguments of another kind; then lines that are no numbers.
static ROWS: [Row; 30] = [
    ("nosuch", NOTHING, T, 2, FaultKind::BadExec),
    ("Cat", ONE, T, 1, FaultKind::BadExec),
    ("cat", ONE, T, 2, FaultKind::BadCount),
    ("cat", NOTHING, T, 0, FaultKind::BadCount),
    ("split", ONE, T, 0, FaultKind::BadCount),
    ("deal", ONE, T, 65, FaultKind::BadCount),
    ("cat", OTHER, T, 1, FaultKind::NoKey),
    ("grep", ONE, T, 1, FaultKind::NoKey),
    ("grep", BOTH, T, 1, FaultKind::NoKey),
    ("head", ONE, T, 1, FaultKind::NoKey),
    ("sum", ONE, T, 1, FaultKind::BadLine),
    ("cat", A_TEXT, T, 1, FaultKind::BadKind),
    ("cat", MIXED, T, 1, FaultKind::BadKind),
    ("cat", TEXT, T, 1, FaultKind::BadKind),
    ("cat", MORE, T, 1, FaultKind::BadKind),
    ("grep", TEXT_NUMBER, T, 1, FaultKind::BadKind),
    ("grep", TEXT_REFERENCE, T, 1, FaultKind::BadKind),
    ("head", BELOW_ZERO, T, 1, FaultKind::BadKind),
    ("head", LINES_TEXT, T, 1, FaultKind::BadKind),
    ("same", ONE, T, 1, FaultKind::BadKind),
    ("same", THREE, T, 1, FaultKind::BadKind),
    ("half", ONE, "\n", 1, FaultKind::BadLine),
    ("half", ONE, "-", 1, FaultKind::BadLine),
    ("half", ONE, "+1", 1, FaultKind::BadLine),
    ("half", ONE, "1\n9223372036854775808", 1, FaultKind::BadLine),
    ("half", ONE, "-9223372036854775809", 1, FaultKind::BadLine),
    ("sum", ONE, "1", 1, FaultKind::BadLine),
    ("sum", ONE, "9223372036854775808 a", 1, FaultKind::BadLine),
    (
        "sum",
        ONE,
        "9223372036854775807 a\n1 a",
        1,
        FaultKind::Overflow,
    ),
    (
        "sum",
        ONE,
        "9223372036854775807 a\n1 a\nb",
        1,
        FaultKind::BadLine,
    ),
];

#[test]
fn executors_give_their_faults(rt: HostRuntime) -> Result<(), Fail> {
    for row in &ROWS {
        faults(&rt, rt.alloc(), row.0, row.1, &[row.2], row.3, row.4)?;
    }
    Ok(())
}

fn no_dictionary(alloc: Global, outputs: u32, want: FaultKind) -> Result<bool, Fail> {
    let found = answer(alloc, "cat", &Value::Null, &[T], outputs)?;
    Ok(matches!(found, Err(kind) if kind == want))
}

#[test]
fn arguments_that_are_no_dictionary(rt: HostRuntime) -> Result<(), Fail> {
    assert!(rt; no_dictionary(rt.alloc(), 1, FaultKind::BadKind)?);
    assert!(rt; no_dictionary(rt.alloc(), 2, FaultKind::BadCount)?);
    Ok(())
}

static KNOWN: [&str; 12] = [
    "cat", "grep", "words", "split", "deal", "sort", "tally", "count", "sum", "head", "half",
    "same",
];

static UNKNOWN: [&str; 4] = ["", "Cat", "cat ", "nosuch"];

fn is_known(alloc: Global, name: &str) -> Result<bool, Fail> {
    Ok(LineKit.known(&Txt::new(alloc, name)?))
}

#[test]
fn names_of_the_table_are_known(rt: HostRuntime) -> Result<(), Fail> {
    for name in &KNOWN {
        assert!(rt; is_known(rt.alloc(), name)?, "{name}");
    }
    for name in &UNKNOWN {
        assert!(rt; !is_known(rt.alloc(), name)?, "{name}");
    }
    Ok(())
}
