// Which fault comes: the flow's, and those of lines and sums at its end.

use crate::calls::{Given, cut, kit};
use line_kit_tests::calls::{Arg, Args, ONE, dictionary};
use sky_base::fault::FaultKind;
use sky_base::value::Value;
use std::alloc::Global;
use std::test::Fail;

type Row = (&'static str, Args<'static>, &'static str, u32, FaultKind);

const T: &str = "ab\nb\nxab\n";

const NOTHING: Args<'static> = &[];

const THREE: Args<'static> = &[("in", Arg::Many(3))];

const MORE: Args<'static> = &[("in", Arg::One), ("other", Arg::One)];

const BELOW_ZERO: Args<'static> = &[("in", Arg::One), ("lines", Arg::Number(-1))];

static ROWS: [Row; 17] = [
    ("nosuch", NOTHING, T, 2, FaultKind::BadExec),
    ("cat", ONE, T, 2, FaultKind::BadCount),
    ("cat", NOTHING, T, 0, FaultKind::BadCount),
    ("split", ONE, T, 65, FaultKind::BadCount),
    ("deal", ONE, T, 0, FaultKind::BadCount),
    ("grep", ONE, T, 1, FaultKind::NoKey),
    ("tally", NOTHING, T, 1, FaultKind::NoKey),
    ("cat", MORE, T, 1, FaultKind::BadKind),
    ("head", BELOW_ZERO, T, 1, FaultKind::BadKind),
    ("same", THREE, T, 1, FaultKind::BadKind),
    ("sum", ONE, T, 1, FaultKind::BadLine),
    ("sum", ONE, "1 a\n2", 1, FaultKind::BadLine),
    ("half", ONE, "1\n-", 1, FaultKind::BadLine),
    (
        "half",
        ONE,
        "9223372036854775808\n1\n",
        1,
        FaultKind::BadLine,
    ),
    (
        "sum",
        ONE,
        "9223372036854775807 a\n1 a",
        1,
        FaultKind::Overflow,
    ),
    (
        "sum",
        ONE,
        "9223372036854775807 a\n1 a\nb",
        1,
        FaultKind::BadLine,
    ),
    ("half", ONE, "\n", 1, FaultKind::BadLine),
];

fn is(given: &Given, want: FaultKind) -> bool {
    match given {
        Ok(_) => false,
        Err(kind) => *kind == want,
    }
}

fn comes_cut(
    alloc: Global,
    row: &Row,
    args: &Value,
    at: usize,
    drains: bool,
) -> Result<bool, Fail> {
    let given = cut(alloc, row.0, args, &[row.2], row.3, at, drains)?;
    Ok(is(&given, row.4))
}

fn comes(alloc: Global, row: &Row) -> Result<bool, Fail> {
    let args = dictionary(alloc, row.1)?;
    for at in 0..26 {
        if !comes_cut(alloc, row, &args, at, false)? || !comes_cut(alloc, row, &args, at, true)? {
            return Ok(false);
        }
    }
    Ok(is(&kit(alloc, row.0, &args, &[row.2], row.3)?, row.4))
}

#[test]
fn faults_come_with_every_cut(rt: HostRuntime) -> Result<(), Fail> {
    for row in &ROWS {
        assert!(rt; comes(rt.alloc(), row)?, "{}", row.0);
    }
    Ok(())
}

fn null_is(alloc: Global, outputs: u32, want: FaultKind) -> Result<bool, Fail> {
    Ok(is(
        &cut(alloc, "cat", &Value::Null, &[T], outputs, 1, true)?,
        want,
    ))
}

#[test]
fn arguments_that_are_no_dictionary(rt: HostRuntime) -> Result<(), Fail> {
    assert!(rt; null_is(rt.alloc(), 1, FaultKind::BadKind)?);
    assert!(rt; null_is(rt.alloc(), 2, FaultKind::BadCount)?);
    Ok(())
}
