// What each executor gives, whatever place its inputs are cut at, with drains between and without.

use crate::calls::{Given, are, cut, kit};
use line_flow::kit::FlowKit;
use line_kit_tests::calls::{Arg, Args, ONE, TWO, dictionary, eight_times};
use sky_base::value::Value;
use std::alloc::Global;
use std::test::Fail;

type Row = (
    &'static str,
    Args<'static>,
    &'static [&'static str],
    &'static [&'static str],
);

const T: &str = "ab\nb\nxab\n";

const AB: Args<'static> = &[("in", Arg::One), ("text", Arg::Text("ab"))];

const A: Args<'static> = &[("in", Arg::One), ("text", Arg::Text("a"))];

const LINE_FEED: Args<'static> = &[("in", Arg::One), ("text", Arg::Text("\n"))];

const ONE_LINE: Args<'static> = &[("in", Arg::One), ("lines", Arg::Number(1))];

const NO_INPUT: Args<'static> = &[("in", Arg::Many(0))];

const THREE: Args<'static> = &[("in", Arg::Many(3))];

// The worked rows; then several inputs, a line that ends with its input, and empty ones.
static ROWS: [Row; 33] = [
    ("cat", ONE, &[T], &[T]),
    ("grep", AB, &[T], &["ab\nxab\n"]),
    ("head", ONE_LINE, &[T], &["ab\n"]),
    ("sort", ONE, &[T], &[T]),
    ("count", ONE, &[T], &["3\n"]),
    ("tally", ONE, &[T], &["1 ab\n1 b\n1 xab\n"]),
    ("half", ONE, &["-5\n"], &["-2\n"]),
    ("same", TWO, &[T, T], &["true\n"]),
    ("deal", ONE, &[T], &["ab\nxab\n", "b\n"]),
    ("words", ONE, &[" a  b"], &["a\nb\n"]),
    ("count", ONE, &["a\nb"], &["2\n"]),
    ("grep", A, &["ab\ncax\n"], &["ab\ncax\n"]),
    ("tally", ONE, &["b\n"], &["1 b\n"]),
    ("sum", ONE, &["3 a\n4 b\n5 a"], &["8 a\n4 b\n"]),
    ("split", ONE, &["1\n2\n3\n4\n5"], &["1\n2\n3\n", "4\n5\n"]),
    ("cat", THREE, &["a", "", "b\nc"], &["a\nb\nc\n"]),
    ("cat", NO_INPUT, &[], &[""]),
    ("count", THREE, &["a\nb", "\nc\n", ""], &["4\n"]),
    ("count", NO_INPUT, &[], &["0\n"]),
    (
        "words",
        TWO,
        &["to\tbe", " or\r\n\nnot"],
        &["to\nbe\nor\nnot\n"],
    ),
    ("grep", AB, &["a\nb\nab"], &["ab\n"]),
    ("grep", LINE_FEED, &["a\n\n"], &[""]),
    ("head", ONE_LINE, &["\nb\n"], &["\n"]),
    (
        "deal",
        TWO,
        &["1\n2", "3\n4\n5"],
        &["1\n4\n", "2\n5\n", "3\n"],
    ),
    ("sort", TWO, &["b\na", "ab\n\n"], &["\na\nab\nb\n"]),
    ("split", TWO, &["x", "y\nz"], &["x\n", "y\n", "z\n"]),
    ("tally", TWO, &["b\na\n", "b"], &["1 a\n2 b\n"]),
    (
        "half",
        TWO,
        &["7", "-9223372036854775808\n1"],
        &["3\n-4611686018427387904\n0\n"],
    ),
    ("same", TWO, &["a\nb", "a\nb\n"], &["true\n"]),
    ("same", TWO, &["a\nb", "a\nc\n"], &["false\n"]),
    ("same", TWO, &["a\nb\nc", "a\nb\n"], &["false\n"]),
    ("same", TWO, &["a\nb\n", "a\nb\nc"], &["false\n"]),
    ("same", TWO, &["", ""], &["true\n"]),
];

fn is(given: &Given, want: &[&str]) -> bool {
    match given {
        Ok(all) => are(all, want),
        Err(_) => false,
    }
}

fn holds_cut(
    alloc: Global,
    row: &Row,
    args: &Value,
    at: usize,
    drains: bool,
) -> Result<bool, Fail> {
    let given = cut(
        alloc,
        row.0,
        args,
        row.2,
        u32::try_from(row.3.len())?,
        at,
        drains,
    )?;
    Ok(is(&given, row.3))
}

// Whether a row holds with every cut of its inputs.
fn holds(alloc: Global, row: &Row) -> Result<bool, Fail> {
    let args = dictionary(alloc, row.1)?;
    for at in 0..24 {
        if !holds_cut(alloc, row, &args, at, false)? || !holds_cut(alloc, row, &args, at, true)? {
            return Ok(false);
        }
    }
    Ok(true)
}

fn holds_whole(alloc: Global, row: &Row) -> Result<bool, Fail> {
    let args = dictionary(alloc, row.1)?;
    let given = kit(alloc, row.0, &args, row.2, u32::try_from(row.3.len())?)?;
    Ok(is(&given, row.3))
}

#[test]
fn rows_hold_with_every_cut(rt: HostRuntime) -> Result<(), Fail> {
    for row in &ROWS {
        assert!(rt; holds(rt.alloc(), row)?, "{}", row.0);
    }
    Ok(())
}

#[test]
fn rows_hold_by_the_kit(rt: HostRuntime) -> Result<(), Fail> {
    for row in &ROWS {
        assert!(rt; holds_whole(rt.alloc(), row)?, "{}", row.0);
    }
    Ok(())
}

// The input in eight places has as many bytes as an output may have, or eight more.
#[test]
fn outputs_at_their_limit(rt: HostRuntime) -> Result<(), Fail> {
    assert!(rt; eight_times(rt.alloc(), &FlowKit, 8_388_608)?);
    assert!(rt; !eight_times(rt.alloc(), &FlowKit, 8_388_609)?);
    Ok(())
}
