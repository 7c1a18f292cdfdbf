// What each executor gives.

use crate::calls::{Arg, Args, ONE, TWO, eight_times};
use crate::kit::gives;
use line_kit::kit::LineKit;
use std::test::Fail;

type Row = (
    &'static str,
    Args<'static>,
    &'static [&'static str],
    &'static [&'static str],
);

const T: &str = "ab\nb\nxab\n";

const AB: Args<'static> = &[("in", Arg::One), ("text", Arg::Text("ab"))];

const NO_TEXT: Args<'static> = &[("in", Arg::One), ("text", Arg::Text(""))];

const LINE_FEED: Args<'static> = &[("in", Arg::One), ("text", Arg::Text("\n"))];

const AAB: Args<'static> = &[("in", Arg::One), ("text", Arg::Text("aab"))];

const NO_LINE: Args<'static> = &[("in", Arg::One), ("lines", Arg::Number(0))];

const ONE_LINE: Args<'static> = &[("in", Arg::One), ("lines", Arg::Number(1))];

const MANY_LINES: Args<'static> = &[
    ("in", Arg::One),
    ("lines", Arg::Number(9_223_372_036_854_775_807)),
];

const NO_INPUT: Args<'static> = &[("in", Arg::Many(0))];

// The worked rows; then several inputs, a line ending at the end of its input, and empty ones; then the
// edges of each row.
static ROWS: [Row; 48] = [
    ("cat", ONE, &[T], &[T]),
    ("grep", AB, &[T], &["ab\nxab\n"]),
    ("head", ONE_LINE, &[T], &["ab\n"]),
    ("sort", ONE, &[T], &[T]),
    ("count", ONE, &[T], &["3\n"]),
    ("tally", ONE, &[T], &["1 ab\n1 b\n1 xab\n"]),
    ("half", ONE, &["-5\n"], &["-2\n"]),
    ("same", TWO, &[T, T], &["true\n"]),
    ("deal", ONE, &[T], &["ab\nxab\n", "b\n"]),
    ("words", ONE, &[" a  b"], &["a\nb\n"]),
    ("cat", TWO, &["a", "b"], &["a\nb\n"]),
    ("cat", ONE, &[""], &[""]),
    ("cat", NO_INPUT, &[], &[""]),
    ("cat", TWO, &["\n", "\n\n"], &["\n\n\n"]),
    ("count", TWO, &["a\nb", "\nc\n"], &["4\n"]),
    ("count", ONE, &[""], &["0\n"]),
    ("count", ONE, &["a"], &["1\n"]),
    ("sort", TWO, &["b\na", "ab\n\n"], &["\na\nab\nb\n"]),
    (
        "words",
        TWO,
        &["\t\r\n", "to be\tor\r\n\nnot"],
        &["to\nbe\nor\nnot\n"],
    ),
    ("grep", AB, &["a\nb\nab"], &["ab\n"]),
    ("grep", NO_TEXT, &["a\n\n"], &["a\n\n"]),
    ("grep", LINE_FEED, &["a\n\n"], &[""]),
    ("grep", AAB, &["aaab\nabab"], &["aaab\n"]),
    ("head", ONE_LINE, &[""], &[""]),
    ("head", NO_LINE, &[T], &[""]),
    ("head", MANY_LINES, &[T], &[T]),
    ("split", ONE, &["x\ny\n"], &["x\n", "y\n", ""]),
    (
        "split",
        ONE,
        &["1\n2\n3\n4\n5"],
        &["1\n2\n", "3\n4\n", "5\n"],
    ),
    (
        "split",
        ONE,
        &["1\n2\n3\n4\n5"],
        &["1\n2\n", "3\n4\n", "5\n", ""],
    ),
    ("split", TWO, &["", ""], &["", ""]),
    (
        "deal",
        ONE,
        &["1\n2\n3\n4\n5"],
        &["1\n4\n", "2\n5\n", "3\n"],
    ),
    ("deal", TWO, &["1", "2"], &["1\n2\n"]),
    ("deal", ONE, &[""], &["", "", ""]),
    ("tally", TWO, &["b\na\n", "b"], &["1 a\n2 b\n"]),
    ("tally", ONE, &["\n\na"], &["2 \n1 a\n"]),
    ("sum", TWO, &["1 a\n1 b\n", "1 b"], &["1 a\n2 b\n"]),
    ("sum", ONE, &["007 x y\n0 \n1 "], &["1 \n7 x y\n"]),
    (
        "sum",
        ONE,
        &["9223372036854775806 b\n9223372036854775807 a\n1 b"],
        &["9223372036854775807 a\n9223372036854775807 b\n"],
    ),
    (
        "half",
        ONE,
        &["5\n4\n1\n0\n-0\n-1\n-4"],
        &["2\n2\n0\n0\n0\n0\n-2\n"],
    ),
    (
        "half",
        ONE,
        &["-9223372036854775808\n9223372036854775807"],
        &["-4611686018427387904\n4611686018427387903\n"],
    ),
    (
        "half",
        ONE,
        &["-0000000000000000000000000000000000007"],
        &["-3\n"],
    ),
    ("same", TWO, &["a", "a\n"], &["true\n"]),
    ("same", TWO, &["", "\n"], &["false\n"]),
    ("same", TWO, &["", ""], &["true\n"]),
    ("same", TWO, &["a\nb", "b\na"], &["false\n"]),
    ("same", TWO, &["ab", "a"], &["false\n"]),
    ("same", TWO, &["a\n", "a\n\n"], &["false\n"]),
    ("same", TWO, &["ab\nb", "ab\nc"], &["false\n"]),
];

#[test]
fn executors_give_their_outputs(rt: HostRuntime) -> Result<(), Fail> {
    for row in &ROWS {
        gives(&rt, rt.alloc(), row.0, row.1, row.2, row.3)?;
    }
    Ok(())
}

// The input in eight places has as many bytes as an output may have, or eight more.
#[test]
fn outputs_at_their_limit(rt: HostRuntime) -> Result<(), Fail> {
    assert!(rt; eight_times(rt.alloc(), &LineKit, 8_388_608)?);
    assert!(rt; !eight_times(rt.alloc(), &LineKit, 8_388_609)?);
    Ok(())
}
