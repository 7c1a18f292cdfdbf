// The rows.

ghost use Rattle.std.specs.Prelude.{◌≡◌, IfOk};

use crate::run::{Made, both};
use ciel_flow_pieces::follow::Left;
use line_flow::kit::FlowKit;
use line_kit_tests::calls::{Arg, Args, ONE, dictionary};
use sky_base::kit::Kit;
use sky_base::text::{Bytes, Txt};
use std::alloc::Global;
use std::sync::Wait;
use std::test::Fail;
use std::thread::Threads;

// An output of an executor, by what it is asked.
#[derive(Clone, Copy)]
struct Asked {
    executor: &'static str,
    args: Args<'static>,
    outputs: u32,
    index: u32,
}

// A text so often.
fn often(alloc: Global, text: &str, count: u32) -> Result<Bytes, Fail> {
    let mut all = Vec::new(alloc);
    for _time in 0..count {
        all.extend_from_slice(text.as_bytes())?;
    }
    Ok(Bytes::new(alloc, all)?)
}

fn made<'a>(alloc: Global, asked: Asked, inputs: &'a [Bytes]) -> Result<Made<'a>, Fail>
    ensures { IfOk result (λ m. m.inputs.now ≡ inputs.now) }
{
    Ok(Made {
        executor: Txt::new(alloc, asked.executor)?,
        args: dictionary(alloc, asked.args)?,
        outputs: asked.outputs,
        index: asked.index,
        inputs,
    })
}

// What an executor with one output gives for its one input, one run after the other.
fn plain(alloc: Global, executor: &str, input: Bytes) -> Result<Bytes, Fail> {
    let args = dictionary(alloc, ONE)?;
    let made = FlowKit.run(alloc, &Txt::new(alloc, executor)?, &args, &[input], 1)?;
    match made {
        Ok(mut outputs) => match outputs.pop() {
            Some(output) => Ok(output),
            None => Err(Fail::from("no output")),
        },
        Err(_) => Err(Fail::from("a fault")),
    }
}

// The output of the first executor, run alone.
fn first(alloc: Global, made: &Made) -> Result<Bytes, Fail> {
    match FlowKit.run(alloc, &made.executor, &made.args, made.inputs, made.outputs)? {
        Ok(outputs) => match outputs.get(made.index as usize) {
            Some(output) => Ok(output.share()?),
            None => Err(Fail::from("no output")),
        },
        Err(_) => Err(Fail::from("a fault")),
    }
}

// Whether what is left is the one output of these bytes, made of this many parts or more.
fn is(left: &Left, bytes: &Bytes, parts: usize) -> bool {
    match &left.made {
        Ok(outputs) => match outputs.as_slice() {
            [one] => one.as_slice() == bytes.as_slice() && left.parts.len() >= parts,
            _ => false,
        },
        Err(_) => false,
    }
}

// Whether the second executor gives at the same time what it gives afterwards, over the text so often, in so many parts at least.
fn follows<R: Threads + Wait + Sync>(
    rt: &R,
    alloc: Global,
    asked: Asked,
    second: &str,
    text: &str,
    count: u32,
    parts: usize,
) -> Result<bool, Fail> {
    let input = [often(alloc, text, count)?];
    let made = made(alloc, asked, &input)?;
    let Some(left) = both(rt, alloc, &made, second)? else {
        return Err(Fail::from("nothing is left"));
    };
    let wanted = plain(alloc, second, first(alloc, &made)?)?;
    Ok(is(&left, &wanted, parts))
}

static WORDS: Asked = Asked {
    executor: "words",
    args: ONE,
    outputs: 1,
    index: 0,
};

static DEALT: Asked = Asked {
    executor: "deal",
    args: ONE,
    outputs: 3,
    index: 1,
};

static FOUND: Asked = Asked {
    executor: "grep",
    args: &[("in", Arg::One), ("text", Arg::Text("ab"))],
    outputs: 1,
    index: 0,
};

static FIRST: Asked = Asked {
    executor: "head",
    args: &[("in", Arg::One), ("lines", Arg::Number(2))],
    outputs: 1,
    index: 0,
};

static ALL: Asked = Asked {
    executor: "cat",
    args: ONE,
    outputs: 1,
    index: 0,
};

// More pieces than eight places pass through them, and each pair of executors.
#[test]
fn streams_are_followed(rt: HostRuntime) -> Result<(), Fail> {
    let rows = [
        (WORDS, "count", 90_000, 10),
        (DEALT, "tally", 5, 1),
        (FOUND, "sort", 5, 1),
        (FIRST, "cat", 5, 1),
        (ALL, "half", 0, 1),
    ];
    for (asked, second, count, parts) in rows {
        assert!(&rt; follows(&rt, rt.alloc(), asked, second, "ab c\nabc", count, parts)?);
    }
    Ok(())
}

// A line that is longer than a part may be comes in two parts, behind an empty one for each of the two pieces of the input.
#[test]
fn long_lines_are_cut(rt: HostRuntime) -> Result<(), Fail> {
    assert!(&rt; follows(&rt, rt.alloc(), ALL, "cat", "ab", 35_000, 4)?);
    Ok(())
}

// A call that is refused puts no part and leaves nothing.
#[test]
fn refused_calls_leave_nothing(rt: HostRuntime) -> Result<(), Fail> {
    let refused = Asked {
        executor: "cat",
        args: ONE,
        outputs: 2,
        index: 0,
    };
    let input = [often(rt.alloc(), "a\n", 3)?];
    let made = made(rt.alloc(), refused, &input)?;
    let left = both(&rt, rt.alloc(), &made, "count")?;
    assert!(&rt; left.is_none());
    Ok(())
}
