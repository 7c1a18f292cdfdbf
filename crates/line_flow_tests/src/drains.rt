// What a drain hands out, and what is left for the end.

use crate::calls::{Given, Outputs, are, drain, ended, no_bytes, opened};
use line_flow::flow::Flow;
use line_kit_tests::calls::{Arg, Args, ONE, dictionary};
use std::alloc::Global;
use std::test::Fail;

const A: Args<'static> = &[("in", Arg::One), ("text", Arg::Text("a"))];

fn flow(alloc: Global, executor: &str, args: Args) -> Result<Flow, Fail> {
    match opened(alloc, executor, &dictionary(alloc, args)?, 1, 1)? {
        Ok(flow) => Ok(flow),
        Err(_) => Err(Fail::from("refused")),
    }
}

fn drained(alloc: Global, flow: &mut Flow) -> Result<Outputs, Fail> {
    let mut all = no_bytes(alloc, 1)?;
    drain(flow, &mut all)?;
    Ok(all)
}

// Whether a drain hands out this.
fn drains(alloc: Global, flow: &mut Flow, want: &str) -> Result<bool, Fail> {
    Ok(are(&drained(alloc, flow)?, &[want]))
}

// Whether this is left at the end.
fn leaves(alloc: Global, flow: Flow, want: &str) -> Result<bool, Fail> {
    let given: Given = ended(flow, no_bytes(alloc, 1)?)?;
    Ok(match given {
        Ok(all) => are(&all, &[want]),
        Err(_) => false,
    })
}

fn feed(flow: &mut Flow, pieces: &[&str]) -> Result<(), Fail> {
    for piece in pieces {
        flow.feed(0, piece.as_bytes())?;
    }
    Ok(())
}

// The whole lines with the text are drained; the one that is open comes at the end, once it is whole.
fn grep_drains(alloc: Global) -> Result<bool, Fail> {
    let mut grep = flow(alloc, "grep", A)?;
    feed(&mut grep, &["ab\nca"])?;
    if !drains(alloc, &mut grep, "ab\n")? || !drains(alloc, &mut grep, "")? {
        return Ok(false);
    }
    feed(&mut grep, &["x\n"])?;
    leaves(alloc, grep, "cax\n")
}

// Nothing is drained of what is known at the end alone.
fn tally_drains(alloc: Global) -> Result<bool, Fail> {
    let mut tally = flow(alloc, "tally", ONE)?;
    feed(&mut tally, &["b\n"])?;
    if !drains(alloc, &mut tally, "")? {
        return Ok(false);
    }
    leaves(alloc, tally, "1 b\n")
}

fn counts(alloc: Global) -> Result<bool, Fail> {
    let mut count = flow(alloc, "count", ONE)?;
    feed(&mut count, &["a", "\n", "b"])?;
    leaves(alloc, count, "2\n")
}

// A line in three pieces, between two drains.
fn cat_drains(alloc: Global) -> Result<bool, Fail> {
    let mut cat = flow(alloc, "cat", ONE)?;
    feed(&mut cat, &["a", "b"])?;
    if !drains(alloc, &mut cat, "")? {
        return Ok(false);
    }
    feed(&mut cat, &["c\nd\ne"])?;
    if !drains(alloc, &mut cat, "abc\nd\n")? {
        return Ok(false);
    }
    leaves(alloc, cat, "e\n")
}

#[test]
fn grep_hands_out_whole_lines(rt: HostRuntime) -> Result<(), Fail> {
    assert!(rt; grep_drains(rt.alloc())?);
    Ok(())
}

#[test]
fn tally_hands_out_nothing_before_its_end(rt: HostRuntime) -> Result<(), Fail> {
    assert!(rt; tally_drains(rt.alloc())?);
    Ok(())
}

#[test]
fn lines_are_counted_over_pieces(rt: HostRuntime) -> Result<(), Fail> {
    assert!(rt; counts(rt.alloc())?);
    Ok(())
}

#[test]
fn cat_hands_out_what_pieces_make_whole(rt: HostRuntime) -> Result<(), Fail> {
    assert!(rt; cat_drains(rt.alloc())?);
    Ok(())
}
