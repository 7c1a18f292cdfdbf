// Flows with arguments and inputs that are short to write, cut and drained.

use line_flow::flow::{Flow, FlowRefusal};
use line_flow::kit::FlowKit;
use line_kit_tests::calls::bytes_of;
use sky_base::fault::FaultKind;
use sky_base::kit::Kit;
use sky_base::text::{Bytes, Txt};
use sky_base::value::Value;
use std::alloc::Global;
use std::test::Fail;

/// What was handed out of each output so far.
pub type Outputs = Vec<Vec<u8>>;

/// What an executor gives: its outputs, or a fault.
pub type Given = Result<Outputs, FaultKind>;

/// So many outputs without a byte.
pub fn no_bytes(alloc: Global, outputs: u32) -> Result<Outputs, Fail> {
    let mut all = Vec::new(alloc);
    for _i in 0..outputs {
        if all.push(Vec::new(alloc)).is_err() {
            return Err(Fail::from("memory"));
        }
    }
    Ok(all)
}

/// Puts what was handed out now behind what was handed out before.
pub fn add(all: &mut Outputs, more: &[Bytes]) -> Result<(), Fail> {
    if all.len() != more.len() {
        return Err(Fail::from("another number of outputs"));
    }
    for i in 0..more.len() {
        if i < all.len() && all[i].extend_from_slice(more[i].as_slice()).is_err() {
            return Err(Fail::from("memory"));
        }
    }
    Ok(())
}

/// Whether these are the outputs.
pub fn are(all: &Outputs, want: &[&str]) -> bool {
    if all.len() != want.len() {
        return false;
    }
    for i in 0..all.len() {
        if i < want.len() && all[i].as_slice() != want[i].as_bytes() {
            return false;
        }
    }
    true
}

/// A flow, or the fault that refuses it.
pub fn opened(
    alloc: Global,
    executor: &str,
    args: &Value,
    inputs: u32,
    outputs: u32,
) -> Result<Result<Flow, FaultKind>, Fail> {
    match Flow::open(alloc, &Txt::new(alloc, executor)?, args, inputs, outputs) {
        Ok(flow) => Ok(Ok(flow)),
        Err(FlowRefusal::Refused(kind)) => Ok(Err(kind)),
        Err(FlowRefusal::Memory) => Err(Fail::from("memory")),
    }
}

/// Drains a flow.
pub fn drain(flow: &mut Flow, all: &mut Outputs) -> Result<(), Fail> {
    add(all, flow.drain()?.as_slice())
}

// Feeds a piece, and drains the flow where that is asked for.
fn feed(
    flow: &mut Flow,
    input: u32,
    piece: &[u8],
    drains: bool,
    all: &mut Outputs,
) -> Result<(), Fail> {
    flow.feed(input, piece)?;
    if drains {
        drain(flow, all)?;
    }
    Ok(())
}

// Feeds an input in two pieces.
fn feed_cut(
    flow: &mut Flow,
    input: u32,
    bytes: &[u8],
    at: usize,
    drains: bool,
    all: &mut Outputs,
) -> Result<(), Fail> {
    let (first, second) = bytes.split_at(at.min(bytes.len()));
    feed(flow, input, first, drains, all)?;
    feed(flow, input, second, drains, all)
}

fn feed_all(
    flow: &mut Flow,
    inputs: &[&str],
    at: usize,
    drains: bool,
    all: &mut Outputs,
) -> Result<(), Fail> {
    for i in 0..inputs.len() {
        feed_cut(
            flow,
            u32::try_from(i)?,
            inputs[i].as_bytes(),
            at,
            drains,
            all,
        )?;
    }
    Ok(())
}

/// What a flow answers at its end, behind what was drained.
pub fn ended(flow: Flow, all: Outputs) -> Result<Given, Fail> {
    let mut all = all;
    match flow.end()? {
        Ok(more) => {
            add(&mut all, more.as_slice())?;
            Ok(Ok(all))
        }
        Err(kind) => Ok(Err(kind)),
    }
}

/// What a flow gives whose inputs are each cut at a place, with drains between or without.
pub fn cut(
    alloc: Global,
    executor: &str,
    args: &Value,
    inputs: &[&str],
    outputs: u32,
    at: usize,
    drains: bool,
) -> Result<Given, Fail> {
    let mut all = no_bytes(alloc, outputs)?;
    match opened(alloc, executor, args, u32::try_from(inputs.len())?, outputs)? {
        Ok(mut flow) => {
            feed_all(&mut flow, inputs, at, drains, &mut all)?;
            ended(flow, all)
        }
        Err(kind) => Ok(Err(kind)),
    }
}

/// What the kit gives.
pub fn kit(
    alloc: Global,
    executor: &str,
    args: &Value,
    inputs: &[&str],
    outputs: u32,
) -> Result<Given, Fail> {
    let executor = Txt::new(alloc, executor)?;
    let inputs = bytes_of(alloc, inputs)?;
    let mut all = no_bytes(alloc, outputs)?;
    match FlowKit.run(alloc, &executor, args, inputs.as_slice(), outputs)? {
        Ok(more) => {
            add(&mut all, more.as_slice())?;
            Ok(Ok(all))
        }
        Err(kind) => Ok(Err(kind)),
    }
}
