// The records, by hand. What is expected is written in hexadecimal digits.

use ciel_log_records::end::{put_answer, put_fault, put_missing, put_object, put_saved};
use ciel_log_records::header::put_header;
use ciel_log_records::report::put_opening;
use ciel_log_records::start::{put_dropped, put_start};
use ciel_name::writer::Writer;
use ciel_task_order::block::{Held, Spot};
use hex::encode_upper;
use sky_base::fault::{Fault, FaultKind};
use sky_base::name::Name;
use sky_base::object::{Desc1, Named, Object, TaskId};
use sky_base::text::{Bytes, Txt};
use std::alloc::Global;
use std::test::Fail;

// Whether these bytes were written.
fn wrote(alloc: Global, out: &Writer, expected: &str) -> Result<bool, Fail> {
    let digits = encode_upper(alloc, out.as_slice())?;
    Ok(digits.as_str() == expected)
}

fn bytes(alloc: Global, text: &str) -> Result<Bytes, Fail> {
    let bytes = Bytes::new(alloc, Vec::from_slice(alloc, text.as_bytes())?)?;
    Ok(bytes)
}

fn short(number: u8) -> Name {
    Name::short([number; 20])
}

#[test]
fn a_header(rt: HostRuntime) -> Result<(), Fail> {
    let alloc = rt.alloc();
    let mut inputs = Vec::new(alloc);
    inputs.push((Txt::new(alloc, "k")?, bytes(alloc, "")?))?;
    let mut out = Writer::new(alloc);
    put_header(&mut out, 2, 258, &[(1, 0)], true, b"x", inputs.as_slice())?;
    assert!(&rt;
        wrote(
            alloc,
            &out,
            "480000000200000000000001020000000100000001000000000111F6AD8EC52A2984ABAAFD7C3B516503785C207200000001000000016BDA39A3EE5E6B4B0D3255BFEF95601890AFD80709"
        )?
    );
    Ok(())
}

#[test]
fn starts(rt: HostRuntime) -> Result<(), Fail> {
    let alloc = rt.alloc();
    let mut root = Writer::new(alloc);
    put_start(&mut root, 258, 3, 4, &TaskId::Show)?;
    assert!(&rt; wrote(alloc, &root, "530000000000000102000000030000000400")?);
    let mut task = Writer::new(alloc);
    put_start(&mut task, 0, 0, 1, &TaskId::Of(short(2)))?;
    assert!(&rt;
        wrote(
            alloc,
            &task,
            "530000000000000000000000000000000101080202020202020202020202020202020202020202"
        )?
    );
    Ok(())
}

#[test]
fn a_dropped_report(rt: HostRuntime) -> Result<(), Fail> {
    let mut out = Writer::new(rt.alloc());
    put_dropped(&mut out, 9)?;
    assert!(&rt; wrote(rt.alloc(), &out, "440000000000000009")?);
    Ok(())
}

// One description that was spawned, an input's, and one object that was copied.
fn opening(alloc: Global, out: &mut Writer) -> Result<(), Fail> {
    let mut spawned = Vec::new(alloc);
    spawned.push(Named {
        name: short(1),
        desc: Desc1::Input {
            key: Txt::new(alloc, "k")?,
        },
    })?;
    let mut copied = Vec::new(alloc);
    copied.push(Held {
        name: short(2),
        at: Spot::Input(0),
    })?;
    put_opening(alloc, out, 7, spawned.as_slice(), copied.as_slice())?;
    Ok(())
}

#[test]
fn the_opening_of_a_report(rt: HostRuntime) -> Result<(), Fail> {
    let mut out = Writer::new(rt.alloc());
    opening(rt.alloc(), &mut out)?;
    assert!(&rt;
        wrote(
            rt.alloc(),
            &out,
            "520000000000000007000000010000000649000000016B00000001080202020202020202020202020202020202020202"
        )?
    );
    Ok(())
}

#[test]
fn an_output_and_a_stack(rt: HostRuntime) -> Result<(), Fail> {
    let alloc = rt.alloc();
    let mut output = Writer::new(alloc);
    put_object(alloc, &mut output, &Object::Bytes(bytes(alloc, "ab")?))?;
    assert!(&rt; wrote(alloc, &output, "00000003426162")?);
    let mut stack = Writer::new(alloc);
    put_saved(&mut stack, 3, b"K")?;
    assert!(&rt; wrote(alloc, &stack, "0200000003000000014B")?);
    Ok(())
}

#[test]
fn an_answer_and_a_fault(rt: HostRuntime) -> Result<(), Fail> {
    let alloc = rt.alloc();
    let mut answer = Writer::new(alloc);
    put_answer(&mut answer, b"25\n")?;
    assert!(&rt; wrote(alloc, &answer, "030000000332350A")?);
    let mut fault = Writer::new(alloc);
    let divided = Fault {
        kind: FaultKind::DivZero,
        line: 1,
        col: 24,
    };
    put_fault(&mut fault, &divided)?;
    assert!(&rt; wrote(alloc, &fault, "04030000000100000018")?);
    Ok(())
}

#[test]
fn something_missing(rt: HostRuntime) -> Result<(), Fail> {
    let mut out = Writer::new(rt.alloc());
    put_missing(&mut out, &Name::long([9; 32]), 1)?;
    assert!(&rt;
        wrote(
            rt.alloc(),
            &out,
            "0509090909090909090909090909090909090909090909090909090909090909090900000001"
        )?
    );
    Ok(())
}
