// Scripts with many names and many functions, which are read in ordered sets and one pass.

use crate::reading::{refusal, repeat, script};
use sky_base::script::FunDef;
use sky_parse::script::ParseRefusal;
use std::alloc::Global;
use std::process::Abort;
use std::test::Fail;

/// Puts a name of four capitals by its number, and a comma.
fn put_name(text: &mut Vec<u8>, number: u32) -> Result<(), Fail> {
    let mut rest = number;
    for _ in 0..4 {
        text.push(b'A' + (rest % 26) as u8)?;
        rest = rest / 26;
    }
    text.push(b',')?;
    Ok(())
}

/// So many names with commas, and the name `Z`, between a front and an end.
fn named(alloc: Global, front: &str, count: u32, end: &str) -> Result<Vec<u8>, Fail> {
    let mut text = Vec::from_slice(alloc, front.as_bytes())?;
    for number in 0..count {
        put_name(&mut text, number)?;
    }
    text.push(b'Z')?;
    text.extend_from_slice(end.as_bytes())?;
    Ok(text)
}

type Row = (&'static str, &'static str, Option<ParseRefusal>);

fn refused(rt: &impl Abort, alloc: Global, rows: &[Row]) -> Result<(), Fail> {
    for (front, end, want) in rows {
        let text = named(alloc, front, 20_000, end)?;
        assert!(rt; refusal(alloc, &text) == *want, "{front} {end}");
    }
    Ok(())
}

#[test]
fn many_parameters(rt: HostRuntime) -> Result<(), Fail> {
    let rows = [
        ("function f(", ") { }", None),
        (
            "function f(",
            ",Z) { }",
            Some(ParseRefusal::SameName {
                line: 1,
                col: 100_014,
            }),
        ),
        ("x = function(", ") { };", None),
    ];
    refused(&rt, rt.alloc(), rows.as_slice())
}

/// Each function uses so many names.
fn use_many(rt: &impl Abort, funs: &[FunDef]) {
    assert!(rt; funs.len() == 2);
    for fun in funs {
        assert!(rt; fun.uses.as_slice().len() == 20_001);
    }
}

/// A function that uses so many names, and a function in it that does.
#[test]
fn many_names(rt: HostRuntime) -> Result<(), Fail> {
    let text = named(
        rt.alloc(),
        "function() { function() { [",
        20_000,
        "]; }; };",
    )?;
    match script(rt.alloc(), &text) {
        Ok(script) => use_many(&rt, script.funs().as_slice()),
        Err(_) => return Err(Fail::from("no script")),
    }
    Ok(())
}

/// So many functions, nested twenty deep in turn.
fn towers(alloc: Global, count: u32) -> Result<Vec<u8>, Fail> {
    let mut text = Vec::new(alloc);
    for _ in 0..count {
        repeat(&mut text, "function(x) { ", 20)?;
        repeat(&mut text, "x; a; };", 20)?;
    }
    Ok(text)
}

#[test]
fn many_functions(rt: HostRuntime) -> Result<(), Fail> {
    let text = towers(rt.alloc(), 500)?;
    match script(rt.alloc(), &text) {
        Ok(script) => assert!(rt; script.funs().as_slice().len() == 10_000),
        Err(_) => return Err(Fail::from("no script")),
    }
    Ok(())
}
