// The functions of scripts: the named ones, then the anonymous ones by the place of their word, and the names that
// each uses.

use crate::reading::script;
use sky_base::script::{FunDef, FunDefs};
use sky_base::text::Txt;
use std::alloc::{AllocError, Global};
use std::process::Abort;
use std::test::Fail;

fn put(out: &mut String, names: &[Txt]) -> Result<(), AllocError> {
    for name in names {
        write!(out, " {}", name.as_str())?;
    }
    Ok(())
}

/// The name of a function, its parameters, and behind a stroke the names that it uses.
fn shown(out: &mut String, fun: &FunDef) -> Result<(), AllocError> {
    write!(out, "{}", fun.name.as_str())?;
    put(out, fun.params.as_slice())?;
    write!(out, " |")?;
    put(out, fun.uses.as_slice())?;
    write!(out, "; ")
}

fn all_shown(alloc: Global, funs: &FunDefs) -> Result<String, AllocError> {
    let mut out = String::new(alloc);
    for fun in funs.as_slice() {
        shown(&mut out, fun)?;
    }
    Ok(out)
}

/// The functions of a text that is a script.
fn functions_of(alloc: Global, text: &str) -> Result<String, Fail> {
    match script(alloc, text.as_bytes()) {
        Ok(script) => Ok(all_shown(alloc, script.funs())?),
        Err(_) => Err(Fail::from("no script")),
    }
}

/// Each text makes these functions.
fn makes(
    rt: &impl Abort,
    alloc: Global,
    rows: &[(&'static str, &'static str)],
) -> Result<(), Fail> {
    for (text, want) in rows {
        let found = functions_of(alloc, text)?;
        assert_eq!(rt; found.as_str(), *want, "of {text}");
    }
    Ok(())
}

#[test]
fn used_names(rt: HostRuntime) -> Result<(), Fail> {
    let rows = [
        ("x = 1;", ""),
        ("x = function() { };", "#0 |; "),
        (
            "x = function(b, a) { return b + d + c + a + d; };",
            "#0 b a | c d; ",
        ),
        (
            "function() { s = 1; a += 2; i[0] = 3; for (v in [4]) { } do { w; } while (x); };",
            "#0 | a i s v w x; ",
        ),
        (
            "function(p) { {\"p\": q, \"k\": [function(q) { p; q; B; }]}; };",
            "#0 p | B q; #1 q | B p; ",
        ),
        ("function f(y) { return z; }", "f y |; "),
    ];
    makes(&rt, rt.alloc(), rows.as_slice())
}

#[test]
fn numbers(rt: HostRuntime) -> Result<(), Fail> {
    let rows = [
        (
            "x = function(a) { return function(b) { return a + b + c; }; }; function f(y) { function() { z; }; } function() { f; };",
            "f y |; #0 a | b c; #1 b | a c; #2 | z; #3 | f; ",
        ),
        (
            "function(f) { f(function() { g(f, 1); }, spawn(h, [])); }(function(a) { });",
            "#0 f | g h; #1 | f g; #2 a |; ",
        ),
        (
            "if (function() { a; }) { b = function() { c; }; } else { function() { d; }; }",
            "#0 | a; #1 | c; #2 | d; ",
        ),
    ];
    makes(&rt, rt.alloc(), rows.as_slice())
}

/// A function may stand wherever an expression may.
#[test]
fn places(rt: HostRuntime) -> Result<(), Fail> {
    let rows = [
        (
            "x[function() { a; }] = function() { b; };",
            "#0 | a; #1 | b; ",
        ),
        (
            "x += function() { a; } + function() { b; } * function() { c; };",
            "#0 | a; #1 | b; #2 | c; ",
        ),
        (
            "while (function() { a; }) { return function() { b; }; }",
            "#0 | a; #1 | b; ",
        ),
        (
            "do { function() { a; }; } while (function() { b; });",
            "#0 | a; #1 | b; ",
        ),
        (
            "for (x in function() { a; }) { x = function() { b; }; }",
            "#0 | a; #1 | b; ",
        ),
        (
            "return function() { a; } == function() { b; } && !function() { c; };",
            "#0 | a; #1 | b; #2 | c; ",
        ),
        (
            "exec(function() { a; }, [function() { b; }], {\"k\": function() { c; }});",
            "#0 | a; #1 | b; #2 | c; ",
        ),
        (
            "f(function() { a; })[function() { b; }](function() { c; });",
            "#0 | a; #1 | b; #2 | c; ",
        ),
    ];
    makes(&rt, rt.alloc(), rows.as_slice())
}
