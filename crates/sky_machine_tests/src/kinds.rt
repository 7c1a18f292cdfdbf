// A wait at each kind of form: the call is gone on with from each saved stack, up to its end.

ghost use Rattle.std.specs.Prelude.{◌≡◌};
ghost use Rattle.sky_state.specs.Fits.{Fits};
ghost use Rattle.sky_state.specs.StateView.{stand_of};
ghost use Rattle.sky_machine.specs.Onward.{IsRead, AnswersSound};

use crate::made::{Ended, Given, objects};
use crate::runs::resumed;
use sky_base::fault::FaultKind;
use sky_base::object::Object;
use sky_base::script::Script;
use sky_machine_numbers::code::{Numbered, number_script};
use sky_machine_test_scripts::script::script;
use sky_machine_test_scripts::start::start;
use sky_state::state::State;
use std::alloc::Global;
use std::process::Abort;
use std::test::Fail;

/// A script, the objects that each of its waits is given, how many waits there are, and the end.
#[derive(Clone, Copy)]
struct Row {
    text: &'static str,
    given: &'static [Given],
    waits: u32,
    end: Ended,
}

static ROWS: [Row; 34] = [
    Row {
        text: "return 1 + 2;",
        given: &[],
        waits: 0,
        end: Ended::Int(3),
    },
    Row {
        text: "x = 1;",
        given: &[],
        waits: 0,
        end: Ended::Null,
    },
    Row {
        text: "r = ref(\"k\"); return *r;",
        given: &[],
        waits: 0,
        end: Ended::Fault(FaultKind::Unknown, 1, 5),
    },
    Row {
        text: "r = spawn(function() {}, []); return *r;",
        given: &[Given::Fault(7)],
        waits: 1,
        end: Ended::Fault(FaultKind::DivZero, 7, 1),
    },
    Row {
        text: "r = spawn(function() {}, []); return (*r);",
        given: &[Given::Bytes(b"7")],
        waits: 1,
        end: Ended::Int(7),
    },
    Row {
        text: "r = spawn(function() {}, []); return [1, *r][1];",
        given: &[Given::Bytes(b"7")],
        waits: 1,
        end: Ended::Int(7),
    },
    Row {
        text: "r = spawn(function() {}, []); return {\"a\": *r, \"b\": 2}[\"a\"];",
        given: &[Given::Bytes(b"7")],
        waits: 1,
        end: Ended::Int(7),
    },
    Row {
        text: "r = spawn(function() {}, []); return *r - 1;",
        given: &[Given::Bytes(b"7")],
        waits: 1,
        end: Ended::Int(6),
    },
    Row {
        text: "r = spawn(function() {}, []); return 1 - *r - 2;",
        given: &[Given::Bytes(b"7")],
        waits: 1,
        end: Ended::Int(-8),
    },
    Row {
        text: "r = spawn(function() {}, []); if (true && *r) { return 1; } return 2;",
        given: &[Given::Bytes(b"false")],
        waits: 1,
        end: Ended::Int(2),
    },
    Row {
        text: "r = spawn(function() {}, []); if (*r || 1 / 0 == 1) { return 1; } return 2;",
        given: &[Given::Bytes(b"true")],
        waits: 1,
        end: Ended::Int(1),
    },
    Row {
        text: "r = spawn(function() {}, []); return -*r;",
        given: &[Given::Bytes(b"7")],
        waits: 1,
        end: Ended::Int(-7),
    },
    Row {
        text: "r = spawn(function() {}, []); return - - *r;",
        given: &[Given::Bytes(b"7")],
        waits: 1,
        end: Ended::Int(7),
    },
    Row {
        text: "r = spawn(function() {}, []); return (*r)[1];",
        given: &[Given::Bytes(b"[5,6]")],
        waits: 1,
        end: Ended::Int(6),
    },
    Row {
        text: "r = spawn(function() {}, []); return [5, 6][*r];",
        given: &[Given::Bytes(b"1")],
        waits: 1,
        end: Ended::Int(6),
    },
    Row {
        text: "function f(x, y) { return x - y; } r = spawn(f, [1, 2]); return f(10, *r);",
        given: &[Given::Bytes(b"7")],
        waits: 1,
        end: Ended::Int(3),
    },
    Row {
        text: "function f(x) { return *x + 1; } r = spawn(f, [1]); return f(r) * 2;",
        given: &[Given::Bytes(b"7")],
        waits: 1,
        end: Ended::Int(16),
    },
    Row {
        text: "k = 3; g = function(x) { return *x + k; }; r = spawn(g, [1]); k = 4; return g(r) * 2;",
        given: &[Given::Bytes(b"7")],
        waits: 1,
        end: Ended::Int(20),
    },
    Row {
        text: "x = exec(\"cat\", {}, 3); return len(x);",
        given: &[Given::Bytes(b""), Given::Bytes(b"1"), Given::Bytes(b"2")],
        waits: 1,
        end: Ended::Int(3),
    },
    Row {
        text: "x = exec(\"cat\", {}, 3); return len(x);",
        given: &[Given::Bytes(b"2"), Given::Fault(7), Given::Fault(8)],
        waits: 1,
        end: Ended::Fault(FaultKind::DivZero, 7, 1),
    },
    Row {
        text: "r = spawn(function() {}, []); x = *r; return x;",
        given: &[Given::Bytes(b"[7]")],
        waits: 1,
        end: Ended::Other,
    },
    Row {
        text: "r = spawn(function() {}, []); x = 1; x += *r; return x;",
        given: &[Given::Bytes(b"7")],
        waits: 1,
        end: Ended::Int(8),
    },
    Row {
        text: "r = spawn(function() {}, []); x = [1, 2]; x[*r] = 5; return x[1];",
        given: &[Given::Bytes(b"1")],
        waits: 1,
        end: Ended::Int(5),
    },
    Row {
        text: "r = spawn(function() {}, []); x = [1, 2]; x[0] = *r; return x[0];",
        given: &[Given::Bytes(b"7")],
        waits: 1,
        end: Ended::Int(7),
    },
    Row {
        text: "r = spawn(function() {}, []); len([*r]); return 3;",
        given: &[Given::Bytes(b"7")],
        waits: 1,
        end: Ended::Int(3),
    },
    Row {
        text: "r = spawn(function() {}, []); if (*r == 1) { return 1; } else if (*r == 2) { return 2; } return 3;",
        given: &[Given::Bytes(b"2")],
        waits: 2,
        end: Ended::Int(2),
    },
    Row {
        text: "r = spawn(function() {}, []); if (false) { } else { return *r; }",
        given: &[Given::Bytes(b"2")],
        waits: 1,
        end: Ended::Int(2),
    },
    Row {
        text: "r = spawn(function() {}, []); i = 0; while (i < *r) { i += 1; } return i;",
        given: &[Given::Bytes(b"2")],
        waits: 3,
        end: Ended::Int(2),
    },
    Row {
        text: "r = spawn(function() {}, []); i = 0; while (i < 2) { i += *r; } return i;",
        given: &[Given::Bytes(b"1")],
        waits: 2,
        end: Ended::Int(2),
    },
    Row {
        text: "r = spawn(function() {}, []); i = 0; do { i += *r; } while (i < 2); return i;",
        given: &[Given::Bytes(b"1")],
        waits: 2,
        end: Ended::Int(2),
    },
    Row {
        text: "r = spawn(function() {}, []); i = 0; do { i += 1; } while (i < *r); return i;",
        given: &[Given::Bytes(b"3")],
        waits: 3,
        end: Ended::Int(3),
    },
    Row {
        text: "r = spawn(function() {}, []); s = 0; for (x in *r) { s += x; } return s;",
        given: &[Given::Bytes(b"[3,4]")],
        waits: 1,
        end: Ended::Int(7),
    },
    Row {
        text: "function g(x) { return x; } s = 0; for (x in [1, 2]) { s += x * *spawn(g, [x]); } return s;",
        given: &[Given::Bytes(b"10")],
        waits: 2,
        end: Ended::Int(30),
    },
    Row {
        text: "function f(x) { for (y in [x]) { if (true) { return -*y; } } } r = spawn(f, [1]); return f(r);",
        given: &[Given::Bytes(b"7")],
        waits: 1,
        end: Ended::Int(-7),
    },
];

/// The end of the call and how many waits it came to, where each wait is given these objects.
fn ends(
    alloc: Global,
    script: &Numbered,
    state: &mut State,
    given: &[Object],
) -> Result<(u32, Ended), Fail>
    requires same { script.now.nodes ≡ script.now.code }
    requires read { IsRead script.now.code }
    requires fits { Fits script.now.code (stand_of state.old) }
    requires answers { AnswersSound script.now.code given.now }
{
    let mut step = resumed(alloc, script, state, given)?;
    for waits in 0..10 {
        match step {
            Some(ended) => return Ok((waits, ended)),
            None => step = resumed(alloc, script, state, given)?,
        }
    }
    Err(Fail::from("too many waits"))
}

fn runs_so(alloc: Global, script: &Script, row: &Row) -> Result<bool, Fail>
    requires { IsRead script.now }
{
    let tables = number_script(alloc, script)?;
    let numbered = tables.over(script);
    let mut state = start(alloc, script)?;
    let given = objects(alloc, row.given)?;
    let (waits, end) = ends(alloc, &numbered, &mut state, given.as_slice())?;
    Ok(waits == row.waits && end == row.end)
}

/// One of the rows.
fn comes_so(alloc: Global, row: &Row) -> Result<bool, Fail> {
    let script = script(alloc, row.text)?;
    runs_so(alloc, &script, row)
}

#[test]
fn from_each_kind_of_form_it_goes_on(rt: HostRuntime) -> Result<(), Fail> {
    for row in &ROWS {
        assert!(&rt; comes_so(rt.alloc(), row)?);
    }
    Ok(())
}
