// The main call of a script goes as far as all is found.

ghost use Rattle.std.specs.Prelude.{◌≡◌, [], IfOk};
ghost use Rattle.sky_state.specs.StateView.{stand_of};
ghost use Rattle.sky_machine.specs.Onward.{IsRead};

use crate::finder::{Shelf, shelf_of};
use crate::runs::{Came, ran};
use sky_base::fault::FaultKind;
use sky_base::name::Name;
use sky_base::script::Script;
use sky_machine_numbers::code::{Numbered, number_script};
use sky_machine_test_scripts::script::script;
use sky_machine_test_scripts::start::start;
use sky_state::state::State;
use std::alloc::Global;
use std::process::Abort;
use std::test::Fail;

/// A script, the bytes that are found, the place among all that the call makes of the description that isn't there, if one isn't,
/// whether the bytes are refused, what the call comes to, and how many descriptions it makes up to there.
#[derive(Clone, Copy)]
struct Row {
    text: &'static str,
    bytes: &'static [u8],
    lacks: Option<usize>,
    refuses: bool,
    came: Came,
    made: usize,
}

static ROWS: [Row; 12] = [
    Row {
        text: "return 1 + 2;",
        bytes: b"7",
        lacks: None,
        refuses: true,
        came: Came::Int(3),
        made: 0,
    },
    Row {
        text: "r = spawn(function() {}, []); return *r;",
        bytes: b"7",
        lacks: None,
        refuses: false,
        came: Came::Int(7),
        made: 1,
    },
    Row {
        text: "r = spawn(function() {}, []); return *r;",
        bytes: b"7",
        lacks: Some(0),
        refuses: false,
        came: Came::Waits,
        made: 1,
    },
    Row {
        text: "r = spawn(function() {}, []); return *r;",
        bytes: b"7",
        lacks: None,
        refuses: true,
        came: Came::Refused,
        made: 1,
    },
    Row {
        text: "r = spawn(function() {}, []); return 1 / *r;",
        bytes: b"0",
        lacks: None,
        refuses: false,
        came: Came::Fault(FaultKind::DivZero, 1, 40),
        made: 1,
    },
    Row {
        text: "r = spawn(function() {}, []); i = 0; while (i < 4) { i += *r; } return i;",
        bytes: b"1",
        lacks: None,
        refuses: false,
        came: Came::Int(4),
        made: 1,
    },
    Row {
        text: "function f(x) { return x; } s = 0; for (x in [1, 2, 3]) { s += x * *spawn(f, [x]); } return s;",
        bytes: b"10",
        lacks: None,
        refuses: false,
        came: Came::Int(60),
        made: 3,
    },
    Row {
        text: "function f(x) { return x; } s = 0; for (x in [1, 2, 3]) { s += x * *spawn(f, [x]); } return s;",
        bytes: b"10",
        lacks: Some(1),
        refuses: false,
        came: Came::Waits,
        made: 2,
    },
    Row {
        text: "function f(x) { return x; } s = 0; for (x in [1, 2, 3]) { s += x * *spawn(f, [x]); } return s;",
        bytes: b"10",
        lacks: Some(2),
        refuses: false,
        came: Came::Waits,
        made: 3,
    },
    Row {
        text: "function f(x) { return x; } a = spawn(f, [1]); b = spawn(f, [a]); return *b + 1;",
        bytes: b"2",
        lacks: Some(0),
        refuses: false,
        came: Came::Int(3),
        made: 2,
    },
    Row {
        text: "function f(x) { return *x; } a = spawn(f, [1]); return f(a) * f(a);",
        bytes: b"6",
        lacks: None,
        refuses: false,
        came: Came::Int(36),
        made: 1,
    },
    Row {
        text: "x = exec(\"cat\", {}, 3); return len(x);",
        bytes: b"1",
        lacks: Some(2),
        refuses: false,
        came: Came::Waits,
        made: 3,
    },
];

/// What the call comes to, and its state there.
fn call(
    alloc: Global,
    script: &Script,
    numbered: &Numbered,
    shelf: &mut Shelf,
) -> Result<(Came, State), Fail>
    requires same { numbered.now.nodes ≡ numbered.now.code }
    requires code { numbered.now.code ≡ script.now }
    requires read { IsRead script.now }
{
    let mut state = start(alloc, script)?;
    let came = ran(alloc, numbered, &mut state, shelf)?;
    Ok((came, state))
}

/// The name of the description at this place among all that the call makes where each is found.
fn name_at(
    alloc: Global,
    script: &Script,
    numbered: &Numbered,
    bytes: &[u8],
    at: usize,
) -> Result<Name, Fail>
    requires same { numbered.now.nodes ≡ numbered.now.code }
    requires code { numbered.now.code ≡ script.now }
    requires read { IsRead script.now }
{
    let mut all = shelf_of(alloc, bytes, None, false)?;
    let (_, mut state) = call(alloc, script, numbered, &mut all)?;
    match state.take_spawned(alloc).as_slice().get(at) {
        Some(made) => Ok(made.name),
        None => Err(Fail::from("nothing there")),
    }
}

fn lacking(
    alloc: Global,
    script: &Script,
    numbered: &Numbered,
    row: &Row,
) -> Result<Option<Name>, Fail>
    requires same { numbered.now.nodes ≡ numbered.now.code }
    requires code { numbered.now.code ≡ script.now }
    requires read { IsRead script.now }
{
    match row.lacks {
        Some(at) => Ok(Some(name_at(alloc, script, numbered, row.bytes, at)?)),
        None => Ok(None),
    }
}

fn runs_so(alloc: Global, script: &Script, row: &Row) -> Result<bool, Fail>
    requires { IsRead script.now }
{
    let tables = number_script(alloc, script)?;
    let numbered = tables.over(script);
    let lacks = lacking(alloc, script, &numbered, row)?;
    let mut shelf = shelf_of(alloc, row.bytes, lacks, row.refuses)?;
    let (came, mut state) = call(alloc, script, &numbered, &mut shelf)?;
    Ok(came == row.came && state.take_spawned(alloc).as_slice().len() == row.made)
}

/// One of the rows.
fn comes_so(alloc: Global, row: &Row) -> Result<bool, Fail> {
    let script = script(alloc, row.text)?;
    runs_so(alloc, &script, row)
}

#[test]
fn as_far_as_all_is_found_it_goes_on(rt: HostRuntime) -> Result<(), Fail> {
    for row in &ROWS {
        assert!(&rt; comes_so(rt.alloc(), row)?);
    }
    Ok(())
}
