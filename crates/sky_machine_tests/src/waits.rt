// Where a call stands at each of its waits.

ghost use Rattle.std.specs.Prelude.{◌≡◌, IfOk};
ghost use Rattle.sky_state.specs.Fits.{Fits};
ghost use Rattle.sky_state.specs.StateView.{stand_of};
ghost use Rattle.sky_machine.specs.Onward.{IsRead};
ghost use Rattle.sky_machine_tests.specs.Rows.{FitsUnless};

use crate::made::{Ended, Given, objects};
use crate::runs::resumed;
use sky_base::names::Names;
use sky_base::script::Script;
use sky_machine_numbers::code::{Numbered, number_script};
use sky_machine_test_scripts::script::script;
use sky_machine_test_scripts::start::start;
use sky_state::state::{RunState, State};
use std::alloc::Global;
use std::process::Abort;
use std::test::Fail;

/// The number of a wait, how many nodes were visited, how many descriptions were made, which of them is waited for first, and how
/// many names are waited for and held.
#[derive(Clone, Copy, PartialEq, Eq)]
struct At {
    waits: u32,
    count: u32,
    made: usize,
    first: usize,
    pending: usize,
    holds: usize,
}

/// A wait, and the objects that it is given.
#[derive(Clone, Copy)]
struct Stop {
    at: At,
    given: &'static [Given],
}

/// A script, its waits in order, and its end.
#[derive(Clone, Copy)]
struct Row {
    text: &'static str,
    stops: &'static [Stop],
    end: Ended,
}

static ROWS: [Row; 6] = [
    Row {
        text: "return 1 + 2;",
        stops: &[],
        end: Ended::Int(3),
    },
    Row {
        text: "function f(x) { return x * x; } a = spawn(f, [3]); b = spawn(f, [4]); return *a + *b;",
        stops: &[
            Stop {
                at: At {
                    waits: 1,
                    count: 13,
                    made: 2,
                    first: 0,
                    pending: 1,
                    holds: 2,
                },
                given: &[Given::Bytes(b"9")],
            },
            Stop {
                at: At {
                    waits: 2,
                    count: 15,
                    made: 2,
                    first: 1,
                    pending: 1,
                    holds: 2,
                },
                given: &[Given::Bytes(b"16")],
            },
        ],
        end: Ended::Int(25),
    },
    Row {
        text: "x = exec(\"cat\", {}, 3); return *x[1];",
        stops: &[
            Stop {
                at: At {
                    waits: 1,
                    count: 5,
                    made: 3,
                    first: 0,
                    pending: 3,
                    holds: 3,
                },
                given: &[Given::Bytes(b"1"), Given::Bytes(b"2"), Given::Bytes(b"3")],
            },
            Stop {
                at: At {
                    waits: 2,
                    count: 10,
                    made: 3,
                    first: 1,
                    pending: 1,
                    holds: 3,
                },
                given: &[Given::Bytes(b"2")],
            },
        ],
        end: Ended::Int(2),
    },
    Row {
        text: "function f(n) { if (n == 0) { return 1; } return n * *spawn(f, [n - 1]); } return f(4);",
        stops: &[Stop {
            at: At {
                waits: 1,
                count: 17,
                made: 1,
                first: 0,
                pending: 1,
                holds: 1,
            },
            given: &[Given::Bytes(b"6")],
        }],
        end: Ended::Int(24),
    },
    Row {
        text: "return -*spawn(function() { return 1; }, []);",
        stops: &[Stop {
            at: At {
                waits: 1,
                count: 5,
                made: 1,
                first: 0,
                pending: 1,
                holds: 1,
            },
            given: &[Given::Bytes(b"1")],
        }],
        end: Ended::Int(-1),
    },
    Row {
        text: "function g() { return 1; } function f() { return *spawn(g, []); } for (x in [1]) { y = f(); }",
        stops: &[Stop {
            at: At {
                waits: 1,
                count: 12,
                made: 1,
                first: 0,
                pending: 1,
                holds: 1,
            },
            given: &[Given::Bytes(b"1")],
        }],
        end: Ended::Null,
    },
];

/// Which of the descriptions that were made the first of the names is of; 99 where it is of none.
fn first_made(run: &RunState, names: &Names) -> usize {
    let Some(name) = names.as_slice().first() else {
        return 99;
    };
    for (place, made) in run.spawned.as_slice().iter().enumerate() {
        if made.name == *name {
            return place;
        }
    }
    99
}

fn counted(run: &RunState, pending: &Names, holds: &Names) -> At {
    At {
        waits: run.waits,
        count: run.count,
        made: run.spawned.as_slice().len(),
        first: first_made(run, pending),
        pending: pending.len(),
        holds: holds.len(),
    }
}

/// Where the call stands.
fn stands(alloc: Global, state: &State) -> Result<At, Fail> {
    let pending = state.pending(alloc)?;
    let holds = state.holds(alloc)?;
    match state {
        State::Run(run) => Ok(counted(run, &pending, &holds)),
        State::Show { .. } => Err(Fail::from("no run")),
    }
}

/// Whether the call stands at the wait that is wanted, and what it comes to from there.
fn passes(
    alloc: Global,
    script: &Numbered,
    state: &mut State,
    stop: &Stop,
) -> Result<Option<Ended>, Fail>
    requires same { script.now.nodes ≡ script.now.code }
    requires read { IsRead script.now.code }
    requires fits { Fits script.now.code (stand_of state.old) }
    ensures { IfOk result (λ s. FitsUnless script.now.code (stand_of state.new) s) }
{
    if stands(alloc, state)? != stop.at {
        return Err(Fail::from("another wait"));
    }
    let given = objects(alloc, stop.given)?;
    let step = resumed(alloc, script, state, given.as_slice())?;
    Ok(step)
}

/// What the call comes to behind all its waits.
fn ends(
    alloc: Global,
    script: &Numbered,
    state: &mut State,
    stops: &[Stop],
) -> Result<Option<Ended>, Fail>
    requires same { script.now.nodes ≡ script.now.code }
    requires read { IsRead script.now.code }
    requires fits { Fits script.now.code (stand_of state.old) }
{
    let mut step = resumed(alloc, script, state, &[])?;
    for stop in stops {
        match step {
            None => step = passes(alloc, script, state, stop)?,
            Some(_) => return Err(Fail::from("an end")),
        }
    }
    Ok(step)
}

fn runs_so(alloc: Global, script: &Script, row: &Row) -> Result<Option<Ended>, Fail>
    requires { IsRead script.now }
{
    let tables = number_script(alloc, script)?;
    let numbered = tables.over(script);
    let mut state = start(alloc, script)?;
    ends(alloc, &numbered, &mut state, row.stops)
}

/// One of the rows.
fn comes_so(alloc: Global, row: &Row) -> Result<bool, Fail> {
    let script = script(alloc, row.text)?;
    let step = runs_so(alloc, &script, row)?;
    Ok(step == Some(row.end))
}

#[test]
fn at_each_wait_it_stands_so(rt: HostRuntime) -> Result<(), Fail> {
    for row in &ROWS {
        assert!(&rt; comes_so(rt.alloc(), row)?);
    }
    Ok(())
}
