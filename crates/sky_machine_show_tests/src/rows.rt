// The rows: a wave, the objects that it is given, and what the root task comes to.

ghost use Rattle.sky_base.specs.Kept.{Kept};
ghost use Rattle.sky_base.specs.ObjectView.{object_view};
ghost use Rattle.sky_base.specs.View.{view};
ghost use Rattle.sky_base_law.specs.Tasks.{Each};
ghost use Rattle.sky_base_known.specs.Known.{KeptObject};

use crate::made::{Form, Given, kept, name, objects};
use sky_base::fault::{Fault, FaultKind};
use sky_base::names::Names;
use sky_base::object::Object;
use sky_base::value::Value;
use sky_machine_show::show::{Came, go_on};
use sky_state::shown::Shown;
use sky_state::state::State;
use std::alloc::Global;
use std::process::Abort;
use std::test::Fail;

/// What the root task comes to: these bytes, a fault with its place, or its next wave, at which it waits for these.
#[derive(Clone, Copy)]
enum Want {
    Text(&'static [u8]),
    Fault(FaultKind, u32, u32),
    Waits(&'static [u8]),
}

/// The value and the number of a wave, and the objects for what it waits for.
#[derive(Clone, Copy)]
struct Row {
    value: Form,
    wave: u32,
    given: &'static [Given],
    want: Want,
}

static ROWS: [Row; 21] = [
    // one reference: data is written, bytes are the answer as they are
    Row {
        value: Form::One(1),
        wave: 0,
        given: &[Given::Data(Form::Int(3))],
        want: Want::Text(b"3\n"),
    },
    Row {
        value: Form::One(1),
        wave: 0,
        given: &[Given::Bytes(b"\xff\n1")],
        want: Want::Text(b"\xff\n1"),
    },
    Row {
        value: Form::One(1),
        wave: 0,
        given: &[Given::Fault(7)],
        want: Want::Fault(FaultKind::DivZero, 7, 1),
    },
    // what stands in its place refers to more
    Row {
        value: Form::One(1),
        wave: 0,
        given: &[Given::Data(Form::One(2))],
        want: Want::Waits(&[2]),
    },
    Row {
        value: Form::One(1),
        wave: 0,
        given: &[Given::Data(Form::Many(&[3, 2, 3]))],
        want: Want::Waits(&[3, 2]),
    },
    // bytes inside a value: data, else a text, else a fault
    Row {
        value: Form::Many(&[1, 2]),
        wave: 1,
        given: &[Given::Bytes(b"[1]"), Given::Bytes(b"a b")],
        want: Want::Text(b"[[1],\"a b\"]\n"),
    },
    Row {
        value: Form::Many(&[1, 2]),
        wave: 1,
        given: &[Given::Bytes(b"1"), Given::Bytes(b"\xff")],
        want: Want::Fault(FaultKind::NotText, 0, 0),
    },
    Row {
        value: Form::Many(&[1]),
        wave: 1,
        given: &[Given::Bytes(b"\"a\"")],
        want: Want::Text(b"[\"a\"]\n"),
    },
    // a name that stands twice has one object
    Row {
        value: Form::Many(&[1, 2, 1]),
        wave: 1,
        given: &[Given::Data(Form::Int(5)), Given::Data(Form::Int(6))],
        want: Want::Text(b"[5,6,5]\n"),
    },
    // the first fault in order
    Row {
        value: Form::Many(&[1, 2, 3]),
        wave: 1,
        given: &[Given::Data(Form::Int(5)), Given::Fault(8), Given::Fault(7)],
        want: Want::Fault(FaultKind::DivZero, 8, 1),
    },
    Row {
        value: Form::Many(&[1, 2]),
        wave: 1,
        given: &[Given::Bytes(b"\xff"), Given::Fault(7)],
        want: Want::Fault(FaultKind::NotText, 0, 0),
    },
    // what can't be written
    Row {
        value: Form::One(1),
        wave: 0,
        given: &[Given::Data(Form::Fun)],
        want: Want::Fault(FaultKind::NotText, 0, 0),
    },
    // a function is no reference, so the wave beside it is waited for
    Row {
        value: Form::Many(&[1, 2]),
        wave: 1,
        given: &[Given::Data(Form::Fun), Given::Data(Form::One(4))],
        want: Want::Waits(&[4]),
    },
    // the limits: a value of depth 100 is written, deeper and larger ones aren't
    Row {
        value: Form::Many(&[1]),
        wave: 1,
        given: &[Given::Data(Form::Deep(99))],
        want: Want::Fault(FaultKind::TooDeep, 0, 0),
    },
    Row {
        value: Form::Many(&[1, 2]),
        wave: 1,
        given: &[
            Given::Data(Form::Long(200_000)),
            Given::Data(Form::Long(100_000)),
        ],
        want: Want::Fault(FaultKind::TooLarge, 0, 0),
    },
    Row {
        value: Form::Many(&[1, 2, 3]),
        wave: 1,
        given: &[
            Given::Data(Form::Long(200_000)),
            Given::Data(Form::Long(100_000)),
            Given::Data(Form::Deep(99)),
        ],
        want: Want::Fault(FaultKind::TooDeep, 0, 0),
    },
    // the last wave: 100 is waited for, none above it is
    Row {
        value: Form::Many(&[1]),
        wave: 99,
        given: &[Given::Data(Form::One(2))],
        want: Want::Waits(&[2]),
    },
    Row {
        value: Form::Many(&[1]),
        wave: 100,
        given: &[Given::Data(Form::One(2))],
        want: Want::Fault(FaultKind::TooDeep, 0, 0),
    },
    Row {
        value: Form::Many(&[1]),
        wave: 100,
        given: &[Given::Data(Form::Int(2))],
        want: Want::Text(b"[2]\n"),
    },
    Row {
        value: Form::One(1),
        wave: 100,
        given: &[Given::Bytes(b"7")],
        want: Want::Text(b"7"),
    },
    // a value that refers to nothing
    Row {
        value: Form::Int(4),
        wave: 5,
        given: &[],
        want: Want::Text(b"4\n"),
    },
];

/// Whether these are the names of the numbers.
fn are(names: &Names, numbers: &[u8]) -> bool {
    if names.len() != numbers.len() {
        return false;
    }
    names
        .as_slice()
        .iter()
        .zip(numbers)
        .all(|(one, number)| *one == name(*number))
}

/// The names that the root task waits for at this value.
fn waited(alloc: Global, value: Value, wave: u32) -> Result<Names, Fail> {
    Ok(State::Show { value, wave }.pending(alloc)?)
}

/// Whether the answer is the one that is wanted.
fn is_shown(shown: &Shown, want: Want) -> bool {
    match (shown, want) {
        (Shown::Text(bytes), Want::Text(want)) => bytes.as_slice() == want,
        (Shown::Fault(fault), Want::Fault(kind, line, col)) => {
            *fault == Fault { kind, line, col }
        }
        _ => false,
    }
}

/// Whether the task waits next for what is wanted.
fn is_next(alloc: Global, value: Value, wave: u32, want: Want) -> Result<bool, Fail> {
    match want {
        Want::Waits(numbers) => Ok(are(&waited(alloc, value, wave)?, numbers)),
        _ => Ok(false),
    }
}

/// What the root task comes to from this value, as it is wanted or not.
fn goes_on(
    alloc: Global,
    value: Value,
    wave: u32,
    given: &[Object],
    want: Want,
) -> Result<bool, Fail>
    requires kept { Kept (view value) }
    requires given { Each (λ o. KeptObject (object_view o)) given.now }
{
    match go_on(alloc, &value, wave, given)? {
        Came::Shown(shown) => Ok(is_shown(&shown, want)),
        Came::Next(next) => is_next(alloc, next, wave, want),
    }
}

/// One of the rows.
fn comes_so(alloc: Global, row: Row) -> Result<bool, Fail> {
    let value = kept(alloc, row.value)?;
    let given = objects(alloc, row.given)?;
    goes_on(alloc, value, row.wave, given.as_slice(), row.want)
}

#[test]
fn each_wave_comes_to_this(rt: HostRuntime) -> Result<(), Fail> {
    for one in &ROWS {
        assert!(&rt; comes_so(rt.alloc(), *one)?);
    }
    Ok(())
}
