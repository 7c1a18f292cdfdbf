// Canonical bytes of descriptions, their marks, and the names of tasks.

use crate::hexadecimal::are;
use ciel_name::name::{Namer, Sha1Namer, Sha256Namer, WeakNamer, mark, task_of};
use ciel_name::object::canon;
use ciel_name::text::{cont_name, name_text};
use sky_base::name::Name;
use sky_base::object::{Desc1, TaskId};
use sky_base::text::Txt;
use sky_base::value::{Pairs, Vals, Value};
use std::alloc::Global;
use std::process::Abort;
use std::test::Fail;

/// A call of a function that captured `k`, 10, or nothing, with one number or none.
fn call(alloc: Global, fun: &str, caught: bool, number: Option<i64>) -> Result<Desc1, Fail> {
    let args = numbers(alloc, number)?;
    let caught = pairs(alloc, caught)?;
    Ok(Desc1::Call {
        fun: Txt::new(alloc, fun)?,
        caught,
        args,
    })
}

fn numbers(alloc: Global, number: Option<i64>) -> Result<Vals, Fail> {
    let mut values = Vals::new(alloc);
    if let Some(number) = number {
        values.push(Value::Int(number))?;
    }
    Ok(values)
}

fn pairs(alloc: Global, some: bool) -> Result<Pairs, Fail> {
    let mut pairs = Pairs::new(alloc);
    if some {
        pairs.insert(Txt::new(alloc, "k")?, Value::Int(10))?;
    }
    Ok(pairs)
}

/// An output of `cat` on null that has two.
fn output(alloc: Global, index: u32) -> Result<Desc1, Fail> {
    let executor = Txt::new(alloc, "cat")?;
    Ok(Desc1::Exec {
        executor,
        args: Value::Null,
        outputs: 2,
        index,
    })
}

fn input(alloc: Global) -> Result<Desc1, Fail> {
    let key = Txt::new(alloc, "t")?;
    Ok(Desc1::Input { key })
}

/// The call of `f` with the argument 3, that of the main body, that of the first anonymous function, which captured `k`, with the
/// argument 1, the two outputs, and an input.
#[derive(Clone, Copy)]
enum Which {
    Three,
    Main,
    Captured,
    First,
    Second,
    Input,
}

fn desc(alloc: Global, which: Which) -> Result<Desc1, Fail> {
    match which {
        Which::Three => call(alloc, "f", false, Some(3)),
        Which::Main => call(alloc, "", false, None),
        Which::Captured => call(alloc, "#0", true, Some(1)),
        Which::First => output(alloc, 0),
        Which::Second => output(alloc, 1),
        Which::Input => input(alloc),
    }
}

/// A description, its canonical bytes, and their mark.
static CANON: [(Which, &str, &str); 5] = [
    (
        Which::Three,
        "43000000016600000001030000000000000003",
        "8b8da0234054f14c1d73c6546cc3b0eac8a0c01d",
    ),
    (
        Which::Main,
        "430000000000000000",
        "4f9331fa01faff9e8484f3c4e401e921b570166b",
    ),
    (
        Which::Captured,
        "4c00000002233000000001000000016b03000000000000000a00000001030000000000000001",
        "9cb373d9c7d0f6ef8c9ffedaaf5bc12b664c6fc8",
    ),
    (
        Which::Second,
        "4500000003636174000000000200000001",
        "2ebf12a6c5ccaa4f684cadd381dc74f8155909a1",
    ),
    (
        Which::Input,
        "490000000174",
        "f8e1c1da28aab08f4f44b52c76ed8821c6bfcd3c",
    ),
];

fn has(rt: &impl Abort, alloc: Global, desc: &Desc1, want: &str, marked: &str) -> Result<(), Fail> {
    let bytes = canon(alloc, desc)?;
    are(rt, alloc, bytes.as_slice(), want)?;
    are(rt, alloc, &mark(bytes.as_slice()), marked)
}

#[test]
fn canonical_bytes_and_their_marks(rt: HostRuntime) -> Result<(), Fail> {
    for row in &CANON {
        let desc = desc(rt.alloc(), row.0)?;
        has(&rt, rt.alloc(), &desc, row.1, row.2)?;
    }
    Ok(())
}

/// What names.
#[derive(Clone, Copy)]
enum By {
    Sha1,
    Sha256,
    Weak(u8),
}

fn task<N: Namer>(alloc: Global, desc: &Desc1, namer: &N) -> Result<TaskId, Fail> {
    Ok(task_of(alloc, desc, namer)?)
}

fn task_by(alloc: Global, desc: &Desc1, by: By) -> Result<TaskId, Fail> {
    match by {
        By::Sha1 => task(alloc, desc, &Sha1Namer),
        By::Sha256 => task(alloc, desc, &Sha256Namer),
        By::Weak(kept) => task(alloc, desc, &WeakNamer(kept)),
    }
}

/// The task has this name.
fn is_named(rt: &impl Abort, alloc: Global, task: &TaskId, want: &str) -> Result<(), Fail> {
    match task {
        TaskId::Of(name) => {
            let digits = name_text(alloc, name)?;
            assert!(rt; digits.as_str() == want, "not {want}");
            Ok(())
        }
        TaskId::Show => Err(Fail::from("the root task")),
    }
}

static TASKS: [(Which, By, &str); 6] = [
    (
        Which::First,
        By::Sha1,
        "7e69844748143a83d6cfb677c7a51b5c34b43353",
    ),
    (
        Which::Second,
        By::Sha1,
        "7e69844748143a83d6cfb677c7a51b5c34b43353",
    ),
    (
        Which::Three,
        By::Sha1,
        "8b8da0234054f14c1d73c6546cc3b0eac8a0c01d",
    ),
    (
        Which::Three,
        By::Sha256,
        "09e006b71b1fc3d9085385a81000ee634320ec8c1ff17bf5ef0344cf323725af",
    ),
    (
        Which::Three,
        By::Weak(2),
        "8b8d000000000000000000000000000000000000",
    ),
    (
        Which::Three,
        By::Weak(200),
        "8b8da0234054f14c1d73c6546cc3b0eac8a0c01d",
    ),
];

#[test]
fn tasks_are_named_by_their_first_output(rt: HostRuntime) -> Result<(), Fail> {
    for row in &TASKS {
        let desc = desc(rt.alloc(), row.0)?;
        let task = task_by(rt.alloc(), &desc, row.1)?;
        is_named(&rt, rt.alloc(), &task, row.2)?;
    }
    Ok(())
}

/// The text of a task's saved wait.
fn is_wait(rt: &impl Abort, alloc: Global, task: &TaskId, j: u32, want: &str) -> Result<(), Fail> {
    let text = cont_name(alloc, task, j)?;
    assert!(rt; text.as_str() == want, "not {want}");
    Ok(())
}

#[test]
fn texts_of_names(rt: HostRuntime) -> Result<(), Fail> {
    let zeros = TaskId::Of(Name::short([0; 20]));
    let long = TaskId::Of(Name::long([171; 32]));
    let digits = "0000000000000000000000000000000000000000";
    is_named(&rt, rt.alloc(), &zeros, digits)?;
    let digits = "abababababababababababababababababababababababababababababababab";
    is_named(&rt, rt.alloc(), &long, digits)?;
    is_wait(&rt, rt.alloc(), &TaskId::Show, 2, "show#2")?;
    let text = "0000000000000000000000000000000000000000#4294967295";
    is_wait(&rt, rt.alloc(), &zeros, 4_294_967_295, text)
}
