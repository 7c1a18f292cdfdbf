// The rows: steps, and what is found after them.

ghost use Rattle.std.specs.Prelude.{◌≡◌, []};

use crate::found::{circles, last, runs, wants};
use crate::made::{Spot, Two, make_two};
use crate::steps::{MAIN, SHOW, SQUARE, Step, act, open, task};
use ciel_table::table::Table;
use sky_base::object::TaskId;
use std::alloc::Global;
use std::process::Abort;
use std::test::Fail;

/// Steps, a worker that is dropped after them, and what is found then: which of the two are live; the number of the last saved
/// wait of each task, 0 for none; the wanted tasks; those that can run where some are out; whether the call of `f` goes round.
#[derive(Drop)]
struct Row {
    steps: &'static [Step],
    gone: Option<u32>,
    live: (bool, bool),
    lasts: [u32; 3],
    wanted: &'static [u32],
    out: &'static [u32],
    runs: &'static [u32],
    circle: bool,
}

const LEARN_MAIN: Step = Step::Learn {
    what: MAIN,
    told: ("row", 0),
};

const LEARN_SQUARE: Step = Step::Learn {
    what: SQUARE,
    told: ("row", 1),
};

const MAIN_WAITS: Step = Step::Save {
    task: MAIN,
    j: 1,
    worker: 0,
    refs: SQUARE,
};

/// What a run begins with.
const OPENED: &[Step] = &[LEARN_MAIN];

/// The main call waits for the call of `f`.
const WAITS: &[Step] = &[LEARN_MAIN, LEARN_SQUARE, MAIN_WAITS];

/// And that waits for itself.
const ROUND: &[Step] = &[
    LEARN_MAIN,
    LEARN_SQUARE,
    MAIN_WAITS,
    Step::Save {
        task: SQUARE,
        j: 1,
        worker: 0,
        refs: SQUARE,
    },
];

/// The main call waits for the call of `f`, whose object is there.
const SERVED: &[Step] = &[
    LEARN_MAIN,
    LEARN_SQUARE,
    MAIN_WAITS,
    Step::Place {
        what: SQUARE,
        worker: 1,
    },
];

/// The main call's object is there.
const ANSWERED: &[Step] = &[
    LEARN_MAIN,
    LEARN_SQUARE,
    MAIN_WAITS,
    Step::Place {
        what: MAIN,
        worker: 1,
    },
];

/// The main call has two saved waits, at two workers, and the root task has one.
const SAVED: &[Step] = &[
    LEARN_MAIN,
    LEARN_SQUARE,
    MAIN_WAITS,
    Step::Save {
        task: MAIN,
        j: 3,
        worker: 1,
        refs: SQUARE,
    },
    Step::Save {
        task: SHOW,
        j: 1,
        worker: 1,
        refs: MAIN,
    },
];

/// The main call saves at one worker, at another, and at the first again.
const AGAIN: &[Step] = &[
    LEARN_MAIN,
    LEARN_SQUARE,
    MAIN_WAITS,
    Step::Save {
        task: MAIN,
        j: 2,
        worker: 1,
        refs: SQUARE,
    },
    Step::Save {
        task: MAIN,
        j: 4,
        worker: 0,
        refs: SQUARE,
    },
];

/// The object of the call of `f` is at two workers, that of the main call at one.
const PLACED: &[Step] = &[
    LEARN_MAIN,
    LEARN_SQUARE,
    Step::Place {
        what: SQUARE,
        worker: 1,
    },
    Step::Place {
        what: SQUARE,
        worker: 0,
    },
    Step::Place {
        what: MAIN,
        worker: 1,
    },
];

static ROWS: [Row; 13] = [
    Row {
        steps: OPENED,
        gone: None,
        live: (false, false),
        lasts: [0, 0, 0],
        wanted: &[MAIN, SHOW],
        out: &[],
        runs: &[MAIN],
        circle: false,
    },
    Row {
        steps: WAITS,
        gone: None,
        live: (false, false),
        lasts: [1, 0, 0],
        wanted: &[MAIN, SQUARE, SHOW],
        out: &[],
        runs: &[SQUARE],
        circle: false,
    },
    Row {
        steps: WAITS,
        gone: None,
        live: (false, false),
        lasts: [1, 0, 0],
        wanted: &[MAIN, SQUARE, SHOW],
        out: &[MAIN],
        runs: &[],
        circle: false,
    },
    Row {
        steps: ROUND,
        gone: None,
        live: (false, false),
        lasts: [1, 1, 0],
        wanted: &[MAIN, SQUARE, SHOW],
        out: &[],
        runs: &[],
        circle: true,
    },
    Row {
        steps: SERVED,
        gone: None,
        live: (false, true),
        lasts: [1, 0, 0],
        wanted: &[MAIN, SHOW],
        out: &[],
        runs: &[MAIN],
        circle: false,
    },
    Row {
        steps: ANSWERED,
        gone: None,
        live: (true, false),
        lasts: [1, 0, 0],
        wanted: &[SHOW],
        out: &[],
        runs: &[SHOW],
        circle: false,
    },
    Row {
        steps: SAVED,
        gone: None,
        live: (false, false),
        lasts: [3, 0, 1],
        wanted: &[MAIN, SQUARE, SHOW],
        out: &[],
        runs: &[SQUARE],
        circle: false,
    },
    Row {
        steps: SAVED,
        gone: Some(1),
        live: (false, false),
        lasts: [1, 0, 0],
        wanted: &[MAIN, SQUARE, SHOW],
        out: &[],
        runs: &[SQUARE],
        circle: false,
    },
    Row {
        steps: AGAIN,
        gone: None,
        live: (false, false),
        lasts: [4, 0, 0],
        wanted: &[MAIN, SQUARE, SHOW],
        out: &[],
        runs: &[SQUARE],
        circle: false,
    },
    Row {
        steps: AGAIN,
        gone: Some(0),
        live: (false, false),
        lasts: [2, 0, 0],
        wanted: &[MAIN, SQUARE, SHOW],
        out: &[],
        runs: &[SQUARE],
        circle: false,
    },
    Row {
        steps: AGAIN,
        gone: Some(1),
        live: (false, false),
        lasts: [4, 0, 0],
        wanted: &[MAIN, SQUARE, SHOW],
        out: &[],
        runs: &[SQUARE],
        circle: false,
    },
    Row {
        steps: PLACED,
        gone: None,
        live: (true, true),
        lasts: [0, 0, 0],
        wanted: &[SHOW],
        out: &[],
        runs: &[SHOW],
        circle: false,
    },
    Row {
        steps: PLACED,
        gone: Some(1),
        live: (false, true),
        lasts: [0, 0, 0],
        wanted: &[MAIN, SHOW],
        out: &[],
        runs: &[MAIN],
        circle: false,
    },
];

/// Takes the steps.
fn play(
    rt: &impl Abort,
    alloc: Global,
    table: &mut Table<Spot>,
    two: &Two,
    steps: &[Step],
) -> Result<(), Fail>
    requires { table.old.gone ≡ [] }
{
    for i in 0..steps.len() {
        act(rt, alloc, table, two, &steps[i])?;
    }
    Ok(())
}

/// Takes the steps of a row.
fn take(
    rt: &impl Abort,
    alloc: Global,
    table: &mut Table<Spot>,
    two: &Two,
    row: &Row,
) -> Result<(), Fail>
    requires { table.old.gone ≡ [] }
{
    play(rt, alloc, table, two, row.steps)?;
    if let Some(worker) = row.gone {
        table.drop_worker(worker);
    }
    Ok(())
}

/// What the row says of places and saved waits.
fn holds(rt: &impl Abort, table: &Table<Spot>, two: &Two, row: &Row) {
    let (main, square) = row.live;
    assert!(rt; table.is_live(&two.main.name) == main);
    assert!(rt; table.is_live(&two.square.name) == square);
    let [main, square, show] = row.lasts;
    assert!(rt; last(table, two, MAIN) == main);
    assert!(rt; last(table, two, SQUARE) == square);
    assert!(rt; last(table, two, SHOW) == show);
}

/// What it says of the searches.
fn finds(
    rt: &impl Abort,
    alloc: Global,
    table: &Table<Spot>,
    two: &Two,
    row: &Row,
) -> Result<(), Fail> {
    assert!(rt; wants(alloc, table, two, row.wanted)?);
    let out = tasks(alloc, two, row.out)?;
    assert!(rt; runs(alloc, table, two, &out, row.runs)?);
    assert!(rt; circles(alloc, table, two)? == row.circle);
    Ok(())
}

/// The tasks of these numbers.
fn tasks(alloc: Global, two: &Two, numbers: &[u32]) -> Result<Vec<TaskId>, Fail> {
    let mut tasks = Vec::new(alloc);
    for number in numbers {
        tasks.push(task(two, *number))?;
    }
    Ok(tasks)
}

/// The row holds of a table with no rows.
fn over(
    rt: &impl Abort,
    alloc: Global,
    table: &mut Table<Spot>,
    two: &Two,
    row: &Row,
) -> Result<(), Fail>
    requires { table.old.gone ≡ [] }
{
    take(rt, alloc, table, two, row)?;
    holds(rt, table, two, row);
    finds(rt, alloc, table, two, row)
}

fn row_holds(rt: &impl Abort, alloc: Global, two: &Two, row: &Row) -> Result<(), Fail> {
    let mut table = open(alloc, 4)?;
    over(rt, alloc, &mut table, two, row)
}

#[test]
fn tables_hold_and_find(rt: HostRuntime) -> Result<(), Fail> {
    let two = make_two(rt.alloc())?;
    for row in &ROWS {
        row_holds(&rt, rt.alloc(), &two, row)?;
    }
    Ok(())
}

/// The main call is learned twice, another finds the table full, and another description under its name clashes.
const ONE: &[Step] = &[
    LEARN_MAIN,
    LEARN_MAIN,
    Step::Learn {
        what: SQUARE,
        told: ("full", 1),
    },
    Step::Clash,
];

#[test]
fn a_name_has_one_description(rt: HostRuntime) -> Result<(), Fail> {
    let two = make_two(rt.alloc())?;
    let mut table = open(rt.alloc(), 1)?;
    play(&rt, rt.alloc(), &mut table, &two, ONE)?;
    assert_eq!(rt; table.len(), 1);
    Ok(())
}

/// One description that is learned twice has one row.
const TWICE: &[Step] = &[
    Step::Learn {
        what: SQUARE,
        told: ("row", 0),
    },
    Step::Learn {
        what: SQUARE,
        told: ("row", 0),
    },
];

#[test]
fn equal_descriptions_have_one_row(rt: HostRuntime) -> Result<(), Fail> {
    let two = make_two(rt.alloc())?;
    let mut table = open(rt.alloc(), 2)?;
    play(&rt, rt.alloc(), &mut table, &two, TWICE)?;
    assert_eq!(rt; table.len(), 1);
    Ok(())
}
