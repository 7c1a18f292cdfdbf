// What a table holds, and what is searched in it.

use crate::made::{Spot, Two};
use crate::steps::{MAIN, SHOW, SQUARE, task};
use ciel_table::table::Table;
use ciel_want::want::{circle, runnable, wanted};
use ciel_want::whole::is_whole;
use sky_base::names::Names;
use sky_base::object::TaskId;
use sky_base::text::Memory;
use std::alloc::Global;
use std::test::Fail;

/// The number of the last saved wait of a task; 0 where there is none.
pub fn last(table: &Table<Spot>, two: &Two, what: u32) -> u32 {
    match table.last_wait(&task(two, what)) {
        Some(wait) => wait.j,
        None => 0,
    }
}

fn push(numbers: &mut Vec<u32>, number: u32) -> Result<(), Memory> {
    match numbers.push(number) {
        Ok(()) => Ok(()),
        Err(_) => Err(Memory),
    }
}

/// The number of a task; 9 of one that is none of the three.
fn number(two: &Two, task: &TaskId) -> u32 {
    match task {
        TaskId::Show => SHOW,
        TaskId::Of(name) => {
            if *name == two.main.name {
                MAIN
            } else if *name == two.square.name {
                SQUARE
            } else {
                9
            }
        }
    }
}

fn numbers(alloc: Global, two: &Two, tasks: &[TaskId]) -> Result<Vec<u32>, Memory> {
    let mut numbers = Vec::new(alloc);
    for task in tasks {
        push(&mut numbers, number(two, task))?;
    }
    Ok(numbers)
}

fn are(alloc: Global, two: &Two, tasks: &[TaskId], want: &[u32]) -> Result<bool, Memory> {
    Ok(numbers(alloc, two, tasks)?.as_slice() == want)
}

/// Whether these are the wanted tasks.
pub fn wants(alloc: Global, table: &Table<Spot>, two: &Two, want: &[u32]) -> Result<bool, Fail> {
    if !is_whole(alloc, table, &two.main.name)? {
        return Err(Fail::from("a name without a row"));
    }
    let tasks = wanted(alloc, table, &two.main.name)?;
    Ok(are(alloc, two, &tasks, want)?)
}

/// Whether these are the tasks that can run, where those are out.
pub fn runs(
    alloc: Global,
    table: &Table<Spot>,
    two: &Two,
    out: &[TaskId],
    want: &[u32],
) -> Result<bool, Fail> {
    if !is_whole(alloc, table, &two.main.name)? {
        return Err(Fail::from("a name without a row"));
    }
    let tasks = runnable(alloc, table, &two.main.name, out)?;
    Ok(are(alloc, two, &tasks, want)?)
}

/// Whether it is the circle of the call of `f` alone.
fn is_square(two: &Two, names: &Names) -> bool {
    names.len() == 1 && names.as_slice().first() == Some(&two.square.name)
}

/// Whether there is a circle, which is that of the call of `f` alone.
pub fn circles(alloc: Global, table: &Table<Spot>, two: &Two) -> Result<bool, Fail> {
    if !is_whole(alloc, table, &two.main.name)? {
        return Err(Fail::from("a name without a row"));
    }
    match circle(alloc, table, &two.main.name)? {
        None => Ok(false),
        Some(names) if is_square(two, &names) => Ok(true),
        Some(_) => Err(Fail::from("another circle")),
    }
}
