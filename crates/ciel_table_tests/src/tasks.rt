// The tasks of rows that are no calls: an executor's outputs have one task, and an input is live.

use crate::made::{Spot, named};
use crate::steps::{learn, open};
use ciel_name::name::{Sha1Namer, task_of};
use ciel_table::table::Table;
use sky_base::object::{Desc1, Named, TaskId};
use sky_base::text::{Memory, Txt};
use sky_base::value::Value;
use std::alloc::Global;
use std::test::Fail;

fn input(alloc: Global) -> Result<Named, Memory> {
    let key = Txt::new(alloc, "t")?;
    named(alloc, Desc1::Input { key })
}

fn output(alloc: Global, index: u32) -> Result<Named, Memory> {
    let executor = Txt::new(alloc, "split")?;
    named(
        alloc,
        Desc1::Exec {
            executor,
            args: Value::Null,
            outputs: 2,
            index,
        },
    )
}

/// The task of the first row, and whether it has no place.
fn first_task(table: &Table<Spot>) -> Result<(TaskId, bool), Fail> {
    if table.len() == 0 {
        return Err(Fail::from("no row"));
    }
    let row = table.row(0);
    Ok((row.task, row.places.as_slice().is_empty()))
}

/// The task of the only row of a table, whether it has no place, and whether its name is live.
fn alone(alloc: Global, named: &Named) -> Result<(TaskId, bool, bool), Fail> {
    let mut table = open(alloc, 4)?;
    if learn(&mut table, named).is_err() {
        return Err(Fail::from("not learned"));
    }
    let (task, none) = first_task(&table)?;
    Ok((task, none, table.is_live(&named.name)))
}

#[test]
fn an_executor_has_one_task(rt: HostRuntime) -> Result<(), Fail> {
    let second = output(rt.alloc(), 1)?;
    let (task, none, live) = alone(rt.alloc(), &second)?;
    assert!(rt; none);
    assert!(rt; !live);
    assert!(rt; task == task_of(rt.alloc(), &second.desc, &Sha1Namer)?);
    assert!(rt; task == TaskId::Of(output(rt.alloc(), 0)?.name));
    Ok(())
}

#[test]
fn an_input_is_live(rt: HostRuntime) -> Result<(), Fail> {
    let text = input(rt.alloc())?;
    let (_, none, live) = alone(rt.alloc(), &text)?;
    assert!(rt; none);
    assert!(rt; live);
    Ok(())
}
