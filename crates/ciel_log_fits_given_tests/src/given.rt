// What an order gives: places of what it brings along, and of its stack.

use ciel_log_fits::given::{are_distinct, are_elsewhere, is_given_at};
use ciel_store::shelves::{Place, Shelves};
use ciel_task_order::block::{Block, Held, Spot};
use ciel_task_order::order::Order;
use sky_base::name::Name;
use sky_base::object::{Object, TaskId};
use sky_base::text::Bytes;
use std::alloc::Global;
use std::sync::Wait;
use std::test::Fail;

fn name(number: u8) -> Name {
    Name::short([number; 20])
}

// Places of the workers 0 and 1.
fn places<R: Wait>(rt: &R, alloc: Global) -> Result<(Place<Block>, Place<Block>), Fail> {
    let (shelves, _marker, _eyes) = Shelves::<Block>::new(alloc, 2)?;
    let first = shelves.put(rt, 0, block(alloc)?);
    let second = shelves.put(rt, 1, block(alloc)?);
    match (first, second) {
        (Ok(first), Ok(second)) => Ok((first, second)),
        _ => Err(Fail::from("memory")),
    }
}

fn block(alloc: Global) -> Result<Block, Fail> {
    let empty = Bytes::new(alloc, Vec::new(alloc))?;
    Ok(Block::Object(Object::Bytes(empty)))
}

// The names 1 at worker 0, 2 at worker 1, and 3 as an input.
fn inputs(alloc: Global, here: Place<Block>, there: Place<Block>) -> Result<Vec<Held>, Fail> {
    let mut inputs = Vec::new(alloc);
    inputs.push(Held {
        name: name(1),
        at: Spot::Shelf(here),
    })?;
    inputs.push(Held {
        name: name(2),
        at: Spot::Shelf(there),
    })?;
    inputs.push(Held {
        name: name(3),
        at: Spot::Input(0),
    })?;
    Ok(inputs)
}

// An order of worker 0 for the task that 5 names, whose stack is at worker 1.
fn order<R: Wait>(rt: &R, alloc: Global) -> Result<Order, Fail> {
    let (here, there) = places(rt, alloc)?;
    let saved = Some(there.share());
    Ok(Order {
        number: 0,
        worker: 0,
        task: TaskId::Of(name(5)),
        desc: None,
        main: name(1),
        from: 1,
        saved,
        inputs: inputs(alloc, here, there)?,
    })
}

fn elsewhere<R: Wait>(rt: &R, alloc: Global, names: &[Name]) -> Result<bool, Fail> {
    let order = order(rt, alloc)?;
    let elsewhere = are_elsewhere(alloc, &order, names)?;
    Ok(elsewhere)
}

// 2 alone is at another worker: not 1, which is here, not the input, and not what the order doesn't give.
#[test]
fn names_are_elsewhere(rt: HostRuntime) -> Result<(), Fail> {
    for number in 1..5u8 {
        assert_eq!(&rt; elsewhere(&rt, rt.alloc(), &[name(number)])?, number == 2);
    }
    assert!(&rt; elsewhere(&rt, rt.alloc(), &[name(2), name(2)])?);
    assert!(&rt; !elsewhere(&rt, rt.alloc(), &[name(2), name(1)])?);
    Ok(())
}

#[test]
fn names_are_distinct(rt: HostRuntime) -> Result<(), Fail> {
    assert!(&rt; are_distinct(rt.alloc(), &[name(1), name(2)])?);
    assert!(&rt; !are_distinct(rt.alloc(), &[name(1), name(2), name(1)])?);
    Ok(())
}

fn given<R: Wait>(rt: &R, alloc: Global, number: u8, worker: u32) -> Result<bool, Fail> {
    let order = order(rt, alloc)?;
    let given = is_given_at(alloc, &order, &name(number), worker)?;
    Ok(given)
}

// 1 is given at worker 0, 2 at worker 1, and 5 there, since it stands for the task whose stack is there.
#[test]
fn names_are_given(rt: HostRuntime) -> Result<(), Fail> {
    for number in 1..6u8 {
        assert_eq!(&rt; given(&rt, rt.alloc(), number, 0)?, number == 1);
        assert_eq!(&rt;
            given(&rt, rt.alloc(), number, 1)?,
            number == 2 || number == 5
        );
    }
    Ok(())
}
