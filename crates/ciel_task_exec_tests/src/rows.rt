// What comes of the order.

ghost use Rattle.std.specs.Prelude.{◌≡◌, IfOk};
ghost use Rattle.ciel_store.specs.Seen.{IsPlaceOf};
ghost use Rattle.ciel_task_exec_tests.specs.Rows.{CanPerform, IsSmall, Looks, Placed};

use crate::made::{LineShop, open};
use crate::order::{name, ready};
use ciel_store::loss::Loss;
use ciel_store::seats::Eye;
use ciel_store::shelves::Place;
use ciel_task_exec::order::run_order;
use ciel_task_order::block::Block;
use ciel_task_order::order::Order;
use ciel_task_order::report::{End, Report};
use sky_base::name::Name;
use sky_base::object::{Desc1, Object};
use std::alloc::Global;
use std::sync::Wait;
use std::test::Fail;

fn run<R: Wait>(
    rt: &R,
    alloc: Global,
    shop: &LineShop,
    order: &Order,
    eye: &mut Eye,
) -> Result<Report, Fail>
    requires small { IsSmall shop.now }
    requires sound { CanPerform shop.now order.now }
    requires eye { Looks shop.now eye.old }
    ensures eye { Looks shop.now eye.new }
    ensures placed { IfOk result (λ r. Placed shop.now order.now r) }
{
    match &order.desc {
        Some(
            Desc1::Exec {
                executor,
                args,
                outputs,
                ..
            },
        ) => {
            let report = run_order(rt, alloc, shop, order, executor, args, *outputs, eye)?;
            Ok(report)
        }
        _ => Err(Fail::from("another order")),
    }
}

// Whether the bytes of this text lie there.
fn lies(shop: &LineShop, place: &Place<Block>, eye: &mut Eye, text: &str) -> bool
    requires place { IsPlaceOf shop.now.shelves place.now }
    requires eye { Looks shop.now eye.old }
{
    match shop.shelves.fetch(place, eye) {
        Ok(Block::Object(Object::Bytes(bytes))) => bytes.as_slice() == text.as_bytes(),
        _ => false,
    }
}

// Whether one output was made, and the bytes of this text lie at its place.
fn made(shop: &LineShop, order: &Order, report: &Report, eye: &mut Eye, text: &str) -> bool
    requires placed { Placed shop.now order.now report.now }
    requires eye { Looks shop.now eye.old }
{
    let End::Made(made) = &report.end else {
        return false;
    };
    match made.as_slice() {
        [one] => lies(shop, &one.place, eye, text),
        _ => false,
    }
}

// Whether the object of this name alone was copied.
fn copied(report: &Report, name: &Name) -> bool {
    let copied = report.copied.as_slice();
    copied.len() == 1 && copied[0].name == *name
}

// Whether this name is missing by the loss of this number, which the eye had seen, and nothing was copied.
fn missing(report: &Report, what: &Name, number: u32) -> bool {
    match &report.end {
        End::Missing { name, loss, seen } => {
            *name == *what && loss.number == number && seen.is_some() && report.copied.is_empty()
        }
        _ => false,
    }
}

#[test]
fn an_executor_runs_on_what_lies_there(rt: HostRuntime) -> Result<(), Fail> {
    let (shop, _marker, mut eye) = open(rt.alloc(), "c\n")?;
    let order = ready(&rt, rt.alloc(), &shop)?;
    let report = run(&rt, rt.alloc(), &shop, &order, &mut eye)?;
    assert_eq!(rt; report.number, 7);
    assert!(rt; copied(&report, &name(2)));
    assert!(rt; made(&shop, &order, &report, &mut eye, "a\nb\nc\n"));
    Ok(())
}

#[test]
fn what_lies_at_a_lost_worker_is_missing(rt: HostRuntime) -> Result<(), Fail> {
    let (shop, mut marker, mut eye) = open(rt.alloc(), "c\n")?;
    let order = ready(&rt, rt.alloc(), &shop)?;
    let loss = Loss {
        number: 5,
        worker: 1,
    };
    shop.shelves.mark_lost(&mut marker, loss);
    let report = run(&rt, rt.alloc(), &shop, &order, &mut eye)?;
    assert!(rt; missing(&report, &name(2), 5));
    Ok(())
}
