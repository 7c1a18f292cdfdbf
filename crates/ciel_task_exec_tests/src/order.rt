// An order of `cat` over what lies at three places.

ghost use Rattle.std.specs.Prelude.{◌≡◌, ◌++◌, ◌∷◌, [], IfOk, replicate};
ghost use Rattle.sky_base.specs.Kept.{Kept};
ghost use Rattle.sky_base.specs.Names.{known_of};
ghost use Rattle.sky_base.specs.Val.{refs};
ghost use Rattle.sky_base.specs.View.{view};
ghost use Rattle.sky_base_law.specs.Tasks.{Each};
ghost use Rattle.ciel_task_order.specs.Orders.{names_in};
ghost use Rattle.ciel_task_order.specs.declared.block.Held.{Held as HeldSeen};
ghost use Rattle.ciel_task_order.specs.declared.block.Spot.{Spot as SpotSeen};
ghost use Rattle.ciel_task_exec_tests.specs.Rows.{CanPerform, IsSmall, LiesAt, three};

use crate::made::{LineShop, put};
use ciel_name::name::task_of;
use ciel_store::shelves::Place;
use ciel_task_order::block::{Block, Held, Spot};
use ciel_task_order::order::Order;
use sky_base::name::Name;
use sky_base::object::Desc1;
use sky_base::text::Txt;
use sky_base::value::{Pairs, Vals, Value};
use std::alloc::Global;
use std::sync::Wait;
use std::test::Fail;

/// The name of this number.
pub fn name(number: u8) -> Name
    ensures { result ≡ replicate 20 number }
{
    Name::short([number; 20])
}

fn add(held: &mut Vec<Held>, number: u8, at: Spot) -> Result<(), Fail>
    ensures { IfOk result (λ _. held.new.items ≡ held.old.items ++ record { name = replicate 20 number; at = at } ∷ []) }
{
    let one = Held {
        name: name(number),
        at,
    };
    match held.push(one) {
        Ok(()) => Ok(()),
        Err(_) => Err(Fail::from("memory")),
    }
}

// What an order brings along: the names 1 and 2 at these places, and 3 as the job's input.
fn held(
    alloc: Global,
    shop: &LineShop,
    first: Place<Block>,
    second: Place<Block>,
) -> Result<Vec<Held>, Fail>
    requires small { IsSmall shop.now }
    requires first { LiesAt shop.now (SpotSeen.Shelf first) }
    requires second { LiesAt shop.now (SpotSeen.Shelf second) }
    ensures names { IfOk result (λ hs. names_in hs.items ≡ three) }
    ensures spots { IfOk result (λ hs. Each (λ (h : HeldSeen). LiesAt shop.now h.at) hs.items) }
{
    let mut held = Vec::new(alloc);
    add(&mut held, 1, Spot::Shelf(first))?;
    add(&mut held, 2, Spot::Shelf(second))?;
    add(&mut held, 3, Spot::Input(0))?;
    Ok(held)
}

// The three references, under the key of the inputs.
fn args(alloc: Global) -> Result<Value, Fail>
    ensures { IfOk result (λ v. refs (view v) ≡ known_of three) }
{
    let mut items = Vals::new(alloc);
    items.push(Value::Ref(name(1)))?;
    items.push(Value::Ref(name(2)))?;
    items.push(Value::Ref(name(3)))?;
    let mut pairs = Pairs::new(alloc);
    pairs.insert(Txt::new(alloc, "in")?, Value::List(items))?;
    Ok(Value::Dict(pairs))
}

// The value, which keeps the limits.
fn within(value: Value) -> Result<Value, Fail>
    ensures same { IfOk result (λ v. v ≡ value) }
    ensures kept { IfOk result (λ v. Kept (view v)) }
{
    if value.is_too_deep() || value.is_too_large() {
        return Err(Fail::from("a large value"));
    }
    Ok(value)
}

// The order of worker 0 that lists the lines of what the names stand for.
fn order(alloc: Global, shop: &LineShop, args: Value, held: Vec<Held>) -> Result<Order, Fail>
    requires small { IsSmall shop.now }
    requires refs { refs (view args) ≡ known_of three }
    requires kept { Kept (view args) }
    requires names { names_in held.items ≡ three }
    requires spots { Each (λ (h : HeldSeen). LiesAt shop.now h.at) held.items }
    ensures { IfOk result (λ o. CanPerform shop.now o) }
{
    let desc = Desc1::Exec {
        executor: Txt::new(alloc, "cat")?,
        args,
        outputs: 1,
        index: 0,
    };
    let task = task_of(alloc, &desc, &shop.namer)?;
    Ok(Order {
        number: 7,
        worker: 0,
        task,
        desc: Some(desc),
        main: name(0),
        from: 0,
        saved: None,
        inputs: held,
    })
}

/// The order over a line at each worker and the job's input.
pub fn ready<R: Wait>(rt: &R, alloc: Global, shop: &LineShop) -> Result<Order, Fail>
    requires { IsSmall shop.now }
    ensures { IfOk result (λ o. CanPerform shop.now o) }
{
    let first = put(rt, alloc, shop, 0, "a\n")?;
    let second = put(rt, alloc, shop, 1, "b\n")?;
    let held = held(alloc, shop, first, second)?;
    let args = within(args(alloc)?)?;
    let order = order(alloc, shop, args, held)?;
    Ok(order)
}
