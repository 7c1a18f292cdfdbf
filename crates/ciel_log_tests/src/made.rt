// A shop of one worker with one input, an eye at its shelves, and an order for the root task there.

ghost use Rattle.std.specs.Prelude.{◌≡◌, ◌<◌, ◌∷◌, [], IfOk, length};
ghost use Rattle.std.specs.Arc.{arc_value};
ghost use Rattle.sky_base.specs.JobView.{job_view};
ghost use Rattle.ciel_log_tests.specs.Small.{CanPerform, IsSmall};

use crate::kit::Lines;
use ciel_name::name::Sha1Namer;
use ciel_store::seats::Eye;
use ciel_store::shelves::Shelves;
use ciel_task_order::block::{Block, Held, Spot};
use ciel_task_order::order::Order;
use ciel_task_order::ready::ReadyJob;
use ciel_task_order::shop::Shop;
use sky_base::job::{Inputs, Job};
use sky_base::name::Name;
use sky_base::object::TaskId;
use sky_base::script::{FunDefs, Script, Texts};
use sky_base::stmt::Block as Body;
use sky_base::text::{Bytes, Txt};
use std::alloc::Global;
use std::sync::Arc;
use std::test::Fail;

/// A shop of a kit of executors over lines.
pub type LineShop = Shop<Lines, Sha1Namer>;

// A script that does nothing.
fn script(alloc: Global) -> Script {
    let body = Body::of(Vec::new(alloc));
    Script::new(
        FunDefs::of(Vec::new(alloc)),
        body,
        Texts::of(Vec::new(alloc)),
    )
}

// One empty input.
fn inputs(alloc: Global) -> Result<Inputs, Fail>
    ensures { IfOk result (λ xs. length xs ≡ 1) }
{
    let key = Txt::new(alloc, "data")?;
    let empty = Bytes::new(alloc, Vec::new(alloc))?;
    let mut inputs = Vec::new(alloc);
    inputs.push((key, empty))?;
    Ok(Inputs::of(inputs))
}

// Their job.
fn job(alloc: Global) -> Result<Job, Fail>
    ensures { IfOk result (λ j. length (job_view j).inputs ≡ 1) }
{
    let inputs = inputs(alloc)?;
    Ok(Job {
        script: script(alloc),
        inputs,
    })
}

/// The shop, and the eye.
pub fn open(alloc: Global) -> Result<(Arc<LineShop, Global>, Eye), Fail>
    ensures small { IfOk result (λ r. IsSmall (arc_value r.0)) }
    ensures eye { IfOk result (λ r. r.1.of ≡ (arc_value r.0).shelves.of) }
{
    let (shelves, _marker, mut eyes) = Shelves::<Block>::new(alloc, 1)?;
    let Some(eye) = eyes.pop() else {
        return Err(Fail::from("no eye"));
    };
    let job = ReadyJob::new(alloc, job(alloc)?)?;
    let shop = Shop {
        job,
        kit: Lines,
        namer: Sha1Namer,
        shelves,
    };
    Ok((Arc::new(alloc, shop)?, eye))
}

// One thing that is brought along.
fn brought(alloc: Global, held: Held) -> Result<Vec<Held>, Fail>
    ensures { IfOk result (λ v. v.items ≡ held ∷ []) }
{
    let mut items = Vec::new(alloc);
    items.push(held)?;
    Ok(items)
}

/// The order with the number 5, which brings along the input as the main call's object.
pub fn order(alloc: Global, shop: &LineShop) -> Result<Order, Fail>
    requires small { IsSmall shop.now }
    ensures sound { IfOk result (λ o. CanPerform shop.now o) }
    ensures worker { IfOk result (λ o. o.worker ≡ 0) }
{
    let main = Name::short([1; 20]);
    let held = Held {
        name: main,
        at: Spot::Input(0),
    };
    Ok(Order {
        number: 5,
        worker: 0,
        task: TaskId::Show,
        desc: None,
        main,
        from: 0,
        saved: None,
        inputs: brought(alloc, held)?,
    })
}
