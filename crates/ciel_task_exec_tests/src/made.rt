// A shop of two workers, and what lies on their shelves.

ghost use Rattle.std.specs.Prelude.{◌≡◌, ◌<◌, ◌∷◌, [], IfOk, length};
ghost use Rattle.sky_base.specs.JobView.{job_view};
ghost use Rattle.ciel_task_order.specs.Shop.{InputsInOrder};
ghost use Rattle.ciel_task_order.specs.declared.block.Spot.{Spot};
ghost use Rattle.ciel_task_exec_tests.specs.Rows.{IsSmall, LiesAt, Looks};

use crate::kit::Lines;
use ciel_name::name::Sha1Namer;
use ciel_store::seats::{Eye, Marker};
use ciel_store::shelves::{Place, Shelves};
use ciel_task_order::block::Block;
use ciel_task_order::ready::ReadyJob;
use ciel_task_order::shop::Shop;
use sky_base::job::{Inputs, Job};
use sky_base::object::Object;
use sky_base::script::{FunDefs, Script, Texts};
use sky_base::stmt::Block as Body;
use sky_base::text::{Bytes, Txt};
use std::alloc::Global;
use std::sync::Wait;
use std::test::Fail;

/// A shop of a kit of executors over lines.
pub type LineShop = Shop<Lines, Sha1Namer>;

fn bytes(alloc: Global, text: &str) -> Result<Bytes, Fail> {
    let bytes = Bytes::new(alloc, Vec::from_slice(alloc, text.as_bytes())?)?;
    Ok(bytes)
}

// A list of one.
fn one<T: Drop>(alloc: Global, item: T) -> Result<Vec<T>, Fail>
    ensures { IfOk result (λ v. v.items ≡ item ∷ []) }
{
    let mut items = Vec::new(alloc);
    match items.push(item) {
        Ok(()) => Ok(items),
        Err(_) => Err(Fail::from("memory")),
    }
}

// A script that does nothing, with one input.
fn script(alloc: Global, key: &Txt) -> Result<Script, Fail>
    ensures { IfOk result (λ s. s.keys ≡ key.now ∷ []) }
{
    let keys = Texts::of(one(alloc, key.share()?)?);
    let body = Body::of(Vec::new(alloc));
    Ok(Script::new(FunDefs::of(Vec::new(alloc)), body, keys))
}

// Its job, with the bytes of this text as the input.
fn job(alloc: Global, input: &str) -> Result<Job, Fail>
    ensures many { IfOk result (λ j. length (job_view j).inputs ≡ 1) }
    ensures ordered { IfOk result (λ j. InputsInOrder (job_view j)) }
{
    let key = Txt::new(alloc, "data")?;
    let script = script(alloc, &key)?;
    let inputs = Inputs::of(one(alloc, (key, bytes(alloc, input)?))?);
    Ok(Job { script, inputs })
}

/// A shop of two workers, with the bytes of this text as the job's one input.
pub fn shop(alloc: Global, shelves: Shelves<Block>, input: &str) -> Result<LineShop, Fail>
    requires { length shelves.rows ≡ 2 }
    ensures shelves { IfOk result (λ s. s.shelves ≡ shelves) }
    ensures small { IfOk result (λ s. IsSmall s) }
{
    let job = ReadyJob::new(alloc, job(alloc, input)?)?;
    Ok(Shop {
        job,
        kit: Lines,
        namer: Sha1Namer,
        shelves,
    })
}

/// Such a shop with the seat that marks losses, and an eye.
pub fn open(alloc: Global, input: &str) -> Result<(LineShop, Marker, Eye), Fail>
    ensures small { IfOk result (λ r. IsSmall r.0) }
    ensures marker { IfOk result (λ r. Looks r.0 r.1) }
    ensures eye { IfOk result (λ r. Looks r.0 r.2) }
{
    let (shelves, marker, mut eyes) = Shelves::<Block>::new(alloc, 2)?;
    let Some(eye) = eyes.pop() else {
        return Err(Fail::from("no eye"));
    };
    let shop = shop(alloc, shelves, input)?;
    Ok((shop, marker, eye))
}

/// Puts the bytes of a text on a worker's shelf.
pub fn put<R: Wait>(
    rt: &R,
    alloc: Global,
    shop: &LineShop,
    worker: u32,
    text: &str,
) -> Result<Place<Block>, Fail>
    requires { worker < length shop.now.shelves.rows }
    ensures { IfOk result (λ p. LiesAt shop.now (Spot.Shelf p)) }
{
    let block = Block::Object(Object::Bytes(bytes(alloc, text)?));
    match shop.shelves.put(rt, worker, block) {
        Ok(place) => Ok(place),
        Err(_) => Err(Fail::from("memory")),
    }
}
