//! What a worker copied to its own shelf, each name once.

ghost use Rattle.std.specs.Prelude.{◌≡◌, ◌<◌, [], None, Some, IfOk, IsSome, MatchResult, length};
ghost use Rattle.sky_base.specs.JobView.{job_view};
ghost use Rattle.sky_base.specs.ObjectView.{object_view};
ghost use Rattle.sky_base_law.specs.Tasks.{Each};
ghost use Rattle.ciel_table.specs.Inside.{IsIndex};
ghost use Rattle.ciel_table.specs.Named.{found, place_of};
ghost use Rattle.ciel_task_order.specs.Orders.{SpotSound, names_in};
ghost use Rattle.ciel_task_inputs.specs.Fetched.{told_next};
ghost use Rattle.ciel_task_inputs.specs.Gathers.{lies_of};
ghost use Rattle.ciel_task_inputs.specs.Lies.{LostAt, held_name, lies_at};
ghost use Rattle.ciel_task_call.specs.Finds.{CopiesStand, IsLost, Noted};

use ciel_store::seats::Eye;
use ciel_store::shelves::{Gone, Shelves};
use ciel_task_inputs::bring::bring;
use ciel_task_inputs::fetch::fetch;
use ciel_task_inputs::places::Places;
use ciel_task_order::block::{Block, Held};
use ciel_task_order::ready::ReadyJob;
use sky_base::name::Name;
use sky_base::object::Object;
use sky_base::text::Memory;
use std::alloc::Global;
use std::collections::BTreeMap;
use std::sync::Wait;

/// What was copied, in order, and the place of each name in that list.
#[derive(Drop)]
pub struct Copied {
    pub items: Vec<Held>,
    pub places: BTreeMap<Name, usize>,
}

impl Copied {
    /// Nothing.
    pub fn new(alloc: Global) -> Copied
        ensures items { result.items.items ≡ [] }
        ensures places { IsIndex held_name result.places [] }
    {
        Copied {
            items: Vec::new(alloc),
            places: BTreeMap::new(alloc),
        }
    }
}

/// The object that an order has of this name, for a worker. Where it lies on another worker's shelf and wasn't copied yet it is put on
/// the own one too, and named at the end of what was copied. Where it is lost nothing is named.
///
/// Answers `Memory` for want of memory. The eye is then as it was. What was copied may have one copy more, whose place isn't noted, and may
/// only be dropped; a copy that nothing names may lie on the worker's shelf.
pub fn bring_once<R: Wait>(
    rt: &R,
    job: &ReadyJob,
    shelves: &Shelves<Block>,
    worker: u32,
    held: &Places<'_>,
    name: &Name,
    eye: &mut Eye,
    copied: &mut Copied,
) -> Result<Result<Object, Gone>, Memory>
    requires spots { Each (λ (h : Held). SpotSound shelves.now (job_view job.now).script (length (job_view job.now).inputs) h.at) held.now }
    requires there { IsSome (lies_of (job_view job.now).inputs held.now name.now) }
    requires eye { eye.old.of ≡ shelves.now.of }
    requires worker { worker < length shelves.now.rows }
    requires copied { CopiesStand shelves.now worker (job_view job.now).inputs held.now copied.old }
    ensures of { eye.new.of ≡ eye.old.of }
    ensures object { IfOk result (λ r. MatchResult r (λ o. lies_of (job_view job.now).inputs held.now name.now ≡ Some (object_view o))
        (λ gone. IsLost held.now name.now gone.loss eye.new)) }
    ensures copied { IfOk result (λ _. CopiesStand shelves.now worker (job_view job.now).inputs held.now copied.new) }
    ensures told { IfOk result (λ r. MatchResult r
        (λ _. names_in copied.new.items.items ≡ told_next worker held.now (names_in copied.old.items.items) name.now)
        (λ _. names_in copied.new.items.items ≡ names_in copied.old.items.items)) }
{
    let Some(one) = held.find(name) else {
        unreachable!()
    };
    if copied.places.contains_key(name) {
        let fetched = fetch(job, shelves, one, eye)?;
        return Ok(fetched);
    }
    let count = copied.items.len();
    let brought = bring(rt, job, shelves, worker, one, eye, &mut copied.items)?;
    note(copied, name, count)?;
    Ok(brought)
}

// Notes the place of a name, where there is one more than so many.
fn note(copied: &mut Copied, name: &Name, count: usize) -> Result<(), Memory>
    ensures items { copied.new.items ≡ copied.old.items }
    ensures places { IfOk result (λ _. Noted name.now count copied.old.items.items copied.old.places copied.new.places) }
{
    if copied.items.len() <= count {
        return Ok(());
    }
    match copied.places.insert(*name, count) {
        Ok(_) => Ok(()),
        Err(_) => Err(Memory),
    }
}
