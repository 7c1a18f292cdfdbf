//! Gathering the objects of some names.

ghost use Rattle.std.specs.Prelude.{◌≡◌, ◌<◌, IfOk, length, map};
ghost use Rattle.sky_base.specs.JobView.{job_view};
ghost use Rattle.sky_base.specs.ObjectView.{object_view};
ghost use Rattle.sky_base_law.specs.Sound.{SoundObject};
ghost use Rattle.sky_base_law.specs.Tasks.{Each, In};
ghost use Rattle.ciel_table.specs.Inside.{IsIndex};
ghost use Rattle.ciel_task_order.specs.Orders.{SpotSound, names_in};
ghost use Rattle.ciel_task_order.specs.declared.block.Held.{Held};
ghost use Rattle.ciel_task_inputs.specs.Lies.{held_name};
ghost use Rattle.ciel_task_inputs.specs.Gathers.{AllSound, CopiedUpTo, GatheredSo, Saw};

use crate::bring::bring;
use crate::index::find;
use ciel_store::loss::Loss;
use ciel_store::seats::Eye;
use ciel_store::shelves::Shelves;
use ciel_task_order::block::{Block, Held};
use ciel_task_order::ready::ReadyJob;
use sky_base::name::Name;
use sky_base::object::Object;
use sky_base::text::Memory;
use std::alloc::Global;
use std::collections::BTreeMap;
use std::sync::Wait;

/// What came of it: all objects, in the order of the names, or the first name whose object lay at a worker that is lost, with the loss.
#[derive(Drop)]
pub enum Gathered {
    All(Vec<Object>),
    Lost(Name, Loss),
}

/// The objects of these names, each of which is brought along, for a worker, up to the first that is lost. What lay on other workers'
/// shelves is put on the own one too, and named at the end of what was copied.
///
/// Answers `Memory` for want of memory. The eye is then as it was. Of the first names what lay on other workers' shelves is put on the own
/// one and named at the end of what was copied already. One copy more, which nothing names, may lie there.
pub fn gather<R: Wait>(
    rt: &R,
    alloc: Global,
    job: &ReadyJob,
    shelves: &Shelves<Block>,
    worker: u32,
    held: &[Held],
    index: &BTreeMap<Name, usize>,
    names: &[Name],
    eye: &mut Eye,
    copied: &mut Vec<Held>,
) -> Result<Gathered, Memory>
    requires index { IsIndex held_name index.now held.now }
    requires spots { Each (λ (h : Held). SpotSound shelves.now (job_view job.now).script (length (job_view job.now).inputs) h.at) held.now }
    requires names { Each (λ n. In n (names_in held.now)) names.now }
    requires eye { eye.old.of ≡ shelves.now.of }
    requires worker { worker < length shelves.now.rows }
    ensures of { eye.new.of ≡ eye.old.of }
    ensures gathered { IfOk result (GatheredSo (job_view job.now).inputs held.now names.now) }
    ensures sound { IfOk result (AllSound (job_view job.now).script) }
    ensures copied { IfOk result (λ g. CopiedUpTo shelves.now worker (job_view job.now).inputs held.now names.now g copied.old.items
        copied.new.items) }
    ensures seen { IfOk result (λ g. Saw g eye.old eye.new) }
{
    let mut objects = Vec::new(alloc);
    for name in names {
        let Some(one) = find(held, index, name) else {
            unreachable!()
        };
        match bring(rt, job, shelves, worker, one, eye, copied)? {
            Ok(object) => {
                let Ok(()) = objects.push(object) else {
                    return Err(Memory);
                };
            }
            Err(gone) => return Ok(Gathered::Lost(*name, gone.loss)),
        }
    }
    Ok(Gathered::All(objects))
}
