//! Objects of a log, put on a worker's shelf again.

ghost use Rattle.std.specs.Prelude.{◌≡◌, ◌<◌, IfNone, IfOk, IfSome, OnOk, Some, length};
ghost use Rattle.std.specs.BTreeMap.{Updates};
ghost use Rattle.sha1.specs.Sha1.{sha1};
ghost use Rattle.ciel_name.specs.Object.{object_bytes};
ghost use Rattle.sky_base.specs.NameOrder.{name_cmp};
ghost use Rattle.sky_base.specs.ObjectView.{object_view};
ghost use Rattle.sky_base.specs.declared.object.Object.{Object as ObjectSeen};
ghost use Rattle.ciel_journal.specs.Job.{Each};
ghost use Rattle.ciel_log_objects.specs.Objects.{AreCopies, AreMade, IsCopyOf, IsKept, KeepsEach, LiesThere, Passes};

use ciel_log_fits::allowed::Allowed;
use ciel_log_fits::descs::is_allowed_object;
use ciel_log_fits::known::KnownAfter;
use ciel_name::name::mark;
use ciel_name::object::object_bytes;
use ciel_store::shelves::{Place, Shelves};
use ciel_task_order::block::{Block, Held, Spot};
use ciel_task_order::report::Made;
use sky_base::name::Name;
use sky_base::object::Object;
use sky_base::text::Memory;
use std::alloc::Global;
use std::collections::BTreeMap;
use std::sync::Wait;

/// Puts the objects of a task's outputs on a worker's shelf, in order, each with its name and its mark, and keeps each by its name; none
/// where the job doesn't allow one, or one refers to what will have no row.
///
/// Answers `Memory` for want of memory. Some of the objects may lie on the shelf where nothing names them, then and where there are none.
pub fn put_outputs<R: Wait>(
    rt: &R,
    alloc: Global,
    shelves: &Shelves<Block>,
    worker: u32,
    script: &Allowed,
    known: &KnownAfter<Place<Block>>,
    names: &[Name],
    objects: &[Object],
    kept: &mut BTreeMap<Name, Object>,
) -> Result<Option<Vec<Made>>, Memory>
    requires worker { worker < length shelves.now.rows }
    requires all { length names.now ≡ length objects.now }
    ensures made { IfOk result (λ o. IfSome o (λ ms. AreMade shelves.now worker script.now known.now names.now objects.now ms.items)) }
    ensures kept { IfOk result (λ o. IfSome o (λ _. KeepsEach names.now objects.now kept.old kept.new)) }
    ensures refused { IfOk result (λ o. IfNone o (Each (λ (x : ObjectSeen). Passes script.now known.now (object_view x)) objects.now → ⊥)) }
{
    let mut made = Vec::new(alloc);
    for index in 0..objects.len() {
        let put = put_output(
            rt,
            alloc,
            shelves,
            worker,
            script,
            known,
            &names[index],
            &objects[index],
            kept,
        )?;
        let Some(one) = put else {
            return Ok(None);
        };
        let Ok(()) = made.push(one) else {
            return Err(Memory);
        };
    }
    Ok(Some(made))
}

/// Puts the object of one output there, and keeps it.
fn put_output<R: Wait>(
    rt: &R,
    alloc: Global,
    shelves: &Shelves<Block>,
    worker: u32,
    script: &Allowed,
    known: &KnownAfter<Place<Block>>,
    name: &Name,
    object: &Object,
    kept: &mut BTreeMap<Name, Object>,
) -> Result<Option<Made>, Memory>
    requires worker { worker < length shelves.now.rows }
    ensures name { IfOk result (λ o. IfSome o (λ m. m.name ≡ name.now)) }
    ensures mark { IfOk result (λ o. IfSome o (λ m. m.mark ≡ sha1 (object_bytes (object_view object.now)))) }
    ensures passes { IfOk result (λ o. IfSome o (λ m. Passes script.now known.now (object_view object.now))) }
    ensures lies { IfOk result (λ o. IfSome o (λ m. LiesThere shelves.now worker (object_view object.now) m.place)) }
    ensures kept { IfOk result (λ o. IfSome o (λ m. Updates name_cmp kept.old kept.new name.now (Some object.now))) }
    ensures refused { IfOk result (λ o. IfNone o (Passes script.now known.now (object_view object.now) → ⊥)) }
{
    let put = put_object(rt, shelves, worker, script, known, object)?;
    let place = match put {
        Some(place) => place,
        None => return Ok(None),
    };
    let mark = mark(object_bytes(alloc, object)?.as_slice());
    keep(kept, name, object)?;
    Ok(Some(Made {
        name: *name,
        place,
        mark,
    }))
}

/// Keeps an object by its name.
fn keep(kept: &mut BTreeMap<Name, Object>, name: &Name, object: &Object) -> Result<(), Memory>
    ensures { OnOk result (Updates name_cmp kept.old kept.new name.now (Some object.now)) }
{
    let copy = object.copy()?;
    match kept.insert(*name, copy) {
        Ok(_) => Ok(()),
        Err(_) => Err(Memory),
    }
}

/// Puts the kept objects of these names on a worker's shelf; none where none is kept of a name, the job doesn't allow one, or one refers to
/// what will have no row.
///
/// Answers `Memory` for want of memory.
pub fn put_copies<R: Wait>(
    rt: &R,
    alloc: Global,
    shelves: &Shelves<Block>,
    worker: u32,
    script: &Allowed,
    known: &KnownAfter<Place<Block>>,
    names: &[Name],
    kept: &BTreeMap<Name, Object>,
) -> Result<Option<Vec<Held>>, Memory>
    requires worker { worker < length shelves.now.rows }
    ensures copies { IfOk result (λ o. IfSome o (λ hs. AreCopies shelves.now worker script.now known.now kept.now names.now hs.items)) }
    ensures refused { IfOk result (λ o. IfNone o (Each (IsKept script.now known.now kept.now) names.now → ⊥)) }
{
    let mut copies = Vec::new(alloc);
    for name in names {
        let put = put_copy(rt, shelves, worker, script, known, name, kept)?;
        let Some(copy) = put else {
            return Ok(None);
        };
        let Ok(()) = copies.push(copy) else {
            return Err(Memory);
        };
    }
    Ok(Some(copies))
}

/// Puts one of them there.
fn put_copy<R: Wait>(
    rt: &R,
    shelves: &Shelves<Block>,
    worker: u32,
    script: &Allowed,
    known: &KnownAfter<Place<Block>>,
    name: &Name,
    kept: &BTreeMap<Name, Object>,
) -> Result<Option<Held>, Memory>
    requires worker { worker < length shelves.now.rows }
    ensures name { IfOk result (λ o. IfSome o (λ h. h.name ≡ name.now)) }
    ensures copy { IfOk result (λ o. IfSome o (λ h. IsCopyOf shelves.now worker script.now known.now kept.now h)) }
    ensures refused { IfOk result (λ o. IfNone o (IsKept script.now known.now kept.now name.now → ⊥)) }
{
    let Some(object) = kept.get(name) else {
        return Ok(None);
    };
    let put = put_object(rt, shelves, worker, script, known, object)?;
    let Some(place) = put else {
        return Ok(None);
    };
    Ok(Some(Held {
        name: *name,
        at: Spot::Shelf(place),
    }))
}

/// Puts an object there, if it passes.
fn put_object<R: Wait>(
    rt: &R,
    shelves: &Shelves<Block>,
    worker: u32,
    script: &Allowed,
    known: &KnownAfter<Place<Block>>,
    object: &Object,
) -> Result<Option<Place<Block>>, Memory>
    requires worker { worker < length shelves.now.rows }
    ensures passes { IfOk result (λ o. IfSome o (λ p. Passes script.now known.now (object_view object.now))) }
    ensures lies { IfOk result (λ o. IfSome o (λ p. LiesThere shelves.now worker (object_view object.now) p)) }
    ensures refused { IfOk result (λ o. IfNone o (Passes script.now known.now (object_view object.now) → ⊥)) }
{
    if !is_allowed_object(script, object) {
        return Ok(None);
    }
    if !known.has_all_of(object) {
        return Ok(None);
    }
    let copy = object.copy()?;
    match shelves.put(rt, worker, Block::Object(copy)) {
        Ok(place) => Ok(Some(place)),
        Err(_) => Err(Memory),
    }
}
