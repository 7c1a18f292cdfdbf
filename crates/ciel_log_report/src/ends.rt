//! How a report of a log ends: each kind of end, if it fits the order.

ghost use Rattle.std.specs.Prelude.{◌≡◌, ◌<◌, [], IfNone, IfOk, IfSome, false, length, true};
ghost use Rattle.ciel_master_safe.specs.Reports.{outputs_of};
ghost use Rattle.ciel_log_objects.specs.Objects.{KeepsEach};
ghost use Rattle.ciel_log_report.specs.Ends.{CopiedSo, IsMadeOf, IsMissedOf, IsSavedOf, IsShownOf};
ghost use Rattle.ciel_log_report.specs.Tests.{CopiesPass, MissedPasses, OutputsPass, ShownPasses, StackPasses};

use ciel_log_fits::allowed::Allowed;
use ciel_log_fits::given::{are_distinct, are_elsewhere, can_wait, is_given_at};
use ciel_log_fits::known::KnownAfter;
use ciel_log_fits::names::output_names;
use ciel_log_fits::stacks::read_stack;
use ciel_log_objects::objects::{put_copies, put_outputs};
use ciel_master::master::Master;
use ciel_name::name::{Namer, mark};
use ciel_store::loss::Loss;
use ciel_store::shelves::{Place, Shelves};
use ciel_task_order::block::{Block, Held};
use ciel_task_order::order::Order;
use ciel_task_order::report::End;
use sky_base::name::Name;
use sky_base::object::{Object, TaskId};
use sky_base::text::Memory;
use sky_frozen::fitting::Fitting;
use sky_state::shown::Shown;
use std::alloc::Global;
use std::collections::BTreeMap;
use std::sync::Wait;

/// What was copied, if the order gives each of these names a place at another worker, no name stands twice, and the object of each is kept
/// and passes.
fn copies<R: Wait>(
    rt: &R,
    alloc: Global,
    shelves: &Shelves<Block>,
    script: &Allowed,
    known: &KnownAfter<Place<Block>>,
    order: &Order,
    names: &[Name],
    kept: &BTreeMap<Name, Object>,
) -> Result<Option<Vec<Held>>, Memory>
    requires worker { order.now.worker < length shelves.now.rows }
    ensures copied { IfOk result (λ o. IfSome o (λ hs. CopiedSo order.now shelves.now script.now known.now kept.now names.now hs.items)) }
    ensures refused { IfOk result (λ o. IfNone o (CopiesPass order.now script.now known.now kept.now names.now → ⊥)) }
{
    let distinct = are_distinct(alloc, names)?;
    if !distinct {
        return Ok(None);
    }
    let elsewhere = are_elsewhere(alloc, order, names)?;
    if !elsewhere {
        return Ok(None);
    }
    let put = put_copies(rt, alloc, shelves, order.worker, script, known, names, kept)?;
    Ok(put)
}

/// The end of a task that makes outputs, with what was copied, if these are as many objects as it has outputs.
pub(crate) fn made<N: Namer, R: Wait>(
    rt: &R,
    alloc: Global,
    namer: &N,
    shelves: &Shelves<Block>,
    script: &Allowed,
    known: &KnownAfter<Place<Block>>,
    order: &Order,
    copied: &[Name],
    objects: &[Object],
    kept: &mut BTreeMap<Name, Object>,
) -> Result<Option<(Vec<Held>, End)>, Memory>
    requires worker { order.now.worker < length shelves.now.rows }
    ensures made { IfOk result (λ o. IfSome o (λ t. IsMadeOf order.now shelves.now script.now known.now kept.old (N.digest namer.now)
        objects.now copied.now t.0.items t.1)) }
    ensures kept { IfOk result (λ o. IfSome o (λ _. KeepsEach (outputs_of (N.digest namer.now) order.now.desc) objects.now kept.old kept.new)) }
    ensures refused { IfOk result (λ o. IfNone o (OutputsPass order.now script.now known.now kept.old (N.digest namer.now) copied.now objects.now → ⊥)) }
{
    let TaskId::Of(_) = &order.task else {
        return Ok(None);
    };
    let names = output_names(alloc, namer, &order.desc)?;
    let listed = names.as_slice();
    if listed.len() != objects.len() {
        return Ok(None);
    }
    let copies = copies(rt, alloc, shelves, script, known, order, copied, kept)?;
    let Some(copied) = copies else {
        return Ok(None);
    };
    let put = put_outputs(
        rt,
        alloc,
        shelves,
        order.worker,
        script,
        known,
        listed,
        objects,
        kept,
    )?;
    let Some(outputs) = put else {
        return Ok(None);
    };
    Ok(Some((copied, End::Made(outputs))))
}

/// The end of the root task, with what was copied.
pub(crate) fn shown<R: Wait>(
    rt: &R,
    alloc: Global,
    shelves: &Shelves<Block>,
    script: &Allowed,
    known: &KnownAfter<Place<Block>>,
    order: &Order,
    copied: &[Name],
    shown: Shown,
    kept: &BTreeMap<Name, Object>,
) -> Result<Option<(Vec<Held>, End)>, Memory>
    requires worker { order.now.worker < length shelves.now.rows }
    ensures shown { IfOk result (λ o. IfSome o (λ t. IsShownOf order.now shelves.now script.now known.now kept.now shown copied.now t.0.items t.1)) }
    ensures refused { IfOk result (λ o. IfNone o (ShownPasses order.now script.now known.now kept.now copied.now → ⊥)) }
{
    let TaskId::Show = &order.task else {
        return Ok(None);
    };
    let copies = copies(rt, alloc, shelves, script, known, order, copied, kept)?;
    let Some(copied) = copies else {
        return Ok(None);
    };
    Ok(Some((copied, End::Shown(shown))))
}

/// The end of a task that waits, at a later wait than the order's; nothing was copied.
pub(crate) fn saved<R: Wait>(
    rt: &R,
    alloc: Global,
    shelves: &Shelves<Block>,
    fitting: &Fitting,
    known: &KnownAfter<Place<Block>>,
    order: &Order,
    copied: &[Name],
    j: u32,
    bytes: &[u8],
) -> Result<Option<(Vec<Held>, End)>, Memory>
    requires worker { order.now.worker < length shelves.now.rows }
    ensures saved { IfOk result (λ o. IfSome o (λ t. IsSavedOf order.now shelves.now fitting.now known.now j bytes.now copied.now t.0.items t.1)) }
    ensures refused { IfOk result (λ o. IfNone o (StackPasses order.now fitting.now known.now copied.now j bytes.now → ⊥)) }
{
    if !has_none(copied) {
        return Ok(None);
    }
    if j <= order.from {
        return Ok(None);
    }
    if !can_wait(&order.task, &order.desc) {
        return Ok(None);
    }
    let read = read_stack(alloc, fitting, &order.task, j, bytes)?;
    let Some(stack) = read else {
        return Ok(None);
    };
    let refs = stack.refs;
    let waited = refs.as_slice();
    if !known.has_all(waited) {
        return Ok(None);
    }
    let holds = stack.holds;
    let held = holds.as_slice();
    if !known.has_all(held) {
        return Ok(None);
    }
    let mark = mark(stack.frozen.bytes());
    match shelves.put(rt, order.worker, Block::Frozen(stack.frozen)) {
        Ok(frozen) => Ok(Some((
            Vec::new(alloc),
            End::Saved {
                frozen,
                j,
                refs,
                holds,
                mark,
            },
        ))),
        Err(_) => Err(Memory),
    }
}

/// The end of a task for which something was missing: what the order gives at the worker of a loss that the plan has and that was carried
/// out. Nothing was spawned or copied.
pub(crate) fn missing<K: Drop, N: Namer + Drop>(
    alloc: Global,
    master: &Master<K, N>,
    order: &Order,
    spawned: usize,
    copied: &[Name],
    name: &Name,
    number: u32,
) -> Result<Option<(Vec<Held>, End)>, Memory>
    requires going { master.now.board.stopped ≡ false }
    ensures missed { IfOk result (λ o. IfSome o (λ t. IsMissedOf order.now (N.digest master.now.namer) master.now.board spawned name.now number
        copied.now t.0.items t.1)) }
    ensures refused { IfOk result (λ o. IfNone o (MissedPasses order.now (N.digest master.now.namer) master.now.board spawned copied.now name.now number → ⊥)) }
{
    if spawned > 0 {
        return Ok(None);
    }
    if !has_none(copied) {
        return Ok(None);
    }
    let Some(planned) = master.plan().losses.as_slice().get(number as usize) else {
        return Ok(None);
    };
    let worker = planned.1;
    if !master.is_lost(worker) {
        return Ok(None);
    }
    let given = is_given_at(alloc, order, name, worker)?;
    if !given {
        return Ok(None);
    }
    let loss = Loss { number, worker };
    Ok(Some((
        Vec::new(alloc),
        End::Missing {
            name: *name,
            loss,
            seen: None,
        },
    )))
}

/// Whether these are none.
fn has_none(names: &[Name]) -> bool
    ensures none { result ≡ true → names.now ≡ [] }
    ensures some { result ≡ false → names.now ≡ [] → ⊥ }
{
    names.is_empty()
}
