//! The report that a record tells of an order.

ghost use Rattle.std.specs.Prelude.{◌≡◌, ◌<◌, ℕ, IfNone, IfOk, IfSome, IsFalse, IsTrue, List, false, length, map};
ghost use Rattle.sky_base.specs.declared.object.Named as rust;
ghost use Rattle.sky_base_law.specs.Sound.{SoundDesc};
ghost use Rattle.ciel_journal.specs.Job.{Each};
ghost use Rattle.ciel_name.specs.Laws.{SpelledDesc};
ghost use Rattle.ciel_want.specs.Waited.{AllKnown};
ghost use Rattle.ciel_master_board.specs.Board.{Board, start_refs};
ghost use Rattle.ciel_master_board.specs.Reports.{IsNamed, learned_all, named_view};
ghost use Rattle.ciel_master_safe.specs.Reports.{StandsWhole};
ghost use Rattle.ciel_master_safe.specs.Safe.{Serves};
ghost use Rattle.ciel_log_fits.specs.Read.{SpawnedPass};
ghost use Rattle.ciel_log_read.specs.Recorded.{IsRecord};
ghost use Rattle.ciel_log_read.specs.View.{report_view};
ghost use Rattle.ciel_log_report.specs.Comes.{KeepsOutputs};
ghost use Rattle.ciel_log_report.specs.Ends.{IsEndOf, IsReportOf};
ghost use Rattle.ciel_log_report.specs.Tests.{AllPass, EndPasses, HasCome, ReportPasses};
ghost use Rattle.ciel_task_order.specs.Performs.{IsMissing};
ghost use Rattle.ciel_task_order.specs.Views.{P};

use crate::ends::{made, missing, saved, shown};
use ciel_log_fits::allowed::Allowed;
use ciel_log_fits::descs::all_allowed;
use ciel_log_fits::known::KnownAfter;
use ciel_log_fits::names::name_all;
use ciel_log_fits::whole::stands_whole;
use ciel_log_read::record::{LoggedEnd, LoggedReport};
use ciel_master::master::Master;
use ciel_name::name::Namer;
use ciel_store::shelves::{Place, Shelves};
use ciel_task_order::block::{Block, Held};
use ciel_task_order::order::Order;
use ciel_task_order::report::{End, Report};
use ciel_task_order::shop::Shop;
use sky_base::name::Name;
use sky_base::object::{Named, Object};
use sky_base::text::Memory;
use sky_frozen::fitting::Fitting;
use sky_state::shown::Shown;
use std::alloc::Global;
use std::collections::BTreeMap;
use std::sync::Wait;

/// The report that a record tells of this order, with its blocks put on the shelf of the order's worker; none where it doesn't fit the
/// order. The objects of its outputs are kept by their names.
///
/// Answers `Memory` for want of memory. Some blocks may lie on the shelf where nothing names them, then and where there is no report.
pub fn report_of<K: Drop, N: Namer + Drop, R: Wait>(
    rt: &R,
    alloc: Global,
    master: &Master<K, N>,
    shop: &Shop<K, N>,
    script: &Allowed,
    fitting: &Fitting,
    order: &Order,
    logged: &LoggedReport,
    kept: &mut BTreeMap<Name, Object>,
) -> Result<Option<Report>, Memory>
    requires worker { order.now.worker < length shop.now.shelves.rows }
    requires going { master.now.board.stopped ≡ false }
    requires namer { master.now.namer ≡ shop.now.namer }
    requires script { fitting.now ≡ script.now }
    requires data { IsRecord (report_view logged.now) }
    ensures report { IfOk result (λ o. IfSome o (IsReportOf (N.digest shop.now.namer) shop.now.shelves script.now master.now.board kept.old order.now
        logged.now)) }
    ensures kept { IfOk result (λ o. IfSome o (λ _. KeepsOutputs (N.digest shop.now.namer) order.now logged.now.end kept.old kept.new)) }
    ensures refused { IfOk result (λ o. IfNone o (ReportPasses (N.digest shop.now.namer) script.now master.now.board kept.old order.now logged.now → ⊥)) }
{
    let spawned = name_all(alloc, &shop.namer, logged.spawned.as_slice())?;
    let named = spawned.as_slice();
    let told = end_of(
        rt, alloc, master, shop, script, fitting, order, named, logged, kept,
    )?;
    let Some((copied, end)) = told else {
        return Ok(None);
    };
    Ok(Some(Report {
        number: order.number,
        worker: order.worker,
        task: order.task,
        spawned,
        copied,
        end,
    }))
}

/// What was copied, and the end, if what is told fits the order.
fn end_of<K: Drop, N: Namer + Drop, R: Wait>(
    rt: &R,
    alloc: Global,
    master: &Master<K, N>,
    shop: &Shop<K, N>,
    script: &Allowed,
    fitting: &Fitting,
    order: &Order,
    spawned: &[Named],
    logged: &LoggedReport,
    kept: &mut BTreeMap<Name, Object>,
) -> Result<Option<(Vec<Held>, End)>, Memory>
    requires worker { order.now.worker < length shop.now.shelves.rows }
    requires going { master.now.board.stopped ≡ false }
    requires namer { master.now.namer ≡ shop.now.namer }
    requires script { fitting.now ≡ script.now }
    requires named { Each (IsNamed (N.digest shop.now.namer)) spawned.now }
    ensures sound { IfOk result (λ o. IfSome o (λ t. (IsMissing t.1 → ⊥) → Each (λ (n : rust.Named). SoundDesc script.now (named_view n)) spawned.now)) }
    ensures passed { IfOk result (λ o. IfSome o (λ t. (IsMissing t.1 → ⊥)
        → SpawnedPass (N.digest shop.now.namer) script.now master.now.board.table spawned.now)) }
    ensures end { IfOk result (λ o. IfSome o (λ t. IsEndOf order.now shop.now.shelves script.now
        (record { table = master.now.board.table; spawned = spawned.now }) kept.old (N.digest shop.now.namer) master.now.board logged.now.end
        logged.now.copied.items t.0.items t.1)) }
    ensures kept { IfOk result (λ o. IfSome o (λ _. KeepsOutputs (N.digest shop.now.namer) order.now logged.now.end kept.old kept.new)) }
    ensures refused { IfOk result (λ o. IfNone o (AllPass (N.digest shop.now.namer) script.now master.now.board kept.old order.now spawned.now
        logged.now.copied.items logged.now.end → ⊥)) }
{
    let copied = logged.copied.as_slice();
    if let LoggedEnd::Missing { name, loss } = &logged.end {
        let lost = missing(alloc, master, order, spawned.len(), copied, name, *loss)?;
        return Ok(lost);
    }
    let known = KnownAfter::new(alloc, master.table(), spawned)?;
    let allowed = is_allowed(alloc, script, &known, spawned)?;
    if !allowed {
        return Ok(None);
    }
    let told = end_with(
        rt,
        alloc,
        &shop.namer,
        &shop.shelves,
        script,
        fitting,
        &known,
        order,
        copied,
        &logged.end,
        kept,
    )?;
    Ok(told)
}

/// So, where nothing was missing, and what was spawned is allowed.
fn end_with<N: Namer, R: Wait>(
    rt: &R,
    alloc: Global,
    namer: &N,
    shelves: &Shelves<Block>,
    script: &Allowed,
    fitting: &Fitting,
    known: &KnownAfter<Place<Block>>,
    order: &Order,
    copied: &[Name],
    end: &LoggedEnd,
    kept: &mut BTreeMap<Name, Object>,
) -> Result<Option<(Vec<Held>, End)>, Memory>
    requires worker { order.now.worker < length shelves.now.rows }
    requires script { fitting.now ≡ script.now }
    ensures end { IfOk result (λ o. IfSome o (λ t. (b : Board P)
        → IsEndOf order.now shelves.now script.now known.now kept.old (N.digest namer.now) b end.now copied.now t.0.items t.1)) }
    ensures kept { IfOk result (λ o. IfSome o (λ _. KeepsOutputs (N.digest namer.now) order.now end.now kept.old kept.new)) }
    ensures refused { IfOk result (λ o. IfNone o (HasCome end.now → (b : Board P)
        → EndPasses order.now script.now known.now kept.old (N.digest namer.now) b copied.now end.now → ⊥)) }
{
    match end {
        LoggedEnd::Made(objects) => {
            let listed = objects.as_slice();
            let ended = made(
                rt, alloc, namer, shelves, script, known, order, copied, listed, kept,
            )?;
            Ok(ended)
        }
        LoggedEnd::Saved { j, stack } => {
            let bytes = stack.as_slice();
            let waits = saved(rt, alloc, shelves, fitting, known, order, copied, *j, bytes)?;
            Ok(waits)
        }
        LoggedEnd::Answer(bytes) => {
            let text = bytes.share()?;
            let shows = shown(
                rt,
                alloc,
                shelves,
                script,
                known,
                order,
                copied,
                Shown::Text(text),
                kept,
            )?;
            Ok(shows)
        }
        LoggedEnd::Fault(fault) => {
            let fault = Shown::Fault(*fault);
            let fails = shown(
                rt, alloc, shelves, script, known, order, copied, fault, kept,
            )?;
            Ok(fails)
        }
        LoggedEnd::Missing { .. } => Ok(None),
    }
}

/// Whether the job allows what was spawned, each executor's output stands there with all of its task, and all that stands inside has rows
/// once it is learned.
fn is_allowed(
    alloc: Global,
    script: &Allowed,
    known: &KnownAfter<Place<Block>>,
    spawned: &[Named],
) -> Result<bool, Memory>
    requires spawned { known.now.spawned ≡ spawned.now }
    requires spelled { Each (λ (n : rust.Named). SpelledDesc (named_view n)) spawned.now }
    ensures sound { IfOk result (λ b. IsTrue b → Each (λ (n : rust.Named). SoundDesc script.now (named_view n)) spawned.now) }
    ensures serves { IfOk result (λ b. IsTrue b → Each (λ (n : rust.Named). Serves script.now script.now.keys n.desc) spawned.now) }
    ensures whole { IfOk result (λ b. IsTrue b → Each (λ (n : rust.Named). StandsWhole (map named_view spawned.now) (named_view n)) spawned.now) }
    ensures inside { IfOk result (λ b. IsTrue b → (digest : List ℕ → List ℕ)
        → Each (λ (n : rust.Named). AllKnown (learned_all digest spawned.now known.now.table) (start_refs n.desc)) spawned.now) }
    ensures refused { IfOk result (λ b. IsFalse b → (digest : List ℕ → List ℕ)
        → Each (λ (n : rust.Named). SoundDesc script.now (named_view n)) spawned.now
        → Each (λ (n : rust.Named). StandsWhole (map named_view spawned.now) (named_view n)) spawned.now
        → Each (λ (n : rust.Named). AllKnown (learned_all digest spawned.now known.now.table) (start_refs n.desc)) spawned.now → ⊥) }
{
    if !known.is_closed() {
        return Ok(false);
    }
    let allowed = all_allowed(script, spawned)?;
    if !allowed {
        return Ok(false);
    }
    let whole = stands_whole(alloc, spawned)?;
    Ok(whole)
}
