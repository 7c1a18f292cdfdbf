//! A report of a log's record, handed to the master.

ghost use Rattle.std.specs.Prelude.{◌≡◌, ◌<◌, ℕ, IfErr, IfNone, IfOk, IfSome, None, OnErr, OnOk, Some, false, length, true};
ghost use Rattle.sky_base.specs.JobView.{job_view};
ghost use Rattle.ciel_log_read.specs.Recorded.{IsRecord};
ghost use Rattle.ciel_log_read.specs.View.{report_view};
ghost use Rattle.ciel_log_replay.specs.Between.{Between};
ghost use Rattle.ciel_log_report.specs.Accepts.{Closes, IsCame, StopsSo};
ghost use Rattle.ciel_log_report.specs.Comes.{EndsWith, GoesOn, IsLess, ReportTaken};
ghost use Rattle.ciel_log_report.specs.Tests.{ReportRefused};
ghost use Rattle.ciel_log_report.specs.declared.take.Came.{Came as CameSeen};
ghost use Rattle.ciel_master.specs.Fitting.{FitsOneOut, IsMissedOf};
ghost use Rattle.ciel_master.specs.Taking.{LearnedFor, now_of};
ghost use Rattle.ciel_master.specs.declared.stop.Now.{Now as NowSeen};
ghost use Rattle.ciel_master.specs.declared.stop.RunEnd.{RunEnd as RunEndSeen};
ghost use Rattle.ciel_master_board.specs.Board as b;
ghost use Rattle.ciel_master_board.specs.Board.{OrderOut, find_order};
ghost use Rattle.ciel_master_board.specs.Moves.{accepted};
ghost use Rattle.ciel_master_board.specs.Sound.{MissFits};
ghost use Rattle.ciel_master_law.specs.Ends.{worker_of};
ghost use Rattle.ciel_task_order.specs.Views.{P, report_end};
ghost use Rattle.ciel_task_order.specs.declared.report.Report.{Report as ReportSeen};
ghost use Rattle.ciel_task_crew.specs.Crews.{order_at};
ghost use Rattle.ciel_task_order.specs.declared.order.Order.{Order as OrderSeen};

use crate::report::report_of;
use ciel_log_fits::allowed::Allowed;
use ciel_log_read::record::LoggedReport;
use ciel_log_replay::rests::rests;
use ciel_master::master::Master;
use ciel_master::stop::{Now, RunEnd, Stop};
use ciel_master_safe::{rows_stay, tasks_stay, turns_come_to_an_end};
use ciel_name::name::Namer;
use ciel_task_order::order::Order;
use ciel_task_order::report::Report;
use ciel_task_order::shop::Shop;
use sky_base::kit::Kit;
use sky_base::name::Name;
use sky_base::object::Object;
use sky_base::text::Memory;
use sky_frozen::fitting::Fitting;
use std::alloc::Global;
use std::collections::BTreeMap;
use std::sync::Wait;

/// What comes of a report's record.
#[derive(Drop)]
pub enum Came {
    /// The order isn't out: nothing comes of it.
    Passed,
    /// The report was taken, and its order isn't out any more.
    Taken,
    /// The run ended with it.
    Ends(RunEnd),
    /// No run reports so: a Start comes next, or the report doesn't fit its order.
    Refused,
}

/// Takes the report that a record tells. One whose order isn't out is passed over.
///
/// Answers `Memory` for want of memory.
pub fn take_report<K: Kit + Drop, N: Namer + Drop, R: Wait>(
    rt: &R,
    alloc: Global,
    master: &mut Master<K, N>,
    shop: &Shop<K, N>,
    script: &Allowed,
    fitting: &Fitting,
    out: &mut [Option<Order>],
    state: u64,
    logged: &LoggedReport,
    kept: &mut BTreeMap<Name, Object>,
) -> Result<Came, Memory>
    requires between { Between K.gives N.digest shop.now master.old out.old state }
    requires script { script.now ≡ (job_view shop.now.job).script }
    requires fitting { fitting.now ≡ (job_view shop.now.job).script }
    requires data { IsRecord (report_view logged.now) }
    ensures between { IfOk result (λ c. GoesOn c → Between K.gives N.digest shop.now master.new out.new state) }
    ensures passed { IfOk result (λ c. c ≡ CameSeen.Passed → find_order logged.now.number master.old.board.orders ≡ None) }
    ensures same { IfOk result (λ c. c ≡ CameSeen.Passed → (master.new ≡ master.old) × (out.new ≡ out.old) × (kept.new ≡ kept.old)) }
    ensures taken { IfOk result (λ c. c ≡ CameSeen.Taken → (r : ReportSeen) × ReportTaken (N.digest shop.now.namer) shop.now.shelves script.now
        master.old.board out.old kept.old logged.now master.new.board out.new kept.new r × (now_of r.end ≡ NowSeen.Goes)) }
    ensures ends { IfOk result (λ c. (e : RunEndSeen) → c ≡ CameSeen.Ends e → EndsWith (N.digest shop.now.namer) shop.now.shelves script.now
        master.old.board out.old kept.old logged.now e master.new.board out.new kept.new) }
    ensures refused { IfOk result (λ c. c ≡ CameSeen.Refused → ReportRefused (N.digest shop.now.namer) script.now master.old.board out.old kept.old
        logged.now) }
    ensures less { OnOk result (IsLess out.old out.new) }
    ensures plan { OnOk result (master.new.board.plan ≡ master.old.board.plan) }
{
    rows_stay();
    tasks_stay();
    turns_come_to_an_end();
    let Some(order) = order_of(out, logged.number) else {
        return Ok(Came::Passed);
    };
    let may = rests(master, shop, out, state)?;
    if !may {
        return Ok(Came::Refused);
    }
    let told = report_of(
        rt, alloc, master, shop, script, fitting, order, logged, kept,
    )?;
    let Some(report) = told else {
        return Ok(Came::Refused);
    };
    let worker = order.worker as usize;
    let came = accept(master, report)?;
    if !is_closed(&came) {
        return Ok(came);
    }
    out[worker] = None;
    Ok(came)
}

/// The order of this number in the list.
fn order_of(out: &[Option<Order>], number: u64) -> Option<&Order>
    ensures there { IfSome result (λ x. (w : ℕ) × (order_at out.now w ≡ Some x.now)) }
    ensures number { IfSome result (λ x. x.now.number ≡ number) }
    ensures none { IfNone result ((w : ℕ) (y : OrderSeen) → order_at out.now w ≡ Some y → y.number ≡ number → ⊥) }
{
    for slot in out {
        if let Some(order) = slot {
            if order.number == number {
                return Some(order);
            }
        }
    }
    None
}

/// Hands a report that fits to the master.
fn accept<K: Drop, N: Namer + Drop>(
    master: &mut Master<K, N>,
    report: Report,
) -> Result<Came, Memory>
    requires going { master.old.board.stopped ≡ false }
    requires fits { FitsOneOut (N.digest master.old.namer) master.old.shelves master.old.script master.old.board report }
    ensures came { IfOk result (IsCame report.end) }
    ensures accepted { IfOk result (λ c. Closes c → (x : OrderOut) × (find_order report.number master.old.board.orders ≡ Some x)
        × (master.new ≡ record master.old { board = accepted (N.digest master.old.namer) worker_of master.old.board x report.spawned.items (report_end report) })) }
    ensures learned { IfOk result (λ c. Closes c → LearnedFor (N.digest master.old.namer) report.end report.spawned.items master.old.board.table) }
    ensures missing { (x : b.Order P) → IsMissedOf (N.digest master.old.namer) master.old.board x report.end
        → MissFits (N.digest master.old.namer) worker_of master.old.board x (report_end report) }
    ensures stops { IfOk result (λ c. StopsSo (N.digest master.old.namer) report.spawned.items master.old.board.table c) }
    ensures journal { IfOk result (λ c. (Closes c → ⊥) → master.new.board.journal ≡ master.old.board.journal) }
    ensures plan { OnOk result (master.new.board.plan ≡ master.old.board.plan) }
{
    match master.accept(report) {
        Ok(Now::Goes) => Ok(Came::Taken),
        Ok(Now::Answer(text)) => Ok(Came::Ends(RunEnd::Answer(text))),
        Ok(Now::Fault(fault)) => Ok(Came::Ends(RunEnd::Fault(fault))),
        Err(Stop::NameClash { kept, given }) => Ok(Came::Ends(RunEnd::NameClash { kept, given })),
        Err(Stop::TooMany { held, given }) => Ok(Came::Ends(RunEnd::TooMany { held, given })),
        Err(Stop::Memory) => Err(Memory),
    }
}

/// Whether the report was taken, so that its order isn't out any more.
fn is_closed(came: &Came) -> bool
    ensures yes { result ≡ true → Closes came.now }
    ensures no { result ≡ false → Closes came.now → ⊥ }
{
    match came {
        Came::Taken => true,
        Came::Ends(end) => is_shown(end),
        Came::Passed | Came::Refused => false,
    }
}

/// Whether it is what the root task shows.
fn is_shown(end: &RunEnd) -> bool
    ensures yes { result ≡ true → Closes (CameSeen.Ends end.now) }
    ensures no { result ≡ false → Closes (CameSeen.Ends end.now) → ⊥ }
{
    match end {
        RunEnd::Answer(_) | RunEnd::Fault(_) => true,
        _ => false,
    }
}
