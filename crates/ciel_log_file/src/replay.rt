//! The replay of a log.

ghost use Rattle.std.specs.Prelude.{◌≡◌, ◌≢◌, ◌<◌, ℕ, List, [], Err, IfErr, IfNone, IfOk, None, OnErr, OnOk, length, true};
ghost use Rattle.sky_base.specs.JobView.{job_view};
ghost use Rattle.ciel_journal.specs.Job.{Each};
ghost use Rattle.ciel_log_file.specs.Refused.{IsRefused, RefusedAfter};
ghost use Rattle.ciel_log_file.specs.Replays.{HasReplayed, ReplaysTo};
ghost use Rattle.ciel_log_file.specs.Sending.{AllTake, CanSend, NumbersRise, Placed, nobody, sent_to};
ghost use Rattle.ciel_log_file.specs.Whole.{BeginsAt, BeginsOther, IsWhole, RecordsTo};
ghost use Rattle.ciel_log_file.specs.declared.refusal.LogRefusal.{LogRefusal as Refusal};
ghost use Rattle.ciel_log_read.specs.File.{NoRecordAt, RecordAt};
ghost use Rattle.ciel_log_replay.specs.Between.{Between};
ghost use Rattle.ciel_run_drive.specs.Working.{Working};
ghost use Rattle.ciel_task_crew.specs.Crews.{Takes};

use crate::listed::{in_order, no_orders};
use crate::record::take_record;
use crate::refusal::{LogRefusal, Replayed};
use ciel_log_fits::allowed::Allowed;
use ciel_log_read::file::next_record;
use ciel_log_report::take::Came;
use ciel_master::master::Master;
use ciel_master::stop::RunEnd;
use ciel_name::name::Namer;
use ciel_task_order::order::Order;
use ciel_task_order::shop::Shop;
use sky_base::kit::Kit;
use sky_base::name::Name;
use sky_base::object::Object;
use sky_frozen::fitting::Fitting;
use std::alloc::Global;
use std::collections::BTreeMap;
use std::sync::Wait;

/// Makes the calls of a master that the records of a log tell, and puts the blocks that were logged on the shelves again. The master has
/// started nothing, and is of this shop. `header` is the record with which the log of this run begins.
///
/// A last record that is cut is left out; where the header itself is cut, nothing is replayed.
///
/// Answers `OtherJob` exactly where the first record is whole and isn't `header`, `BadLog` at a record that no run writes there, and
/// `Memory` for want of memory.
pub fn replay<K: Kit + Drop, N: Namer + Drop, R: Wait>(
    rt: &R,
    alloc: Global,
    master: &mut Master<K, N>,
    shop: &Shop<K, N>,
    log: &[u8],
    header: &[u8],
) -> Result<Replayed, LogRefusal>
    requires working { Working K.gives N.digest shop.now true master.old (nobody master.old.board.plan.workers) }
    requires first { master.old.board.starts ≡ 0 }
    ensures other { IfErr result (λ e. e ≡ Refusal.OtherJob → BeginsOther log.now header.now) }
    ensures of_other { BeginsOther log.now header.now → result ≡ Err Refusal.OtherJob }
    ensures bad { IfErr result (λ e. (at : ℕ) → e ≡ Refusal.BadLog at → BeginsAt log.now header.now at) }
    ensures refused { IfErr result (λ e. (at : ℕ) → e ≡ Refusal.BadLog at → IsRefused (N.digest shop.now.namer) (job_view shop.now.job).script
        shop.now.shelves log.now header.now at master.old.board (nobody master.old.board.plan.workers)) }
    ensures whole { IfOk result (λ r. IsWhole log.now header.now r.whole) }
    ensures cut { IfOk result (λ r. r.whole ≡ 0 → master.new ≡ master.old) }
    ensures none { IfOk result (λ r. r.whole ≡ 0 → (r.out.items ≡ []) × (r.end ≡ None)) }
    ensures goes_on { IfOk result (λ r. IfNone r.end
        (Between K.gives N.digest shop.now master.new (sent_to (nobody master.old.board.plan.workers) r.out.items) r.draws)) }
    ensures takes { IfOk result (λ r. Each (Takes K.gives N.digest shop.now) r.out.items) }
    ensures free { IfOk result (λ r. CanSend (nobody master.old.board.plan.workers) r.out.items) }
    ensures rising { IfOk result (λ r. NumbersRise r.out.items) }
    ensures plan { OnOk result (master.new.board.plan ≡ master.old.board.plan) }
    ensures replays { IfOk result (λ r. 0 < r.whole → HasReplayed (N.digest shop.now.namer) shop.now.shelves (job_view shop.now.job).script
        log.now header.now r.whole r.end master.old.board (nobody master.old.board.plan.workers) master.new.board
        (sent_to (nobody master.old.board.plan.workers) r.out.items)) }
{
    let Some((first, behind)) = next_record(log, 0) else {
        return Ok(Replayed {
            whole: 0,
            out: Vec::new(alloc),
            end: None,
            draws: master.plan().seed,
        });
    };
    if first == header {
        match replay_behind(rt, alloc, master, shop, log, behind) {
            Ok(replayed) => Ok(replayed),
            Err(refusal) => Err(refusal),
        }
    } else {
        Err(LogRefusal::OtherJob)
    }
}

/// Replays what stands behind the header.
fn replay_behind<K: Kit + Drop, N: Namer + Drop, R: Wait>(
    rt: &R,
    alloc: Global,
    master: &mut Master<K, N>,
    shop: &Shop<K, N>,
    log: &[u8],
    behind: usize,
) -> Result<Replayed, LogRefusal>
    requires working { Working K.gives N.digest shop.now true master.old (nobody master.old.board.plan.workers) }
    requires first { master.old.board.starts ≡ 0 }
    ensures bad { IfErr result (λ e. (at : ℕ) → e ≡ Refusal.BadLog at → (header : List ℕ) → RecordAt log.now 0 header behind
        → IsRefused (N.digest shop.now.namer) (job_view shop.now.job).script shop.now.shelves log.now header at master.old.board
        (nobody master.old.board.plan.workers)) }
    ensures same { IfErr result (λ e. e ≢ Refusal.OtherJob) }
    ensures end { IfOk result (λ r. NoRecordAt log.now r.whole) }
    ensures goes_on { IfOk result (λ r. IfNone r.end
        (Between K.gives N.digest shop.now master.new (sent_to (nobody master.old.board.plan.workers) r.out.items) r.draws)) }
    ensures takes { IfOk result (λ r. Each (Takes K.gives N.digest shop.now) r.out.items) }
    ensures free { IfOk result (λ r. CanSend (nobody master.old.board.plan.workers) r.out.items) }
    ensures rising { IfOk result (λ r. NumbersRise r.out.items) }
    ensures plan { OnOk result (master.new.board.plan ≡ master.old.board.plan) }
    ensures replays { IfOk result (λ r. (header : List ℕ) → RecordAt log.now 0 header behind → HasReplayed (N.digest shop.now.namer)
        shop.now.shelves (job_view shop.now.job).script log.now header r.whole r.end master.old.board (nobody master.old.board.plan.workers)
        master.new.board (sent_to (nobody master.old.board.plan.workers) r.out.items)) }
{
    let numbered = shop.job.numbered();
    let script = Allowed::new(alloc, numbered.code.program())?;
    let fitting = Fitting::new(alloc, &numbered)?;
    let mut out = no_orders(alloc, master.plan().workers)?;
    let list = out.as_mut_slice();
    match replay_from(
        rt, alloc, master, shop, &script, &fitting, list, log, behind,
    ) {
        Ok(replayed) => Ok(replayed),
        Err(refusal) => Err(refusal),
    }
}

/// So, with a list in which no worker has an order.
fn replay_from<K: Kit + Drop, N: Namer + Drop, R: Wait>(
    rt: &R,
    alloc: Global,
    master: &mut Master<K, N>,
    shop: &Shop<K, N>,
    script: &Allowed,
    fitting: &Fitting,
    out: &mut [Option<Order>],
    log: &[u8],
    behind: usize,
) -> Result<Replayed, LogRefusal>
    requires working { Working K.gives N.digest shop.now true master.old (nobody master.old.board.plan.workers) }
    requires first { master.old.board.starts ≡ 0 }
    requires script { script.now ≡ (job_view shop.now.job).script }
    requires fitting { fitting.now ≡ (job_view shop.now.job).script }
    requires nobody { out.old ≡ nobody master.old.board.plan.workers }
    ensures bad { IfErr result (λ e. (at : ℕ) → e ≡ Refusal.BadLog at → (header : List ℕ) → RecordAt log.now 0 header behind
        → IsRefused (N.digest shop.now.namer) (job_view shop.now.job).script shop.now.shelves log.now header at master.old.board
        (nobody master.old.board.plan.workers)) }
    ensures same { IfErr result (λ e. e ≢ Refusal.OtherJob) }
    ensures end { IfOk result (λ r. NoRecordAt log.now r.whole) }
    ensures goes_on { IfOk result (λ r. IfNone r.end
        (Between K.gives N.digest shop.now master.new (sent_to (nobody master.old.board.plan.workers) r.out.items) r.draws)) }
    ensures takes { IfOk result (λ r. Each (Takes K.gives N.digest shop.now) r.out.items) }
    ensures free { IfOk result (λ r. CanSend (nobody master.old.board.plan.workers) r.out.items) }
    ensures rising { IfOk result (λ r. NumbersRise r.out.items) }
    ensures plan { OnOk result (master.new.board.plan ≡ master.old.board.plan) }
    ensures replays { IfOk result (λ r. (header : List ℕ) → RecordAt log.now 0 header behind → HasReplayed (N.digest shop.now.namer)
        shop.now.shelves (job_view shop.now.job).script log.now header r.whole r.end master.old.board (nobody master.old.board.plan.workers)
        master.new.board (sent_to (nobody master.old.board.plan.workers) r.out.items)) }
{
    let mut draws = master.plan().seed;
    let mut kept = BTreeMap::new(alloc);
    let told = match replay_records(
        rt, alloc, master, shop, script, fitting, out, &mut draws, &mut kept, log, behind,
    ) {
        Ok(told) => told,
        Err(refusal) => return Err(refusal),
    };
    let orders = in_order(alloc, out)?;
    Ok(Replayed {
        whole: told.0 as u64,
        out: orders,
        end: told.1,
        draws,
    })
}

/// Takes the whole records from this place on. It tells where they end, and how the run ended, if it did.
fn replay_records<K: Kit + Drop, N: Namer + Drop, R: Wait>(
    rt: &R,
    alloc: Global,
    master: &mut Master<K, N>,
    shop: &Shop<K, N>,
    script: &Allowed,
    fitting: &Fitting,
    out: &mut [Option<Order>],
    draws: &mut u64,
    kept: &mut BTreeMap<Name, Object>,
    log: &[u8],
    behind: usize,
) -> Result<(usize, Option<RunEnd>), LogRefusal>
    requires between { Between K.gives N.digest shop.now master.old out.old draws.old }
    requires takes { AllTake K.gives N.digest shop.now out.old }
    requires script { script.now ≡ (job_view shop.now.job).script }
    requires fitting { fitting.now ≡ (job_view shop.now.job).script }
    ensures between { IfOk result (λ r. IfNone r.1 (Between K.gives N.digest shop.now master.new out.new draws.new)) }
    ensures placed { IfOk result (λ r. Placed out.new) }
    ensures takes { IfOk result (λ r. AllTake K.gives N.digest shop.now out.new) }
    ensures many { OnOk result (length out.new ≡ length out.old) }
    ensures plan { OnOk result (master.new.board.plan ≡ master.old.board.plan) }
    ensures replays { IfOk result (λ r. (records : List (List ℕ)) × RecordsTo log.now behind records r.0
        × ReplaysTo (N.digest shop.now.namer) shop.now.shelves script.now (record { board = master.old.board; out = out.old; kept = kept.old })
        records r.1 (record { board = master.new.board; out = out.new; kept = kept.new })) }
    ensures none { IfOk result (λ r. NoRecordAt log.now r.0) }
    ensures bad { IfErr result (λ e. (at : ℕ) → e ≡ Refusal.BadLog at
        → (records : List (List ℕ)) × RecordsTo log.now behind records at × (bytes : List ℕ) × (next : ℕ) × RecordAt log.now at bytes next
        × RefusedAfter (N.digest shop.now.namer) script.now shop.now.shelves (record { board = master.old.board; out = out.old; kept = kept.old })
        records bytes) }
    ensures same { IfErr result (λ e. e ≢ Refusal.OtherJob) }
{
    let mut at = behind;
    'records: loop {
        let Some((bytes, next)) = next_record(log, at) else {
            return Ok((at, None));
        };
        let came = take_record(
            rt, alloc, master, shop, script, fitting, out, draws, kept, bytes,
        )?;
        match came {
            Came::Passed | Came::Taken => at = next,
            Came::Ends(end) => {
                let whole = match ended(log, next) {
                    Ok(whole) => whole,
                    Err(refusal) => return Err(refusal),
                };
                return Ok((whole, Some(end)));
            }
            Came::Refused => return Err(LogRefusal::BadLog { at: at as u64 }),
        }
    }
}

/// Where the records end, of which the last one before this place was the end of the run: none stands behind it.
fn ended(log: &[u8], at: usize) -> Result<usize, LogRefusal>
    ensures at { IfOk result (λ n. n ≡ at) }
    ensures none { OnOk result (NoRecordAt log.now at) }
    ensures bad { IfErr result (λ e. e ≡ Refusal.BadLog at) }
    ensures some { OnErr result ((bytes : List ℕ) × (next : ℕ) × RecordAt log.now at bytes next) }
{
    match next_record(log, at) {
        None => Ok(at),
        Some(_) => Err(LogRefusal::BadLog { at: at as u64 }),
    }
}
