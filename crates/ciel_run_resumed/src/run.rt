//! The run of a job that goes on from a log: its records are replayed, the orders that were out are sent again, and the run is driven on.

ghost use Rattle.std.specs.Prelude.{◌≡◌, ◌≢◌, ◌≤◌, ◌⊎◌, ◌<◌, ◌^◌, ℕ, List, [], Err, IfErr, IfOk, OnOk, drop, length, map, true};
ghost use Rattle.sky_base.specs.JobView.{job_view};
ghost use Rattle.ciel_run_job.specs.Kinds.{IsFor};
ghost use Rattle.ciel_run_job.specs.Onward.{IsRead};
ghost use Rattle.ciel_journal.specs.Entries.{Entry};
ghost use Rattle.ciel_journal.specs.Job.{Each};
ghost use Rattle.ciel_log_records.specs.Records.{in_file};
ghost use Rattle.ciel_log_law.specs.Logging.{most};
ghost use Rattle.ciel_log_law.specs.Logs.{Logs};
ghost use Rattle.ciel_log_law.specs.Seen.{plan_view};
ghost use Rattle.ciel_log_law.specs.Views.{entry_view};
ghost use Rattle.ciel_log_law.specs.RunEnd.{RunEnd};
ghost use Rattle.ciel_log_law.specs.Ended.{EndsSo};
ghost use Rattle.ciel_log_law.specs.Kept.{Kept};
ghost use Rattle.ciel_log_law.specs.Working.{Working};
ghost use Rattle.ciel_log_follows.specs.Begins.{BeginsLog};
ghost use Rattle.ciel_log_file.specs.Sending.{CanSend, nobody, sent_to};
ghost use Rattle.ciel_log_file.specs.Whole.{BeginsOther};
ghost use Rattle.ciel_log_refuses.specs.Refusals.{IsBadAt};
ghost use Rattle.ciel_run_logged.specs.Keeping.{IfOver};
ghost use Rattle.ciel_task_crew.specs.Crews.{Takes};
ghost use Rattle.ciel_run_job.specs.Told.{told_of};
ghost use Rattle.ciel_run_onward.specs.Gates.{LeavesOpen, ToldSince};
ghost use Rattle.ciel_run_onward.specs.Onward.{Stood, WorksOn};
ghost use Rattle.ciel_run_resumed.specs.Keeping.{KeptBy};
ghost use Rattle.ciel_run_resumed.specs.Resuming.{BegunWith, FileTells, RefusesSo, Replays};
ghost use Rattle.ciel_task_order.specs.Shop.{InputsInOrder};

use crate::begin::{NotAgain, begin_again};
use ciel_gate::gate::Gate;
use ciel_io::keep::Keep;
use ciel_log_file::refusal::{LogRefusal, Replayed};
use ciel_log_file::replay::replay;
use ciel_log_follows::law::replays_follow;
use ciel_log_law::master::Master;
use ciel_log_law::plan::RunPlan;
use ciel_log_refuses::law::logs_are_replayed;
use ciel_master::stop::RunEnd;
use ciel_name::name::Namer;
use ciel_run_job::gates::set_aside;
use ciel_run_job::hands::Hands;
use ciel_run_job::opening::open;
use ciel_run_job::run::put_back;
use ciel_run_logged::run::{Begins, RanLogged};
use ciel_run_onward::run::{Onward, run_onward};
use ciel_task_order::shop::Shop;
use sky_base::job::Job;
use sky_base::kit::Kit;
use sky_base::text::{Memory, Txt};
use sky_parse_law::law::functions_are_orderly;
use std::alloc::Global;
use std::mem;
use std::snapshot::Snapshot;
use std::sync::Wait;
use std::thread::Threads;

/// The log that a run goes on from: its path, the record of the header of this run, and the bytes of the file.
#[derive(Drop)]
pub struct Resumes<'a> {
    pub path: Txt,
    pub header: &'a [u8],
    pub log: &'a [u8],
}

/// Why a run didn't go on from its log.
#[derive(Drop)]
pub enum NotResumed {
    /// The log is that of another job: its first record is whole and isn't this run's header.
    OtherJob,
    /// The record at this byte is none of a log of this job.
    BadLog { at: u64 },
    /// The keeper failed where the log was to be begun again.
    Failed,
    /// Want of memory.
    Memory,
}

/// Runs a job as `run_logged` does, from where the log of a run of it stands: the orders that are out there are sent again, and what comes
/// then is put behind the whole records of the log, which come in the place of its file before.
///
/// There are 1 to 64 workers, and at most 64 threads are shared. Answers `OtherJob` exactly where the log's first record is whole and isn't the
/// header, `BadLog` only where the records up to and with that one begin no log of a run of this job, `Failed` only where the keeper failed,
/// and `Memory` for want of memory; nothing has run then, and but for want of memory no gate was touched. The end is `Memory` for want of
/// memory. The workers' gates may then have entered tasks, and the others may be gone.
pub fn run_resumed<K, N, G, D, R>(
    rt: R,
    alloc: Global,
    job: Job,
    kit: K,
    namer: N,
    gates: &mut Vec<G>,
    plan: RunPlan,
    hands: Hands,
    keep: &mut D,
    resumes: Resumes<'_>,
) -> Result<RanLogged, NotResumed>
where
    K: Kit + Send + Sync + Drop + 'static,
    N: Namer + Send + Sync + Drop + 'static,
    G: Gate + Send + 'static,
    D: Keep,
    R: Threads + Wait + Copy + Send + Drop + 'static,
    requires read { IsRead (job_view job).script }
    requires inputs { InputsInOrder (job_view job) }
    requires keys { length job.script.keys < 2 ^ 32 }
    requires workers { (0 < plan.workers) × (plan.workers ≤ 64) }
    requires gates { plan.workers ≤ length gates.old.items }
    requires losses { Each (λ (loss : ℕ × ℕ). loss.1 < plan.workers) plan.losses }
    requires hands { IsFor (K.gives kit) hands }
    requires short { length (in_file resumes.header.now) ≤ most }
    requires log { length resumes.log.now ≤ most }

    // A log that isn't gone on from.
    ensures other { result ≡ Err NotResumed.OtherJob → BeginsOther resumes.entry.log.now resumes.entry.header.now }
    ensures of_other { BeginsOther resumes.entry.log.now resumes.entry.header.now → (result ≡ Err NotResumed.OtherJob) ⊎ (result ≡ Err NotResumed.Memory) }
    ensures bad { (at : ℕ) → result ≡ Err (NotResumed.BadLog at) → IsBadAt (N.digest namer) (job_view job) (K.gives kit) (plan_view plan)
        resumes.entry.header.now resumes.entry.log.now at }
    ensures kept { IfErr result (λ why. why ≢ NotResumed.Memory → gates.new ≡ gates.old) }
    ensures refused { IfErr result (λ why. RefusesSo resumes.entry.path
        (record { files = D.files keep.old; asked = D.asked keep.old; faults = D.faults keep.old })
        (record { files = D.files keep.new; asked = D.asked keep.new; faults = D.faults keep.new }) why) }

    // A run, where it is the log of this job.
    ensures end { BeginsLog (N.digest namer) (job_view job) (K.gives kit) (plan_view plan) resumes.entry.header.now resumes.entry.log.now
        → IfOk result (λ r. EndsSo (N.digest namer) (job_view job) (K.gives kit) (plan_view plan) (map entry_view r.ran.journal.items) r.ran.end) }
    ensures told { IfOk result (λ r. r.ran.end ≢ RunEnd.Memory → (replayed : List Entry)
        × (BeginsLog (N.digest namer) (job_view job) (K.gives kit) (plan_view plan) resumes.entry.header.now resumes.entry.log.now
        → Replays (N.digest namer) (job_view job) (K.gives kit) (plan_view plan) resumes.entry.header.now resumes.entry.log.now replayed)
        × ToldSince replayed (map entry_view r.ran.journal.items) (told_of G.entered plan.workers gates.old.items)
        (told_of G.entered plan.workers gates.new.items)) }
    ensures written { BeginsLog (N.digest namer) (job_view job) (K.gives kit) (plan_view plan) resumes.entry.header.now resumes.entry.log.now
        → IfOk result (λ r. IfOver r.ran.end (FileTells (N.digest namer) (job_view job) (K.gives kit) (plan_view plan) resumes.entry.header.now resumes.entry.path
        (D.files keep.new) (map entry_view r.ran.journal.items) r.state)) }

    // And whatever the log is.
    ensures others { IfOk result (λ r. r.ran.end ≢ RunEnd.Memory → drop plan.workers gates.new.items ≡ drop plan.workers gates.old.items) }
    ensures all { IfOk result (λ r. r.ran.end ≢ RunEnd.Memory → length gates.new.items ≡ length gates.old.items) }
    ensures keeps { IfOk result (λ r. r.ran.end ≢ RunEnd.Memory → KeptBy resumes.entry.path
        (record { files = D.files keep.old; asked = D.asked keep.old; faults = D.faults keep.old })
        (record { files = D.files keep.new; asked = D.asked keep.new; faults = D.faults keep.new }) r.state) }
{
    functions_are_orderly();
    let workers = plan.workers as usize;
    let planned = Snapshot::of(&plan);
    let Ok(mut opened) = open(alloc, job, kit, namer, plan) else {
        return Err(NotResumed::Memory);
    };
    let onward = go_back(&rt, alloc, &mut opened.master, &opened.shop, keep, resumes)?;
    let Ok(others) = set_aside(gates, workers) else {
        return Err(NotResumed::Memory);
    };
    let own = mem::replace(gates, Vec::new(alloc));
    let (logged, back) = run_onward(rt, alloc, hands, opened, own, planned, keep, onward);
    let RanLogged { ran, state } = logged;
    let (ran, all) = put_back(ran, back, others);
    *gates = all;
    Ok(RanLogged { ran, state })
}

/// Takes a master that has started nothing to where its log stands, and begins the log's file again.
fn go_back<K: Kit + Drop, N: Namer + Drop, D: Keep, R: Wait>(
    rt: &R,
    alloc: Global,
    master: &mut Master<K, N>,
    shop: &Shop<K, N>,
    keep: &mut D,
    resumes: Resumes<'_>,
) -> Result<Onward, NotResumed>
    requires working { Working K.gives N.digest shop.now true master.old (nobody master.old.board.plan.workers) }
    requires first { (master.old.board.starts ≡ 0) × (master.old.board.journal ≡ []) × (master.old.board.orders ≡ []) }
    requires short { length (in_file resumes.header.now) ≤ most }
    requires log { length resumes.log.now ≤ most }
    ensures other { result ≡ Err NotResumed.OtherJob → BeginsOther resumes.entry.log.now resumes.entry.header.now }
    ensures of_other { BeginsOther resumes.entry.log.now resumes.entry.header.now → result ≡ Err NotResumed.OtherJob }
    ensures bad { Kept K.gives N.digest shop.now true master.old (nobody master.old.board.plan.workers) master.old.board.plan.seed
        → (at : ℕ) → result ≡ Err (NotResumed.BadLog at)
        → IsBadAt (N.digest shop.now.namer) (job_view shop.now.job) (K.gives shop.now.kit) master.old.board.plan resumes.entry.header.now
        resumes.entry.log.now at }
    ensures refused { IfErr result (λ why. RefusesSo resumes.entry.path
        (record { files = D.files keep.old; asked = D.asked keep.old; faults = D.faults keep.old })
        (record { files = D.files keep.new; asked = D.asked keep.new; faults = D.faults keep.new }) why) }
    ensures plan { OnOk result (master.new.board.plan ≡ master.old.board.plan) }
    ensures takes { IfOk result (λ o. Each (Takes K.gives N.digest shop.now) o.out.items) }
    ensures sends { IfOk result (λ o. CanSend (nobody master.old.board.plan.workers) o.out.items) }
    ensures left { IfOk result (λ o. LeavesOpen master.new.board.journal o.out.items) }
    ensures works { IfOk result (λ o. WorksOn K.gives N.digest shop.now master.new (sent_to (nobody master.old.board.plan.workers) o.out.items) o.end) }
    ensures stood { Kept K.gives N.digest shop.now true master.old (nobody master.old.board.plan.workers) master.old.board.plan.seed
        → BeginsLog (N.digest shop.now.namer) (job_view shop.now.job) (K.gives shop.now.kit) master.old.board.plan resumes.entry.header.now resumes.entry.log.now
        → IfOk result (λ o. Stood K.gives N.digest shop.now master.new (sent_to (nobody master.old.board.plan.workers) o.out.items) o.end o.draws) }
    ensures replayed { Kept K.gives N.digest shop.now true master.old (nobody master.old.board.plan.workers) master.old.board.plan.seed
        → BeginsLog (N.digest shop.now.namer) (job_view shop.now.job) (K.gives shop.now.kit) master.old.board.plan resumes.entry.header.now resumes.entry.log.now
        → OnOk result (Replays (N.digest shop.now.namer) (job_view shop.now.job) (K.gives shop.now.kit) master.old.board.plan resumes.entry.header.now
        resumes.entry.log.now master.new.board.journal) }
    ensures path { IfOk result (λ o. o.log.path ≡ resumes.entry.path) }
    ensures held { IfOk result (λ o. o.log.held ≤ most) }
    ensures begun { IfOk result (λ o. BegunWith resumes.entry.path
        (record { files = D.files keep.old; asked = D.asked keep.old; faults = D.faults keep.old })
        (record { files = D.files keep.new; asked = D.asked keep.new; faults = D.faults keep.new }) o.log.held
        (λ bytes. Kept K.gives N.digest shop.now true master.old (nobody master.old.board.plan.workers) master.old.board.plan.seed
        → BeginsLog (N.digest shop.now.namer) (job_view shop.now.job) (K.gives shop.now.kit) master.old.board.plan resumes.entry.header.now resumes.entry.log.now
        → Logs (N.digest shop.now.namer) (job_view shop.now.job) (K.gives shop.now.kit) master.old.board.plan resumes.entry.header.now
        master.new.board.journal bytes)) }
{
    replays_follow::<K, N>();
    logs_are_replayed::<K, N>();
    let Resumes { path, header, log } = resumes;
    let Replayed {
        whole,
        out,
        end,
        draws,
    } = match replay(rt, alloc, master, shop, log, header) {
        Ok(replayed) => replayed,
        Err(LogRefusal::OtherJob) => return Err(NotResumed::OtherJob),
        Err(LogRefusal::BadLog { at }) => return Err(NotResumed::BadLog { at }),
        Err(LogRefusal::Memory) => return Err(NotResumed::Memory),
    };
    let held = match begin_again(alloc, keep, &path, header, log, whole) {
        Ok(held) => held,
        Err(NotAgain::Failed) => return Err(NotResumed::Failed),
        Err(NotAgain::Memory) => return Err(NotResumed::Memory),
    };
    Ok(Onward {
        out,
        end,
        draws,
        log: Begins { path, held },
    })
}
