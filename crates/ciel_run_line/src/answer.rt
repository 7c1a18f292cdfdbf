//! What a job comes to, before anything is written: by the sequential interpreter, or on the engine.

ghost use Rattle.std.specs.Prelude.{◌≡◌, ◌≢◌, ◌≤◌, ◌⊎◌, ◌<◌, ◌^◌, ℕ, List, [], None, Some, Err, IfErr, IfOk, IfSome, drop, false, is_some, length, map, true};
ghost use Rattle.std.specs.List.{AllByRecursion};
ghost use Rattle.sky_base.specs.JobView.{job_view};
ghost use Rattle.sky_base.specs.See.{Answered as Meant, Means};
ghost use Rattle.ciel_journal.specs.Job.{Each};
ghost use Rattle.ciel_run_logged.specs.Ended.{EndsSo};
ghost use Rattle.ciel_run_logged.specs.Told.{ToldBy};
ghost use Rattle.ciel_run_logged.specs.Told.{told_of};
ghost use Rattle.ciel_master.specs.Seen.{plan_view};
ghost use Rattle.ciel_master.specs.Views.{entry_view};
ghost use Rattle.ciel_log.specs.Logging.{most};
ghost use Rattle.ciel_log.specs.Logs.{LogWritten};
ghost use Rattle.ciel_log.specs.declared.state.LogState.{LogState as LogStateSeen};
ghost use Rattle.ciel_run_load.specs.Line.{Input, keys_of};
ghost use Rattle.ciel_run_load.specs.Loading.{IsOf};
ghost use Rattle.ciel_journal.specs.Entries.{Entry as Line};
ghost use Rattle.ciel_log_follows.specs.Begins.{BeginsLog};
ghost use Rattle.ciel_log_file.specs.Whole.{BeginsOther};
ghost use Rattle.ciel_log_refuses.specs.Refusals.{IsBadAt};
ghost use Rattle.ciel_log_records.specs.Records.{in_file};
ghost use Rattle.ciel_run_logged.specs.Keeping.{IfOver, Keeps};
ghost use Rattle.ciel_run_logged.specs.Kinds.{IsFor, IsOverLines};
ghost use Rattle.ciel_run_onward.specs.Gates.{ToldSince};
ghost use Rattle.ciel_run_resumed.specs.Keeping.{KeptBy};
ghost use Rattle.ciel_run_resumed.specs.Resuming.{FileTells, RefusesSo, Replays};
ghost use Rattle.ciel_run_resumed.specs.declared.run.NotResumed.{NotResumed as NotResumedSeen};
ghost use Rattle.ciel_words.specs.Inputs.{most_inputs, most_name};
ghost use Rattle.ciel_run_line.specs.Asked.{NoRunOf};
ghost use Rattle.ciel_run_line.specs.Keeping.{KeepsLog, LogTold, header_of};
ghost use Rattle.ciel_words.specs.Sound.{LineIsSound};
ghost use Rattle.ciel_run_line.specs.Answering.{CanRunJob, PlainCause, WhyNot, end_view};
ghost use Rattle.ciel_run_line.specs.Causes.{AnswersSo, WaySo};
ghost use Rattle.ciel_run_log.specs.declared.why.Why.{Why};
ghost use Rattle.ciel_run_line.specs.Line.{SurelyAt};
ghost use Rattle.ciel_run_line.specs.Resuming.{OnwardTold, OwnIfRead, RefusesLog, ReplaysLog};
ghost use Rattle.ciel_run_line.specs.Runs.{digest_of, log_path, plan_of};
ghost use Rattle.ciel_run_line.specs.Source.{around};
ghost use Rattle.ciel_master.specs.declared.stop.RunEnd.{RunEnd};

use crate::header::{begin_log, header};
use ciel_gate::gate::Gate;
use ciel_io::keep::Keep;
use ciel_log::state::LogState;
use ciel_master::entry::Entry;
use ciel_master::plan::{Losses, RunPlan};
use ciel_master::stop::RunEnd;
use ciel_name::name::{Sha1Namer, Sha256Namer};
use ciel_run_load::load::Loaded;
use ciel_run_log::why::Why;
use ciel_run_logged::hands::Hands;
use ciel_run_logged::run::{Begins, RanLogged, run_logged};
use ciel_run_logged::run_job_run::{Ran, run_job};
use ciel_run_resumed::run::{NotResumed, Resumes, run_resumed};
use ciel_words::words::{NameKind, Words};
use sky_base::job::Job;
use sky_base::kit::Kit;
use sky_base::text::{Bytes, Memory, Txt};
use sky_plain::plain::{Answer, plain};
use std::alloc::Global;
use std::sync::Wait;
use std::thread::Threads;

/// What a job comes to, the journal of its run, and how its log stands, where it has one.
#[derive(Drop)]
pub struct Answered {
    pub result: Result<Bytes, Why>,
    pub journal: Vec<Entry>,
    pub state: LogState,
}

/// What a job comes to by the sequential interpreter.
fn plainly<K: Kit>(alloc: Global, job: &Job, kit: &K) -> Result<Bytes, Why>
    ensures bytes { IfOk result (λ b. Means (job_view job.now) (around (K.gives kit.now)) (Meant.bytes b)) }
    ensures none { IfErr result (PlainCause (K.gives kit.now) (job_view job.now)) }
{
    match plain(alloc, job, kit) {
        Ok(Answer::Text(bytes)) => Ok(bytes),
        Ok(Answer::Fault(fault)) => Err(Why::Fault(fault)),
        Ok(Answer::TooMany { held }) => Err(Why::TooMany { held, given: None }),
        Ok(Answer::TooDeepPlain { depth }) => Err(Why::TooDeepPlain { depth }),
        Err(Memory) => Err(Why::Memory),
    }
}

/// Why a run has no bytes, or the bytes.
fn end_of(end: RunEnd) -> Result<Bytes, Why>
    ensures { result ≡ end_view end }
{
    match end {
        RunEnd::Answer(bytes) => Ok(bytes),
        RunEnd::Fault(fault) => Err(Why::Fault(fault)),
        RunEnd::Endless(names) => Err(Why::Endless { names }),
        RunEnd::TooMany { held, given } => Err(Why::TooMany {
            held,
            given: Some(given),
        }),
        RunEnd::AllLost => Err(Why::AllLost),
        RunEnd::NameClash { kept, given } => Err(Why::NameClash { kept, given }),
        RunEnd::Memory => Err(Why::Memory),
    }
}

/// The plan of a line.
fn plan(alloc: Global, line: &Words) -> Result<RunPlan, Memory>
    requires few { length line.now.losses < 2 ^ 32 }
    ensures plan { IfOk result (λ p. plan_view p ≡ plan_of line.now) }
{
    match Vec::from_slice(alloc, line.losses.as_slice()) {
        Ok(losses) => Ok(RunPlan {
            workers: line.workers,
            seed: line.seed,
            losses: Losses::of(losses),
        }),
        Err(_) => Err(Memory),
    }
}

/// Runs a job on the engine, with names by the digest that the line asks for.
fn run<K, G, R>(
    rt: R,
    alloc: Global,
    names: NameKind,
    job: Job,
    kit: K,
    gates: &mut Vec<G>,
    plan: RunPlan,
    hands: Hands,
) -> Ran
where
    K: Kit + Send + Sync + Drop + 'static,
    G: Gate + Send + 'static,
    R: Threads + Wait + Copy + Send + Drop + 'static,
    requires job { CanRunJob (job_view job) }
    requires workers { (0 < plan.workers) × (plan.workers ≤ 64) }
    requires losses { Each (λ (loss : ℕ × ℕ). loss.1 < plan.workers) plan.losses }
    requires gates { length gates.old.items ≡ 64 }
    requires hands { IsFor (K.gives kit) hands }
    ensures end { EndsSo (digest_of names) (job_view job) (K.gives kit) (plan_view plan) (map entry_view result.journal.items) result.end }
    ensures told { result.end ≢ RunEnd.Memory → ToldBy (map entry_view result.journal.items) (told_of G.entered plan.workers gates.old.items)
        (told_of G.entered plan.workers gates.new.items) }
    ensures others { result.end ≢ RunEnd.Memory → drop plan.workers gates.new.items ≡ drop plan.workers gates.old.items }
    ensures all { result.end ≢ RunEnd.Memory → length gates.new.items ≡ 64 }
{
    match names {
        NameKind::Sha1 => run_job(rt, alloc, job, kit, Sha1Namer, gates, plan, hands),
        NameKind::Sha256 => run_job(rt, alloc, job, kit, Sha256Namer, gates, plan, hands),
    }
}

/// The same with a log, which was begun.
fn run_with_log<K, G, D, R>(
    rt: R,
    alloc: Global,
    names: NameKind,
    job: Job,
    kit: K,
    gates: &mut Vec<G>,
    plan: RunPlan,
    hands: Hands,
    keep: &mut D,
    log: Begins,
) -> RanLogged
where
    K: Kit + Send + Sync + Drop + 'static,
    G: Gate + Send + 'static,
    D: Keep,
    R: Threads + Wait + Copy + Send + Drop + 'static,
    requires job { CanRunJob (job_view job) }
    requires workers { (0 < plan.workers) × (plan.workers ≤ 64) }
    requires losses { Each (λ (loss : ℕ × ℕ). loss.1 < plan.workers) plan.losses }
    requires gates { length gates.old.items ≡ 64 }
    requires held { log.held ≤ most }
    requires hands { IsFor (K.gives kit) hands }
    ensures end { EndsSo (digest_of names) (job_view job) (K.gives kit) (plan_view plan) (map entry_view result.ran.journal.items) result.ran.end }
    ensures told { result.ran.end ≢ RunEnd.Memory
        → ToldBy (map entry_view result.ran.journal.items) (told_of G.entered plan.workers gates.old.items)
        (told_of G.entered plan.workers gates.new.items) }
    ensures others { result.ran.end ≢ RunEnd.Memory → drop plan.workers gates.new.items ≡ drop plan.workers gates.old.items }
    ensures all { result.ran.end ≢ RunEnd.Memory → length gates.new.items ≡ 64 }
    ensures keeps { result.ran.end ≢ RunEnd.Memory → Keeps log.path log.held
        (record { files = D.files keep.old; asked = D.asked keep.old; faults = D.faults keep.old })
        (record { files = D.files keep.new; asked = D.asked keep.new; faults = D.faults keep.new }) result.state }
    ensures written { IfOver result.ran.end (LogWritten (digest_of names) (job_view job) (K.gives kit) (plan_view plan) log.path log.held (D.files keep.old)
        (D.files keep.new) (map entry_view result.ran.journal.items) result.state) }
{
    match names {
        NameKind::Sha1 => run_logged(
            rt, alloc, job, kit, Sha1Namer, gates, plan, hands, keep, log,
        ),
        NameKind::Sha256 => run_logged(
            rt,
            alloc,
            job,
            kit,
            Sha256Namer,
            gates,
            plan,
            hands,
            keep,
            log,
        ),
    }
}

/// What a line comes to whose job didn't run.
pub(crate) fn not_run(alloc: Global, why: Why) -> Answered
    ensures result { result.result ≡ Err why }
    ensures empty { result.journal.items ≡ [] }
    ensures whole { result.state ≡ LogStateSeen.Whole }
{
    Answered {
        result: Err(why),
        journal: Vec::new(alloc),
        state: LogState::Whole,
    }
}

/// What the job of a line comes to on the engine, with a log at this path, which is begun before.
fn answer_with_log<K, G, D, R>(
    rt: R,
    alloc: Global,
    line: &Words,
    path: &Txt,
    loaded: Loaded,
    kit: K,
    plan: RunPlan,
    hands: Hands,
    gates: &mut Vec<G>,
    keep: &mut D,
) -> Answered
where
    K: Kit + Send + Sync + Drop + 'static,
    G: Gate + Send + 'static,
    D: Keep,
    R: Threads + Wait + Copy + Send + Drop + 'static,
    requires line { LineIsSound line.now }
    requires plain { line.now.plain ≡ false }
    requires path { line.now.log ≡ Some path.now }
    requires plan { plan_view plan ≡ plan_of line.now }
    requires job { CanRunJob (job_view loaded.job) }
    requires keys { AllByRecursion (λ (i : List ℕ × List ℕ). length i.0 ≤ most_name) (job_view loaded.job).inputs }
    requires few { length (job_view loaded.job).inputs ≤ most_inputs }
    requires gates { length gates.old.items ≡ 64 }
    requires hands { IsFor (K.gives kit) hands }
    ensures answers { AnswersSo (K.gives kit) line.now (map entry_view result.journal.items) (job_view loaded.job) result.result }
    ensures ways { WaySo line.now (map entry_view result.journal.items) result.result }
    ensures told { result.result ≢ Err Why.Memory
        → ToldBy (map entry_view result.journal.items) (told_of G.entered line.now.workers gates.old.items)
        (told_of G.entered line.now.workers gates.new.items) }
    ensures others { result.result ≢ Err Why.Memory → drop line.now.workers gates.new.items ≡ drop line.now.workers gates.old.items }
    ensures all { result.result ≢ Err Why.Memory → length gates.new.items ≡ 64 }
    ensures keeps { KeepsLog (log_path line.now)
        (record { files = D.files keep.old; asked = D.asked keep.old; faults = D.faults keep.old })
        (record { files = D.files keep.new; asked = D.asked keep.new; faults = D.faults keep.new }) result.result result.state }
    ensures logged { (inputs : List Input) → IsOf loaded.source inputs (job_view loaded.job)
        → LogTold (K.gives kit) line.now loaded.source inputs (map entry_view result.journal.items) (D.files keep.new) result.state result.result }
    ensures kept { NoRunOf false result.result → gates.new ≡ gates.old }
{
    let Loaded { source, job } = loaded;
    let log = match begin_log(alloc, line, path, source.as_slice(), &job, keep) {
        Ok(log) => log,
        Err(why) => return not_run(alloc, why),
    };
    let RanLogged {
        ran: Ran { end, journal },
        state,
    } = run_with_log(
        rt, alloc, line.names, job, kit, gates, plan, hands, keep, log,
    );
    Answered {
        result: end_of(end),
        journal,
        state,
    }
}

/// The same with a log that it goes on from.
fn run_from_log<K, G, D, R>(
    rt: R,
    alloc: Global,
    names: NameKind,
    job: Job,
    kit: K,
    gates: &mut Vec<G>,
    plan: RunPlan,
    hands: Hands,
    keep: &mut D,
    resumes: Resumes<'_>,
) -> Result<RanLogged, NotResumed>
where
    K: Kit + Send + Sync + Drop + 'static,
    G: Gate + Send + 'static,
    D: Keep,
    R: Threads + Wait + Copy + Send + Drop + 'static,
    requires job { CanRunJob (job_view job) }
    requires workers { (0 < plan.workers) × (plan.workers ≤ 64) }
    requires losses { Each (λ (loss : ℕ × ℕ). loss.1 < plan.workers) plan.losses }
    requires gates { length gates.old.items ≡ 64 }
    requires short { length (in_file resumes.header.now) ≤ most }
    requires log { length resumes.log.now ≤ most }
    requires hands { IsFor (K.gives kit) hands }
    ensures other { result ≡ Err NotResumedSeen.OtherJob → BeginsOther resumes.entry.log.now resumes.entry.header.now }
    ensures of_other { BeginsOther resumes.entry.log.now resumes.entry.header.now
        → (result ≡ Err NotResumedSeen.OtherJob) ⊎ (result ≡ Err NotResumedSeen.Memory) }
    ensures bad { (at : ℕ) → result ≡ Err (NotResumedSeen.BadLog at)
        → IsBadAt (digest_of names) (job_view job) (K.gives kit) (plan_view plan) resumes.entry.header.now resumes.entry.log.now at }
    ensures kept { IfErr result (λ why. why ≢ NotResumedSeen.Memory → gates.new ≡ gates.old) }
    ensures refused { IfErr result (λ why. RefusesSo resumes.entry.path
        (record { files = D.files keep.old; asked = D.asked keep.old; faults = D.faults keep.old })
        (record { files = D.files keep.new; asked = D.asked keep.new; faults = D.faults keep.new }) why) }
    ensures end { BeginsLog (digest_of names) (job_view job) (K.gives kit) (plan_view plan) resumes.entry.header.now resumes.entry.log.now
        → IfOk result (λ r. EndsSo (digest_of names) (job_view job) (K.gives kit) (plan_view plan) (map entry_view r.ran.journal.items) r.ran.end) }
    ensures told { IfOk result (λ r. r.ran.end ≢ RunEnd.Memory → (replayed : List Line)
        × (BeginsLog (digest_of names) (job_view job) (K.gives kit) (plan_view plan) resumes.entry.header.now resumes.entry.log.now
        → Replays (digest_of names) (job_view job) (K.gives kit) (plan_view plan) resumes.entry.header.now resumes.entry.log.now replayed)
        × ToldSince replayed (map entry_view r.ran.journal.items) (told_of G.entered plan.workers gates.old.items)
        (told_of G.entered plan.workers gates.new.items)) }
    ensures written { BeginsLog (digest_of names) (job_view job) (K.gives kit) (plan_view plan) resumes.entry.header.now resumes.entry.log.now
        → IfOk result (λ r. IfOver r.ran.end (FileTells (digest_of names) (job_view job) (K.gives kit) (plan_view plan) resumes.entry.header.now resumes.entry.path
        (D.files keep.new) (map entry_view r.ran.journal.items) r.state)) }
    ensures others { IfOk result (λ r. r.ran.end ≢ RunEnd.Memory → drop plan.workers gates.new.items ≡ drop plan.workers gates.old.items) }
    ensures all { IfOk result (λ r. r.ran.end ≢ RunEnd.Memory → length gates.new.items ≡ 64) }
    ensures keeps { IfOk result (λ r. r.ran.end ≢ RunEnd.Memory → KeptBy resumes.entry.path
        (record { files = D.files keep.old; asked = D.asked keep.old; faults = D.faults keep.old })
        (record { files = D.files keep.new; asked = D.asked keep.new; faults = D.faults keep.new }) r.state) }
{
    match names {
        NameKind::Sha1 => run_resumed(
            rt, alloc, job, kit, Sha1Namer, gates, plan, hands, keep, resumes,
        ),
        NameKind::Sha256 => run_resumed(
            rt,
            alloc,
            job,
            kit,
            Sha256Namer,
            gates,
            plan,
            hands,
            keep,
            resumes,
        ),
    }
}

/// Why a job didn't go on from the log at this path.
fn why_not(not: NotResumed, path: &Txt) -> Why
    ensures { WhyNot not path.now result }
{
    let Ok(path) = path.share() else {
        return Why::Memory;
    };
    match not {
        NotResumed::OtherJob => Why::OtherJob { path },
        NotResumed::BadLog { at } => Why::BadLog { path, at },
        NotResumed::Failed => Why::KeepFault { path },
        NotResumed::Memory => Why::Memory,
    }
}

/// What the job of a line comes to on the engine, from where the log at this path stands.
fn answer_from_log<K, G, D, R>(
    rt: R,
    alloc: Global,
    line: &Words,
    path: &Txt,
    loaded: Loaded,
    kit: K,
    log: &Bytes,
    plan: RunPlan,
    hands: Hands,
    gates: &mut Vec<G>,
    keep: &mut D,
) -> Answered
where
    K: Kit + Send + Sync + Drop + 'static,
    G: Gate + Send + 'static,
    D: Keep,
    R: Threads + Wait + Copy + Send + Drop + 'static,
    requires line { LineIsSound line.now }
    requires plain { line.now.plain ≡ false }
    requires path { line.now.resume ≡ Some path.now }
    requires plan { plan_view plan ≡ plan_of line.now }
    requires job { CanRunJob (job_view loaded.job) }
    requires keys { AllByRecursion (λ (i : List ℕ × List ℕ). length i.0 ≤ most_name) (job_view loaded.job).inputs }
    requires few { length (job_view loaded.job).inputs ≤ most_inputs }
    requires gates { length gates.old.items ≡ 64 }
    requires log { length log.now ≤ most }
    requires hands { IsFor (K.gives kit) hands }
    ensures answers { OwnIfRead (K.gives kit) line.now loaded.source (job_view loaded.job).inputs (job_view loaded.job) (Some log.now)
        → AnswersSo (K.gives kit) line.now (map entry_view result.journal.items) (job_view loaded.job) result.result }
    ensures ways { WaySo line.now (map entry_view result.journal.items) result.result }
    ensures refuses { IfErr result.result (RefusesLog (K.gives kit) line.now loaded.source (job_view loaded.job) (Some log.now)) }
    ensures of_other { BeginsOther log.now (header_of line.now loaded.source (job_view loaded.job).inputs)
        → (result.result ≡ Err (Why.OtherJob path.now)) ⊎ (result.result ≡ Err Why.Memory) }
    ensures told { result.result ≢ Err Why.Memory
        → OnwardTold (λ replayed. OwnIfRead (K.gives kit) line.now loaded.source (job_view loaded.job).inputs (job_view loaded.job) (Some log.now)
        → ReplaysLog (K.gives kit) line.now loaded.source (job_view loaded.job).inputs (job_view loaded.job) log.now replayed)
        (map entry_view result.journal.items) (told_of G.entered line.now.workers gates.old.items)
        (told_of G.entered line.now.workers gates.new.items) }
    ensures others { result.result ≢ Err Why.Memory → drop line.now.workers gates.new.items ≡ drop line.now.workers gates.old.items }
    ensures all { result.result ≢ Err Why.Memory → length gates.new.items ≡ 64 }
    ensures keeps { KeepsLog (log_path line.now)
        (record { files = D.files keep.old; asked = D.asked keep.old; faults = D.faults keep.old })
        (record { files = D.files keep.new; asked = D.asked keep.new; faults = D.faults keep.new }) result.result result.state }
    ensures logged { OwnIfRead (K.gives kit) line.now loaded.source (job_view loaded.job).inputs (job_view loaded.job) (Some log.now)
        → (inputs : List Input) → IsOf loaded.source inputs (job_view loaded.job)
        → LogTold (K.gives kit) line.now loaded.source inputs (map entry_view result.journal.items) (D.files keep.new) result.state result.result }
    ensures kept { NoRunOf false result.result → gates.new ≡ gates.old }
{
    let Loaded { source, job } = loaded;
    let (Ok(header), Ok(at)) = (header(alloc, line, source.as_slice(), &job), path.share()) else {
        return not_run(alloc, Why::Memory);
    };
    let resumes = Resumes {
        path: at,
        header: header.as_slice(),
        log: log.as_slice(),
    };
    match run_from_log(
        rt, alloc, line.names, job, kit, gates, plan, hands, keep, resumes,
    ) {
        Ok(logged) => {
            let RanLogged {
                ran: Ran { end, journal },
                state,
            } = logged;
            Answered {
                result: end_of(end),
                journal,
                state,
            }
        }
        Err(not) => not_run(alloc, why_not(not, path)),
    }
}

/// On what the workers of a line work: with streams its executors are those over lines.
fn hands_for<K: Kit>(line: &Words, kit: &K) -> Hands
    requires line { LineIsSound line.now }
    requires streams { line.now.stream ≡ true → IsOverLines (K.gives kit.now) }
    ensures hands { IsFor (K.gives kit.now) result }
{
    Hands::of(line.workers, line.steal, line.stream)
}

/// What the job of a line comes to; `log` has the bytes of the log that it goes on from, where it does.
pub fn answer<K, G, D, R>(
    rt: R,
    alloc: Global,
    line: &Words,
    loaded: Loaded,
    kit: K,
    log: Option<Bytes>,
    gates: &mut Vec<G>,
    keep: &mut D,
) -> Answered
where
    K: Kit + Send + Sync + Drop + 'static,
    G: Gate + Send + 'static,
    D: Keep,
    R: Threads + Wait + Copy + Send + Drop + 'static,
    requires line { LineIsSound line.now }
    requires job { CanRunJob (job_view loaded.job) }
    requires keys { AllByRecursion (λ (i : List ℕ × List ℕ). length i.0 ≤ most_name) (job_view loaded.job).inputs }
    requires few { length (job_view loaded.job).inputs ≤ most_inputs }
    requires gates { length gates.old.items ≡ 64 }
    requires log { is_some log ≡ is_some line.now.resume }
    requires within { IfSome log (λ b. length b ≤ most) }
    requires streams { line.now.stream ≡ true → IsOverLines (K.gives kit) }
    ensures answers { OwnIfRead (K.gives kit) line.now loaded.source (job_view loaded.job).inputs (job_view loaded.job) log
        → AnswersSo (K.gives kit) line.now (map entry_view result.journal.items) (job_view loaded.job) result.result }
    ensures ways { WaySo line.now (map entry_view result.journal.items) result.result }
    ensures refuses { IfErr result.result (RefusesLog (K.gives kit) line.now loaded.source (job_view loaded.job) log) }
    ensures of_other { (path bytes : List ℕ) → line.now.resume ≡ Some path → log ≡ Some bytes
        → BeginsOther bytes (header_of line.now loaded.source (job_view loaded.job).inputs)
        → (result.result ≡ Err (Why.OtherJob path)) ⊎ (result.result ≡ Err Why.Memory) }
    ensures told { result.result ≢ Err Why.Memory
        → SurelyAt line.now.resume (ToldBy (map entry_view result.journal.items) (told_of G.entered line.now.workers gates.old.items)
        (told_of G.entered line.now.workers gates.new.items))
        (OnwardTold (λ replayed. (bytes : List ℕ) → log ≡ Some bytes
        → OwnIfRead (K.gives kit) line.now loaded.source (job_view loaded.job).inputs (job_view loaded.job) log
        → ReplaysLog (K.gives kit) line.now loaded.source (job_view loaded.job).inputs (job_view loaded.job) bytes replayed)
        (map entry_view result.journal.items) (told_of G.entered line.now.workers gates.old.items)
        (told_of G.entered line.now.workers gates.new.items)) }
    ensures others { result.result ≢ Err Why.Memory → drop line.now.workers gates.new.items ≡ drop line.now.workers gates.old.items }
    ensures all { result.result ≢ Err Why.Memory → length gates.new.items ≡ 64 }
    ensures kept { NoRunOf line.now.plain result.result → gates.new ≡ gates.old }
    ensures unasked { log_path line.now ≡ None → keep.new ≡ keep.old }
    ensures keeps { KeepsLog (log_path line.now)
        (record { files = D.files keep.old; asked = D.asked keep.old; faults = D.faults keep.old })
        (record { files = D.files keep.new; asked = D.asked keep.new; faults = D.faults keep.new }) result.result result.state }
    ensures logged { OwnIfRead (K.gives kit) line.now loaded.source (job_view loaded.job).inputs (job_view loaded.job) log → (inputs : List Input)
        → IsOf loaded.source inputs (job_view loaded.job)
        → LogTold (K.gives kit) line.now loaded.source inputs (map entry_view result.journal.items) (D.files keep.new) result.state result.result }
{
    if line.plain {
        return Answered {
            result: plainly(alloc, &loaded.job, &kit),
            journal: Vec::new(alloc),
            state: LogState::Whole,
        };
    }
    let Ok(plan) = plan(alloc, line) else {
        return not_run(alloc, Why::Memory);
    };
    let hands = hands_for(line, &kit);
    if let Some(path) = &line.log {
        return answer_with_log(rt, alloc, line, path, loaded, kit, plan, hands, gates, keep);
    }
    if let Some(path) = &line.resume {
        let Some(log) = &log else { unreachable!() };
        return answer_from_log(
            rt, alloc, line, path, loaded, kit, log, plan, hands, gates, keep,
        );
    }
    let Ran { end, journal } = run(rt, alloc, line.names, loaded.job, kit, gates, plan, hands);
    Answered {
        result: end_of(end),
        journal,
        state: LogState::Whole,
    }
}
