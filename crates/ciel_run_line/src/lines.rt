//! From a line to what its job comes to: the job is loaded or generated, the memo and the log that the line names are read, and it is answered.

ghost use Rattle.std.specs.Prelude.{◌≡◌, ◌≢◌, ◌≤◌, ◌++◌, ℕ, List, [], None, Some, Err, false, is_some, option_map, IfErr, IfOk, IfSome, OnOk, drop, length, map};
ghost use Rattle.sky_base.specs.JobView.{job_view};
ghost use Rattle.sky_base.specs.KitView.{Gives};
ghost use Rattle.sky_base.specs.See.{Answered as Meant, Means};
ghost use Rattle.ciel_run_logged.specs.Told.{told_of};
ghost use Rattle.ciel_io.specs.Faults.{HasRisen};
ghost use Rattle.ciel_io.specs.Tells.{Tells};
ghost use Rattle.ciel_run_load.specs.Loading.{IsOf};
ghost use Rattle.ciel_master.specs.Views.{entry_view};
ghost use Rattle.std.specs.List.{AllByRecursion};
ghost use Rattle.ciel_words.specs.Inputs.{most_inputs, most_name};
ghost use Rattle.ciel_words.specs.Sound.{LineIsSound};
ghost use Rattle.ciel_memo_file.specs.File.{BadAt};
ghost use Rattle.ciel_run_line.specs.Answering.{AsksLast, CanRunJob, HasEnd, no_job_view, no_script_view};
ghost use Rattle.ciel_run_line.specs.Causes.{CauseOf, IfNoMemo, IfOther, NoJobBy, NoMemoEnds, NoneBefore, OfRun, OtherEnds};
ghost use Rattle.ciel_run_line.specs.Asked.{AsksFor, AsksOf, IsRead, NoRunOf, ShowsResult, StopsFor};
ghost use Rattle.ciel_log.specs.Logging.{most};
ghost use Rattle.ciel_run_line.specs.Gates.{GatesTell};
ghost use Rattle.ciel_run_line.specs.Given.{BeginsWith, GivesOf, IsRecalled, memo_path};
ghost use Rattle.ciel_run_line.specs.Recall.{gives_with};
ghost use Rattle.ciel_run_line.specs.Line.{FitsIn, OfJobFiles, OfLine, behind_job, files_of, named, paths_in};
ghost use Rattle.ciel_run_line.specs.Keeping.{KeepsLog, LogTold};
ghost use Rattle.ciel_run_line.specs.Runs.{EndsShown, IsDriven, log_path};
ghost use Rattle.ciel_run_line.specs.Source.{around};
ghost use Rattle.ciel_run_log.specs.declared.why.Why.{Why};

use crate::answer::{Answered, not_run};
use crate::given::{Remembered, answer_given};
use crate::recall::{Recalled, read_named, recall};
use ciel_gate::gate::Gate;
use ciel_io::files::Files;
use ciel_io::keep::Keep;
use ciel_memo_file::law::files_are_told_in_one_way;
use ciel_run_load::generated::generated_job;
use ciel_run_load::load::{Loaded, NoJob, load};
use ciel_run_load::script::NoScript;
use ciel_run_log::why::Why;
use ciel_words::words::Words;
use sky_base::text::Bytes;
use std::alloc::Global;
use std::sync::Wait;
use std::thread::Threads;

/// Why a line names no job that can be run.
fn why_no_job(no: NoJob) -> Why
    ensures { result ≡ no_job_view no }
{
    match no {
        NoJob::Syntax { kind, line, col } => Why::Syntax { kind, line, col },
        NoJob::Failed { path } => Why::ReadFault { path },
        NoJob::TooLong { path, limit } => Why::TooLongInput { path, limit },
        NoJob::Memory => Why::Memory,
    }
}

/// Why there is no script.
fn why_no_script(no: NoScript) -> Why
    ensures { result ≡ no_script_view no }
{
    match no {
        NoScript::Syntax { kind, line, col } => Why::Syntax { kind, line, col },
        NoScript::Memory => Why::Memory,
    }
}

/// The job of a line: its script is read, or it is generated.
fn job_of<F: Files>(alloc: Global, line: &Words, files: &mut F) -> Result<Loaded, Why>
    requires line { LineIsSound line.now }
    ensures read { IfOk result (λ l. CanRunJob (job_view l.job)) }
    ensures keys { IfOk result (λ l. AllByRecursion (λ (i : List ℕ × List ℕ). length i.0 ≤ most_name) (job_view l.job).inputs) }
    ensures few { IfOk result (λ l. length (job_view l.job).inputs ≤ most_inputs) }
    ensures job { IfOk result (λ l. OfJobFiles (F.content files.old) line.now
        (λ source inputs. FitsIn (files_of line.now) source inputs × IsOf source inputs (job_view l.job) × (l.source ≡ source))) }
    ensures none { IfErr result (NoneBefore (F.content files.old) line.now (HasRisen (F.faults files.old) (F.faults files.new)) []) }
    ensures all { OnOk result (IsRead (F.content files.old) (files_of line.now)) }
    ensures asked { OnOk result (Tells (F.asked files.old) (F.asked files.new) (paths_in (files_of line.now))) }
    ensures asks { IfErr result (λ why. AsksFor why (paths_in (files_of line.now)) (behind_job line.now) (F.asked files.old) (F.asked files.new)) }
    ensures never_falls { F.faults files.old ≤ F.faults files.new }
    ensures kept { F.content files.new ≡ F.content files.old }
    ensures order { IfErr result (StopsFor (F.content files.old) (files_of line.now) line.now.memo line.now.resume (F.asked files.old) (F.asked files.new)) }
{
    if let Some(path) = &line.script {
        return match load(alloc, path, line.inputs.as_slice(), files) {
            Ok(loaded) => Ok(loaded),
            Err(no) => Err(why_no_job(no)),
        };
    }
    let Some(lines) = line.generate else {
        unreachable!()
    };
    match generated_job(alloc, lines) {
        Ok(loaded) => Ok(loaded),
        Err(no) => Err(why_no_script(no)),
    }
}

/// The greatest number of bytes of a log.
const LOG_LIMIT: u64 = 268_435_456;

/// What a line reads before it is answered: its job, the memo's kit, where it has one, and the bytes of the log that it goes on from, where it
/// does.
#[derive(Drop)]
struct Start<R: Wait + Drop> {
    loaded: Loaded,
    recalled: Option<Recalled<R>>,
    log: Option<Bytes>,
}

/// Reads what a line names: the files of its job, then its memo, then its log.
fn read_line<F: Files, R>(
    rt: R,
    alloc: Global,
    line: &Words,
    files: &mut F,
) -> Result<Start<R>, Why>
where
    R: Wait + Copy + Drop,
    requires line { LineIsSound line.now }
    ensures read { IfOk result (λ s. CanRunJob (job_view s.loaded.job)) }
    ensures keys { IfOk result (λ s. AllByRecursion (λ (i : List ℕ × List ℕ). length i.0 ≤ most_name) (job_view s.loaded.job).inputs) }
    ensures few { IfOk result (λ s. length (job_view s.loaded.job).inputs ≤ most_inputs) }
    ensures job { IfOk result (λ s. OfJobFiles (F.content files.old) line.now
        (λ source inputs. FitsIn (files_of line.now) source inputs × IsOf source inputs (job_view s.loaded.job) × (s.loaded.source ≡ source))) }
    ensures given { IfOk result (λ s. (g : Gives) → GivesOf (F.content files.old) line.now g → g ≡ gives_with s.recalled) }
    ensures kept { IfOk result (λ s. IfSome s.recalled (λ r. r.kept ≡ r.kit)) }
    ensures entries { IfOk result (λ s. IfSome s.recalled (λ r. BeginsWith (F.content files.old) line.now.memo r.kit.entries)) }
    ensures memo { IfOk result (λ s. is_some s.recalled ≡ is_some (memo_path line.now)) }
    ensures recalled { OnOk result (IsRecalled (F.content files.old) line.now.memo) }
    ensures some { IfOk result (λ s. is_some s.log ≡ is_some line.now.resume) }
    ensures within { IfOk result (λ s. IfSome s.log (λ b. length b ≤ most)) }
    ensures found { IfOk result (λ s. IfSome s.log (λ b. IfSome line.now.resume
        (λ path. IfSome (F.content files.old path) (λ file. b ≡ file)))) }
    ensures asked { OnOk result (Tells (F.asked files.old) (F.asked files.new) (paths_in (files_of line.now) ++ behind_job line.now)) }
    ensures none { IfErr result (NoJobBy (F.content files.old) line.now (HasRisen (F.faults files.old) (F.faults files.new)) []) }
    ensures before { IfErr result (λ why. (path bytes : List ℕ) → (at : ℕ) → line.now.memo ≡ Some path → F.content files.old path ≡ Some bytes
        → BadAt bytes at → NoneBefore (F.content files.old) line.now (HasRisen (F.faults files.old) (F.faults files.new)) [] why) }
    ensures asks { IfErr result (λ why. AsksFor why (paths_in (files_of line.now)) (behind_job line.now) (F.asked files.old) (F.asked files.new)) }
    ensures order { IfErr result (StopsFor (F.content files.old) (files_of line.now) line.now.memo line.now.resume (F.asked files.old) (F.asked files.new)) }
    ensures content { F.content files.new ≡ F.content files.old }
{
    files_are_told_in_one_way();
    let loaded = match job_of(alloc, line, files) {
        Ok(loaded) => loaded,
        Err(why) => return Err(why),
    };
    let recalled = match recall(rt, alloc, line, files) {
        Ok(recalled) => recalled,
        Err(why) => return Err(why),
    };
    match read_named(alloc, &line.resume, LOG_LIMIT, files) {
        Ok(log) => Ok(Start {
            loaded,
            recalled,
            log,
        }),
        Err(why) => Err(why),
    }
}

/// What the job of a line comes to, and the memo's kit, where it has one.
pub fn answer_line<F: Files, G, D, R>(
    rt: R,
    alloc: Global,
    line: &Words,
    files: &mut F,
    gates: &mut Vec<G>,
    keep: &mut D,
) -> Remembered<R>
where
    G: Gate + Send + 'static,
    D: Keep,
    R: Threads + Wait + Copy + Send + Sync + Drop + 'static,
    requires line { LineIsSound line.now }
    requires gates { length gates.old.items ≡ 64 }
    ensures bytes { IfOk result.answered.result (λ b. OfRun (F.content files.old) line.now (HasRisen (F.faults files.old) (F.faults files.new))
        (map entry_view result.answered.journal.items) (λ g job. Means job (around g) (Meant.bytes b))) }
    ensures none { IfErr result.answered.result (CauseOf (F.content files.old) line.now (HasRisen (F.faults files.old) (F.faults files.new))
        (map entry_view result.answered.journal.items)) }
    ensures of_other { IfOther (F.content files.old) line.now (OtherEnds (F.content files.old) line.now
        (HasRisen (F.faults files.old) (F.faults files.new)) [] result.answered.result) }
    ensures of_bad_memo { IfNoMemo (F.content files.old) line.now (λ path at. NoMemoEnds (F.content files.old) line.now
        (HasRisen (F.faults files.old) (F.faults files.new)) [] result.answered.result) }
    ensures driven { OfLine (F.content files.old) line.now (λ g source inputs. IsDriven g line.now source inputs (map entry_view result.answered.journal.items)) }
    ensures root { line.now.plain ≡ false → ShowsResult result.answered.result
        → OfLine (F.content files.old) line.now (λ g source inputs. EndsShown g line.now source inputs (map entry_view result.answered.journal.items)) }
    ensures empty { NoRunOf line.now.plain result.answered.result → map entry_view result.answered.journal.items ≡ [] }
    ensures kept { NoRunOf line.now.plain result.answered.result → gates.new ≡ gates.old }
    ensures told { result.answered.result ≢ Err Why.Memory
        → GatesTell (F.content files.old) (Some line.now) (map entry_view result.answered.journal.items)
        (told_of G.entered line.now.workers gates.old.items) (told_of G.entered line.now.workers gates.new.items) }
    ensures others { result.answered.result ≢ Err Why.Memory → drop line.now.workers gates.new.items ≡ drop line.now.workers gates.old.items }
    ensures all { result.answered.result ≢ Err Why.Memory → length gates.new.items ≡ 64 }
    ensures asks { AsksOf result.answered.result (paths_in (files_of line.now)) (behind_job line.now) (F.asked files.old) (F.asked files.new) }
    ensures order { IfErr result.answered.result (StopsFor (F.content files.old) (files_of line.now) line.now.memo line.now.resume (F.asked files.old)
        (F.asked files.new)) }
    ensures unasked { log_path line.now ≡ None → keep.new ≡ keep.old }
    ensures keeps { KeepsLog (log_path line.now)
        (record { files = D.files keep.old; asked = D.asked keep.old; faults = D.faults keep.old })
        (record { files = D.files keep.new; asked = D.asked keep.new; faults = D.faults keep.new }) result.answered.result result.answered.state }
    ensures logged { OfLine (F.content files.old) line.now (λ g source inputs. LogTold g line.now source inputs
        (map entry_view result.answered.journal.items) (D.files keep.new) result.answered.state result.answered.result) }
    ensures entries { IfSome result.memo (λ kit. BeginsWith (F.content files.old) line.now.memo kit.entries) }
    ensures memo { HasEnd result.answered.result → is_some result.memo ≡ is_some (memo_path line.now) }
{
    files_are_told_in_one_way();
    match read_line(rt, alloc, line, files) {
        Ok(start) => {
            let Start {
                loaded,
                recalled,
                log,
            } = start;
            answer_given(rt, alloc, line, loaded, recalled, log, gates, keep)
        }
        Err(why) => Remembered {
            answered: not_run(alloc, why),
            memo: None,
        },
    }
}
