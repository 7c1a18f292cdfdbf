//! What a line's job comes to with the executors that the line has: those over lines, or those with a memo.

ghost use Rattle.std.specs.Prelude.{◌≡◌, ◌≢◌, ◌≤◌, ◌⊎◌, ℕ, List, None, Some, Err, IfErr, IfSome, drop, is_some, length, map, option_map};
ghost use Rattle.std.specs.List.{AllByRecursion};
ghost use Rattle.sky_base.specs.JobView.{job_view};
ghost use Rattle.ciel_run_logged.specs.Told.{ToldBy};
ghost use Rattle.ciel_run_logged.specs.Told.{told_of};
ghost use Rattle.ciel_master.specs.Views.{entry_view};
ghost use Rattle.ciel_log.specs.Logging.{most};
ghost use Rattle.ciel_run_load.specs.Line.{Input};
ghost use Rattle.ciel_run_load.specs.Loading.{IsOf};
ghost use Rattle.ciel_log_file.specs.Whole.{BeginsOther};
ghost use Rattle.ciel_words.specs.Inputs.{most_inputs, most_name};
ghost use Rattle.ciel_words.specs.Sound.{LineIsSound};
ghost use Rattle.ciel_run_line.specs.Asked.{NoRunOf};
ghost use Rattle.ciel_run_line.specs.Keeping.{KeepsLog, LogTold, header_of};
ghost use Rattle.ciel_run_line.specs.Answering.{CanRunJob};
ghost use Rattle.ciel_run_line.specs.Causes.{AnswersSo, WaySo};
ghost use Rattle.ciel_run_line.specs.Given.{memo_path};
ghost use Rattle.ciel_run_line.specs.Recall.{gives_with};
ghost use Rattle.ciel_run_line.specs.Line.{SurelyAt};
ghost use Rattle.ciel_run_line.specs.Resuming.{OnwardTold, OwnIfRead, RefusesLog, ReplaysLog};
ghost use Rattle.ciel_run_line.specs.Runs.{log_path};
ghost use Rattle.ciel_run_log.specs.declared.why.Why.{Why};

use crate::answer::{Answered, answer};
use crate::recall::Recalled;
use ciel_gate::gate::Gate;
use ciel_io::keep::Keep;
use ciel_memo::kit::MemoKit;
use ciel_run_load::load::Loaded;
use ciel_words::words::Words;
use line_flow::kit::FlowKit;
use sky_base::text::Bytes;
use std::alloc::Global;
use std::sync::Wait;
use std::thread::Threads;

/// What a job comes to, and the memo's kit, where the line has one.
#[derive(Drop)]
pub struct Remembered<R: Wait + Drop> {
    pub answered: Answered,
    pub memo: Option<MemoKit<FlowKit, R>>,
}

/// What the job of a line comes to with these executors; `log` has the bytes of the log that it goes on from, where it does.
pub(crate) fn answer_given<G, D, R>(
    rt: R,
    alloc: Global,
    line: &Words,
    loaded: Loaded,
    recalled: Option<Recalled<R>>,
    log: Option<Bytes>,
    gates: &mut Vec<G>,
    keep: &mut D,
) -> Remembered<R>
where
    G: Gate + Send + 'static,
    D: Keep,
    R: Threads + Wait + Copy + Send + Sync + Drop + 'static,
    requires line { LineIsSound line.now }
    requires job { CanRunJob (job_view loaded.job) }
    requires keys { AllByRecursion (λ (i : List ℕ × List ℕ). length i.0 ≤ most_name) (job_view loaded.job).inputs }
    requires few { length (job_view loaded.job).inputs ≤ most_inputs }
    requires gates { length gates.old.items ≡ 64 }
    requires log { is_some log ≡ is_some line.now.resume }
    requires within { IfSome log (λ b. length b ≤ most) }
    requires memo { is_some recalled ≡ is_some (memo_path line.now) }
    ensures answers { OwnIfRead (gives_with recalled) line.now loaded.source (job_view loaded.job).inputs (job_view loaded.job) log
        → AnswersSo (gives_with recalled) line.now (map entry_view result.answered.journal.items) (job_view loaded.job) result.answered.result }
    ensures ways { WaySo line.now (map entry_view result.answered.journal.items) result.answered.result }
    ensures refuses { IfErr result.answered.result (RefusesLog (gives_with recalled) line.now loaded.source (job_view loaded.job) log) }
    ensures of_other { (path bytes : List ℕ) → line.now.resume ≡ Some path → log ≡ Some bytes
        → BeginsOther bytes (header_of line.now loaded.source (job_view loaded.job).inputs)
        → (result.answered.result ≡ Err (Why.OtherJob path)) ⊎ (result.answered.result ≡ Err Why.Memory) }
    ensures told { result.answered.result ≢ Err Why.Memory
        → SurelyAt line.now.resume (ToldBy (map entry_view result.answered.journal.items) (told_of G.entered line.now.workers gates.old.items)
        (told_of G.entered line.now.workers gates.new.items))
        (OnwardTold (λ replayed. (bytes : List ℕ) → log ≡ Some bytes
        → OwnIfRead (gives_with recalled) line.now loaded.source (job_view loaded.job).inputs (job_view loaded.job) log
        → ReplaysLog (gives_with recalled) line.now loaded.source (job_view loaded.job).inputs (job_view loaded.job) bytes replayed)
        (map entry_view result.answered.journal.items) (told_of G.entered line.now.workers gates.old.items)
        (told_of G.entered line.now.workers gates.new.items)) }
    ensures others { result.answered.result ≢ Err Why.Memory → drop line.now.workers gates.new.items ≡ drop line.now.workers gates.old.items }
    ensures all { result.answered.result ≢ Err Why.Memory → length gates.new.items ≡ 64 }
    ensures kept { NoRunOf line.now.plain result.answered.result → gates.new ≡ gates.old }
    ensures unasked { log_path line.now ≡ None → keep.new ≡ keep.old }
    ensures keeps { KeepsLog (log_path line.now)
        (record { files = D.files keep.old; asked = D.asked keep.old; faults = D.faults keep.old })
        (record { files = D.files keep.new; asked = D.asked keep.new; faults = D.faults keep.new }) result.answered.result result.answered.state }
    ensures logged { OwnIfRead (gives_with recalled) line.now loaded.source (job_view loaded.job).inputs (job_view loaded.job) log
        → (inputs : List Input) → IsOf loaded.source inputs (job_view loaded.job)
        → LogTold (gives_with recalled) line.now loaded.source inputs
        (map entry_view result.answered.journal.items) (D.files keep.new) result.answered.state result.answered.result }
    ensures memo { result.memo ≡ option_map (λ r. r.kept) recalled }
{
    let Some(recalled) = recalled else {
        return Remembered {
            answered: answer(rt, alloc, line, loaded, FlowKit, log, gates, keep),
            memo: None,
        };
    };
    let Recalled { kit, kept } = recalled;
    Remembered {
        answered: answer(rt, alloc, line, loaded, kit, log, gates, keep),
        memo: Some(kept),
    }
}
