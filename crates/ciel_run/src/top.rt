//! The top call: the words, the reading, the run, and the writing. Each way in which it ends is a `Why`, and each `Why` but want of memory
//! has a clause that says when it comes.

ghost use Rattle.std.specs.Prelude.{◌≡◌, ◌≢◌, ◌≤◌, ◌⊎◌, ◌++◌, [], None, Some, Contains, IfSome, OnErr, OnOk, drop, false, is_some, length, map, option_map, true};
ghost use Rattle.std.specs.List.{IsDistinct};
ghost use Rattle.sky_base.specs.See.{Answered as Meant};
ghost use Rattle.sky_base.specs.Val.{same_text};
ghost use Rattle.ciel_run_line.specs.Gates.{GatesTell};
ghost use Rattle.ciel_run_line.specs.Told.{told_of};
ghost use Rattle.ciel_io.specs.Faults.{HasRisen};
ghost use Rattle.ciel_io.specs.Tells.{Tells, TellsPart};
ghost use Rattle.ciel_run_load.specs.Syntax.{IsSyntaxFault};
ghost use Rattle.ciel_run_line.specs.Views.{entry_view};
ghost use Rattle.ciel_master_board.specs.Ends.{AllAreLost};
ghost use Rattle.ciel_words.specs.Line.{line_of};
ghost use Rattle.ciel_words.specs.Sound.{LineIsSound};
ghost use Rattle.ciel_run_line.specs.Causes.{Clashes, GoesRound, HasBadMemo, HasBadRecord, HasOtherHeader, IfNoMemo, IfOther, HasTooMany, IsTooDeep, TooLongBy};
ghost use Rattle.ciel_run.specs.Ending.{IfBadLog, IfBadMemo, IfEndless, IfFault, IfKeepFault, IfLogFull, IfOtherJob, IfNameClash, IfReadFault, IfSyntax, IfTooDeep, IfTooLong, IfTooMany};
ghost use Rattle.ciel_run_line.specs.Asked.{AsksFor, NoRun, ShowsEnd, StopsFor};
ghost use Rattle.ciel_run_log.specs.Status.{status_of};
ghost use Rattle.ciel_run.specs.Ending.{Answers, AsksKept, AsksLog, ComesBy, EndCause, EndsJob, HasRun, KeepsFiles, MemoSays, memo_of, recalled_of, IsExpected, IsTrouble, LogSays, TellsParts, Writes, WritesAnswer};
ghost use Rattle.ciel_run.specs.Ending.{WritesNothing, WritesPart, trace_of};
ghost use Rattle.ciel_run_line.specs.Logging.{most};
ghost use Rattle.ciel_run_line.specs.Keeping.{HasBytes};
ghost use Rattle.ciel_run_line.specs.Line.{FitsIn, OfLine, OverFiles, OverLine, OverScript, Surely, files_of, is_plain, is_traced, job_paths, last_paths};
ghost use Rattle.ciel_run_line.specs.Line.{behind_job, log_of, paths, paths_in, resume_of};
ghost use Rattle.ciel_run_line.specs.Given.{BeginsWith, memo_path};
ghost use Rattle.ciel_run_line.specs.Line.{workers_of};
ghost use Rattle.ciel_run_log.specs.Message.{message_of};
ghost use Rattle.ciel_run_line.specs.Runs.{EndsShown, IsDriven, NamesHaveOne, StartsFew, StartsMissing, StartsNeeded, WaitsHaveOne};
ghost use Rattle.ciel_run_line.specs.Runs.{log_path, plan_of};
ghost use Rattle.ciel_run_line.specs.Source.{IsAnswer, OfJob};
ghost use Rattle.ciel_run_log.specs.Summary.{output_of};
ghost use Rattle.ciel_run_log.specs.declared.why.Why.{Why};

use crate::memo::remember;
use ciel_gate::gate::Gate;
use ciel_io::files::Files;
use ciel_io::keep::Keep;
use ciel_io::sink::{Failed, Sink};
use ciel_memo::kit::MemoKit;
use ciel_memo_file::law::files_are_told_in_one_way;
use ciel_run_line::answer::Answered;
use ciel_run_line::entry::Entry;
use ciel_run_line::given::Remembered;
use ciel_run_line::law::modest_runs_answer;
use ciel_run_line::lines::answer_line;
use ciel_run_line::state::LogState;
use ciel_run_log::message::put_message;
use ciel_run_log::output::put_answer;
use ciel_run_log::text::put_journal;
use ciel_run_log::why::{Ended, Why};
use ciel_words::law::lines_are_sound;
use ciel_words::words::{Words, WordsRefusal, read_words};
use line_flow::kit::FlowKit;
use sky_base::text::{Bytes, Txt};
use sky_parse_law::law::functions_are_orderly;
use std::alloc::Global;
use std::sync::Wait;
use std::thread::Threads;

/// Runs the program on the words of its command line, without the program's own name. A script and its inputs are read, or a job is
/// generated; it is run on as many workers as the words say, each with its gate, or by the sequential interpreter; and its answer, or the
/// summary of a generated one, is written to `out`. With `--trace` the journal's text goes to `log` then. Where the status isn't 0, the
/// message goes there too, and a failure there changes nothing else. With `--log` a log of the run is kept at a path of `keep`, and where
/// not all of it can be, that is told once the answer is written. With `--memo` the entries of a memo's file come before what the executors
/// give, and with it or with `--memo-new` the file is written again behind an answer or a fault, with what the executors gave.
///
/// A script has at most 1,048,576 bytes, and an input at most 16,777,216. The inputs are read in the order of the words, after the script
/// was seen to be one. The executors are those over lines. There are 64 gates, of which the first are the workers'.
pub fn ciel_main<F: Files, O: Sink, J: Sink, G, D, R>(
    rt: R,
    alloc: Global,
    words: &[Txt],
    files: &mut F,
    out: &mut O,
    log: &mut J,
    gates: &mut Vec<G>,
    keep: &mut D,
) -> Ended
where
    G: Gate + Send + 'static,
    D: Keep,
    R: Threads + Wait + Copy + Send + Sync + Drop + 'static,
    requires gates { length gates.old.items ≡ 64 }

    // What is written where it ends well.
    ensures bytes { result.status ≡ 0 → OverFiles (F.content files.old) words.now
        (λ g w source inputs. WritesAnswer g w source inputs (O.written out.old) (O.written out.new)) }

    // What the journal says: it is that of a driven history, and where there is an answer it ends with the root task. Each task started was
    // needed, none was started whose outputs were all live, they are few, no name was made with two values, and no wait was saved with two.
    ensures driven { OverFiles (F.content files.old) words.now (λ g w source inputs. IsDriven g w source inputs (map entry_view result.journal.items)) }
    ensures root { is_plain (line_of words.now) ≡ false → ShowsEnd result.why
        → OverFiles (F.content files.old) words.now (λ g w source inputs. EndsShown g w source inputs (map entry_view result.journal.items)) }
    ensures needed { OverFiles (F.content files.old) words.now
        (λ g w source inputs. StartsNeeded g w source inputs (map entry_view result.journal.items)) }
    ensures missing { OverFiles (F.content files.old) words.now
        (λ g w source inputs. StartsMissing g w source inputs (map entry_view result.journal.items)) }
    ensures few { OverFiles (F.content files.old) words.now (λ g w source inputs. StartsFew g w source inputs (map entry_view result.journal.items)) }
    ensures one_value { OverFiles (F.content files.old) words.now
        (λ g w source inputs. NamesHaveOne g w source inputs (map entry_view result.journal.items)) }
    ensures one_wait { OverFiles (F.content files.old) words.now
        (λ g w source inputs. WaitsHaveOne g w source inputs (map entry_view result.journal.items)) }
    ensures empty { NoRun (is_plain (line_of words.now)) result.why → map entry_view result.journal.items ≡ [] }
    ensures none_begins { line_of words.now ≡ None → map entry_view result.journal.items ≡ [] }

    // What the gates tell.
    ensures told { result.why ≢ Why.Memory → GatesTell (F.content files.old) (line_of words.now) (map entry_view result.journal.items)
        (told_of G.entered (workers_of (line_of words.now)) gates.old.items)
        (told_of G.entered (workers_of (line_of words.now)) gates.new.items) }
    ensures others { result.why ≢ Why.Memory → drop (workers_of (line_of words.now)) gates.new.items
        ≡ drop (workers_of (line_of words.now)) gates.old.items }
    ensures all { result.why ≢ Why.Memory → length gates.new.items ≡ 64 }
    ensures kept { NoRun (is_plain (line_of words.now)) result.why → gates.new ≡ gates.old }
    ensures none_enters { line_of words.now ≡ None → gates.new ≡ gates.old }

    // When each other end comes.
    ensures usage { result.why ≡ Why.Usage → line_of words.now ≡ None }
    ensures no_line { line_of words.now ≡ None → (result.why ≡ Why.Usage) ⊎ (result.why ≡ Why.Memory) }
    ensures way { ComesBy (is_plain (line_of words.now)) result.why }
    ensures limits { HasRun result.why → OverFiles (F.content files.old) words.now (λ g w source inputs. FitsIn (files_of w) source inputs) }
    ensures syntax { IfSyntax result.why (λ kind line col. OverScript (F.content files.old) words.now
        (λ w source. IsSyntaxFault source kind line col)) }
    ensures fault { IfFault result.why (λ fault. OverFiles (F.content files.old) words.now
        (λ g w source inputs. IsAnswer g source inputs (Meant.fault fault))) }
    ensures endless { IfEndless result.why (λ names. OverFiles (F.content files.old) words.now
        (λ g w source inputs. OfJob source inputs (λ job. GoesRound g w (map entry_view result.journal.items) job names))) }
    ensures distinct { IfEndless result.why (λ names. OverLine (F.content files.old) words.now (λ w. Surely (F.content files.old) w (IsDistinct same_text names))) }
    ensures too_many { IfTooMany result.why (λ held given. OverFiles (F.content files.old) words.now
        (λ g w source inputs. OfJob source inputs (λ job. HasTooMany g w (map entry_view result.journal.items) job held given))) }
    ensures all_lost { result.why ≡ Why.AllLost
        → OverLine (F.content files.old) words.now
        (λ w. (w.plain ≡ false) × Surely (F.content files.old) w (AllAreLost (plan_of w) (map entry_view result.journal.items))) }
    ensures name_clash { IfNameClash result.why
        (λ kept given. OverFiles (F.content files.old) words.now
        (λ g w source inputs. OfJob source inputs (λ job. Clashes g w (map entry_view result.journal.items) job kept given))) }
    ensures too_deep { IfTooDeep result.why (λ depth. OverFiles (F.content files.old) words.now
        (λ g w source inputs. OfJob source inputs (λ job. IsTooDeep g w (map entry_view result.journal.items) job depth))) }
    ensures too_long { IfTooLong result.why (λ path at. OverLine (F.content files.old) words.now
        (λ w. TooLongBy (F.content files.old) w path at)) }
    ensures read_fault { IfReadFault result.why
        (λ path. Contains (paths (line_of words.now)) path × HasRisen (F.faults files.old) (F.faults files.new)) }
    ensures write_fault { result.why ≡ Why.WriteFault → HasRisen (O.faults out.old) (O.faults out.new)
        ⊎ ((is_traced (line_of words.now) ≡ true) × HasRisen (J.faults log.old) (J.faults log.new)) }
    ensures answer_first { result.why ≡ Why.WriteFault → HasRisen (O.faults out.old) (O.faults out.new)
        ⊎ OverFiles (F.content files.old) words.now (λ g w source inputs. WritesAnswer g w source inputs (O.written out.old) (O.written out.new)) }

    // Which end comes where files tell, and reading and writing go well; and that it is the answer, where the job means one and some worker
    // stays.
    ensures complete { ¬ HasRisen (F.faults files.old) (F.faults files.new) → ¬ HasRisen (O.faults out.old) (O.faults out.new)
        → ¬ HasRisen (J.faults log.old) (J.faults log.new)
        → (KeepsFiles (line_of words.now) → ¬ HasRisen (D.faults keep.old) (D.faults keep.new))
        → OverFiles (F.content files.old) words.now (λ g w source inputs. IsExpected g w source inputs result.why) }
    ensures answers { ¬ HasRisen (F.faults files.old) (F.faults files.new) → ¬ HasRisen (O.faults out.old) (O.faults out.new)
        → ¬ HasRisen (J.faults log.old) (J.faults log.new)
        → (KeepsFiles (line_of words.now) → ¬ HasRisen (D.faults keep.old) (D.faults keep.new))
        → OverFiles (F.content files.old) words.now (λ g w source inputs. Answers g w source inputs result.why) }

    // What was asked, and what was written where it doesn't end well.
    ensures asked { AsksFor result.why (job_paths (line_of words.now)) (last_paths (line_of words.now)) (F.asked files.old) (F.asked files.new) }
    ensures order { OverLine (F.content files.old) words.now
        (λ w. StopsFor (F.content files.old) (files_of w) w.memo w.resume (F.asked files.old) (F.asked files.new) result.why) }
    ensures part { result.why ≡ Why.WriteFault → OverFiles (F.content files.old) words.now
        (λ g w source inputs. WritesPart g w source inputs (O.written out.old) (O.written out.new)) }
    ensures nothing { WritesNothing result.why → out.new ≡ out.old }
    ensures all_or_nothing { result.why ≡ Why.Memory → (out.new ≡ out.old)
        ⊎ OverFiles (F.content files.old) words.now (λ g w source inputs. WritesAnswer g w source inputs (O.written out.old) (O.written out.new)) }

    // The log of the run. Where it couldn't be begun nothing ran; and where it is not whole the answer was written.
    ensures keep_fault { IfKeepFault result.why
        (λ path. ((log_of (line_of words.now) ≡ Some path) ⊎ (memo_of (line_of words.now) ≡ Some path)) × HasRisen (D.faults keep.old) (D.faults keep.new)) }
    ensures begun { IfKeepFault result.why (λ path. ((map entry_view result.journal.items ≡ []) × (gates.new ≡ gates.old) × (out.new ≡ out.old))
        ⊎ OverFiles (F.content files.old) words.now (λ g w source inputs. EndsShown g w source inputs (map entry_view result.journal.items)
        × WritesAnswer g w source inputs (O.written out.old) (O.written out.new))) }
    ensures log_full { IfLogFull result.why
        (λ path held. (log_of (line_of words.now) ≡ Some path) × (held ≤ most) × HasBytes path (D.files keep.new) held) }
    ensures full { IfLogFull result.why (λ path held. OverFiles (F.content files.old) words.now
        (λ g w source inputs. WritesAnswer g w source inputs (O.written out.old) (O.written out.new))) }
    ensures unasked { log_of (line_of words.now) ≡ None → memo_of (line_of words.now) ≡ None → keep.new ≡ keep.old }
    ensures keep_asked { AsksKept (log_of (line_of words.now)) (memo_of (line_of words.now)) result.why (D.asked keep.old) (D.asked keep.new) }
    ensures log_told { OverFiles (F.content files.old) words.now
        (λ g w source inputs. LogSays g w source inputs (map entry_view result.journal.items) (HasRisen (D.faults keep.old) (D.faults keep.new))
        (D.files keep.new) result.why) }

    // The log that a run goes on from. Where it is refused nothing ran.
    ensures bad_log { IfBadLog result.why (λ path at. (resume_of (line_of words.now) ≡ Some path)
        × OverLine (F.content files.old) words.now (λ w. HasBadRecord (F.content files.old) w path at)) }
    ensures other_job { IfOtherJob result.why (λ path. (resume_of (line_of words.now) ≡ Some path)
        × OverLine (F.content files.old) words.now (λ w. HasOtherHeader (F.content files.old) w path)) }
    ensures of_other { ¬ HasRisen (F.faults files.old) (F.faults files.new) → OverLine (F.content files.old) words.now
        (λ w. IfOther (F.content files.old) w (λ path. (result.why ≡ Why.OtherJob path) ⊎ (result.why ≡ Why.Memory))) }

    // The memo. Where the file that is read is none nothing ran; and where the answer was written and all is well, the file is one again, of the
    // entries it began with and of new ones, each of which the executors over lines give.
    ensures bad_memo { IfBadMemo result.why (λ path at. (recalled_of (line_of words.now) ≡ Some path)
        × OverLine (F.content files.old) words.now (λ w. HasBadMemo (F.content files.old) w path at)) }
    ensures of_bad_memo { ¬ HasRisen (F.faults files.old) (F.faults files.new) → OverLine (F.content files.old) words.now
        (λ w. IfNoMemo (F.content files.old) w (λ path at. (result.why ≡ Why.BadMemo path at) ⊎ (result.why ≡ Why.Memory))) }
    ensures memo { result.why ≡ Why.Done → OverLine (F.content files.old) words.now (λ w. MemoSays (F.content files.old) w (D.files keep.new)) }

    // What is put on the log: the journal's text where it is asked for, and the message, which is empty for an answer that was written.
    ensures message { ¬ HasRisen (J.faults log.old) (J.faults log.new)
        → Tells (J.written log.old) (J.written log.new)
        (trace_of (is_traced (line_of words.now)) result.journal.items ++ message_of result.why) }
    ensures message_part { TellsParts (J.written log.old) (J.written log.new) (trace_of (is_traced (line_of words.now)) result.journal.items)
        (message_of result.why) }
    ensures logged { result.why ≡ Why.Done
        → Tells (J.written log.old) (J.written log.new) (trace_of (is_traced (line_of words.now)) result.journal.items) }

    ensures status { result.status ≡ status_of result.why }
{
    let line = match read_words(alloc, words) {
        Ok(line) => line,
        Err(WordsRefusal::Usage) => return refused(alloc, Why::Usage, log),
        Err(WordsRefusal::Memory) => return refused(alloc, Why::Memory, log),
    };
    lines_are_sound();
    modest_runs_answer();
    functions_are_orderly();
    files_are_told_in_one_way();
    run_line(rt, alloc, &line, files, out, log, gates, keep)
}

/// Ends a call whose words are no line, with its message.
fn refused<J: Sink>(alloc: Global, why: Why, log: &mut J) -> Ended
    requires why { why ≢ Why.Done }
    ensures why { result.why ≡ why }
    ensures empty { result.journal.items ≡ [] }
    ensures status { result.status ≡ status_of why }
    ensures message { ¬ HasRisen (J.faults log.old) (J.faults log.new) → Tells (J.written log.old) (J.written log.new) (message_of why) }
    ensures message_part { TellsPart (J.written log.old) (J.written log.new) (message_of why) }
{
    let _ = put_message(&why, log);
    ended(why, Vec::new(alloc))
}

fn ended(why: Why, journal: Vec<Entry>) -> Ended
    ensures { result ≡ record { status = status_of why; why = why; journal = journal } }
{
    Ended {
        status: why.status(),
        why,
        journal,
    }
}

/// Runs a line, writes what it comes to, and then its memo.
fn run_line<F: Files, O: Sink, J: Sink, G, D, R>(
    rt: R,
    alloc: Global,
    line: &Words,
    files: &mut F,
    out: &mut O,
    log: &mut J,
    gates: &mut Vec<G>,
    keep: &mut D,
) -> Ended
where
    G: Gate + Send + 'static,
    D: Keep,
    R: Threads + Wait + Copy + Send + Sync + Drop + 'static,
    requires line { LineIsSound line.now }
    requires gates { length gates.old.items ≡ 64 }
    ensures done { result.why ≡ Why.Done → Writes (F.content files.old) line.now (Tells (O.written out.old) (O.written out.new)) }
    ensures part { result.why ≡ Why.WriteFault → Writes (F.content files.old) line.now (TellsPart (O.written out.old) (O.written out.new)) }
    ensures nothing { WritesNothing result.why → out.new ≡ out.old }
    ensures all_or_nothing { result.why ≡ Why.Memory → (out.new ≡ out.old)
        ⊎ Writes (F.content files.old) line.now (Tells (O.written out.old) (O.written out.new)) }
    ensures keep_fault { IfKeepFault result.why (λ path. HasRisen (D.faults keep.old) (D.faults keep.new)) }
    ensures begun { IfKeepFault result.why (λ path. ((map entry_view result.journal.items ≡ []) × (gates.new ≡ gates.old) × (out.new ≡ out.old))
        ⊎ (Writes (F.content files.old) line.now (Tells (O.written out.old) (O.written out.new))
        × OfLine (F.content files.old) line.now (λ g source inputs. EndsShown g line.now source inputs (map entry_view result.journal.items)))) }
    ensures log_full { IfLogFull result.why (λ path held. (held ≤ most) × HasBytes path (D.files keep.new) held) }
    ensures full { IfLogFull result.why (λ path held. Writes (F.content files.old) line.now (Tells (O.written out.old) (O.written out.new))) }
    ensures unasked { log_path line.now ≡ None → memo_path line.now ≡ None → keep.new ≡ keep.old }
    ensures keep_asked { AsksKept (log_path line.now) (memo_path line.now) result.why (D.asked keep.old) (D.asked keep.new) }
    ensures log_told { OfLine (F.content files.old) line.now
        (λ g source inputs. LogSays g line.now source inputs (map entry_view result.journal.items) (HasRisen (D.faults keep.old) (D.faults keep.new))
        (D.files keep.new) result.why) }
    ensures of_other { ¬ HasRisen (F.faults files.old) (F.faults files.new)
        → IfOther (F.content files.old) line.now (λ path. (result.why ≡ Why.OtherJob path) ⊎ (result.why ≡ Why.Memory)) }
    ensures of_bad_memo { ¬ HasRisen (F.faults files.old) (F.faults files.new)
        → IfNoMemo (F.content files.old) line.now (λ path at. (result.why ≡ Why.BadMemo path at) ⊎ (result.why ≡ Why.Memory)) }
    ensures cause { EndCause (F.content files.old) line.now (HasRisen (F.faults files.old) (F.faults files.new))
        (map entry_view result.journal.items) result.why }
    ensures write_fault { result.why ≡ Why.WriteFault → HasRisen (O.faults out.old) (O.faults out.new)
        ⊎ ((line.now.trace ≡ true) × HasRisen (J.faults log.old) (J.faults log.new)) }
    ensures answer_first { result.why ≡ Why.WriteFault → HasRisen (O.faults out.old) (O.faults out.new)
        ⊎ Writes (F.content files.old) line.now (Tells (O.written out.old) (O.written out.new)) }
    ensures driven { OfLine (F.content files.old) line.now (λ g source inputs. IsDriven g line.now source inputs (map entry_view result.journal.items)) }
    ensures root { line.now.plain ≡ false → ShowsEnd result.why
        → OfLine (F.content files.old) line.now (λ g source inputs. EndsShown g line.now source inputs (map entry_view result.journal.items)) }
    ensures empty { NoRun line.now.plain result.why → map entry_view result.journal.items ≡ [] }
    ensures kept { NoRun line.now.plain result.why → gates.new ≡ gates.old }
    ensures told { result.why ≢ Why.Memory → GatesTell (F.content files.old) (Some line.now) (map entry_view result.journal.items)
        (told_of G.entered line.now.workers gates.old.items)
        (told_of G.entered line.now.workers gates.new.items) }
    ensures others { result.why ≢ Why.Memory → drop line.now.workers gates.new.items ≡ drop line.now.workers gates.old.items }
    ensures all { result.why ≢ Why.Memory → length gates.new.items ≡ 64 }
    ensures asked { AsksFor result.why (paths_in (files_of line.now)) (behind_job line.now) (F.asked files.old) (F.asked files.new) }
    ensures order { StopsFor (F.content files.old) (files_of line.now) line.now.memo line.now.resume (F.asked files.old) (F.asked files.new) result.why }
    ensures message { ¬ HasRisen (J.faults log.old) (J.faults log.new)
        → Tells (J.written log.old) (J.written log.new) (trace_of line.now.trace result.journal.items ++ message_of result.why) }
    ensures message_part { TellsParts (J.written log.old) (J.written log.new) (trace_of line.now.trace result.journal.items) (message_of result.why) }
    ensures logged { result.why ≡ Why.Done → Tells (J.written log.old) (J.written log.new) (trace_of line.now.trace result.journal.items) }
    ensures status { result.status ≡ status_of result.why }
    ensures memo { result.why ≡ Why.Done → MemoSays (F.content files.old) line.now (D.files keep.new) }
{
    files_are_told_in_one_way();
    let noted = run(rt, alloc, line, files, out, log, gates, keep);
    let Noted { ended: told, memo } = noted;
    let Ended { why, journal, .. } = told;
    let why = remember(alloc, line, memo, why, log, keep);
    ended(why, journal)
}

/// How a line's run ended, and its memo's kit, where it has one.
#[derive(Drop)]
struct Noted<R: Wait + Drop> {
    ended: Ended,
    memo: Option<MemoKit<FlowKit, R>>,
}

/// Runs a line, and writes what it comes to.
fn run<F: Files, O: Sink, J: Sink, G, D, R>(
    rt: R,
    alloc: Global,
    line: &Words,
    files: &mut F,
    out: &mut O,
    log: &mut J,
    gates: &mut Vec<G>,
    keep: &mut D,
) -> Noted<R>
where
    G: Gate + Send + 'static,
    D: Keep,
    R: Threads + Wait + Copy + Send + Sync + Drop + 'static,
    requires line { LineIsSound line.now }
    requires gates { length gates.old.items ≡ 64 }
    ensures done { result.ended.why ≡ Why.Done → Writes (F.content files.old) line.now (Tells (O.written out.old) (O.written out.new)) }
    ensures part { result.ended.why ≡ Why.WriteFault → Writes (F.content files.old) line.now (TellsPart (O.written out.old) (O.written out.new)) }
    ensures nothing { WritesNothing result.ended.why → out.new ≡ out.old }
    ensures all_or_nothing { result.ended.why ≡ Why.Memory → (out.new ≡ out.old)
        ⊎ Writes (F.content files.old) line.now (Tells (O.written out.old) (O.written out.new)) }
    ensures keep_fault { IfKeepFault result.ended.why (λ path. HasRisen (D.faults keep.old) (D.faults keep.new)) }
    ensures begun { IfKeepFault result.ended.why (λ path. ((map entry_view result.ended.journal.items ≡ []) × (gates.new ≡ gates.old) × (out.new ≡ out.old))
        ⊎ (Writes (F.content files.old) line.now (Tells (O.written out.old) (O.written out.new))
        × OfLine (F.content files.old) line.now (λ g source inputs. EndsShown g line.now source inputs (map entry_view result.ended.journal.items)))) }
    ensures log_full { IfLogFull result.ended.why (λ path held. (held ≤ most) × HasBytes path (D.files keep.new) held) }
    ensures full { IfLogFull result.ended.why (λ path held. Writes (F.content files.old) line.now (Tells (O.written out.old) (O.written out.new))) }
    ensures keep_never_falls { EndsJob result.ended.why → D.faults keep.old ≤ D.faults keep.new }
    ensures unasked { log_path line.now ≡ None → keep.new ≡ keep.old }
    ensures keep_asked { AsksLog (log_path line.now) result.ended.why (D.asked keep.old) (D.asked keep.new) }
    ensures log_told { OfLine (F.content files.old) line.now
        (λ g source inputs. LogSays g line.now source inputs (map entry_view result.ended.journal.items) (HasRisen (D.faults keep.old) (D.faults keep.new))
        (D.files keep.new) result.ended.why) }
    ensures of_other { ¬ HasRisen (F.faults files.old) (F.faults files.new)
        → IfOther (F.content files.old) line.now (λ path. (result.ended.why ≡ Why.OtherJob path) ⊎ (result.ended.why ≡ Why.Memory)) }
    ensures of_bad_memo { ¬ HasRisen (F.faults files.old) (F.faults files.new)
        → IfNoMemo (F.content files.old) line.now (λ path at. (result.ended.why ≡ Why.BadMemo path at) ⊎ (result.ended.why ≡ Why.Memory)) }
    ensures cause { EndCause (F.content files.old) line.now (HasRisen (F.faults files.old) (F.faults files.new))
        (map entry_view result.ended.journal.items) result.ended.why }
    ensures write_fault { result.ended.why ≡ Why.WriteFault → HasRisen (O.faults out.old) (O.faults out.new)
        ⊎ ((line.now.trace ≡ true) × HasRisen (J.faults log.old) (J.faults log.new)) }
    ensures answer_first { result.ended.why ≡ Why.WriteFault → HasRisen (O.faults out.old) (O.faults out.new)
        ⊎ Writes (F.content files.old) line.now (Tells (O.written out.old) (O.written out.new)) }
    ensures driven { OfLine (F.content files.old) line.now (λ g source inputs. IsDriven g line.now source inputs (map entry_view result.ended.journal.items)) }
    ensures root { line.now.plain ≡ false → ShowsEnd result.ended.why
        → OfLine (F.content files.old) line.now (λ g source inputs. EndsShown g line.now source inputs (map entry_view result.ended.journal.items)) }
    ensures empty { NoRun line.now.plain result.ended.why → map entry_view result.ended.journal.items ≡ [] }
    ensures kept { NoRun line.now.plain result.ended.why → gates.new ≡ gates.old }
    ensures told { result.ended.why ≢ Why.Memory → GatesTell (F.content files.old) (Some line.now) (map entry_view result.ended.journal.items)
        (told_of G.entered line.now.workers gates.old.items)
        (told_of G.entered line.now.workers gates.new.items) }
    ensures others { result.ended.why ≢ Why.Memory → drop line.now.workers gates.new.items ≡ drop line.now.workers gates.old.items }
    ensures all { result.ended.why ≢ Why.Memory → length gates.new.items ≡ 64 }
    ensures asked { AsksFor result.ended.why (paths_in (files_of line.now)) (behind_job line.now) (F.asked files.old) (F.asked files.new) }
    ensures order { StopsFor (F.content files.old) (files_of line.now) line.now.memo line.now.resume (F.asked files.old) (F.asked files.new) result.ended.why }
    ensures message { ¬ HasRisen (J.faults log.old) (J.faults log.new)
        → Tells (J.written log.old) (J.written log.new) (trace_of line.now.trace result.ended.journal.items ++ message_of result.ended.why) }
    ensures message_part { TellsParts (J.written log.old) (J.written log.new) (trace_of line.now.trace result.ended.journal.items) (message_of result.ended.why) }
    ensures logged { result.ended.why ≡ Why.Done
        → Tells (J.written log.old) (J.written log.new) (trace_of line.now.trace result.ended.journal.items) }
    ensures log_never_falls { J.faults log.old ≤ J.faults log.new }
    ensures status { result.ended.status ≡ status_of result.ended.why }
    ensures entries { IfSome result.memo (λ kit. BeginsWith (F.content files.old) line.now.memo kit.entries) }
    ensures memo { EndsJob result.ended.why → is_some result.memo ≡ is_some (memo_path line.now) }
{
    files_are_told_in_one_way();
    let Remembered { answered, memo } = answer_line(rt, alloc, line, files, gates, keep);
    let Answered {
        result,
        journal,
        state,
    } = answered;
    match result {
        Ok(answer) => {
            let why = finish(line, &answer, journal.as_slice(), state, out, log);
            Noted {
                ended: ended(why, journal),
                memo,
            }
        }
        Err(why) => {
            tell(line.trace, journal.as_slice(), &why, log);
            Noted {
                ended: ended(why, journal),
                memo,
            }
        }
    }
}

/// Writes an answer, and the journal's text where the line asks for it. Where both went well, it is told what came in the way of the log.
fn finish<O: Sink, J: Sink>(
    line: &Words,
    answer: &Bytes,
    journal: &[Entry],
    state: LogState,
    out: &mut O,
    log: &mut J,
) -> Why
    ensures ends { (result ≡ Why.WriteFault) ⊎ IsTrouble (log_path line.now) state result }
    ensures written { result ≢ Why.WriteFault → Tells (O.written out.old) (O.written out.new) (output_of line.now.generate answer.now) }
    ensures part { result ≡ Why.WriteFault → TellsPart (O.written out.old) (O.written out.new) (output_of line.now.generate answer.now) }
    ensures write_fault { result ≡ Why.WriteFault → HasRisen (O.faults out.old) (O.faults out.new)
        ⊎ ((line.now.trace ≡ true) × HasRisen (J.faults log.old) (J.faults log.new)) }
    ensures answer_first { result ≡ Why.WriteFault → HasRisen (O.faults out.old) (O.faults out.new)
        ⊎ Tells (O.written out.old) (O.written out.new) (output_of line.now.generate answer.now) }
    ensures message { ¬ HasRisen (J.faults log.old) (J.faults log.new)
        → Tells (J.written log.old) (J.written log.new) (trace_of line.now.trace journal.now ++ message_of result) }
    ensures message_part { TellsParts (J.written log.old) (J.written log.new) (trace_of line.now.trace journal.now) (message_of result) }
    ensures logged { result ≡ Why.Done → Tells (J.written log.old) (J.written log.new) (trace_of line.now.trace journal.now) }
    ensures never_falls { J.faults log.old ≤ J.faults log.new }
{
    match write(line, answer, journal, out, log) {
        Why::Done => tell_trouble(line, state, log),
        why => why,
    }
}

/// The path of the log of a line's run, whether it is begun or gone on from.
fn log_path(line: &Words) -> Option<&Txt>
    ensures { option_map (λ p. p.now) result ≡ log_path line.now }
{
    match &line.log {
        Some(path) => Some(path),
        None => line.resume.as_ref(),
    }
}

/// Why a call doesn't end well whose answer was written, where the log stands so.
fn trouble(line: &Words, state: LogState) -> Why
    ensures { IsTrouble (log_path line.now) state result }
{
    if state == LogState::Whole {
        return Why::Done;
    }
    let Some(path) = log_path(line) else {
        return Why::Done;
    };
    match (state, path.share()) {
        (LogState::Failed, Ok(path)) => Why::KeepFault { path },
        (LogState::Full { held }, Ok(path)) => Why::LogFull { path, held },
        _ => Why::Memory,
    }
}

/// The same, and where it doesn't end well the message is put on the log.
fn tell_trouble<J: Sink>(line: &Words, state: LogState, log: &mut J) -> Why
    ensures trouble { IsTrouble (log_path line.now) state result }
    ensures never_falls { J.faults log.old ≤ J.faults log.new }
    ensures message { ¬ HasRisen (J.faults log.old) (J.faults log.new) → Tells (J.written log.old) (J.written log.new) (message_of result) }
    ensures message_part { TellsPart (J.written log.old) (J.written log.new) (message_of result) }
    ensures quiet { result ≡ Why.Done → log.new ≡ log.old }
{
    let why = trouble(line, state);
    if !matches!(&why, Why::Done) {
        let _ = put_message(&why, log);
    }
    why
}

/// Writes an answer, and then the journal's text where the line asks for it. Where either fails, the message follows.
fn write<O: Sink, J: Sink>(
    line: &Words,
    answer: &Bytes,
    journal: &[Entry],
    out: &mut O,
    log: &mut J,
) -> Why
    ensures ends { (result ≡ Why.Done) ⊎ (result ≡ Why.WriteFault) }
    ensures done { result ≡ Why.Done → Tells (O.written out.old) (O.written out.new) (output_of line.now.generate answer.now) }
    ensures part { result ≡ Why.WriteFault → TellsPart (O.written out.old) (O.written out.new) (output_of line.now.generate answer.now) }
    ensures write_fault { result ≡ Why.WriteFault → HasRisen (O.faults out.old) (O.faults out.new)
        ⊎ ((line.now.trace ≡ true) × HasRisen (J.faults log.old) (J.faults log.new)) }
    ensures answer_first { result ≡ Why.WriteFault → HasRisen (O.faults out.old) (O.faults out.new)
        ⊎ Tells (O.written out.old) (O.written out.new) (output_of line.now.generate answer.now) }
    ensures never_falls { J.faults log.old ≤ J.faults log.new }
    ensures message { ¬ HasRisen (J.faults log.old) (J.faults log.new)
        → Tells (J.written log.old) (J.written log.new) (trace_of line.now.trace journal.now ++ message_of result) }
    ensures message_part { TellsParts (J.written log.old) (J.written log.new) (trace_of line.now.trace journal.now) (message_of result) }
    ensures logged { result ≡ Why.Done → Tells (J.written log.old) (J.written log.new) (trace_of line.now.trace journal.now) }
{
    match put_answer(line.generate, answer.as_slice(), out) {
        Ok(()) => trace(line.trace, journal, log),
        Err(_) => {
            tell(line.trace, journal, &Why::WriteFault, log);
            Why::WriteFault
        }
    }
}

/// Puts the journal's text on the log, where it is asked for. Where that fails, the message follows.
fn trace<J: Sink>(traced: bool, journal: &[Entry], log: &mut J) -> Why
    ensures ends { (result ≡ Why.Done) ⊎ (result ≡ Why.WriteFault) }
    ensures write_fault { result ≡ Why.WriteFault → (traced ≡ true) × HasRisen (J.faults log.old) (J.faults log.new) }
    ensures never_falls { J.faults log.old ≤ J.faults log.new }
    ensures message { ¬ HasRisen (J.faults log.old) (J.faults log.new)
        → Tells (J.written log.old) (J.written log.new) (trace_of traced journal.now ++ message_of result) }
    ensures message_part { TellsParts (J.written log.old) (J.written log.new) (trace_of traced journal.now) (message_of result) }
    ensures logged { result ≡ Why.Done → Tells (J.written log.old) (J.written log.new) (trace_of traced journal.now) }
{
    match put_trace(traced, journal, log) {
        Ok(()) => Why::Done,
        Err(_) => {
            let _ = put_message(&Why::WriteFault, log);
            Why::WriteFault
        }
    }
}

/// Puts the journal's text on the log, where it is asked for.
fn put_trace<J: Sink>(traced: bool, journal: &[Entry], log: &mut J) -> Result<(), Failed>
    ensures written { OnOk result (Tells (J.written log.old) (J.written log.new) (trace_of traced journal.now)) }
    ensures part { OnErr result (TellsPart (J.written log.old) (J.written log.new) (trace_of traced journal.now)) }
    ensures cause { OnErr result (HasRisen (J.faults log.old) (J.faults log.new)) }
    ensures traced { OnErr result (traced ≡ true) }
    ensures never_falls { J.faults log.old ≤ J.faults log.new }
{
    if traced {
        return put_journal(journal, log);
    }
    Ok(())
}

/// Puts the journal's text on the log, where it is asked for, and the message behind it. What fails there changes nothing else.
fn tell<J: Sink>(traced: bool, journal: &[Entry], why: &Why, log: &mut J)
    requires why { why.now ≢ Why.Done }
    ensures never_falls { J.faults log.old ≤ J.faults log.new }
    ensures message { ¬ HasRisen (J.faults log.old) (J.faults log.new)
        → Tells (J.written log.old) (J.written log.new) (trace_of traced journal.now ++ message_of why.now) }
    ensures message_part { TellsParts (J.written log.old) (J.written log.new) (trace_of traced journal.now) (message_of why.now) }
{
    let _ = put_trace(traced, journal, log);
    let _ = put_message(why, log);
}
