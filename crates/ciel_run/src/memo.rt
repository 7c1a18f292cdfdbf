//! What is written of a line's memo, behind an answer or a fault.

ghost use Rattle.std.specs.Prelude.{◌≡◌, ◌≢◌, ◌≤◌, ◌⊎◌, ◌∷◌, [], None, IfErr, IfSome, OnOk, false, option_map, true};
ghost use Rattle.ciel_io.specs.Faults.{HasRisen};
ghost use Rattle.ciel_io.specs.Kept.{Changes};
ghost use Rattle.ciel_io.specs.Tells.{Tells, TellsPart};
ghost use Rattle.ciel_run.specs.Ending.{EndsJob, IsMemoWith, Remembers};
ghost use Rattle.ciel_run_line.specs.Given.{memo_path};
ghost use Rattle.ciel_run_log.specs.Message.{message_of};
ghost use Rattle.ciel_run.specs.declared.memo.NotKept.{NotKept as NotKeptSeen};
ghost use Rattle.ciel_run_log.specs.declared.why.Why.{Why};

use ciel_io::keep::Keep;
use ciel_io::sink::Sink;
use ciel_memo::kit::MemoKit;
use ciel_run_log::message::put_message;
use ciel_run_log::why::Why;
use ciel_words::words::Words;
use line_flow::kit::FlowKit;
use sky_base::text::Txt;
use std::alloc::Global;
use std::sync::Wait;

/// Why a memo's file wasn't written.
#[derive(Drop)]
enum NotKept {
    /// The keeper failed.
    Failed,
    /// Want of memory for its text.
    Memory,
}

/// The path of a line's memo, whether it is begun or read first.
fn memo_path(line: &Words) -> Option<&Txt>
    ensures { option_map (λ p. p.now) result ≡ memo_path line.now }
{
    match &line.memo_new {
        Some(path) => Some(path),
        None => line.memo.as_ref(),
    }
}

/// Whether the job of a call came to its answer, or to a fault, and nothing came in the way.
fn ends_job(why: &Why) -> bool
    ensures ends { result ≡ true → EndsJob why.now }
    ensures done { result ≡ false → why.now ≢ Why.Done }
{
    matches!(why, Why::Done | Why::Fault(_))
}

/// Writes the memo's file: its entries, and what it has kept since.
fn write_memo<D: Keep, R: Wait + Drop>(
    alloc: Global,
    kit: &MemoKit<FlowKit, R>,
    path: &Txt,
    keep: &mut D,
) -> Result<(), NotKept>
    ensures written { OnOk result (Changes (D.files keep.old) (D.files keep.new) path.now (λ old bytes. IsMemoWith kit.now.entries bytes)) }
    ensures asked { (keep.new ≡ keep.old) ⊎ Tells (D.asked keep.old) (D.asked keep.new) (path.now ∷ []) }
    ensures failed { IfErr result (λ not. not ≡ NotKeptSeen.Failed → HasRisen (D.faults keep.old) (D.faults keep.new)) }
    ensures changed { (keep.new ≡ keep.old) ⊎ Changes (D.files keep.old) (D.files keep.new) path.now (λ old bytes. Unit {0}) }
    ensures never_falls { D.faults keep.old ≤ D.faults keep.new }
{
    let Ok(text) = kit.text(alloc) else {
        return Err(NotKept::Memory);
    };
    match keep.replace(path, text.as_slice()) {
        Ok(()) => Ok(()),
        Err(_) => Err(NotKept::Failed),
    }
}

/// Why a call doesn't end well whose memo's file wasn't written.
fn why_not(not: NotKept, path: &Txt) -> Why
    ensures why { (result ≡ Why.KeepFault path.now) ⊎ (result ≡ Why.Memory) }
    ensures failed { (p : _) → result ≡ Why.KeepFault p → not ≡ NotKeptSeen.Failed }
    ensures done { result ≢ Why.Done }
{
    let Ok(path) = path.share() else {
        return Why::Memory;
    };
    match not {
        NotKept::Failed => Why::KeepFault { path },
        NotKept::Memory => Why::Memory,
    }
}

/// How a call ends whose memo's file wasn't written: an answer doesn't stand then, and the message is put on the log; any other end does.
fn end_without<J: Sink>(why: Why, not: NotKept, path: &Txt, log: &mut J) -> Why
    ensures why { (result ≡ why) ⊎ ((why ≡ Why.Done) × ((result ≡ Why.KeepFault path.now) ⊎ (result ≡ Why.Memory))) }
    ensures failed { why ≡ Why.Done → (p : _) → result ≡ Why.KeepFault p → not ≡ NotKeptSeen.Failed }
    ensures done { result ≢ Why.Done }
    ensures never_falls { J.faults log.old ≤ J.faults log.new }
    ensures quiet { result ≡ why → log.new ≡ log.old }
    ensures message { result ≢ why → ¬ HasRisen (J.faults log.old) (J.faults log.new)
        → Tells (J.written log.old) (J.written log.new) (message_of result) }
    ensures message_part { result ≢ why → TellsPart (J.written log.old) (J.written log.new) (message_of result) }
{
    if !matches!(&why, Why::Done) {
        return why;
    }
    let end = why_not(not, path);
    let _ = put_message(&end, log);
    end
}

/// Writes the file of a memo at this path, and says how the call ends then.
fn remember_at<J: Sink, D: Keep, R: Wait + Drop>(
    alloc: Global,
    kit: &MemoKit<FlowKit, R>,
    path: &Txt,
    why: Why,
    log: &mut J,
    keep: &mut D,
) -> Why
    ensures why { (result ≡ why) ⊎ ((why ≡ Why.Done) × ((result ≡ Why.KeepFault path.now) ⊎ (result ≡ Why.Memory))) }
    ensures written { result ≡ Why.Done → Changes (D.files keep.old) (D.files keep.new) path.now (λ old bytes. IsMemoWith kit.now.entries bytes) }
    ensures asked { (keep.new ≡ keep.old) ⊎ Tells (D.asked keep.old) (D.asked keep.new) (path.now ∷ []) }
    ensures failed { why ≡ Why.Done → (p : _) → result ≡ Why.KeepFault p → HasRisen (D.faults keep.old) (D.faults keep.new) }
    ensures changed { (keep.new ≡ keep.old) ⊎ Changes (D.files keep.old) (D.files keep.new) path.now (λ old bytes. Unit {0}) }
    ensures never_falls { D.faults keep.old ≤ D.faults keep.new }
    ensures log_never_falls { J.faults log.old ≤ J.faults log.new }
    ensures quiet { result ≡ why → log.new ≡ log.old }
    ensures message { result ≢ why → ¬ HasRisen (J.faults log.old) (J.faults log.new)
        → Tells (J.written log.old) (J.written log.new) (message_of result) }
    ensures message_part { result ≢ why → TellsPart (J.written log.old) (J.written log.new) (message_of result) }
{
    match write_memo(alloc, kit, path, keep) {
        Ok(()) => why,
        Err(not) => end_without(why, not, path, log),
    }
}

/// Writes the file of a line's memo, where the call ends with an answer or a fault. Where that fails behind an answer, the call ends so, and the
/// message is put on the log; it changes no other end.
pub(crate) fn remember<J: Sink, D: Keep, R: Wait + Drop>(
    alloc: Global,
    line: &Words,
    memo: Option<MemoKit<FlowKit, R>>,
    why: Why,
    log: &mut J,
    keep: &mut D,
) -> Why
    ensures why { Remembers (memo_path line.now) why result }
    ensures other { (EndsJob why → ⊥) → keep.new ≡ keep.old }
    ensures none { memo_path line.now ≡ None → keep.new ≡ keep.old }
    ensures written { result ≡ Why.Done → IfSome memo (λ kit. IfSome (memo_path line.now)
        (λ path. Changes (D.files keep.old) (D.files keep.new) path (λ old bytes. IsMemoWith kit.entries bytes))) }
    ensures asked { result ≢ Why.Memory → (keep.new ≡ keep.old)
        ⊎ (IfSome (memo_path line.now) (λ path. Tells (D.asked keep.old) (D.asked keep.new) (path ∷ []))) }
    ensures failed { why ≡ Why.Done → (path : _) → result ≡ Why.KeepFault path → HasRisen (D.faults keep.old) (D.faults keep.new) }
    ensures apart { (keep.new ≡ keep.old) ⊎ IfSome (memo_path line.now)
        (λ path. Changes (D.files keep.old) (D.files keep.new) path (λ old bytes. Unit {0})) }
    ensures never_falls { D.faults keep.old ≤ D.faults keep.new }
    ensures log_never_falls { J.faults log.old ≤ J.faults log.new }
    ensures quiet { result ≡ why → log.new ≡ log.old }
    ensures message { result ≢ why → ¬ HasRisen (J.faults log.old) (J.faults log.new)
        → Tells (J.written log.old) (J.written log.new) (message_of result) }
    ensures message_part { result ≢ why → TellsPart (J.written log.old) (J.written log.new) (message_of result) }
{
    if !ends_job(&why) {
        return why;
    }
    let Some(kit) = &memo else {
        return why;
    };
    let Some(path) = memo_path(line) else {
        return why;
    };
    remember_at(alloc, kit, path, why, log, keep)
}
