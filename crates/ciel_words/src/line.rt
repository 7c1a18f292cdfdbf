//! What the values of a line say.

ghost use Rattle.std.specs.Prelude.{◌≡◌, ◌<◌, ◌||◌, [], Some, None, Err, IfOk, map};
ghost use Rattle.ciel_words.specs.Line.{files_in, kept_in, lines_in, steal_in, stream_in};
ghost use Rattle.ciel_words.specs.Raw.{said_by, text_of};
ghost use Rattle.ciel_words.specs.Values.{losses_in, names_in, or_absent};

use crate::inputs::{are_inputs, inputs};
use crate::losses::losses;
use crate::numbers::{number_or, number_within};
use crate::raw::Raw;
use crate::words::{InputPaths, LossList, NameKind, Words, WordsRefusal};
use sky_base::text::Txt;
use std::alloc::Global;

/// The greatest number of workers.
const MOST_WORKERS: u64 = 64;

/// The greatest number of threads that are shared.
const MOST_THREADS: u64 = 64;

/// The greatest number of lines of a generated job.
const MOST_LINES: u64 = 1_000_000;

// The losses that the value of `--lose` asks for; none where the option is absent.
fn losses_or_none(
    alloc: Global,
    value: Option<&str>,
    workers: u32,
) -> Result<LossList, WordsRefusal>
    requires { 0 < workers }
    ensures losses { IfOk result (λ l. or_absent [] (losses_in workers) (text_of value.entry) ≡ Some l) }
    ensures usage { result ≡ Err WordsRefusal.Usage → or_absent [] (losses_in workers) (text_of value.entry) ≡ None }
{
    match value {
        Some(value) => losses(alloc, value, workers),
        None => Ok(LossList::of(Vec::new(alloc))),
    }
}

// The digest that the value of `--names` names.
fn name_kind(value: Option<&str>) -> Option<NameKind>
    ensures { result ≡ or_absent NameKind.Sha1 names_in (text_of value.entry) }
{
    match value {
        None | Some("sha1") => Some(NameKind::Sha1),
        Some("sha256") => Some(NameKind::Sha256),
        Some(_) => None,
    }
}

// The path of a file that a run keeps, where one is asked for; `without` says that the run may have none.
fn kept_path(alloc: Global, without: bool, value: Option<&str>) -> Result<Option<Txt>, WordsRefusal>
    ensures path { IfOk result (λ d. or_absent None (kept_in without) (text_of value.entry) ≡ Some d) }
    ensures usage { result ≡ Err WordsRefusal.Usage → or_absent None (kept_in without) (text_of value.entry) ≡ None }
{
    match value {
        None => Ok(None),
        Some(path) if !without && !path.is_empty() => match Txt::new(alloc, path) {
            Ok(path) => Ok(Some(path)),
            Err(_) => Err(WordsRefusal::Memory),
        },
        Some(_) => Err(WordsRefusal::Usage),
    }
}

// The path of a file that a run goes on from, where one is asked for; `without` says that the run may have none, and `begun` that it begins one.
fn second_path(
    alloc: Global,
    without: bool,
    begun: bool,
    value: Option<&str>,
) -> Result<Option<Txt>, WordsRefusal>
    ensures path { IfOk result (λ p. or_absent None (kept_in (without || begun)) (text_of value.entry) ≡ Some p) }
    ensures usage { result ≡ Err WordsRefusal.Usage → or_absent None (kept_in (without || begun)) (text_of value.entry) ≡ None }
{
    let path = kept_path(alloc, without || begun, value)?;
    Ok(path)
}

// Whether tasks begin on what is still made; those of a sequential run don't.
fn streamed(plain: bool, stream: bool) -> Option<bool>
    ensures { result ≡ stream_in plain stream }
{
    if plain && stream { None } else { Some(stream) }
}

// Whether a run shares no threads and has no memo: a sequential one, and one with streams.
fn is_alone(plain: bool, stream: bool) -> bool
    ensures { result ≡ (plain || stream) }
{
    plain || stream
}

// The number of threads that all workers share, where some are asked for; with `without` none may be.
fn shared(without: bool, value: Option<&str>) -> Option<Option<u32>>
    ensures { result ≡ or_absent None (steal_in without) (text_of value.entry) }
{
    match value {
        None => Some(None),
        Some(_) if without => None,
        Some(text) => {
            let threads = number_within(1, MOST_THREADS, text)?;
            Some(Some(threads as u32))
        }
    }
}

// The number of lines of a generated job, where one is asked for.
fn generated(value: Option<&str>) -> Option<Option<u32>>
    ensures { result ≡ or_absent None lines_in (text_of value.entry) }
{
    match value {
        Some(text) => {
            let lines = number_within(1, MOST_LINES, text)?;
            Some(Some(lines as u32))
        }
        None => Some(None),
    }
}

// The path of the script, and the inputs behind it.
fn script_and_inputs(alloc: Global, words: &[&str]) -> Result<(Txt, InputPaths), WordsRefusal>
    ensures files { IfOk result (λ f. files_in None (map (λ w. w.now) words.now) ≡ Some (Some f.0, f.1)) }
    ensures usage { result ≡ Err WordsRefusal.Usage → files_in None (map (λ w. w.now) words.now) ≡ None }
{
    let Some((script, rest)) = words.split_first() else {
        return Err(WordsRefusal::Usage);
    };
    if script.is_empty() || !are_inputs(rest) {
        return Err(WordsRefusal::Usage);
    }
    let Ok(script) = Txt::new(alloc, script) else {
        return Err(WordsRefusal::Memory);
    };
    match inputs(alloc, rest) {
        Ok(inputs) => Ok((script, inputs)),
        Err(_) => Err(WordsRefusal::Memory),
    }
}

// The same; there is no positional word where a job is generated.
fn files(
    alloc: Global,
    generate: Option<u32>,
    words: &[&str],
) -> Result<(Option<Txt>, InputPaths), WordsRefusal>
    ensures files { IfOk result (λ f. files_in generate (map (λ w. w.now) words.now) ≡ Some f) }
    ensures usage { result ≡ Err WordsRefusal.Usage → files_in generate (map (λ w. w.now) words.now) ≡ None }
{
    if generate.is_none() {
        let (script, inputs) = script_and_inputs(alloc, words)?;
        return Ok((Some(script), inputs));
    }
    if words.is_empty() {
        Ok((None, InputPaths::of(Vec::new(alloc))))
    } else {
        Err(WordsRefusal::Usage)
    }
}

/// What the values say, where each is one that its option may have.
pub(crate) fn line_from(alloc: Global, raw: &Raw<'_>) -> Result<Words, WordsRefusal>
    ensures line { IfOk result (λ line. said_by raw.now ≡ Some line) }
    ensures usage { result ≡ Err WordsRefusal.Usage → said_by raw.now ≡ None }
{
    let Some(workers) = number_or(1, 1, MOST_WORKERS, raw.workers) else {
        return Err(WordsRefusal::Usage);
    };
    let workers = workers as u32;
    let Some(seed) = number_or(0, 0, u64::MAX, raw.seed) else {
        return Err(WordsRefusal::Usage);
    };
    let losses = losses_or_none(alloc, raw.lose, workers)?;
    let Some(names) = name_kind(raw.names) else {
        return Err(WordsRefusal::Usage);
    };
    let log = kept_path(alloc, raw.plain, raw.log)?;
    let resume = second_path(alloc, raw.plain, log.is_some(), raw.resume)?;
    let Some(stream) = streamed(raw.plain, raw.stream) else {
        return Err(WordsRefusal::Usage);
    };
    let alone = is_alone(raw.plain, stream);
    let Some(steal) = shared(alone, raw.steal) else {
        return Err(WordsRefusal::Usage);
    };
    let memo_new = kept_path(alloc, alone, raw.memo_new)?;
    let memo = second_path(alloc, alone, memo_new.is_some(), raw.memo)?;
    let Some(generate) = generated(raw.generate) else {
        return Err(WordsRefusal::Usage);
    };
    let (script, inputs) = files(alloc, generate, raw.words.as_slice())?;
    Ok(Words {
        script,
        inputs,
        workers,
        seed,
        losses,
        trace: raw.trace,
        plain: raw.plain,
        names,
        log,
        resume,
        stream,
        steal,
        memo_new,
        memo,
        generate,
    })
}
