//! The words taken apart, each value as text.

ghost use Rattle.std.specs.Prelude.{◌≡◌, ◌≢◌, [], None, Some, Err, IfOk, codes, false, map, unwrap_or};
ghost use Rattle.std.specs.List.{AllByRecursion};
ghost use Rattle.std.specs.Str.{IsUtf8};
ghost use Rattle.clap.specs.Walk.{all_of, first_of, one_of};
ghost use Rattle.clap.specs.Words.{found_of, kind_of, rows_of};
ghost use Rattle.clap.specs.declared.error.kind.ErrorKind.TheVariants.{OutOfMemory};
ghost use Rattle.ciel_words.specs.Command.{FlagSays};
ghost use Rattle.ciel_words.specs.Line.{line_of};
ghost use Rattle.ciel_words.specs.Raw.{dash_behind, said_by, takes_next, text_of};

use crate::command::command;
use crate::words::WordsRefusal;
use clap::error::ErrorKind;
use clap::{ArgMatches, Error};
use sky_base::text::Txt;
use std::alloc::{AllocError, Global};

/// What the words give, as text.
#[derive(Drop)]
pub(crate) struct Raw<'a> {
    pub workers: Option<&'a str>,
    pub seed: Option<&'a str>,
    pub lose: Option<&'a str>,
    pub names: Option<&'a str>,
    pub log: Option<&'a str>,
    pub resume: Option<&'a str>,
    pub steal: Option<&'a str>,
    pub memo_new: Option<&'a str>,
    pub memo: Option<&'a str>,
    pub generate: Option<&'a str>,
    pub trace: bool,
    pub plain: bool,
    pub stream: bool,
    pub words: Vec<&'a str>,
}

// What clap's matches say of each name.
fn gather<'a>(alloc: Global, matches: &ArgMatches<'a>) -> Result<Raw<'a>, AllocError>
    ensures workers { IfOk result (λ r. text_of r.workers ≡ first_of (codes "workers") (rows_of (found_of matches.now))) }
    ensures seed { IfOk result (λ r. text_of r.seed ≡ first_of (codes "seed") (rows_of (found_of matches.now))) }
    ensures lose { IfOk result (λ r. text_of r.lose ≡ first_of (codes "lose") (rows_of (found_of matches.now))) }
    ensures names { IfOk result (λ r. text_of r.names ≡ first_of (codes "names") (rows_of (found_of matches.now))) }
    ensures log { IfOk result (λ r. text_of r.log ≡ first_of (codes "log") (rows_of (found_of matches.now))) }
    ensures resume { IfOk result (λ r. text_of r.resume ≡ first_of (codes "resume") (rows_of (found_of matches.now))) }
    ensures steal { IfOk result (λ r. text_of r.steal ≡ first_of (codes "steal") (rows_of (found_of matches.now))) }
    ensures memo_new { IfOk result (λ r. text_of r.memo_new ≡ first_of (codes "memo-new") (rows_of (found_of matches.now))) }
    ensures memo { IfOk result (λ r. text_of r.memo ≡ first_of (codes "memo") (rows_of (found_of matches.now))) }
    ensures generate { IfOk result (λ r. text_of r.generate ≡ first_of (codes "generate") (rows_of (found_of matches.now))) }
    ensures trace { IfOk result (λ r. FlagSays (one_of (codes "trace") (rows_of (found_of matches.now))) r.trace) }
    ensures plain { IfOk result (λ r. FlagSays (one_of (codes "plain") (rows_of (found_of matches.now))) r.plain) }
    ensures stream { IfOk result (λ r. FlagSays (one_of (codes "stream") (rows_of (found_of matches.now))) r.stream) }
    ensures words { IfOk result (λ r. map (λ w. w.now) r.words.items ≡ unwrap_or (all_of (codes "words") (rows_of (found_of matches.now))) []) }
{
    let words = match matches.get_strs("words") {
        Some(words) => Vec::from_slice(alloc, words)?,
        None => Vec::new(alloc),
    };
    Ok(Raw {
        workers: matches.get_str("workers"),
        seed: matches.get_str("seed"),
        lose: matches.get_str("lose"),
        names: matches.get_str("names"),
        log: matches.get_str("log"),
        resume: matches.get_str("resume"),
        steal: matches.get_str("steal"),
        memo_new: matches.get_str("memo-new"),
        memo: matches.get_str("memo"),
        generate: matches.get_str("generate"),
        trace: matches.get_flag("trace"),
        plain: matches.get_flag("plain"),
        stream: matches.get_flag("stream"),
        words,
    })
}

fn refusal_of(error: &Error) -> WordsRefusal
    ensures { result ≡ WordsRefusal.Usage → kind_of error.now ≢ OutOfMemory }
{
    match error.kind() {
        ErrorKind::OutOfMemory => WordsRefusal::Memory,
        _ => WordsRefusal::Usage,
    }
}

// Whether a word is an option whose value is the next word.
fn takes_next(word: &str) -> bool
    ensures { result ≡ takes_next word.now }
{
    matches!(
        word,
        "--workers"
            | "--seed"
            | "--lose"
            | "--names"
            | "--log"
            | "--resume"
            | "--steal"
            | "--memo-new"
            | "--memo"
            | "--generate"
    )
}

// Whether the value of an option is the next word and is `-`. Of the words taken apart it can't be told from one behind `=`.
fn has_dash_behind(words: &[Txt]) -> bool
    ensures { result ≡ dash_behind false words.now }
{
    let mut waits = false;
    for word in words {
        let word = word.as_str();
        if word == "--" {
            return false;
        }
        if waits && word == "-" {
            return true;
        }
        waits = takes_next(word);
    }
    false
}

// That each word is a text, as its type keeps, told of the list.
fn are_texts(words: &[Txt])
    ensures { AllByRecursion IsUtf8 words.now }
{
    for word in words {
        let _text = word.as_str();
    }
}

/// The words taken apart. `Usage` comes only where they are no line.
pub(crate) fn read_raw<'a>(alloc: Global, words: &'a [Txt]) -> Result<Raw<'a>, WordsRefusal>
    ensures raw { IfOk result (λ r. line_of words.entry.now ≡ said_by r) }
    ensures usage { result ≡ Err WordsRefusal.Usage → line_of words.entry.now ≡ None }
{
    if has_dash_behind(words) {
        return Err(WordsRefusal::Usage);
    }
    are_texts(words);
    let Ok(command) = command(alloc) else {
        return Err(WordsRefusal::Memory);
    };
    match command.try_get_matches_from(words) {
        Ok(matches) => match gather(alloc, &matches) {
            Ok(raw) => Ok(raw),
            Err(AllocError) => Err(WordsRefusal::Memory),
        },
        Err(error) => Err(refusal_of(&error)),
    }
}
