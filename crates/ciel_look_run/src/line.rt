//! The words of the command line.

ghost use Rattle.std.specs.Prelude.{◌≡◌, IfOk, Some, None, MatchOption};
ghost use Rattle.ciel_look_run.specs.Line.{is_path, line_of, said_if};
ghost use Rattle.ciel_look_run.specs.View.{asked_view, line_view};

use sky_base::text::{Memory, Txt};

/// What is asked of a log.
#[derive(Drop)]
pub enum Asked {
    /// Its tasks, losses and sum, in lines of text.
    Text,
    /// Why the task was started whose name begins so.
    Why { digits: Txt },
    /// The picture.
    Picture,
}

/// What the words say: the path of the log, and what is asked of it.
#[derive(Drop)]
pub struct Line {
    pub log: Txt,
    pub asked: Asked,
}

/// What the words of the command line say; none exactly where they are no line of it.
///
/// Answers `Memory` for want of memory.
pub fn read_words(words: &[Txt]) -> Result<Option<Line>, Memory>
    ensures { IfOk result (λ line. MatchOption line (line_of words.now ≡ None) (λ l. line_of words.now ≡ Some (line_view l))) }
{
    match words {
        [log] => line_if(is_path(log), log, Asked::Text),
        [log, option] => line_if(
            is_path(log) && option.as_str() == "--svg",
            log,
            Asked::Picture,
        ),
        [log, option, digits] => {
            let digits = digits.share()?;
            line_if(
                is_path(log) && option.as_str() == "--why",
                log,
                Asked::Why { digits },
            )
        }
        _ => Ok(None),
    }
}

/// The line of this path, where the words are one.
fn line_if(is_line: bool, log: &Txt, asked: Asked) -> Result<Option<Line>, Memory>
    ensures { IfOk result (λ line. MatchOption line (said_if is_line log.now (asked_view asked) ≡ None)
        (λ l. said_if is_line log.now (asked_view asked) ≡ Some (line_view l))) }
{
    if !is_line {
        return Ok(None);
    }
    let log = log.share()?;
    Ok(Some(Line { log, asked }))
}

/// Whether a word is a path: it isn't empty, and begins with no `-`.
fn is_path(word: &Txt) -> bool
    ensures { result ≡ is_path word.now }
{
    match word.as_str().as_bytes() {
        [first, ..] => *first != b'-',
        [] => false,
    }
}
