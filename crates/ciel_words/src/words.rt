//! What the words of the command line say.

ghost use Rattle.std.specs.Prelude.{◌≡◌, Some, None, Err, IfOk};
ghost use Rattle.ciel_words.specs.Line.{line_of};

use crate::line::line_from;
use crate::raw::read_raw;
use sky_base::text::Txt;
use std::alloc::Global;
use std::marker::Model;

/// By which digest names are made.
#[derive(Clone, Copy, Debug, PartialEq, Eq)]
pub enum NameKind {
    /// SHA-1: names of 20 bytes.
    Sha1,
    /// SHA-256: names of 32 bytes.
    Sha256,
}

/// Why words were not read.
#[derive(Clone, Copy, Debug, PartialEq, Eq)]
pub enum WordsRefusal {
    /// The words are no line of the command.
    Usage,
    /// Want of memory.
    Memory,
}

/// The inputs that a line names, each by its name and the path of its file. Contracts see them as a list.
#[derive(Drop)]
pub struct InputPaths {
    items: Vec<(Txt, Txt)>,
}

impl Model for InputPaths {
    ghost use Rattle.std.specs.Prelude.{List, ℕ};

    ghost Value = { List (List ℕ × List ℕ) };

    ghost view = { λ a. a.items.items };
}

impl InputPaths {
    /// The inputs, in order.
    pub fn of(items: Vec<(Txt, Txt)>) -> InputPaths
        ensures { result ≡ items.items }
    {
        InputPaths { items }
    }

    /// The inputs themselves.
    pub fn as_slice(&self) -> &[(Txt, Txt)]
        ensures { result.now ≡ self.now }
    {
        self.items.as_slice()
    }

    /// The list of the inputs. It takes no memory.
    pub fn into_vec(self) -> Vec<(Txt, Txt)>
        ensures { result.items ≡ self }
    {
        self.items
    }
}

/// The losses that a line asks for: each how many tasks are closed before it, and the worker that is lost then. Contracts see them as a
/// list.
#[derive(Drop)]
pub struct LossList {
    items: Vec<(u32, u32)>,
}

impl Model for LossList {
    ghost use Rattle.std.specs.Prelude.{List, ℕ};

    ghost Value = { List (ℕ × ℕ) };

    ghost view = { λ a. a.items.items };
}

impl LossList {
    /// The losses, in order.
    pub fn of(items: Vec<(u32, u32)>) -> LossList
        ensures { result ≡ items.items }
    {
        LossList { items }
    }

    /// The losses themselves.
    pub fn as_slice(&self) -> &[(u32, u32)]
        ensures { result.now ≡ self.now }
    {
        self.items.as_slice()
    }

    /// The list of the losses. It takes no memory.
    pub fn into_vec(self) -> Vec<(u32, u32)>
        ensures { result.items ≡ self }
    {
        self.items
    }
}

/// What a line of the command says.
#[derive(Drop)]
pub struct Words {
    /// The path of the script; none where a job is generated.
    pub script: Option<Txt>,
    /// The inputs, at most 256, no name twice.
    pub inputs: InputPaths,
    /// How many workers there are, 1 to 64.
    pub workers: u32,
    /// The seed number.
    pub seed: u64,
    /// The losses, at most 64, each of a worker below `workers`.
    pub losses: LossList,
    /// Whether the journal is written.
    pub trace: bool,
    /// Whether the answer is made by the sequential interpreter.
    pub plain: bool,
    /// By which digest names are made.
    pub names: NameKind,
    /// The path of the log, which isn't empty; none where no log is asked for, and with `plain`.
    pub log: Option<Txt>,
    /// The path of the log that the run goes on from, which isn't empty; none where the run begins, and with `plain`.
    pub resume: Option<Txt>,
    /// Whether tasks begin on what is still made; not with `plain`.
    pub stream: bool,
    /// How many threads all workers share, 1 to 64; none where each has its own, and with `plain` or `stream`.
    pub steal: Option<u32>,
    /// The path of the memo's file that is begun, which isn't empty; none where none is begun, and with `plain`.
    pub memo_new: Option<Txt>,
    /// The path of the memo's file that is read first, which isn't empty; none where none is read, and with `plain`.
    pub memo: Option<Txt>,
    /// How many lines the generated job has, 1 to 1,000,000; none where a script is run.
    pub generate: Option<u32>,
}

/// What the words of the command line say, the program's name not among them.
///
/// Answers `Usage` exactly where the words are no line of the command, and `Memory` for want of memory.
pub fn read_words(alloc: Global, words: &[Txt]) -> Result<Words, WordsRefusal>
    ensures line { IfOk result (λ line. line_of words.now ≡ Some line) }
    ensures usage { result ≡ Err WordsRefusal.Usage → line_of words.now ≡ None }
{
    let raw = read_raw(alloc, words)?;
    let line = line_from(alloc, &raw)?;
    Ok(line)
}
