// The executors by name, and the number of outputs that each may have.

ghost use Rattle.std.specs.Prelude.{◌≡◌};
ghost use Rattle.line_kit.specs.Table.{executor_of, may_have};

/// An executor over lines.
#[derive(Clone, Copy, PartialEq, Eq, Debug)]
pub enum Executor {
    /// All lines.
    Cat,
    /// The lines that contain a text.
    Grep,
    /// The words of the lines, one per line.
    Words,
    /// The lines in parts of equal numbers, one part per output.
    Split,
    /// The lines in turn to each output.
    Deal,
    /// The lines in order of their bytes.
    Sort,
    /// How often each distinct line occurs.
    Tally,
    /// The number of lines.
    Count,
    /// The sums of the numbers in front of equal rests of lines.
    Sum,
    /// The first lines.
    Head,
    /// The half of the number in each line.
    Half,
    /// Whether two inputs have the same lines.
    Same,
}

/// The executor of this name.
pub fn executor_of(name: &str) -> Option<Executor>
    ensures { result ≡ executor_of name.now }
{
    if name == "cat" {
        Some(Executor::Cat)
    } else if name == "grep" {
        Some(Executor::Grep)
    } else if name == "words" {
        Some(Executor::Words)
    } else if name == "split" {
        Some(Executor::Split)
    } else if name == "deal" {
        Some(Executor::Deal)
    } else if name == "sort" {
        Some(Executor::Sort)
    } else if name == "tally" {
        Some(Executor::Tally)
    } else if name == "count" {
        Some(Executor::Count)
    } else if name == "sum" {
        Some(Executor::Sum)
    } else if name == "head" {
        Some(Executor::Head)
    } else if name == "half" {
        Some(Executor::Half)
    } else if name == "same" {
        Some(Executor::Same)
    } else {
        None
    }
}

impl Executor {
    /// Whether it may have so many outputs: `split` and `deal` 1 to 64, the others one.
    pub fn may_have(self, outputs: u32) -> bool
        ensures { result ≡ may_have self outputs }
    {
        match self {
            Executor::Split | Executor::Deal => 1 <= outputs && outputs <= 64,
            _ => outputs == 1,
        }
    }
}
