//! How the program ends.

use sky_base::text::Txt;

/// Why the program ended.
#[derive(Drop)]
pub enum Why {
    /// What was asked was written.
    Done,
    /// The words are no line of the command.
    Usage,
    /// The file at the path can't be read.
    ReadFault { path: Txt },
    /// The file at the path has more than 268,435,456 bytes.
    TooLong { path: Txt },
    /// The file at the path is no log: at this place stands no header, or a whole record that is none.
    NotLog { path: Txt, at: usize },
    /// No task was started whose name begins so.
    NoTask { digits: Txt },
    /// The output failed.
    WriteFault,
    /// Want of memory.
    Memory,
}

impl Why {
    ghost use Rattle.std.specs.Prelude.{◌≡◌};
    ghost use Rattle.ciel_look_run.specs.Told.{status_of};

    /// The status of the process.
    pub fn status(&self) -> u8
        ensures status { result ≡ status_of self.now }
    {
        match self {
            Why::Done => 0,
            Why::Usage => 1,
            Why::NotLog { path: _, at: _ } => 2,
            Why::NoTask { digits: _ } => 3,
            Why::ReadFault { path: _ } => 8,
            Why::WriteFault => 9,
            Why::Memory => 10,
            Why::TooLong { path: _ } => 11,
        }
    }
}
