//! Why a call of the program ends, and with which status.

use ciel_master::entry::Entry;
use ciel_run_load::script::SyntaxKind;
use sky_base::fault::Fault;
use sky_base::names::Names;
use sky_base::object::Desc1;
use sky_base::text::{Bytes, Txt};

/// Why a call of the program ended.
#[derive(Drop)]
pub enum Why {
    /// The answer was written. Status 0.
    Done,
    /// The words are no line of the command. Status 1.
    Usage,
    /// The bytes of the script are no script. Status 2.
    Syntax {
        kind: SyntaxKind,
        line: u32,
        col: u32,
    },
    /// The job means this fault. Status 3.
    Fault(Fault),
    /// The job never means an answer: the tasks of what has these names wait for one another. Status 4.
    Endless {
        names: Names,
    },
    /// So many distinct descriptions are held, 65,536, and a further one is made, which isn't given by
    /// a sequential run. Status 5.
    TooMany {
        held: u32,
        given: Option<Desc1>,
    },
    /// Each worker was lost. Status 6.
    AllLost,
    /// Two descriptions have one name: these are their canonical bytes. Status 7.
    NameClash {
        kept: Bytes,
        given: Bytes,
    },
    /// The file at the path could not be read. Status 8.
    ReadFault {
        path: Txt,
    },
    /// The answer could not be written whole, or the journal's text. Status 9.
    WriteFault,
    /// Want of memory. Status 10.
    Memory,
    /// The file at the path has more bytes than the limit. Status 11.
    TooLongInput {
        path: Txt,
        limit: u64,
    },
    /// So many descriptions are open, 4,096, each waited for by the one before it. Status 13.
    TooDeepPlain {
        depth: u32,
    },
    /// The log at the path could not be begun, or not all of it could be written, or the memo's file at the path couldn't; the answer was written
    /// then. Status 14.
    KeepFault {
        path: Txt,
    },
    /// The log at the path can't be gone on from: the record at this byte is none that a log of this run may have there. Status 15.
    BadLog {
        path: Txt,
        at: u64,
    },
    /// The log at the path can't be gone on from: it is that of another script, of other inputs or of another plan. Status 16.
    OtherJob {
        path: Txt,
    },
    /// The file at the path is no memo's: at this byte its first entry begins that isn't whole or valid, is too long, ends past the file's limit or
    /// has the key of one before it, or it is 0, where the two first bytes are wrong. Status 17.
    BadMemo {
        path: Txt,
        at: u64,
    },
    /// The log at the path has so many bytes, and the next record would go past the most that it may have; the answer was written. Status 18.
    LogFull {
        path: Txt,
        held: u64,
    },
}

/// How a call of the program ended: the status of the process, why, and the journal of the run, empty where none began.
#[derive(Drop)]
pub struct Ended {
    pub status: u8,
    pub why: Why,
    pub journal: Vec<Entry>,
}

impl Why {
    ghost use Rattle.std.specs.Prelude.{◌≡◌};
    ghost use Rattle.ciel_run_log.specs.Status.{status_of};

    /// The status of the process.
    pub fn status(&self) -> u8
        ensures { result ≡ status_of self.now }
    {
        match self {
            Why::Done => 0,
            Why::Usage => 1,
            Why::Syntax { .. } => 2,
            Why::Fault(_) => 3,
            Why::Endless { .. } => 4,
            Why::TooMany { .. } => 5,
            Why::AllLost => 6,
            Why::NameClash { .. } => 7,
            Why::ReadFault { .. } => 8,
            Why::WriteFault => 9,
            Why::Memory => 10,
            Why::TooLongInput { .. } => 11,
            Why::TooDeepPlain { .. } => 13,
            Why::KeepFault { .. } => 14,
            Why::BadLog { .. } => 15,
            Why::OtherJob { .. } => 16,
            Why::BadMemo { .. } => 17,
            Why::LogFull { .. } => 18,
        }
    }
}
