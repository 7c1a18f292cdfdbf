//! The laws of what is told of a log. Each is the contract of a function that does nothing.

ghost use Rattle.sha1.specs.Sha1.{sha1};
ghost use Rattle.sha2.specs.Sha256.{sha256};
ghost use Rattle.ciel_look_law.specs.Laws.{CutLogTellsOwn, HeaderTold, LogTellsOwn, NamesFit};

/// What is told of a log of a journal, as long as a log may be, is the journal's own: entry by entry, with the weights of the objects and
/// stacks that the journal marks, and behind it only the losses that are due and weren't carried out. The header is the one that is told. It
/// is asked that names have 20 bytes or 32, that each wait's number has 32 bits, and that the header has the plan's workers and losses.
pub fn log_tells_own()
    ensures { LogTellsOwn }
{}

/// What is told of a file that begins a log of a journal, and has the header, is so a first part of the journal, and behind it losses that are
/// due only where that is all of it. It is asked too that each record of the log has a length of four bytes.
pub fn cut_log_tells_own()
    ensures { CutLogTellsOwn }
{}

/// The names that a run gives have 20 bytes or 32.
pub fn names_fit()
    ensures short { NamesFit sha1 }
    ensures long { NamesFit sha256 }
{}

/// What is told of the header of a run is what was written: the plan, how long names are, and the marks of the script and of the inputs.
pub fn header_told()
    ensures { HeaderTold }
{}
