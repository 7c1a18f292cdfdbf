//! The law of logs.

ghost use Rattle.ciel_log_law.specs.Told.{LogContinues, LogTellsJournal};

use ciel_name::name::Namer;
use ciel_task_crew::crew::Crew;
use sky_base::kit::Kit;

/// A run from a master with no journal, by calls of a crew that keeps a log, which began as its header alone: where the file is told and has
/// no dropped record, it begins a log of the run's journal; and it is a whole one where the log stands whole at the end. `C` is the crew
/// whose calls are logged.
pub fn log_tells_journal<K: Kit, N: Namer, C: Crew<K = K, N = N>>()
    ensures { LogTellsJournal K.gives N.digest C.goes }
{}

/// A run that goes on from a master with a journal, by calls of a crew that keeps a log, where the file was a log of that journal: it then tells
/// the longer journal in the same way.
pub fn log_continues<K: Kit, N: Namer, C: Crew<K = K, N = N>>()
    ensures { LogContinues K.gives N.digest C.goes }
{}
