//! Laws of tables and of what is searched in them. Each is the contract of a function that does nothing.

ghost use Rattle.ciel_want.specs.History.{HistoryAgrees, LawfulAgrees, NamedIsWhole};

/// Where the main call, and each name that a saved wait or an executor's arguments name, has a row, and so has the task of
/// each row that isn't an input's, a table is as the searches ask.
pub fn named_is_whole<P>()
    ensures whole { NamedIsWhole P }
{}

/// Where a table is that of what stands after a history, its reached tasks and the list of those that can run are the
/// history's, and where nothing is open its circles are the history's. A table that holds what stands after a lawful history
/// of a job that tells where all comes from is that of the history.
pub fn history_agrees<D, P>()
    ensures agree { HistoryAgrees D P }
    ensures lawful { LawfulAgrees D P }
{}
