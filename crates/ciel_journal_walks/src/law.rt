// The laws, as contracts of functions that do nothing.

ghost use Rattle.ciel_journal_walks.specs.Laws.{MissingSays, WalksAreTrue, WalksSay};

/// A run of an order by names, from wait to wait as long as all that is waited for was brought along, says what the job does: its
/// report has what the task makes, up to the first clash and with it, and where nothing clashes it ends as the task does.
/// Besides, the task then truly came to where the walk stopped.
pub fn walks_say()
    ensures says { WalksSay }
    ensures truly { WalksAreTrue }
{}

/// Where something that was to be fetched is missing, nothing is told of what was made.
pub fn missing_says()
    ensures says { MissingSays }
{}
