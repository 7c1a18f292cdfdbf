// Laws of states. Each is the contract of a function that does nothing.

ghost use Rattle.sky_base_law.specs.NamesLaws.{Tag};
ghost use Rattle.sky_state.specs.Laws.{OneNext, StackIsSaved, StackOpens, StandsFits, StandsHolds, StandsPending, StartOfCall, StartOfShow};

/// The start of a call stands for the call at its start, and the start of the root task for the root task.
pub fn starts_stand()
    ensures call { (tag : Tag) → StartOfCall tag }
    ensures show { (tag : Tag) → StartOfShow tag }
{}

/// A state that stands for a task at a wait fits the script, where what is read as data keeps the limits and names
/// functions of the script alone; it waits for the names of what the task waits for, and holds the names of what the
/// task holds, where no two of these have one name.
pub fn states_that_stand()
    ensures fits { (tag : Tag) → StandsFits tag }
    ensures pending { (tag : Tag) → StandsPending tag }
    ensures holds { (tag : Tag) → StandsHolds tag }
{}

/// A stack that fits a script and waits is that of forms under way, each of which is opened by its node, its step and the
/// values that it keeps; and the stack of such forms at a wait fits.
pub fn stacks_open()
    ensures opened { StackOpens }
    ensures saved { StackIsSaved }
{}

/// Where a task stops next, with some descriptions at hand, is one wait or its end.
pub fn next_is_one()
    ensures { OneNext }
{}
