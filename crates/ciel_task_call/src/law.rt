//! The laws, as contracts of functions that do nothing.

ghost use Rattle.ciel_task_call.specs.Saying.{ThroughSays};
ghost use Rattle.ciel_task_call.specs.Walks.{ThroughIsWalk};

/// What goes through waits is a walk of whatever task the state stands for.
pub fn going_through_is_a_walk()
    ensures { ThroughIsWalk }
{}

/// From a state from which a run of an order may begin, what goes through the waits whose objects the order brings along says what
/// the job does: what is spawned is what the task makes, up to the first clash and with it; and where nothing clashes the task truly
/// came to the same end or wait, and went on from its own waits.
pub fn going_through_says()
    ensures { ThroughSays }
{}
