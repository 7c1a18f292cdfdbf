//! What the rules of all queues and the seats' tallies say together.

ghost use Rattle.ciel_steal_ready.specs.Whole.{JobsAreKept};

/// What was put is what all seats have taken, with what the queues hold, each job as often: at each moment at which no call is under way,
/// if the rule of each queue holds then of the passes that the master and the seats have.
pub fn jobs_are_kept<T>()
    ensures { JobsAreKept T }
{}
