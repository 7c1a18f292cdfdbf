//! A law about runs, as the contract of a function that does nothing.

ghost use Rattle.ciel_run_drive.specs.Ended.{ModestRunsAnswer};

/// Each run of a job comes to its answer, but for want of memory, where the job means one, its needed tasks make no more descriptions than
/// there is room for, no two of which share a name, and some worker is in no loss.
pub fn modest_runs_answer()
    ensures { ModestRunsAnswer }
{}
