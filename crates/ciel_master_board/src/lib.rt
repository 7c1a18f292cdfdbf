//! The master's state by names, and how it stands to a history.
//!
//! The master evaluates nothing and speaks of names alone; the journal's laws speak of descriptions. `specs/Board` is the whole
//! state, `specs/Moves` what each call makes of it, `specs/Sound` what holds of it by names whatever is reported, and
//! `specs/Follows` how it stands to a history. What a master owes is that its calls make these moves: all that is said of
//! histories are the laws here. They are contracts of functions that do nothing.
#![tactic(auto)]

pub mod turns;

ghost use Rattle.ciel_master_board.specs.Laws.{LossIsSound, OpenedIsSound, ReportIsSound, SoundIsWhole, StartIsSound};
ghost use Rattle.ciel_master_board.specs.Laws.{OpenedFollows, StartFollows, TableHolds};
ghost use Rattle.ciel_master_board.specs.Laws.{ClashFollows, LostFollows, OverflowFollows, ReportFollows};
ghost use Rattle.ciel_master_board.specs.Laws.{CircleFollows, LedIsReached, MissedFollows, RunnableIsReady};
ghost use Rattle.ciel_master_board.specs.Driving.{LossRuns, MissedRuns, ReportRuns, StartRuns};

/// What holds of the master's state by names holds at the beginning, and stays after a start, after a report that fits its order
/// and is learned whole, whatever it says, and after a loss. So its table may always be searched.
pub fn soundness_stays<P>()
    ensures opened { OpenedIsSound P }
    ensures whole { SoundIsWhole P }
    ensures started { StartIsSound P }
    ensures accepted { ReportIsSound P }
    ensures lost { LossIsSound P }
{}

/// The state at the beginning follows the empty history. A task that can run, started at an idle worker, is one that the history
/// may start, and the state follows it.
pub fn starts_follow<D, P, B>()
    ensures opened { OpenedFollows D P B }
    ensures holds { TableHolds D P B }
    ensures started { StartFollows D P B }
{}

/// A report that fits its order and says what the job does is that of an event, where all that it spawned is learned, and the
/// state follows it. What learning refuses first is a clash, or one description too many, of the job's. A loss that is due is
/// one that the history may have.
pub fn reports_follow<D, P, B>()
    ensures accepted { ReportFollows D P B }
    ensures clash { ClashFollows D P B }
    ensures overflow { OverflowFollows D P B }
    ensures lost { LostFollows D P B }
{}

/// A report that something is missing, which fits its order, is that of an event, and the state follows it.
pub fn missing_follows<D, P, B>()
    ensures missed { MissedFollows D P B }
{}

/// What is reached is reached after the history, and the tasks that can run are its ready ones, in their order. Where nothing is out, a
/// circle of the table is one of the journal, and means that the job has no answer.
pub fn searches_follow<D, P, B>()
    ensures reached { LedIsReached D P B }
    ensures runnable { RunnableIsReady D P B }
    ensures circle { CircleFollows D P B }
{}

/// Where the events of the history came in their turns, the next one does too: the start that two draws choose where no loss is
/// due, a report where nothing can be started, and the first loss that is due.
pub fn turns_are_kept<D, P, B>()
    ensures start { StartRuns D P B }
    ensures report { ReportRuns D P B }
    ensures missed { MissedRuns D P B }
    ensures loss { LossRuns D P B }
{}
