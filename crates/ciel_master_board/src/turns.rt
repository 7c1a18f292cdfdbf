//! The turns of a run: each is an event of its history, so a run comes to an end of its job.
//!
//! `specs/Left` has the number that falls with each turn (`ciel_master_safe` has the law), `specs/Handed` what workers have between two turns,
//! `specs/Laws` the turns, as laws over the master's state by names and the history of the run, and `specs/Ends` the ends. They are
//! contracts of functions that do nothing.

ghost use Rattle.ciel_master_board.specs.TurnsLaws.{HadIsOut, IdleIsListed, LossTurns, MissedTurns, NoneCanRun, NoneIsOut, OpenedRuns, OutIsOpen};
ghost use Rattle.ciel_master_board.specs.TurnsLaws.{PickedCanStart, PromisedIsTaken, ReportTurns, SomeIsIdle, StartTurns, ThrownTurns};
ghost use Rattle.ciel_master_board.specs.Ends.{ClashEnds, JournalIsDriven, LostEnds, NoneCircles, NoneClashes, NoneOverflows, OverflowEnds, ShownEnds};

/// A worker that is idle is in the list of idle workers, and where nothing is out and not each worker is lost there is one. What
/// two draws pick can be started, and where no task is listed that can run, none can.
pub fn workers_are_idle<P>()
    ensures listed { IdleIsListed P }
    ensures some { SomeIsIdle P }
    ensures picked { PickedCanStart P }
    ensures none { NoneCanRun P }
{}

/// At the beginning nothing has happened. Each turn is an event of the run, and what workers have are orders of its history: a loss
/// that is due, a start, a report that is taken. One that is thrown away is none.
pub fn turns_are_events<D, P, B>()
    ensures opened { OpenedRuns D P B }
    ensures loss { LossTurns D P B }
    ensures start { StartTurns D P B }
    ensures report { ReportTurns D P B }
    ensures missed { MissedTurns D P B }
    ensures thrown { ThrownTurns D P B }
{}

/// An order that a worker has and whose number is out is out itself, and that of an open Start; where no worker has an order, none is
/// out.
pub fn orders_are_kept<D, P, B>()
    ensures out { HadIsOut P }
    ensures is_open { OutIsOpen D P B }
    ensures taken { PromisedIsTaken D P B }
    ensures none { NoneIsOut P }
{}

/// With the end of the root task the run ends, and the job means an answer. What is refused of a report is a clash of the
/// job's, or one description too many. Where each worker is lost the journal has it, and the journal of a run is driven.
pub fn runs_end<D, P, B>()
    ensures shown { ShownEnds D P B }
    ensures clash { ClashEnds D P B }
    ensures overflow { OverflowEnds D P B }
    ensures lost { LostEnds D P B }
    ensures driven { JournalIsDriven D P B }
{}

/// Where the job means an answer, and its needed tasks make no more descriptions than there is room for, no two of which share a
/// name, no run of it ends with a clash, with one description too many, or in a circle.
pub fn modest_jobs_answer<D, P, B>()
    ensures clash { NoneClashes D P B }
    ensures overflow { NoneOverflows D P B }
    ensures circle { NoneCircles D P B }
{}
