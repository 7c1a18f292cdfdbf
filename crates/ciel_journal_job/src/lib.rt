//! The job that a script means, as a job of journals.
#![tactic(auto)]

pub mod reports;

ghost use Rattle.ciel_journal_job.specs.Histories.{BookIsMade, CirclesNever, EndsInAnswer, ListedOrCircle, MadeIsSeen, OfHistories, ReadyStarts};
ghost use Rattle.ciel_journal_job.specs.Histories.{SavedStands, StartsAreFew, StartsAreNeeded};
ghost use Rattle.ciel_journal_job.specs.RealLaws.{OfReal, RealIsJob, WaitsAlike, OutputsAlike, EndsAlike, NeverAlike, AnswerAlike, ObjectsAlike};
ghost use Rattle.ciel_journal_job.specs.RealLaws.{StatesAlike, MadeAlike, NeededAlike, AllIsTold, WorkIsFinite};

/// The job that a script means has the laws that the journal asks of a job, whatever its names and
/// marks are.
pub fn real_job_is_a_job()
    ensures job { RealIsJob }
{}

/// Its functions are the meaning's: what its tasks wait for, make and come to, which objects are seen, and in which
/// states its tasks stand, whatever its names and marks are.
pub fn real_job_is_the_meaning()
    ensures waits { OfReal WaitsAlike }
    ensures outputs { OfReal OutputsAlike }
    ensures ends { OfReal EndsAlike }
    ensures never { OfReal NeverAlike }
    ensures answer { OfReal AnswerAlike }
    ensures objects { OfReal ObjectsAlike }
    ensures states { OfReal StatesAlike }
    ensures made { OfReal MadeAlike }
{}

/// Where what is read as data is sound, the same tasks are needed as in the meaning, and a job that means an answer has a
/// finite amount of work.
pub fn real_job_needs_what_the_meaning_does()
    ensures needed { OfReal NeededAlike }
    ensures work { OfReal WorkIsFinite }
{}

/// Where what is read as data refers to nothing, as JSON does, the job tells where all comes from that its tasks wait for and
/// hold: so all of it is in the book of a lawful history.
pub fn real_job_tells_where_all_comes_from()
    ensures told { OfReal AllIsTold }
{}

/// Of every lawful history of that job, where what is read as data is plain: each task started is needed, and there are no
/// more Starts than its work, once for each loss and once more; where the root task is done the job means an answer, and a
/// circle of waits means that it has none; where nothing is open a task is ready or there is a circle, and a ready task may
/// be started; what is made has the mark of the one object as which it is seen, what is saved is how its task stands, and
/// each description of the book is the main call or made by a needed task.
pub fn real_histories()
    ensures needed { OfHistories StartsAreNeeded }
    ensures few { OfHistories StartsAreFew }
    ensures answer { OfHistories EndsInAnswer }
    ensures endless { OfHistories CirclesNever }
    ensures listed { OfHistories ListedOrCircle }
    ensures starts { OfHistories ReadyStarts }
    ensures made { OfHistories MadeIsSeen }
    ensures saved { OfHistories SavedStands }
    ensures book { OfHistories BookIsMade }
{}
