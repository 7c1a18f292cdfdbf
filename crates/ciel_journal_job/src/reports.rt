//! What a report of a task's run says of the job, and what the master may take it for.
//!
//! A report speaks of names; the journal's laws speak of descriptions. What stands between is one relation, `Says`
//! (`specs/Report`): a run promises it, and where the master learned the report without a clash it may take it for an event
//! that the journal allows.

ghost use Rattle.ciel_journal_job.specs.Names.{RealNamesAreExact};
ghost use Rattle.ciel_journal_job.specs.Laws.{AllowedIsSaid, ClashesAreTold, OverflowsAreTold, ReportsAreAllowed};

/// Where what a report spawned is learned, with no name for two descriptions, it tells an event that is allowed, no name stands
/// for two descriptions after it, and what was learned is the book. Each allowed event that closes a Start is said by the
/// report that tells it. A report of something missing is left out: it tells its event by itself.
pub fn reports_are_allowed<D, B>()
    ensures allowed { ReportsAreAllowed D B }
    ensures said { AllowedIsSaid D B }
{}

/// Where a spawned description is refused, an open Start makes it next, and what was learned is the book with what that Start
/// made before: it has the name of another one there, or it is new there, where there is no room.
pub fn refusals_are_told<D, B>()
    ensures clash { ClashesAreTold D B }
    ensures overflow { OverflowsAreTold D B }
{}

/// Of the job that a script means a description over names tells its name and the names of what stands inside, and with what
/// stands inside it tells the description, whatever gives the names.
pub fn real_names_are_exact()
    ensures exact { RealNamesAreExact }
{}
