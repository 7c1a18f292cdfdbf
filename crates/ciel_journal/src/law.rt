//! Laws of histories, over every job. Each is the contract of a function that does nothing.

ghost use Rattle.std.specs.Prelude.{[], ◌∷◌, ◌++◌, false, true};
ghost use Rattle.ciel_journal.specs.Fixed.{main, one, two, squares, lines, small_inner};
ghost use Rattle.ciel_journal.specs.Job.{IsJob, of};
ghost use Rattle.ciel_journal.specs.Lawful.{Lawful};
ghost use Rattle.ciel_journal.specs.History.{lost, missed, standing, start};
ghost use Rattle.ciel_journal.specs.OtherJobs as o;
ghost use Rattle.ciel_journal.specs.SmallFacts.{BreaksLaw, BreaksLawOf, BreaksTurns};
ghost use Rattle.ciel_journal.specs.SmallHistories as h;
ghost use Rattle.ciel_journal.specs.Turns.{CircleAtRest, Driven};
ghost use Rattle.ciel_journal.specs.Work.{Work};
ghost use Rattle.ciel_journal.specs.Known.{Knows};
ghost use Rattle.ciel_journal.specs.Laws.{BookIsMade, BookIsOnce, BookIsTold, BookIsWhole, CircleIsEndless, CountsAreTold, DrivenGoesOn};
ghost use Rattle.ciel_journal.specs.Laws.{DrivenInParts, DrivenIsLawful, EnteredAlike, FewBetween, FewStarts, FirstsComeFirst};
ghost use Rattle.ciel_journal.specs.Laws.{GoneIsTold, LawfulGoesOn, ListedOrCircle, LiveIsTold, MadeIsSeen, NamedCircleIsEndless};
ghost use Rattle.ciel_journal.specs.Laws.{NamesDetermine, NextIsOne, NewIsWhole};
ghost use Rattle.ciel_journal.specs.Laws.{OneBook, OneMark, OneState, OneWhole, OneWorker, OpenIsBooked, OpenIsNeeded, OpenIsTold, OpenStood};
ghost use Rattle.ciel_journal.specs.Laws.{OverIsTold, PlacedAlike, PlacedIsBooked, PlacesAreTold, ReachedIsBooked, ReadyOrCircle, ReadyStarts};
ghost use Rattle.ciel_journal.specs.Laws.{SavedIsBooked, SavedIsState, SavedIsTold, StandsOn, StartedIsMissing, StartedIsNeeded};

/// The small jobs have the laws that are asked of a job, and that of the squares is six Starts of work: the root task, the main
/// call with its two waits, and the squares.
pub fn small_jobs_are_jobs()
    ensures squares { IsJob squares }
    ensures squares_known { Knows squares (small_inner false) }
    ensures lines { IsJob lines }
    ensures lines_known { Knows lines (small_inner true) }
    ensures fetching { IsJob o.fetching }
    ensures circling { IsJob o.circling }
    ensures following { IsJob o.following }
    ensures work { Work squares 6 }
{}

/// Histories of the small jobs that are driven: the squares with one worker; with two, of which the
/// first is lost after two closes; with one that is lost before all else; and the lines with two
/// workers, where what is read from another worker is copied. So are one of a job that waits for two objects at once, where a
/// task over a square misses it with a lost worker, and one of a job whose square waits for itself: there is a circle.
/// Two more are lawful: a square, and a stack, that are missed.
pub fn small_histories_are_driven()
    ensures alone { Driven squares h.one_worker h.squares_alone }
    ensures recovered { Driven squares h.loss_after_two h.squares_recovered }
    ensures lost { Driven squares h.loss_at_once h.lost_at_once }
    ensures copied { Driven lines h.two_workers h.lines_copied }
    ensures missed { Lawful squares h.loss_of_the_first h.missed_and_made_again }
    ensures stack { Lawful squares h.loss_of_the_first h.stack_missed }
    ensures fetched { Driven o.fetching o.third_lost o.fetch_missed }
    ensures round { Driven o.circling h.one_worker o.comes_round }
    ensures circle { CircleAtRest o.circling (standing o.circling o.comes_round) (one ∷ []) }
{}

/// Histories of the small job that are lawful up to their last event and not with it: one starts what
/// nobody needs, one runs a live task again, one keeps places of a lost worker, one resumes another
/// wait, one drops what was spawned at a save, one has more descriptions than there is room for, one
/// a mark of another object, one copies what its own worker has, one misses what is there, one loses a worker that the
/// plan doesn't, and one has two descriptions of one name.
pub fn small_histories_break_laws()
    ensures needless { BreaksLaw h.one_worker h.saved_once h.starts_what_nobody_needs }
    ensures again { BreaksLaw h.one_worker (h.saved_once ++ h.first_square) h.runs_a_live_task_again }
    ensures kept_places { BreaksLaw h.loss_of_the_first h.square_lost h.keeps_places_of_a_lost_worker }
    ensures other_wait { BreaksLaw h.one_worker (h.saved_once ++ h.first_square) h.resumes_another_wait }
    ensures dropped { BreaksLaw h.one_worker h.begun h.drops_spawned_at_a_save }
    ensures room { BreaksLaw h.little_room h.begun h.saved_once }
    ensures mark { BreaksLaw h.one_worker h.one_running h.another_mark }
    ensures copy { BreaksLaw h.one_worker h.main_last h.copies_its_own }
    ensures missed { BreaksLaw h.loss_of_the_only h.main_again h.misses_what_is_there }
    ensures lost { BreaksLaw h.one_worker h.saved_once h.loses_unplanned }
    ensures clash { BreaksLawOf o.namesakes h.one_worker h.begun h.saved_once }
{}

/// Histories of the small jobs that are lawful and not driven, each by its last event: with another event in its place it is driven.
/// A task is started though a loss is due, and a report is taken though one is; of two due losses with one count the one that is listed
/// later comes first; a start has another task than the one that is drawn, and another worker; and a Done, a Saved and a Missed are each
/// taken before a task that is ready is started at a worker that is idle.
pub fn small_histories_break_turns()
    ensures undone { BreaksTurns squares h.loss_of_the_only (h.saved_once ++ h.first_square) (lost 0 2) (start 2 0 (of main) 1) }
    ensures unheeded { BreaksTurns o.fetching o.two_lost o.two_due (lost 2 3) o.left_reported }
    ensures order { BreaksTurns o.fetching o.two_lost o.two_due (lost 2 3) (lost 1 3) }
    ensures task { BreaksTurns o.fetching o.two_lost o.two_ready (start 1 2 (of one) 0) (start 1 2 (of two) 0) }
    ensures worker { BreaksTurns o.fetching o.two_lost o.two_ready (start 1 2 (of one) 0) (start 1 0 (of one) 0) }
    ensures done { BreaksTurns o.fetching o.two_lost o.one_started (start 2 1 (of two) 0) o.one_reported }
    ensures saved { BreaksTurns o.following h.two_workers o.first_started (start 2 0 (of two) 0) o.first_saved }
    ensures missed { BreaksTurns o.fetching o.two_lost o.both_lost (start 4 0 (of two) 0) (missed 3 one 0) }
{}

/// What stands after a history, said of the whole of it. What is live after a lawful one is an input,
/// or a description with a Done that made or copied it and no Lost of that worker. The open Starts
/// are those that no entry has closed and whose worker has no Lost, the saved waits those of the
/// Saved whose worker has no Lost. Starts and closes are counted. The book is the main call and then all
/// that was spawned, each at its first place only. The places are those of the text, the lost workers those with a Lost,
/// the root task is done where the history ends with its Done, and an open Start says what stood when it was made.
pub fn live_is_told<D>()
    ensures live { LiveIsTold D }
    ensures open { OpenIsTold D }
    ensures saved { SavedIsTold D }
    ensures counts { CountsAreTold D }
    ensures book { BookIsTold D }
    ensures once { BookIsOnce D }
    ensures places { PlacesAreTold D }
    ensures gone { GoneIsTold D }
    ensures over { OverIsTold D }
    ensures stood { OpenStood D }
{}

/// A history goes on: a lawful one by a lawful event, a driven one by one whose turn it is. What stands then
/// and its journal follow from the event, and each part of a driven history is driven.
pub fn histories_go_on<D>()
    ensures lawful { LawfulGoesOn D }
    ensures driven { DrivenGoesOn D }
    ensures stands { StandsOn D }
    ensures parts { DrivenInParts D }
{}

/// Each description of the book is the main call or made by a needed task. What is open or saved is of a
/// needed task that goes by a name of the book, and a saved wait has what its state holds.
pub fn book_is_made<D>()
    ensures book { BookIsMade D }
    ensures open { OpenIsNeeded D }
    ensures saved { SavedIsState D }
{}

/// Where a job tells where all comes from that its tasks wait for and hold, all of it is in the book: what
/// stands inside its descriptions, and all outputs of their tasks, also as an event adds to it; what the objects hold that some worker
/// has; what is waited for and held at a saved wait; and what the task of an open Start held. An executor's first output stands before the others.
pub fn all_is_booked<D>()
    ensures whole { BookIsWhole D }
    ensures new { NewIsWhole D }
    ensures heads { FirstsComeFirst D }
    ensures reached { ReachedIsBooked D }
    ensures placed { PlacedIsBooked D }
    ensures saved { SavedIsBooked D }
    ensures open { OpenIsBooked D }
{}

/// Each task started was needed, and none was started whose outputs were all live. The root task
/// has no outputs.
pub fn started_is_needed<D>()
    ensures needed { StartedIsNeeded D }
    ensures missing { StartedIsMissing D }
{}

/// A circle of waits after a lawful history means that the job has no answer.
pub fn circle_is_endless<D>()
    ensures endless { CircleIsEndless D }
{}

/// Where nothing is open after a lawful history, a task is ready or there is a circle.
pub fn ready_or_circle<D>()
    ensures answer { ReadyOrCircle D }
{}

/// Where a job tells where all comes from that its tasks wait for and hold, all of it is in the
/// book: so where nothing is open, the list of ready tasks isn't empty or there is a circle; and a
/// ready task may be started at an idle worker.
pub fn ready_is_listed<D>()
    ensures listed { ListedOrCircle D }
    ensures starts { ReadyStarts D }
{}

/// A lawful history has no more Starts than there is work, once for each loss and once more.
pub fn few_starts<D>()
    ensures starts { FewStarts D }
{}

/// Between two losses, before the first and after the last, there are no more Starts than there is work, which is one for each
/// needed task and one for each of its waits: so of any stretch of a lawful history that has no Lost, wherever it begins and ends.
/// A Start from before the stretch that is open or missed in it isn't counted; one that makes it again there is.
pub fn few_between<D>()
    ensures starts { FewBetween D }
{}

/// From a wait on, a task has one next wait for something outside a list, and none where it comes to its end.
pub fn next_is_one<D>()
    ensures one { NextIsOne D }
{}

/// Each name made is that of one description of the book, beside the mark of the one object that
/// the job sees for it. No name stands with two marks, and two saved entries of one task and one
/// wait have one mark.
pub fn names_have_one_mark<D>()
    ensures made { MadeIsSeen D }
    ensures one_mark { OneMark D }
    ensures one_state { OneState D }
{}

/// The journal of names determines the history.
pub fn names_determine<D>()
    ensures history { NamesDetermine D }
{}

/// A journal by itself, over names: that of a driven history is that of a lawful one, one book stands behind it, a
/// circle of names means that the job has no answer, its entries say which tasks a worker was given, and
/// which workers have an object.
pub fn journals_alone<D>()
    ensures lawful { DrivenIsLawful D }
    ensures book { OneBook D }
    ensures endless { NamedCircleIsEndless D }
    ensures entered { EnteredAlike D }
    ensures placed { PlacedAlike D }
{}

/// With one worker a driven history is a function of the job, the seed and the losses: of two, the
/// shorter begins the longer, and two in which the root task is done are equal.
pub fn one_worker_is_determined<D>()
    ensures prefix { OneWorker D }
    ensures whole { OneWhole D }
{}
