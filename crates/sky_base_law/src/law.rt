//! Laws of what a job means. Each is the contract of a function that does nothing.

ghost use Rattle.sky_base_law.specs.Laws.{ActsGrow, AnswerStays, CircleNever, EndedStays, MadeIsSound, MadeIsTyped, MadeTogether, NeededIsSound};
ghost use Rattle.sky_base_law.specs.Laws.{NeededIsTyped, OneAnswer, OneHeld, OneState, OneWait, RunsOn, SeenIsSound, SeenIsTyped, SeenStays, StateIsSound};
ghost use Rattle.sky_base_law.specs.Laws.{StateIsTyped, WaitedIsSeen, WaitedIsSound, WaitedIsTyped, WaitsApart, WaveIsSound, WaveIsTyped, WorkIsFinite};
ghost use Rattle.sky_base_law.specs.NamesLaws.{CallsAlike, DistinctAlike, OperatorsAlike, RefsAlike, RestsAlike, StacksAlike, Tag};

/// A job means at most one answer.
pub fn one_answer()
    ensures answer { OneAnswer }
{}

/// At each of its waits a task waits for one list of descriptions, is in one state, and holds one list
/// of descriptions.
pub fn waits_are_one()
    ensures wait { OneWait }
    ensures state { OneState }
    ensures held { OneHeld }
{}

/// What is seen stays seen with more fuel, and an answer stays the answer. What a task does only
/// grows, and a task that has ended does nothing more.
pub fn more_fuel_adds()
    ensures seen { SeenStays }
    ensures answer { AnswerStays }
    ensures acts { ActsGrow }
    ensures ended { EndedStays }
{}

/// The outputs of an executor's task are made one after another, all of them, with no wait between.
pub fn outputs_are_made_together()
    ensures batches { MadeTogether }
{}

/// A task that has ended has seen all that it waited for.
pub fn waited_is_seen()
    ensures seen { WaitedIsSeen }
{}

/// No wait of a task is for a description twice.
pub fn waits_are_apart()
    ensures apart { WaitsApart }
{}

/// Where needed tasks wait for each other in a circle, the job has no answer.
pub fn circle_is_endless()
    ensures never { CircleNever }
{}

/// A job that means an answer has a finite amount of work: so many needed tasks, and so many waits.
pub fn work_is_finite()
    ensures work { WorkIsFinite }
{}

/// The forms under way at a wait, run on with the objects waited for, are what comes after it.
pub fn runs_go_on()
    ensures rest { RunsOn }
{}

/// Where what is read as data keeps the limits and names functions of the script alone, so does each
/// value of a run: what is seen, what needed tasks make, wait for and hold, and the result at each wave.
pub fn values_keep_the_limits()
    ensures seen { SeenIsSound }
    ensures needed { NeededIsSound }
    ensures made { MadeIsSound }
    ensures waited { WaitedIsSound }
    ensures state { StateIsSound }
    ensures wave { WaveIsSound }
{}

/// Where each literal of the script is a number of 64 bits or UTF-8, its names are UTF-8, and what is read as data is so
/// too, each value of a run is: its numbers have 64 bits, its texts, keys and names are UTF-8, and its keys rise. This holds of
/// what is seen, of what needed tasks make, wait for and hold, and of the result at each wave.
pub fn values_keep_their_types()
    ensures seen { SeenIsTyped }
    ensures needed { NeededIsTyped }
    ensures made { MadeIsTyped }
    ensures waited { WaitedIsTyped }
    ensures state { StateIsTyped }
    ensures wave { WaveIsTyped }
{}

/// Names in place of descriptions change nothing that an operator answers, and nothing of which
/// references a value holds; where no two names clash, nothing of which of them differ.
pub fn names_commute_with_values()
    ensures operators { (tag : Tag) → OperatorsAlike tag }
    ensures refs { (tag : Tag) → RefsAlike tag }
    ensures distinct { (tag : Tag) → DistinctAlike tag }
{}

/// Names in place of descriptions change nothing that a call makes and waits for up to its first wait,
/// or from a wait to the next one, nor how it ends, nor the stack at a wait.
pub fn names_commute_with_runs()
    ensures call { (tag : Tag) → CallsAlike tag }
    ensures rest { (tag : Tag) → RestsAlike tag }
    ensures stack { (tag : Tag) → StacksAlike tag }
{}
