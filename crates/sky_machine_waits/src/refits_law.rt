//! Laws of stacks that go on. Each is the contract of a function that does nothing.

ghost use Rattle.sky_machine_waits.specs.RefitsLaws.{AnsweredFitsAgain, AnsweredMakesSound, AnswersAreSound, StackFitsAgain, StackMakesSound, StartFitsAgain};
ghost use Rattle.sky_machine_waits.specs.RefitsLaws.{StartMakesSound};

/// Where what is read as data is sound, sound objects in answer to a wait give it a sound end.
pub fn answers_are_sound()
    ensures ends { AnswersAreSound }
{}

/// Where the stack at a wait fits a script and its forms follow each other, each opened by what is saved of it, it goes on from any
/// sound end of the wait to a stack that fits the script again, with one wait more; what it makes up to there is sound, and
/// so is its end, where it waits no more.
pub fn stacks_fit_again()
    ensures fits { StackFitsAgain }
    ensures makes { StackMakesSound }
{}

/// The same where the stack waits for what its forms wait for, and sound objects answer it.
pub fn answered_stacks_fit_again()
    ensures fits { AnsweredFitsAgain }
    ensures makes { AnsweredMakesSound }
{}

/// Where a state fits a script and is the start of a call, the stack at the call's first wait fits the script; what it makes up to
/// there is sound, and so is its end, where it doesn't wait.
pub fn starts_fit_again()
    ensures fits { StartFitsAgain }
    ensures makes { StartMakesSound }
{}
