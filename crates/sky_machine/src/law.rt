//! Laws of calls that go on. Each is the contract of a function that does nothing.

ghost use Rattle.sky_machine.specs.Laws.{CallsMakeSound, CallsStaySound, StacksAreLeft, StepsOfScriptsFit};
ghost use Rattle.sky_machine.specs.Rest.{StacksHaveARest};

/// The steps of a script that bytes are, fewer than 2,147,483,648 of them, fit 32 bits.
pub fn steps_of_scripts_fit()
    ensures steps { StepsOfScriptsFit }
{}

/// Each stack that waits and fits a script is that of a call at a wait: its forms follow each other, each is opened by what is saved
/// of it, and the innermost one waits for something.
pub fn stacks_are_left_at_waits()
    ensures stacks { StacksAreLeft }
{}

/// A call whose stack waits and fits a script, and which goes on from sound objects, stands at its next wait with a stack that fits
/// the script, or it ends with a sound object; and what it makes up to there is sound.
pub fn calls_stay_sound()
    ensures stays { CallsStaySound }
    ensures makes { CallsMakeSound }
{}

/// Each stack that fits a script has a rest: it is the start of a call, whose whole run comes, or that of a call at a wait.
pub fn stacks_have_a_rest()
    ensures rest { StacksHaveARest }
{}
