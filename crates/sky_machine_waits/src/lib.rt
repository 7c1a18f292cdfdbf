//!

//!
//! A state that fits a script fits it again where its call has gone on to its next wait: its values are sound, its visits rise, and
//! its stack is as high as bodies may be open. The laws are contracts of `law`.
#![tactic(auto)]

pub mod answer;
pub mod law;
pub mod refits_law;
pub mod rests_law;
pub mod wait;

// What a stack of forms under way waits for, and how its wait ends. The machine's forms don't hold the place of the `*` that
// waits, since a saved stack doesn't either: the script has it.

// What a stack that fits comes to where its wait has ended: laws of the definitions, which the machine's saved stacks rest on.
