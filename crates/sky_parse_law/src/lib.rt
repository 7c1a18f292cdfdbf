// What holds of the functions of each script that is read: it has a name, its parameters stand once,
// and it captures none of them.
#![tactic(auto)]

pub mod law;
