// Rows of the gates of whole runs: two tasks that wait for each other at their gates, and tasks that run between their gates' entrances and
// exits. They stand apart from the other rows of runs, since the two together would be dear to prove.
#![tactic(auto)]

#[cfg(test)]
mod counting;
#[cfg(test)]
mod entering;
#[cfg(test)]
mod meetings;
#[cfg(test)]
mod watch;
