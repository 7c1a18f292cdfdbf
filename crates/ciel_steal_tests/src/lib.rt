//! Rows of runs over the crew whose workers share threads.
#![tactic(auto)]

#[cfg(test)]
mod counting;
#[cfg(test)]
mod losses;
#[cfg(test)]
mod meetings;
