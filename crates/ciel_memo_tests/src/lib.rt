//! Rows of a memo's file and of the kit over it.
#![tactic(auto)]

#[cfg(test)]
mod files;
#[cfg(test)]
mod kits;
#[cfg(test)]
mod limits;
#[cfg(test)]
mod made;
#[cfg(test)]
mod threads;
