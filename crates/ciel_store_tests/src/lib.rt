// The worked rows of the layers below the program: tests stand here, since a crate with tests is proved twice.
#![tactic(auto)]

#[cfg(test)]
mod gates;
#[cfg(test)]
mod lanes;
#[cfg(test)]
mod store;
