// Rows of calls that go on from bytes: at its start and at each wait a call is frozen, its bytes are read again, and it goes on from
// what is thawed. They stand in a crate of their own, since a crate with tests is proved twice.
#![tactic(auto)]

#[cfg(test)]
mod calls;
#[cfg(test)]
mod rows;
