// Rows of an executor's order, over what lies on the shelves of two workers and among the job's inputs. They stand in a crate of
// their own, since a crate with tests is proved twice.
#![tactic(auto)]

#[cfg(test)]
mod kit;
#[cfg(test)]
mod made;
#[cfg(test)]
mod order;
#[cfg(test)]
mod rows;
