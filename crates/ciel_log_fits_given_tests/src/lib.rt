// Rows of the tests by which a report that was read from a log is decided to fit its order: of what the order gives, each with ample memory, where
// it answers yes and where it answers no.
#![tactic(auto)]

#[cfg(test)]
mod given;
