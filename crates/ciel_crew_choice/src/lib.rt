//! On what the workers of a run work: the choice of the crew that it goes over, as one value.
#![tactic(auto)]

pub mod hands;
