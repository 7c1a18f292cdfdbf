// What the run of an order by names says of the job: laws that a worker's reports rest on.
#![tactic(auto)]

pub mod law;
