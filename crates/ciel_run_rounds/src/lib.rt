//! A job on the engine by rounds: what it begins with and what it promises is that of `ciel_run_job`, over the crew of `ciel_crew_rounds`.
#![tactic(auto)]

pub mod run;
