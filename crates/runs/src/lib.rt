// Runs: a list of calls applied to a new sheet, then a claim. The public call `run` carries the promise over whole runs.
#![tactic(auto)]

pub mod bench;
pub mod finished;
pub mod first;
pub mod hands;
pub mod running;
pub mod steps;
