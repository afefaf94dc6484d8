// What the programs share: reading a board file from standard input, and saying that it is refused.
#![tactic(auto)]

pub mod input;
pub mod saying;
