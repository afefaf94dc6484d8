// Scripts: calls of a sheet written one to a line, and the lines that say what each call answered.
#![tactic(auto)]

pub mod claiming;
pub mod cubing;
pub mod kind;
pub mod kinds;
pub mod lines;
pub mod numbers;
pub mod parsing;
pub mod refusal;
pub mod script;
pub mod telling;
#[cfg(test)]
mod tests;
pub mod words;
