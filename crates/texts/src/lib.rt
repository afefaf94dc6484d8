// Writing into lent text: bytes that a caller lends and that no call here makes longer. Every call that answers
// in text is built on this crate.
#![tactic(auto)]

pub mod decimal;
pub mod refusal;
pub mod short;
#[cfg(test)]
mod tests;
pub mod writing;
