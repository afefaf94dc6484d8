// The test sheet: rows that cover the duties of a goal, and the calls that change them. None of the calls can leave a
// wanted duty bare that was covered before.
#![tactic(auto)]

pub mod asking;
pub mod call;
pub mod covering;
pub mod entering;
pub mod exchanging;
pub mod finding;
pub mod joining;
pub mod listing;
pub mod losing;
pub mod making;
pub mod memory;
pub mod numbers;
pub mod pulling;
pub mod refusal;
pub mod reply;
pub mod row;
pub mod sheet;
pub mod slip;
pub mod striking;
pub mod sweeping;
