// Boards: cards of gates read from a file, simulated with at most one line stuck. A board is a device.
#![tactic(auto)]

pub mod answers;
pub mod board;
pub mod gate;
pub mod gates;
pub mod making;
pub mod parted;
pub mod parts;
pub mod pins;
pub mod reading;
pub mod records;
pub mod refusal;
pub mod refused;
pub mod simulate;
