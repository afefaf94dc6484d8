// Devices: cards with a good machine and faulty ones, known by what each machine answers.
#![tactic(auto)]

pub mod answer;
pub mod decide;
pub mod device;
pub mod labels;
pub mod masked;
pub mod refusal;
pub mod shared;
pub mod telling;
pub mod wide;
pub mod widely;
