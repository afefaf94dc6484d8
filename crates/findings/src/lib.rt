// What can be found out about each machine of a device, and the lines that say it. Program `classes` prints them.
#![tactic(auto)]

pub mod finding;
pub mod finding_out;
pub mod report;
