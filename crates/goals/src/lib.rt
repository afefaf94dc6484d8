// Goals: duties that a test sheet is to cover, and which cubes cover which. Four kinds stand here; whatever keeps
// the meaning and the law is a goal.
#![tactic(auto)]

pub mod covering;
pub mod detection;
pub mod distinction;
pub mod excused;
pub mod excusing;
pub mod goal;
pub mod joined;
pub mod refusal;
