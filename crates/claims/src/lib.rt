// Claims: lists of duties of which no vector covers two. An accepted claim bounds from below how many rows any sheet needs
// that covers all that is wanted and can be covered.
#![tactic(auto)]

pub mod claiming;
pub mod named;
pub mod pair;
pub mod places;
pub mod refusal;
pub mod together;
