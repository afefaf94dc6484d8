// Cubes: what is known of each input of a card, as two masks, and the walk through all vectors, one by one or 64
// at a time. The lowest layer: all others speak of cubes.
#![tactic(auto)]

pub mod block;
pub mod comparing;
pub mod cube;
pub mod letters;
pub mod making;
pub mod mask;
pub mod refusal;
pub mod walk;
pub mod wide;
