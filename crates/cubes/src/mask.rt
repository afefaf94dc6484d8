// The width of a mask, and so the number of inputs that a card can have, stands here and in
// specs/Masks.antt (`most_inputs`). Besides, the words of 64 vectors (walk.rt, wide.rt) count 16 of them, and the rules of what
// is read: a board file has at most 16 records of inputs, and a script's cube at most 16 letters.

// One bit for each input; input i is bit i.
pub type Mask = u16;

// The most inputs that a card can have.
pub const MOST_INPUTS: u8 = 16;

// One word for each input: bit k of the word of input i is input i of the k-th of 64 vectors.
pub type InputWords = [u64; 16];
