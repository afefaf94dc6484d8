// Sixty-four vectors in machine words.
use crate::mask::InputWords;

// The vectors of one block of a walk: bit k of the word of an input is that input of the k-th vector, and bit k of
// `present` is set where there is a k-th vector.
#[derive(Clone, Copy)]
pub struct Block {
    pub words: InputWords,
    pub present: u64,
}
