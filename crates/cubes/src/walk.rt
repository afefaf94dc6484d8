// The walk through all vectors of some inputs, one by one or 64 at a time, and the search for the smallest that passes. Which
// vectors such a search looks at, and in which order, is known here alone.
ghost use Rattle.std.specs.Prelude.{◌≡◌, ℕ, ◌+◌, ◌*◌, ◌/◌, ◌^◌, ◌<◌, ◌≤◌, min, Bool, nat_lt, slice_index};
ghost use Rattle.cubes.specs.Masks.{most_inputs, has};
ghost use Rattle.cubes.specs.Searching.{Sought, First};
ghost use Rattle.cubes.specs.Blocks.{number_at, Marks, BlockOf};
ghost use Rattle.cubes.specs.Cubes.{vector};

use crate::block::Block;
use crate::cube::Cube;
use crate::mask::{InputWords, MOST_INPUTS, Mask};
use crate::wide::{vector_at, with_bit};

// What a search asks of vectors: which of 64 of them pass.
pub trait Question {
    // How many inputs the vectors have, and which pass; both questions are answered from this alone.
    ghost asks: { Self → Sought };

    fn inputs(&self) -> u8
        ensures value { result ≡ (asks self.now).inputs }
        ensures few { result ≤ most_inputs };

    fn passing(&self, words: &InputWords) -> u64
        ensures { Marks (λ k. (asks self.now).passes (number_at (asks self.now).inputs words.now k)) result };
}

// A question that is asked of one vector too. Each is a Question, and may be asked 64 at a time.
pub trait OneByOne {
    // How many inputs the vectors have, and which pass; each question is answered from this alone.
    ghost asks: { Self → Sought };

    fn inputs(&self) -> u8
        ensures value { result ≡ (asks self.now).inputs }
        ensures few { result ≤ most_inputs };

    // Of a cube that is no vector of these inputs it says nothing.
    fn passes(&self, cube: Cube) -> bool
        ensures { (number : ℕ) → number < 2 ^ (asks self.now).inputs → cube ≡ vector (asks self.now).inputs number → result ≡ (asks self.now).passes number };

    // A question of a new kind need not answer this; where it can be answered faster than vector by vector, it should.
    fn passing(&self, words: &InputWords) -> u64
        ensures { Marks (λ k. (asks self.now).passes (number_at (asks self.now).inputs words.now k)) result }
    {
        let inputs = self.inputs();
        let mut word = 0;
        for k in 0..64u32 {
            if let Some(cube) = vector_at(inputs, words, k) {
                word = with_bit(word, k, self.passes(cube));
            }
        }
        word
    }
}

impl<Q: OneByOne> Question for Q {
    ghost asks = { λ q. Q.OneByOne.asks q };

    fn inputs(&self) -> u8 {
        OneByOne::inputs(self)
    }

    fn passing(&self, words: &InputWords) -> u64 {
        OneByOne::passing(self, words)
    }
}

// A word of one value 64 times: bit `place` of the number.
fn spread(number: u32, place: usize) -> u64
    requires { place < 32 }
    ensures { Marks (λ _. has number place) result }
{
    if number >> place & 1 == 1 {
        u64::MAX
    } else {
        0
    }
}

// An input of the 64 vectors whose numbers begin at 64 times the block's: the lowest six inputs run through all their
// values, the others are the same in all 64.
fn input_word(block: u32, input: usize) -> u64
    requires { input < 16 }
    ensures { Marks (λ k. has (64 * block + k) input) result }
{
    match input {
        0 => 0xAAAA_AAAA_AAAA_AAAA,
        1 => 0xCCCC_CCCC_CCCC_CCCC,
        2 => 0xF0F0_F0F0_F0F0_F0F0,
        3 => 0xFF00_FF00_FF00_FF00,
        4 => 0xFFFF_0000_FFFF_0000,
        5 => 0xFFFF_FFFF_0000_0000,
        _ => spread(block, input - 6),
    }
}

// All inputs of these 64 vectors.
fn input_words(block: u32) -> InputWords
    ensures { (i : ℕ) → i < 16 → Marks (λ k. has (64 * block + k) i) (slice_index result i) }
{
    let mut words = [0; 16];
    for (input, word) in words.iter_mut().enumerate() {
        *word = input_word(block, input);
    }
    words
}

// Those of these 64 vectors that there are.
fn present(inputs: u8, block: u32) -> u64
    requires { inputs ≤ 16 }
    ensures { Marks (λ k. nat_lt (64 * block + k) (2 ^ inputs)) result }
{
    let left = (1u64 << inputs).saturating_sub(64 * block as u64);
    if left >= 64 {
        u64::MAX
    } else {
        (1 << left) - 1
    }
}

// How many blocks the vectors of some inputs fill. No card has more inputs than the most.
pub fn blocks(inputs: u8) -> u32
    ensures { result ≡ (2 ^ min inputs most_inputs + 63) / 64 }
{
    ((1u32 << inputs.min(MOST_INPUTS)) + 63) / 64
}

// The block with this number; past the last one it has no vector.
pub fn block(inputs: u8, number: u32) -> Block
    ensures { BlockOf (min inputs most_inputs) number result }
{
    Block {
        words: input_words(number),
        present: present(inputs.min(MOST_INPUTS), number),
    }
}

// Whether the vector with this number passes.
fn passes_at<Q: OneByOne>(question: &Q, number: Mask) -> bool
    requires { number < 2 ^ (Q.asks question.now).inputs }
    ensures { result ≡ (Q.asks question.now).passes number }
{
    Cube::vector(question.inputs(), number).is_some_and(|cube| question.passes(cube))
}

// The smallest vector that passes, asked one by one. It stops at the first one.
pub fn first<Q: OneByOne>(question: &Q) -> Option<Mask>
    ensures { First (2 ^ (Q.asks question.now).inputs) (Q.asks question.now).passes result }
{
    for number in 0..1u32 << question.inputs() {
        let number = number as Mask;
        if passes_at(question, number) {
            return Some(number);
        }
    }
    None
}

// The same smallest vector, asked 64 at a time. It stops at the first block that has one.
pub fn smallest<Q: Question>(question: &Q) -> Option<Mask>
    ensures { First (2 ^ (Q.asks question.now).inputs) (Q.asks question.now).passes result }
{
    let inputs = question.inputs();
    for number in 0..blocks(inputs) {
        let block = block(inputs, number);
        let passing = question.passing(&block.words) & block.present;
        if passing != 0 {
            return Some((64 * number + passing.trailing_zeros()) as Mask);
        }
    }
    None
}
