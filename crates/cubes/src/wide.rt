// The single vectors in input words: for what answers 64 vectors one by one.
ghost use Rattle.std.specs.Prelude.{◌≡◌, ℕ, ◌+◌, ◌^◌, ◌<◌, ◌≤◌, if◌then◌else◌};
ghost use Rattle.cubes.specs.Blocks.{number_at, VectorAt};

use crate::cube::Cube;
use crate::mask::{InputWords, MOST_INPUTS, Mask};

// A number with bit `place` set above those that it has, or left as it is.
pub(crate) fn with_bit(number: u64, place: u32, on: bool) -> u64
    requires { (place < 64) × (number < 2 ^ place) }
    ensures { result ≡ number + (if on then 2 ^ place else 0) }
{
    if on { number | 1 << place } else { number }
}

// The number of the k-th vector that the words hold.
fn number_at(inputs: u8, words: &InputWords, k: u32) -> Mask
    requires { (inputs ≤ 16) × (k < 64) }
    ensures { result ≡ number_at inputs words.now k }
{
    let mut number = 0;
    for (input, word) in words[..usize::from(inputs)].iter().enumerate() {
        number = with_bit(number, input as u32, word >> k & 1 == 1);
    }
    number as Mask
}

// The k-th vector that the words hold, or none where there is no such vector.
pub fn vector_at(inputs: u8, words: &InputWords, k: u32) -> Option<Cube>
    ensures { VectorAt inputs words.now k result }
{
    if inputs > MOST_INPUTS {
        return None;
    }
    if k >= 64 {
        return None;
    }
    Cube::vector(inputs, number_at(inputs, words, k))
}
