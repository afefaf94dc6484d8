// Working on answers at 64 vectors: taking in those of single vectors, comparing two, hiding outputs.
ghost use Rattle.std.specs.Prelude.{◌≡◌, ℕ, ◌+◌, ◌*◌, ◌^◌, ◌<◌, ◌&&◌, slice_index};
ghost use Rattle.cubes.specs.Masks.{bit, has};
ghost use Rattle.cubes.specs.Blocks.{Marks};
ghost use Rattle.devices.specs.Widely.{opposed};

use crate::wide::WideAnswer;

// Adds what a mask of outputs says of the k-th vector, above what the words say of those before.
pub(crate) fn lift(words: &mut [u64; 32], k: u32, mask: u32)
    requires place { k < 64 }
    requires before { (o : ℕ) → o < 32 → slice_index words.old o < 2 ^ k }
    ensures { (o : ℕ) → o < 32 → slice_index words.new o ≡ slice_index words.old o + bit mask o * 2 ^ k }
{
    for (o, word) in words.iter_mut().enumerate() {
        *word |= u64::from(mask >> o & 1) << k;
    }
}

// The vectors at which some output is 0 in one and 1 in the other.
pub(crate) fn crossing(a: &WideAnswer, b: &WideAnswer) -> u64
    ensures { Marks (opposed a.now b.now 32) result }
{
    let mut word = 0;
    // One place in four arrays: a chain of three zips would say no more.
    for o in 0..32usize {
        word |= (a.zeros[o] & b.ones[o]) | (a.ones[o] & b.zeros[o]);
    }
    word
}

// The words of the outputs in the mask, and nothing of the others.
pub(crate) fn kept_words(words: &[u64; 32], mask: u32) -> [u64; 32]
    ensures { (k o : ℕ) → o < 32 → has (slice_index result o) k ≡ (has (slice_index words.now o) k && has mask o) }
{
    let mut seen = *words;
    for (o, word) in seen.iter_mut().enumerate() {
        if mask >> o & 1 == 0 {
            *word = 0;
        }
    }
    seen
}
