// The duties that a claim names.
ghost use Rattle.std.specs.Prelude.{drop};
ghost use Rattle.scripts.specs.Words.{texts};
ghost use Rattle.scripts.specs.Scripts.{all_numbers, Numbered};

use crate::numbers::number_of;
use crate::refusal::LineRefusal;
use std::alloc::Global;

// The numbers that the words after the first are; not understood where one of them is no number.
pub fn numbers_of(heap: Global, words: &[&[u8]]) -> Result<Vec<u32>, LineRefusal>
    ensures { Numbered (all_numbers (drop 1 (texts words.now))) result }
{
    let mut numbers = Vec::new(heap);
    let [_, duties @ ..] = words else {
        return Ok(numbers);
    };
    for word in duties {
        // By itself, so that this refusal is not in one line with that of `push`.
        let Some(number) = number_of(word) else {
            return Err(LineRefusal::NotUnderstood);
        };
        numbers.push(number)?;
    }
    Ok(numbers)
}
