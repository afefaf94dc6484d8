// The letters of a cube, as they stand on a test sheet.
ghost use Rattle.std.specs.Prelude.{◌≡◌, IfOk, string_bytes};
ghost use Rattle.cubes.specs.Cubes.{letter_of, letter, letters};

use crate::cube::Cube;
use crate::mask::{MOST_INPUTS, Mask};
use std::alloc::{AllocError, Global};

// The letter of an input of two masks: 0, 1 or X where it is unknown. No input past the last is known.
pub fn letter_of(zeros: Mask, ones: Mask, input: u8) -> u8
    ensures { result ≡ letter_of zeros ones input }
{
    if input >= MOST_INPUTS {
        return b'X';
    }
    if zeros >> input & 1 == 1 {
        return b'0';
    }
    if ones >> input & 1 == 1 {
        return b'1';
    }
    b'X'
}

impl Cube {
    // The letter of an input.
    pub fn letter(&self, input: u8) -> u8
        ensures { result ≡ letter self.now input }
    {
        letter_of(self.zeros(), self.ones(), input)
    }

    // The letters of the first inputs, input 0 first.
    pub fn letters(&self, heap: Global, inputs: u8) -> Result<String, AllocError>
        ensures { IfOk result (λ text. string_bytes text ≡ letters inputs self.now) }
    {
        let mut text = String::new(heap);
        for input in 0..inputs {
            text.push(self.letter(input) as char)?;
        }
        Ok(text)
    }
}
