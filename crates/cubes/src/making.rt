// Making cubes: from masks, and as the vector with a number.
ghost use Rattle.std.specs.Prelude.{◌≡◌};
ghost use Rattle.cubes.specs.Cubes.{number, Made, Numbered};

use crate::cube::Cube;
use crate::mask::{MOST_INPUTS, Mask};
use crate::refusal::NoCube;

impl NoCube {
    // The number by which the shop knows the refusal.
    pub fn number(&self) -> u16
        ensures { result ≡ number self.now }
    {
        match self {
            NoCube::InputInBoth => 12,
        }
    }
}

impl Cube {
    // The cube with exactly these masks.
    pub fn from_masks(zeros: Mask, ones: Mask) -> Result<Cube, NoCube>
        ensures { Made zeros ones result }
    {
        if zeros & ones != 0 {
            return Err(NoCube::InputInBoth);
        }
        Ok(Cube { zeros, ones })
    }

    // The vector of this many inputs with this number, or none where there is no such vector.
    pub fn vector(inputs: u8, number: Mask) -> Option<Cube>
        ensures { Numbered inputs number result }
    {
        if inputs > MOST_INPUTS {
            return None;
        }
        let all = ((1u32 << inputs) - 1) as Mask;
        if number > all {
            return None;
        }
        Some(Cube {
            zeros: all - number,
            ones: number,
        })
    }
}
