// The cube, in a file of its own because its type carries the promise that no input is in both masks.
ghost use Rattle.std.specs.Prelude.{◌≡◌, bit_and};

use crate::mask::Mask;

// For each input 0, 1 or unknown: input i is 0 where bit i of `zeros` is set, 1 where bit i of `ones` is.
#[derive(Clone, Copy, Debug, PartialEq, Eq)]
pub struct Cube {
    pub(crate) zeros: Mask,
    pub(crate) ones: Mask,
    ghost apart: { bit_and zeros ones ≡ 0 },
}

impl Cube {
    // The inputs that are 0.
    pub fn zeros(&self) -> Mask
        ensures { result ≡ self.now.zeros }
    {
        self.zeros
    }

    // The inputs that are 1.
    pub fn ones(&self) -> Mask
        ensures { result ≡ self.now.ones }
    {
        self.ones
    }
}
