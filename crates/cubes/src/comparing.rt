// One cube beside another: refinement, and the common refinement of both.
ghost use Rattle.std.specs.Prelude.{◌≡◌, Decides};
ghost use Rattle.cubes.specs.Cubes.{Refines, United};

use crate::cube::Cube;
use crate::refusal::Clash;

impl Cube {
    // Whether this cube has every 0 and every 1 of the other.
    pub fn refines(&self, other: &Cube) -> bool
        ensures { Decides result (Refines self.now other.now) }
    {
        (other.zeros & self.zeros == other.zeros) & (other.ones & self.ones == other.ones)
    }

    // The cube with every 0 and 1 of both, where no input is 0 in one and 1 in the other.
    pub fn unite(&self, other: &Cube) -> Result<Cube, Clash>
        ensures { United self.now other.now result }
    {
        if self.zeros & other.ones != 0 {
            return Err(Clash::Opposed);
        }
        if self.ones & other.zeros != 0 {
            return Err(Clash::Opposed);
        }
        Ok(Cube {
            zeros: self.zeros | other.zeros,
            ones: self.ones | other.ones,
        })
    }
}
