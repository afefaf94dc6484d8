// The smallest vector that covers a duty.
ghost use Rattle.std.specs.Prelude.{◌≡◌};
ghost use Rattle.cubes.specs.Searching.{First};
ghost use Rattle.goals.specs.Goals.{vectors, covered_at};

use crate::goal::Goal;
use cubes::cube::Cube;
use cubes::mask::Mask;
use cubes::walk::{OneByOne, first};

// The question which vectors cover a duty.
#[derive(Clone, Copy)]
struct Duty<'a, G> {
    goal: &'a G,
    duty: u32,
}

impl<'a, G: Goal> OneByOne for Duty<'a, G> {
    ghost asks = { λ q. record { inputs = (G.Goal.means q.goal.now).inputs; passes = covered_at (G.Goal.means q.goal.now) q.duty } };

    fn inputs(&self) -> u8 {
        self.goal.inputs()
    }

    fn passes(&self, cube: Cube) -> bool {
        self.goal.covers(cube, self.duty)
    }
}

// The smallest vector that covers the duty, if one does. It stops at the first one.
pub fn smallest_covering<G: Goal>(goal: &G, duty: u32) -> Option<Mask>
    ensures { First (vectors (G.means goal.now)) (covered_at (G.means goal.now) duty) result }
{
    first(&Duty { goal, duty })
}
