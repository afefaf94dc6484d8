// Joined: the duties of one goal, then those of another.
ghost use Rattle.std.specs.Prelude.{◌≡◌, ℕ, ◌<◌, false, ◌&&◌, length, nat_lt, slice_index_or};
ghost use Rattle.goals.specs.Joining.{joined};
ghost use Rattle.goals.specs.Laws.{joined_lawful};

use crate::goal::Goal;
use cubes::cube::Cube;

#[derive(Drop)]
pub struct Joined<G, H> {
    first: G,
    second: H,
}

impl<G, H> Joined<G, H> {
    pub fn new(first: G, second: H) -> Joined<G, H>
        ensures { (result.first ≡ first) × (result.second ≡ second) }
    {
        Joined { first, second }
    }
}

// Makes the entries false from a place on.
fn clear_from(marks: &mut [bool], from: usize)
    ensures { (k : ℕ) → k < length marks.new → slice_index_or marks.new k false ≡ (nat_lt k from && slice_index_or marks.old k false) }
{
    for (d, mark) in marks.iter_mut().enumerate() {
        *mark = d < from && *mark;
    }
}

impl<G: Goal, H: Goal> Goal for Joined<G, H> {
    ghost means = { λ g. joined (G.Goal.means g.first) (H.Goal.means g.second) };

    ghost lawful = { λ x. joined_lawful (G.Goal.means x.first) (H.Goal.means x.second) (G.Goal.lawful x.first) (H.Goal.lawful x.second) };

    fn inputs(&self) -> u8 {
        self.first.inputs().max(self.second.inputs())
    }

    fn duties(&self) -> u32 {
        (self.first.duties() + self.second.duties()).min(65535)
    }

    fn wanted(&self, duty: u32) -> bool {
        let n = self.first.duties();
        if duty < n {
            return self.first.wanted(duty);
        }
        duty < 65535 && self.second.wanted(duty - n)
    }

    fn covers(&self, cube: Cube, duty: u32) -> bool {
        let n = self.first.duties();
        if duty < n {
            return self.first.covers(cube, duty);
        }
        duty < 65535 && self.second.covers(cube, duty - n)
    }

    // Hands each part its own entries.
    fn mark(&self, cube: Cube, marks: &mut [bool]) {
        let n = self.first.duties() as usize;
        let len = marks.len();
        if len <= n {
            self.first.mark(cube, marks);
            return;
        }
        self.first.mark(cube, &mut marks[0..n]);
        self.second.mark(cube, &mut marks[n..len]);
        clear_from(marks, 65535);
    }
}
