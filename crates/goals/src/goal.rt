// The trait of all goals. Sheets, claims and runs are proved against its meaning and its law alone.
ghost use Rattle.std.specs.Prelude.{◌≡◌};
ghost use Rattle.goals.specs.Goals.{Meaning, Lawful, Marked};

use cubes::cube::Cube;

pub trait Goal {
    // What a goal means; each question below is answered from it alone.
    ghost means: { Self → Meaning };

    fn inputs(&self) -> u8
        ensures { result ≡ (means self.now).inputs };

    fn duties(&self) -> u32
        ensures { result ≡ (means self.now).duties };

    fn wanted(&self, duty: u32) -> bool
        ensures { result ≡ (means self.now).wanted duty };

    fn covers(&self, cube: Cube, duty: u32) -> bool
        ensures { result ≡ (means self.now).covers cube duty };

    // All duties that the cube covers: each entry then says so of the duty of its place. A goal of a new kind need
    // not answer this; where it can be answered faster than duty by duty, it should.
    fn mark(&self, cube: Cube, marks: &mut [bool])
        ensures { Marked (means self.now) cube marks.new }
    {
        let count = self.duties() as usize;
        for (duty, mark) in marks.iter_mut().enumerate() {
            *mark = duty < count && self.covers(cube, duty as u32);
        }
    }

    ghost lawful: { (goal : Self) → Lawful (means goal) };
}
