// Finding two claimed duties that one vector covers: one pass over the vectors.
ghost use Rattle.std.specs.Prelude.{◌≡◌, ℕ, ◌<◌, ◌≤◌, true, false, length, MatchOption};
ghost use Rattle.goals.specs.Goals.{vectors, covered_at};
ghost use Rattle.claims.specs.Claims.{duty_at, Earliest, sooner, clash};

use crate::named::Named;
use crate::pair::Pair;
use cubes::cube::Cube;
use cubes::mask::Mask;
use goals::goal::Goal;

// The smaller of two pairs, or the one that there is.
fn the_sooner(a: Option<Pair>, b: Option<Pair>) -> Option<Pair>
    ensures { result ≡ sooner a b }
{
    match (a, b) {
        (Some(x), Some(y)) => Some(x.min(y)),
        (Some(x), None) => Some(x),
        (None, b) => b,
    }
}

impl<'a, G: Goal> Named<'a, G> {
    // The first place at or after `from` whose duty the cube covers.
    fn next_covered(&self, cube: Cube, from: usize) -> Option<usize>
        requires { from ≤ length self.now.duties.now }
        ensures { MatchOption result ((k : ℕ) → from ≤ k → k < length self.now.duties.now → (G.means self.now.goal.now).covers cube (duty_at self.now.duties.now k) ≡ false) (λ i. (from ≤ i) × (i < length self.now.duties.now) × ((G.means self.now.goal.now).covers cube (duty_at self.now.duties.now i) ≡ true) × ((k : ℕ) → from ≤ k → k < i → (G.means self.now.goal.now).covers cube (duty_at self.now.duties.now k) ≡ false)) }
    {
        for (beyond, duty) in self.duties[from..].iter().enumerate() {
            if self.goal.covers(cube, *duty) {
                return Some(from + beyond);
            }
        }
        None
    }

    // The first two places whose duties the cube covers.
    fn first_two(&self, cube: Cube) -> Option<Pair>
        ensures { Earliest (length self.now.duties.now) (λ q p. ((G.means self.now.goal.now).covers cube (duty_at self.now.duties.now q) ≡ true) × ((G.means self.now.goal.now).covers cube (duty_at self.now.duties.now p) ≡ true)) result }
    {
        let earlier = self.next_covered(cube, 0)?;
        let later = self.next_covered(cube, earlier + 1)?;
        Some(Pair {
            later: later as u16,
            earlier: earlier as u16,
        })
    }

    // The first two places whose duties the vector with this number covers.
    fn two_at(&self, number: Mask) -> Option<Pair>
        requires { number < vectors (G.means self.now.goal.now) }
        ensures { Earliest (length self.now.duties.now) (λ q p. (covered_at (G.means self.now.goal.now) (duty_at self.now.duties.now q) number ≡ true) × (covered_at (G.means self.now.goal.now) (duty_at self.now.duties.now p) number ≡ true)) result }
    {
        self.first_two(Cube::vector(self.goal.inputs(), number)?)
    }

    // The earliest later place of which a vector covers a place before, and the earliest such place. One pass.
    pub(crate) fn first_clash(&self) -> Option<Pair>
        ensures { result ≡ clash (G.means self.now.goal.now) self.now.duties.now }
    {
        let mut best = None;
        for number in 0..1u32 << self.goal.inputs() {
            best = the_sooner(best, self.two_at(number as Mask));
        }
        best
    }
}
