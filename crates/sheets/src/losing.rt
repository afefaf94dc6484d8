// Which duty would be lost if a row went: the smallest wanted one of it that nothing else covers. The goal is asked for
// all duties of a row at once, never for one duty of one row.
ghost use Rattle.std.specs.Prelude.{◌≡◌, ℕ, ◌<◌, ◌≤◌, true, false, not, ◌&&◌, ◌||◌, length, get_or, slice_index_or};
ghost use Rattle.cubes.specs.Searching.{least};
ghost use Rattle.sheets.specs.Sheets.{row_covers, some_covers, in_place, lost};

use crate::asking::mark_row;
use crate::memory::Memory;
use crate::row::Row;
use cubes::cube::Cube;
use goals::goal::Goal;

// Leaves only the wanted duties.
fn keep_wanted<G: Goal>(goal: &G, left: &mut [bool])
    requires { length left.old ≤ 65535 }
    ensures { (d : ℕ) → d < length left.new → slice_index_or left.new d false ≡ ((G.means goal.now).wanted d && slice_index_or left.old d false) }
{
    for (duty, still) in left.iter_mut().enumerate() {
        *still = *still && goal.wanted(duty as u32);
    }
}

// Leaves only the duties that are not marked. It reads the marks by index: after a zip of what is written with what is
// read, a proof knows nothing of what was written.
fn take_off(left: &mut [bool], marks: &[bool])
    requires { length left.old ≤ length marks.now }
    ensures { (d : ℕ) → d < length left.new → slice_index_or left.new d false ≡ (slice_index_or left.old d false && not (slice_index_or marks.now d false)) }
{
    for (duty, still) in left.iter_mut().enumerate() {
        *still &= !marks[duty];
    }
}

// The first duty that is left.
fn first_left(left: &[bool]) -> Option<u32>
    requires { length left.now ≤ 65535 }
    ensures { result ≡ least (length left.now) (λ d. get_or left.now d false) }
{
    left.iter().position(|still| *still).map(|duty| duty as u32)
}

impl Memory {
    // The smallest wanted duty of the row that neither the cube, where there is one, nor a row in place covers.
    #[tactic(auto, using(crate::proofs::Losses::apart_in, crate::proofs::Losses::apart_out))]
    pub(crate) fn first_lost<G: Goal>(
        &mut self,
        goal: &G,
        row: &Row,
        by: Option<Cube>,
        rows: &[Row],
    ) -> Option<u32>
        ensures { result ≡ lost (G.means goal.now) (row_covers (G.means goal.now) row.now) (λ d. some_covers (G.means goal.now) by d || in_place (G.means goal.now) rows.now d) }
    {
        let left = self.left.as_mut_slice();
        let marks = self.marks.as_mut_slice();
        mark_row(goal, row, left);
        keep_wanted(goal, left);
        if let Some(cube) = by {
            goal.mark(cube, marks);
            take_off(left, marks);
        }
        for other in rows {
            if !other.out {
                mark_row(goal, other, marks);
                take_off(left, marks);
            }
        }
        first_left(left)
    }
}
