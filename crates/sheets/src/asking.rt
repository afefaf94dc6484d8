// Questions that the calls ask of the goal about rows.
ghost use Rattle.std.specs.Prelude.{◌≡◌, not, ◌&&◌, ◌||◌};
ghost use Rattle.goals.specs.Goals.{Marked};
ghost use Rattle.sheets.specs.Sheets.{row_covers, in_place, above, RowMarked};

use crate::row::Row;
use cubes::cube::Cube;
use goals::goal::Goal;

// Whether the row, in place or out, covers the duty.
pub(crate) fn row_covers<G: Goal>(goal: &G, row: &Row, duty: u32) -> bool
    ensures { result ≡ row_covers (G.means goal.now) row.now duty }
{
    Cube::from_masks(row.zeros, row.ones).is_ok_and(|cube| goal.covers(cube, duty))
}

// All duties that the row covers.
pub(crate) fn mark_row<G: Goal>(goal: &G, row: &Row, marks: &mut [bool])
    ensures { RowMarked (G.means goal.now) row.now marks.new }
{
    match Cube::from_masks(row.zeros, row.ones) {
        Ok(cube) => goal.mark(cube, marks),
        Err(_) => marks.fill(false),
    }
}

fn covers_in_place<G: Goal>(goal: &G, row: &Row, duty: u32) -> bool
    ensures { result ≡ (not row.now.out && row_covers (G.means goal.now) row.now duty) }
{
    !row.out && row_covers(goal, row, duty)
}

// Whether a row in place covers the duty.
pub(crate) fn any_in_place<G: Goal>(goal: &G, rows: &[Row], duty: u32) -> bool
    ensures { result ≡ in_place (G.means goal.now) rows.now duty }
{
    rows.iter().any(|row| covers_in_place(goal, row, duty))
}

// Whether an input at or above the goal's is known.
pub(crate) fn is_above<G: Goal>(goal: &G, cube: Cube) -> bool
    ensures { result ≡ above (G.means goal.now) cube }
{
    let top = 1u32 << goal.inputs();
    u32::from(cube.zeros()) >= top || u32::from(cube.ones()) >= top
}
