// Sweeping: from the last row to the first, removing each row in place that the others make spare. The tally of how many
// rows in place cover each duty falls with each row that goes, so no row is judged on a tally taken before.
ghost use Rattle.std.specs.Prelude.{◌≡◌, ℕ, ◌+◌, ◌<◌, ◌≤◌, true, false, not, ◌&&◌, length, get_or, is_some, if◌then◌else◌, Ok, vec_len, slice_index, slice_index_or};
ghost use Rattle.std.specs.List.{remove};
ghost use Rattle.sheets.specs.declared.reply.Reply.TheVariants.{Removed};
ghost use Rattle.sheets.specs.Sheets.{state, row_covers, RowMarked, no_row};
ghost use Rattle.sheets.specs.Sweeping.{needed, sweep, Tallied, has_sole};

use crate::asking::mark_row;
use crate::memory::Memory;
use crate::row::Row;
use crate::sheet::Sheet;
use goals::goal::Goal;

// One more for each duty that is marked. Its twin takes one off: a closure for that would bring a longer clause than the loop
// is. Both read the marks by index, since a proof knows nothing of what a zip wrote.
fn add_marks(counts: &mut [u16], marks: &[bool])
    requires even { length counts.old ≡ length marks.now }
    requires small { (d : ℕ) → d < length counts.old → slice_index counts.old d < 256 }
    ensures { (d : ℕ) → d < length counts.new → slice_index counts.new d ≡ slice_index counts.old d + (if get_or marks.now d false then 1 else 0) }
{
    for (duty, count) in counts.iter_mut().enumerate() {
        if marks[duty] {
            *count += 1;
        }
    }
}

// One less for each duty that is marked.
fn take_marks(counts: &mut [u16], marks: &[bool])
    requires even { length counts.old ≡ length marks.now }
    requires some { (d : ℕ) → d < length counts.old → slice_index_or marks.now d false ≡ true → 0 < slice_index counts.old d }
    ensures { (d : ℕ) → d < length counts.new → slice_index counts.new d + (if get_or marks.now d false then 1 else 0) ≡ slice_index counts.old d }
{
    for (duty, count) in counts.iter_mut().enumerate() {
        if marks[duty] {
            *count -= 1;
        }
    }
}

impl Memory {
    // Counts how many rows in place cover each duty.
    fn tally<G: Goal>(&mut self, goal: &G, rows: &[Row])
        requires { length rows.now ≤ 256 }
        ensures { Tallied (G.means goal.now) rows.now self.new.counts.items }
    {
        let counts = self.counts.as_mut_slice();
        let marks = self.marks.as_mut_slice();
        counts.fill(0);
        for row in rows {
            if !row.out {
                mark_row(goal, row, marks);
                add_marks(counts, marks);
            }
        }
    }

    // Marks all duties that the row covers.
    fn mark<G: Goal>(&mut self, goal: &G, row: &Row)
        ensures marked { RowMarked (G.means goal.now) row.now self.new.marks.items }
        ensures same { self.new.counts ≡ self.old.counts }
    {
        mark_row(goal, row, self.marks.as_mut_slice());
    }

    // Whether some wanted duty that is marked has the count 1: the row that is marked alone covers it.
    #[tactic(auto, using(crate::proofs::Tallies::sole_here, crate::proofs::Tallies::none_sole))]
    fn is_sole<G: Goal>(&self, goal: &G) -> bool
        ensures { result ≡ has_sole (G.means goal.now) self.now.counts.items self.now.marks.items }
    {
        let marks = self.marks.as_slice();
        for (duty, count) in self.counts.iter().enumerate() {
            if marks[duty] && *count == 1 && goal.wanted(duty as u32) {
                return true;
            }
        }
        false
    }

    // Takes the row that is marked off the counts.
    fn untally(&mut self)
        requires { (d : ℕ) → d < 65535 → slice_index_or self.old.marks.items d false ≡ true → 0 < slice_index self.old.counts.items d }
        ensures { (d : ℕ) → d < 65535 → slice_index self.new.counts.items d + (if get_or self.old.marks.items d false then 1 else 0) ≡ slice_index self.old.counts.items d }
    {
        take_marks(self.counts.as_mut_slice(), self.marks.as_slice());
    }
}

impl<G: Goal> Sheet<G> {
    // Removes row i unless it is needed, and keeps the tally true.
    fn sweep_row(&mut self, i: usize)
        requires within { i < vec_len self.old.rows }
        requires tallied { Tallied (G.means self.old.goal) self.old.rows.items self.old.memory.counts.items }
        ensures rows { self.new.rows.items ≡ (if needed (G.means self.old.goal) (slice_index_or self.old.rows.items i no_row) (remove self.old.rows.items i) then self.old.rows.items else remove self.old.rows.items i) }
        ensures given { self.new.given ≡ self.old.given }
        ensures same { self.new.goal ≡ self.old.goal }
        ensures tallied { Tallied (G.means self.new.goal) self.new.rows.items self.new.memory.counts.items }
    {
        let row = self.rows[i];
        if row.out {
            return;
        }
        self.memory.mark(&self.goal, &row);
        if self.memory.is_sole(&self.goal) {
            return;
        }
        self.memory.untally();
        let _ = self.rows.remove(i);
    }

    // Answers how many rows it removed.
    pub fn sweep(&mut self) -> u16
        ensures answer { Ok (Removed result) ≡ (sweep (G.means self.old.goal) (state self.old)).answer }
        ensures after { state self.new ≡ (sweep (G.means self.old.goal) (state self.old)).after }
        ensures same { self.new.goal ≡ self.old.goal }
    {
        let before = self.rows.len();
        self.memory.tally(&self.goal, self.rows.as_slice());
        // Rows go while it runs, so it counts their places.
        for i in (0..before).rev() {
            self.sweep_row(i);
        }
        (before - self.rows.len()) as u16
    }
}
