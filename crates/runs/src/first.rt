// The first sheet for a goal: each duty covered in order, then a sweep. Program firstsheet prints it.
ghost use Rattle.std.specs.Prelude.{◌≡◌, [], ◌∷◌, ◌++◌, IfOk};
ghost use Rattle.sheets.specs.Sheets.{state};
ghost use Rattle.runs.specs.Promise.{Promise, first_calls};

use crate::finished::Finished;
use crate::running::run;
use goals::goal::Goal;
use sheets::call::Call;
use std::alloc::{AllocError, Global};
use std::iter::once;

// A call to cover each of so many duties, in order, and one to sweep.
fn calls_for(heap: Global, duties: u32) -> Result<Vec<Call>, AllocError>
    ensures { IfOk result (λ calls. calls.items ≡ first_calls duties) }
{
    (0..duties)
        .map(Call::Cover)
        .chain(once(Call::Sweep))
        .collect(heap)
}

// Covers each duty of the goal in order, passing over those that are refused, and sweeps.
pub fn first_sheet<G: Goal + Drop>(heap: Global, goal: G) -> Result<Finished<G>, AllocError>
    ensures same { IfOk result (λ f. f.sheet.goal ≡ goal) }
    ensures promise { IfOk result (λ f. Promise (G.means goal) (first_calls (G.means goal).duties) [] f.answers.items (state f.sheet) f.verdict) }
{
    let calls = calls_for(heap, goal.duties())?;
    run(heap, goal, calls.as_slice(), &[])
}
