// The run: the public call that carries the whole promise.
ghost use Rattle.std.specs.Prelude.{◌≡◌, IfOk};
ghost use Rattle.sheets.specs.Sheets.{state};
ghost use Rattle.runs.specs.Promise.{Promise};

use crate::bench::Bench;
use crate::finished::Finished;
use claims::claiming::claim;
use goals::goal::Goal;
use sheets::call::Call;
use std::alloc::{AllocError, Global};

// Makes a sheet for the goal, makes the calls in their order, puts back the rows that are still out, and checks the claim.
pub fn run<G: Goal + Drop>(
    heap: Global,
    goal: G,
    calls: &[Call],
    claimed: &[u32],
) -> Result<Finished<G>, AllocError>
    ensures same { IfOk result (λ f. f.sheet.goal ≡ goal) }
    ensures promise { IfOk result (λ f. Promise (G.means goal) calls.now claimed.now f.answers.items (state f.sheet) f.verdict) }
{
    let mut answers = Vec::with_capacity(heap, calls.len())?;
    let mut bench = Bench::new(heap, goal)?;
    for call in calls {
        let answer = bench.step(*call);
        answers.push_reserved(answer);
    }
    let sheet = bench.put_all_back();
    let verdict = claim(sheet.goal(), claimed);
    Ok(Finished {
        sheet,
        answers,
        verdict,
    })
}
