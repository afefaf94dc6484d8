// A sheet and the slips in hand, in a file of its own because its type says that they belong together.
ghost use Rattle.std.specs.Prelude.{◌≡◌, ◌≤◌, IfOk, vec_capacity};
ghost use Rattle.sheets.specs.Sheets.{state, new};
ghost use Rattle.runs.specs.Hands.{Ready};

use goals::goal::Goal;
use sheets::sheet::Sheet;
use sheets::slip::Slip;
use std::alloc::{AllocError, Global};

// The slips are those of the rows that are out, and there is room for as many as a sheet has rows. It is not Drop, as no
// slip is.
pub(crate) struct Bench<G> {
    pub(crate) sheet: Sheet<G>,
    pub(crate) slips: Vec<Slip>,
    ghost ready: { Ready (state sheet) slips.items },
    ghost room: { 256 ≤ vec_capacity slips },
}

impl<G: Goal> Bench<G> {
    // With a new sheet, and no slip.
    pub(crate) fn new(heap: Global, goal: G) -> Result<Bench<G>, AllocError>
    where
        G: Drop,
        ensures { IfOk result (λ b. (b.sheet.goal ≡ goal) × (state b.sheet ≡ new)) }
    {
        let sheet = Sheet::new(heap, goal)?;
        let slips = Vec::with_capacity(heap, 256)?;
        Ok(Bench { sheet, slips })
    }
}
