// Making a sheet.
ghost use Rattle.std.specs.Prelude.{◌≡◌, List, IfOk};
ghost use Rattle.sheets.specs.Sheets.{state, new};
ghost use Rattle.sheets.specs.Running.{Kept};

use crate::memory::Memory;
use crate::sheet::Sheet;
use goals::goal::Goal;
use std::alloc::{AllocError, Global};

impl<G: Goal> Sheet<G> {
    // A sheet with no rows, of which no serial was given. All memory that it ever needs is claimed here. Whoever makes
    // the calls of a sheet in whatever order, and nothing else, has what `Kept` says of every list of calls.
    pub fn new(heap: Global, goal: G) -> Result<Sheet<G>, AllocError>
    where
        G: Drop,
        ensures made { IfOk result (λ s. (s.goal ≡ goal) × (state s ≡ new)) }
        ensures kept { Kept (G.means goal) }
    {
        let rows = Vec::with_capacity(heap, 256)?;
        let memory = Memory::new(heap)?;
        Ok(Sheet {
            goal,
            rows,
            given: 0,
            memory,
        })
    }

    // The goal of the sheet.
    pub fn goal(&self) -> &G
        ensures { result.now ≡ self.now.goal }
    {
        &self.goal
    }
}
