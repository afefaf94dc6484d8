// Making a board.
ghost use Rattle.std.specs.Prelude.{◌≡◌, IfOk};
ghost use Rattle.boards.specs.Boards.{card_of, no_card};

use crate::board::Board;
use std::alloc::{AllocError, Global};

impl Board {
    // The board of an empty file. All memory that a board ever needs is claimed here, so that reading never
    // fails for want of it.
    pub fn new(heap: Global) -> Result<Board, AllocError>
        ensures { IfOk result (λ b. card_of b ≡ no_card) }
    {
        let gates = Vec::with_capacity(heap, 512)?;
        let outputs = Vec::with_capacity(heap, 32)?;
        let faults = Vec::with_capacity(heap, 255)?;
        Ok(Board {
            inputs: 0,
            gates,
            outputs,
            faults,
        })
    }
}
