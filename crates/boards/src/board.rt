// The board, in a file of its own because its type carries the promise that the card it holds is well formed.
ghost use Rattle.std.specs.Prelude.{◌+◌, ◌≤◌, length, vec_capacity};
ghost use Rattle.boards.specs.Cards.{PinCounts, Earlier, OutputsExist, FaultsExist};
ghost use Rattle.boards.specs.Wiring.{wired};

use crate::gate::StoredGate;
use crate::parts::Fault;

// Inputs and gates number the lines from 0: first the inputs, then the gates.
#[derive(Drop)]
pub struct Board {
    pub(crate) inputs: u8,
    pub(crate) gates: Vec<StoredGate>,
    pub(crate) outputs: Vec<u16>,
    pub(crate) faults: Vec<Fault>,
    ghost few_inputs: { inputs ≤ 16 },
    ghost few_lines: { inputs + length gates.items ≤ 512 },
    ghost few_outputs: { length outputs.items ≤ 32 },
    ghost few_faults: { length faults.items ≤ 255 },
    ghost pin_counts: { PinCounts (wired gates.items) },
    ghost earlier: { Earlier inputs (wired gates.items) },
    ghost outputs_exist: { OutputsExist (inputs + length gates.items) outputs.items },
    ghost faults_exist: { FaultsExist (inputs + length gates.items) faults.items },
    ghost gate_room: { 512 ≤ vec_capacity gates },
    ghost output_room: { 32 ≤ vec_capacity outputs },
    ghost fault_room: { 255 ≤ vec_capacity faults },
}
