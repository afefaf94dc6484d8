// A board as a device: what its machines answer at the outputs.
ghost use Rattle.std.specs.Prelude.{◌≡◌};
ghost use Rattle.boards.specs.Cards.{seen_at, meaning};
ghost use Rattle.boards.specs.Boards.{card_of};
ghost use Rattle.boards.specs.Laws.{card_lawful};
ghost use Rattle.boards.specs.Soundness.{sound};

use crate::board::Board;
use crate::parts::Value;
use cubes::cube::Cube;
use devices::answer::Answer;
use devices::device::Device;

impl Board {
    // What stands on the lines of the outputs.
    fn seen_at(&self, values: &[Value; 512]) -> Answer
        ensures { result ≡ seen_at (card_of self.now) values.now }
    {
        let mut zeros = 0u32;
        let mut ones = 0u32;
        for (o, line) in self.outputs.iter().enumerate() {
            let v = values[*line as usize];
            zeros |= u32::from(v == Value::Zero) << o;
            ones |= u32::from(v == Value::One) << o;
        }
        Answer { zeros, ones }
    }
}

impl Device for Board {
    ghost means = { λ b. meaning (card_of b) };

    ghost lawful = { λ b. card_lawful (card_of b) (sound b) };

    fn inputs(&self) -> u8 {
        self.inputs
    }

    fn outputs(&self) -> u8 {
        self.outputs.len() as u8
    }

    fn machines(&self) -> u16 {
        self.faults.len() as u16 + 1
    }

    fn answer(&self, machine: u16, cube: Cube) -> Answer {
        if machine as usize > self.faults.len() {
            return Answer { zeros: 0, ones: 0 };
        }
        let values = self.simulate(machine, cube);
        self.seen_at(&values)
    }
}
