// The trait of all devices. Whatever keeps the meaning and the laws is a device; code above is proved
// against them alone.
ghost use Rattle.std.specs.Prelude.{◌≡◌};
ghost use Rattle.devices.specs.Devices.{Meaning, Lawful};
ghost use Rattle.devices.specs.Widely.{Answers};

use crate::answer::Answer;
use crate::wide::WideAnswer;
use crate::widely::lift;
use cubes::cube::Cube;
use cubes::mask::InputWords;
use cubes::wide::vector_at;

pub trait Device {
    // The four things that a device means; each question below is answered from them alone.
    ghost means: { Self → Meaning };

    fn inputs(&self) -> u8
        ensures { result ≡ (means self.now).inputs };

    fn outputs(&self) -> u8
        ensures { result ≡ (means self.now).outputs };

    fn machines(&self) -> u16
        ensures { result ≡ (means self.now).machines };

    // Machine 0 is the good card; a machine that does not exist answers nothing.
    fn answer(&self, machine: u16, cube: Cube) -> Answer
        ensures { result ≡ (means self.now).answer machine cube };

    // The answers of one machine to the 64 vectors of input words. A device of a new kind need not answer this; where it can
    // be answered faster than vector by vector, it should, since the search by words asks it.
    fn answers(&self, machine: u16, words: &InputWords) -> WideAnswer
        ensures { Answers (means self.now) machine words.now result }
    {
        let inputs = self.inputs();
        let mut zeros = [0u64; 32];
        let mut ones = [0u64; 32];
        for k in 0..64u32 {
            if let Some(cube) = vector_at(inputs, words, k) {
                let answer = self.answer(machine, cube);
                lift(&mut zeros, k, answer.zeros);
                lift(&mut ones, k, answer.ones);
            }
        }
        WideAnswer { zeros, ones }
    }

    ghost lawful: { (device : Self) → Lawful (means device) };
}
