// Telling two machines apart: by their answers, by one vector, by each of 64 vectors, by the smallest vector.
ghost use Rattle.std.specs.Prelude.{◌≡◌, ◌^◌, ◌<◌};
ghost use Rattle.cubes.specs.Searching.{First};
ghost use Rattle.cubes.specs.Blocks.{number_at, Marks};
ghost use Rattle.devices.specs.Devices.{told_apart};
ghost use Rattle.devices.specs.Deciding.{tells};

use crate::answer::Answer;
use crate::device::Device;
use crate::widely::crossing;
use cubes::cube::Cube;
use cubes::mask::{InputWords, Mask};
use cubes::walk::{OneByOne, first, smallest};

// Whether some output is 0 in one answer and 1 in the other.
pub fn told_apart(a: Answer, b: Answer) -> bool
    ensures { result ≡ told_apart a b }
{
    (a.zeros & b.ones != 0) | (a.ones & b.zeros != 0)
}

// Those of the 64 vectors that tell the machines apart.
pub fn telling<D: Device>(device: &D, i: u16, j: u16, words: &InputWords) -> u64
    ensures { Marks (λ k. tells (D.means device.now) i j (number_at (D.means device.now).inputs words.now k)) result }
{
    crossing(&device.answers(i, words), &device.answers(j, words))
}

// The question which vectors tell two machines apart.
#[derive(Clone, Copy)]
struct Pair<'a, D> {
    device: &'a D,
    i: u16,
    j: u16,
}

impl<'a, D: Device> OneByOne for Pair<'a, D> {
    ghost asks = { λ q. record { inputs = (D.Device.means q.device.now).inputs; passes = tells (D.Device.means q.device.now) q.i q.j } };

    fn inputs(&self) -> u8 {
        self.device.inputs()
    }

    fn passes(&self, cube: Cube) -> bool {
        told_apart(
            self.device.answer(self.i, cube),
            self.device.answer(self.j, cube),
        )
    }

    fn passing(&self, words: &InputWords) -> u64 {
        telling(self.device, self.i, self.j, words)
    }
}

// The smallest vector that tells the machines apart. It stops at the first one.
pub fn smallest_telling<D: Device>(device: &D, i: u16, j: u16) -> Option<Mask>
    ensures { First (2 ^ (D.means device.now).inputs) (tells (D.means device.now) i j) result }
{
    first(&Pair { device, i, j })
}

// The same smallest vector, asked 64 vectors at a time. It does not take the place of the one above while boards answer
// vector by vector: tried, such a device is then asked for all 64 of a block, and not up to the first that tells.
pub fn smallest_telling_by_words<D: Device>(device: &D, i: u16, j: u16) -> Option<Mask>
    ensures { First (2 ^ (D.means device.now).inputs) (tells (D.means device.now) i j) result }
{
    smallest(&Pair { device, i, j })
}
