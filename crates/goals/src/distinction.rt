// Distinction: telling any two faulty machines of a device apart. The pairs come in the order (1,2), (1,3) and so
// on, then (2,3).
ghost use Rattle.std.specs.Prelude.{◌≡◌, ℕ, ◌+◌, ◌-◌, ◌<◌, ◌≤◌, false, length, slice_index_or};
ghost use Rattle.std.specs.List.{slice_get};
ghost use Rattle.goals.specs.Distinguishing.{distinction, pairs, tells_by, Answered, InOrder};
ghost use Rattle.goals.specs.Laws.{distinction_lawful};

use crate::goal::Goal;
use cubes::cube::Cube;
use devices::answer::Answer;
use devices::device::Device;
use devices::telling::told_apart;

// The goal over a device that it owns; two goals share one through an Rc.
#[derive(Drop)]
pub struct Distinction<D> {
    device: D,
}

impl<D> Distinction<D> {
    pub fn new(device: D) -> Distinction<D>
        ensures made { result.device ≡ device }
        ensures ordered { (n a : ℕ) → InOrder a (a + n) (pairs a n) }
    {
        Distinction { device }
    }
}

// The pairs of machines 1 to n + 1.
#[derive(Clone, Copy)]
struct Pairs {
    n: u16,
    ghost few: { n ≤ 254 },
}

impl Pairs {
    // Those of a device's faulty machines.
    fn of<D: Device>(device: &D) -> Pairs
        ensures { result.n ≡ (D.Device.means device.now).machines - 2 }
    {
        Pairs {
            n: device.machines().saturating_sub(2),
        }
    }

    // How many there are.
    fn count(&self) -> u32
        ensures { result ≡ length (pairs 1 self.now.n) }
    {
        let n = u32::from(self.n);
        n * (n + 1) / 2
    }

    // The pair with a number.
    fn at(&self, duty: u32) -> Option<(u16, u16)>
        ensures { result ≡ slice_get (pairs 1 self.now.n) duty }
    {
        let mut beyond = duty;
        for passed in 0..self.n {
            let first = passed + 1;
            let left = u32::from(self.n - passed);
            if beyond < left {
                return Some((first, first + 1 + beyond as u16));
            }
            beyond -= left;
        }
        None
    }

    // Compares the answers pair by pair.
    fn mark(&self, answers: &[Answer], marks: &mut [bool])
        requires { self.now.n + 2 ≤ length answers.now }
        ensures { (d : ℕ) → d < length marks.new → slice_index_or marks.new d false ≡ tells_by answers.now (slice_get (pairs 1 self.now.n) d) }
    {
        // The pair is walked on beside the entries, since to find each by its number is to pass over all before it.
        let top = self.n + 1;
        let mut i: u16 = 1;
        let mut j: u16 = 2;
        for mark in marks.iter_mut() {
            if i < top {
                *mark = told_apart(answers[i as usize], answers[j as usize]);
                if j < top {
                    j += 1;
                } else {
                    i += 1;
                    j = i + 1;
                }
            } else {
                *mark = false;
            }
        }
    }
}

// Asks each machine once.
fn ask_all<D: Device>(device: &D, cube: Cube, answers: &mut [Answer])
    requires { length answers.old ≡ 256 }
    ensures { Answered (D.Device.means device.now) cube answers.new }
{
    for (machine, answer) in answers[..usize::from(device.machines())]
        .iter_mut()
        .enumerate()
    {
        *answer = device.answer(machine as u16, cube);
    }
}

impl<D: Device> Goal for Distinction<D> {
    ghost means = { λ g. distinction (D.Device.means g.device) };

    ghost lawful = { λ x. distinction_lawful (D.Device.means x.device) (D.Device.lawful x.device) };

    fn inputs(&self) -> u8 {
        self.device.inputs()
    }

    fn duties(&self) -> u32 {
        Pairs::of(&self.device).count()
    }

    fn wanted(&self, duty: u32) -> bool {
        duty < self.duties()
    }

    fn covers(&self, cube: Cube, duty: u32) -> bool {
        Pairs::of(&self.device).at(duty).is_some_and(|(i, j)| {
            told_apart(self.device.answer(i, cube), self.device.answer(j, cube))
        })
    }

    // Asks each machine once, and compares the answers.
    fn mark(&self, cube: Cube, marks: &mut [bool]) {
        // Fixed memory: marking is never refused for want of it.
        let mut answers = [Answer { zeros: 0, ones: 0 }; 256];
        ask_all(&self.device, cube, &mut answers);
        Pairs::of(&self.device).mark(&answers, marks);
    }
}
