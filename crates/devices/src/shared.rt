// A device that several owners share is a device: so two goals can be about one card.
ghost use Rattle.std.specs.Prelude.{◌≡◌};

use crate::answer::Answer;
use crate::device::Device;
use crate::wide::WideAnswer;
use cubes::cube::Cube;
use cubes::mask::InputWords;
use std::rc::Rc;

impl<D: Device> Device for Rc<D> {
    ghost means = { λ d. D.Device.means d.value };

    ghost lawful = { λ d. D.Device.lawful d.value };

    fn inputs(&self) -> u8 {
        (**self).inputs()
    }

    fn outputs(&self) -> u8 {
        (**self).outputs()
    }

    fn machines(&self) -> u16 {
        (**self).machines()
    }

    fn answer(&self, machine: u16, cube: Cube) -> Answer {
        (**self).answer(machine, cube)
    }

    fn answers(&self, machine: u16, words: &InputWords) -> WideAnswer {
        (**self).answers(machine, words)
    }
}
