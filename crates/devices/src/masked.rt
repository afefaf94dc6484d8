// A device with some of its outputs out of sight.
ghost use Rattle.std.specs.Prelude.{◌≡◌};
ghost use Rattle.devices.specs.Masking.{masked};
ghost use Rattle.devices.specs.Hidden.{masked_lawful};

use crate::answer::Answer;
use crate::device::Device;
use crate::wide::WideAnswer;
use crate::widely::kept_words;
use cubes::cube::Cube;
use cubes::mask::InputWords;

// Any device, with the outputs outside the mask unknown.
#[derive(Drop)]
pub struct Masked<D> {
    device: D,
    mask: u32,
}

impl<D> Masked<D> {
    pub fn new(device: D, mask: u32) -> Masked<D>
        ensures { (result.device ≡ device) × (result.mask ≡ mask) }
    {
        Masked { device, mask }
    }
}

impl<D: Device> Device for Masked<D> {
    ghost means = { λ m. masked (D.Device.means m.device) m.mask };

    ghost lawful = { λ m. masked_lawful (D.Device.means m.device) m.mask (D.Device.lawful m.device) };

    fn inputs(&self) -> u8 {
        self.device.inputs()
    }

    fn outputs(&self) -> u8 {
        self.device.outputs()
    }

    fn machines(&self) -> u16 {
        self.device.machines()
    }

    fn answer(&self, machine: u16, cube: Cube) -> Answer {
        let whole = self.device.answer(machine, cube);
        Answer {
            zeros: whole.zeros & self.mask,
            ones: whole.ones & self.mask,
        }
    }

    fn answers(&self, machine: u16, words: &InputWords) -> WideAnswer {
        let seen = self.device.answers(machine, words);
        WideAnswer {
            zeros: kept_words(&seen.zeros, self.mask),
            ones: kept_words(&seen.ones, self.mask),
        }
    }
}
