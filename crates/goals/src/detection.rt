// Detection: telling each faulty machine of a device from the good card.
ghost use Rattle.std.specs.Prelude.{◌≡◌};
ghost use Rattle.goals.specs.Detecting.{detection};
ghost use Rattle.goals.specs.Laws.{detection_lawful};

use crate::goal::Goal;
use cubes::cube::Cube;
use devices::device::Device;
use devices::telling::told_apart;

// The goal over a device that it owns; two goals share one through an Rc.
#[derive(Drop)]
pub struct Detection<D> {
    device: D,
}

impl<D> Detection<D> {
    pub fn new(device: D) -> Detection<D>
        ensures { result.device ≡ device }
    {
        Detection { device }
    }
}

impl<D: Device> Goal for Detection<D> {
    ghost means = { λ g. detection (D.Device.means g.device) };

    ghost lawful = { λ x. detection_lawful (D.Device.means x.device) (D.Device.lawful x.device) };

    fn inputs(&self) -> u8 {
        self.device.inputs()
    }

    fn duties(&self) -> u32 {
        u32::from(self.device.machines()) - 1
    }

    fn wanted(&self, duty: u32) -> bool {
        duty < self.duties()
    }

    fn covers(&self, cube: Cube, duty: u32) -> bool {
        if duty >= self.duties() {
            return false;
        }
        told_apart(
            self.device.answer(0, cube),
            self.device.answer(duty as u16 + 1, cube),
        )
    }

    // Asks each machine once, the good one too.
    fn mark(&self, cube: Cube, marks: &mut [bool]) {
        let good = self.device.answer(0, cube);
        let count = self.duties() as usize;
        for (duty, mark) in marks.iter_mut().enumerate() {
            *mark = duty < count && told_apart(good, self.device.answer(duty as u16 + 1, cube));
        }
    }
}
