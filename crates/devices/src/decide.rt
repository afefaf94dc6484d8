// Deciding whether two machines of a device can be told apart.
ghost use Rattle.std.specs.Prelude.{◌≡◌};
ghost use Rattle.devices.specs.Deciding.{number, Decided};

use crate::device::Device;
use crate::refusal::Refusal;
use crate::telling::smallest_telling;
use cubes::mask::Mask;

impl Refusal {
    // The number by which the shop knows the refusal.
    pub fn number(&self) -> u16
        ensures { result ≡ number self.now }
    {
        match self {
            Refusal::NoSuchMachine => 10,
            Refusal::ListTooShort => 11,
        }
    }
}

// The smallest vector that tells the machines apart, or none where they are equivalent.
pub fn decide<D: Device>(device: &D, i: u16, j: u16) -> Result<Option<Mask>, Refusal>
    ensures { Decided (D.means device.now) i j result }
{
    let machines = device.machines();
    if i >= machines {
        return Err(Refusal::NoSuchMachine);
    }
    if j >= machines {
        return Err(Refusal::NoSuchMachine);
    }
    Ok(smallest_telling(device, i, j))
}
