// Labels: for each machine the smallest machine that no vector tells from it, so that two machines have one
// label exactly when they cannot be told apart.
ghost use Rattle.std.specs.Prelude.{◌≡◌, ℕ, ◌<◌, ◌≤◌, length, Decides, slice_index};
ghost use Rattle.devices.specs.Deciding.{EquivalentMachines, Label, Labelled};

use crate::device::Device;
use crate::refusal::Refusal;
use crate::telling::smallest_telling;

// Whether no vector tells the machines apart.
fn equivalent<D: Device>(device: &D, i: u16, j: u16) -> bool
    ensures { Decides result (EquivalentMachines (D.means device.now) i j) }
{
    smallest_telling(device, i, j).is_none()
}

// The label of machine k, where the list has those of the machines before it. Only a machine that is its own
// label is compared: each earlier machine is equivalent to one of these.
fn label_of<D: Device>(device: &D, k: u16, list: &[u16]) -> u16
    requires exists { k < (D.means device.now).machines }
    requires room { k ≤ length list.now }
    requires earlier { (j : ℕ) → j < k → Label (D.means device.now) j (slice_index list.now j) }
    ensures { Label (D.means device.now) k result }
{
    // By the machines and not by the list, since what is answered is a machine; and no `find`, whose closure would index the list
    // at any machine.
    for j in 0..k {
        if list[usize::from(j)] == j && equivalent(device, j, k) {
            return j;
        }
    }
    k
}

// Writes the label of each machine from the start of the list; entries beyond stay.
pub fn labels<D: Device>(device: &D, list: &mut [u16]) -> Result<(), Refusal>
    ensures { Labelled (D.means device.now) list.old list.new result }
{
    let machines = device.machines();
    if list.len() < machines as usize {
        return Err(Refusal::ListTooShort);
    }
    // Not by the places of the list, since a label is found in what the list has so far.
    for k in 0..machines {
        list[k as usize] = label_of(device, k, list);
    }
    Ok(())
}
