// Finding out about every machine of a device.
ghost use Rattle.std.specs.Prelude.{◌≡◌, ◌<◌, IfOk};
ghost use Rattle.findings.specs.Findings.{Found, FoundAll};
ghost use Rattle.devices.specs.Deciding.{Label};

use crate::finding::Finding;
use devices::device::Device;
use devices::labels::labels;
use devices::telling::smallest_telling;
use std::alloc::{AllocError, Global};

// What is found out about a machine whose label is known. A machine that is equivalent to the good card is told
// from it by no vector, so nothing is searched for it.
fn finding<D: Device>(device: &D, machine: u16, label: u16) -> Finding
    requires exists { machine < (D.means device.now).machines }
    requires labelled { Label (D.means device.now) machine label }
    ensures { Found (D.means device.now) machine result }
{
    if label == 0 {
        return Finding {
            machine,
            label,
            shown: None,
        };
    }
    let shown = smallest_telling(device, 0, machine);
    Finding {
        machine,
        label,
        shown,
    }
}

// What is found out about each machine, from machine 0 up.
pub fn find_all<D: Device>(heap: Global, device: &D) -> Result<Vec<Finding>, AllocError>
    ensures { IfOk result (λ found. FoundAll (D.means device.now) found.items) }
{
    let mut list = [0u16; 256];
    let mut found = Vec::new(heap);
    // There are never more machines than 256, so the labels are never refused.
    let Ok(()) = labels(device, &mut list) else {
        return Ok(found);
    };
    // By number: the list is longer than there are machines, and a part of it, numbered and cast, would be no plainer.
    for machine in 0..device.machines() {
        found.push(finding(device, machine, list[machine as usize]))?;
    }
    Ok(found)
}
