// The lines that the program prints.
ghost use Rattle.std.specs.Prelude.{◌≡◌, IfOk, string_bytes};
ghost use Rattle.findings.specs.Findings.{IsShown, shown_as, line as line_of, Report};

use crate::finding::Finding;
use crate::finding_out::find_all;
use cubes::cube::Cube;
use cubes::mask::Mask;
use devices::device::Device;
use std::alloc::{AllocError, Global};

// The letters of the vector, or `-` where there is none.
fn letters(heap: Global, inputs: u8, shown: Option<Mask>) -> Result<String, AllocError>
    requires { IsShown inputs shown }
    ensures { IfOk result (λ text. string_bytes text ≡ shown_as inputs shown) }
{
    match shown.and_then(|number| Cube::vector(inputs, number)) {
        Some(cube) => cube.letters(heap, inputs),
        None => String::from_str(heap, "-"),
    }
}

// The line of a machine, with its line feed.
fn line(heap: Global, inputs: u8, finding: Finding) -> Result<String, AllocError>
    requires { IsShown inputs finding.shown }
    ensures { IfOk result (λ text. string_bytes text ≡ line_of inputs finding) }
{
    let machine = finding.machine;
    let label = finding.label;
    let letters = letters(heap, inputs, finding.shown)?;
    format!(in heap; "{machine} {label} {letters}\n")
}

// The lines of all machines, from machine 0 up.
pub fn report<D: Device>(heap: Global, device: &D) -> Result<String, AllocError>
    ensures { IfOk result (λ text. Report (D.means device.now) (string_bytes text)) }
{
    let found = find_all(heap, device)?;
    let inputs = device.inputs();
    let mut text = String::new(heap);
    for finding in &found {
        text.push_str(line(heap, inputs, *finding)?.as_str())?;
    }
    Ok(text)
}
