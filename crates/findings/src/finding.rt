// What is found out about one machine.
use cubes::mask::Mask;

// A machine, the smallest machine that no vector tells from it, and the smallest vector that tells it from the
// good card, if one does.
#[derive(Clone, Copy, Debug, PartialEq, Eq)]
pub struct Finding {
    pub machine: u16,
    pub label: u16,
    pub shown: Option<Mask>,
}
