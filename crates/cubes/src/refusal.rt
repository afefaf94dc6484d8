// Why two masks make no cube, and why two cubes make no common one.

// Making a cube from masks is refused where an input is in both.
#[derive(Clone, Copy, Debug, PartialEq, Eq)]
pub enum NoCube {
    InputInBoth,
}

// Two cubes have no common refinement where an input is 0 in one and 1 in the other.
#[derive(Clone, Copy, Debug, PartialEq, Eq)]
pub enum Clash {
    Opposed,
}
