// A gate as a board keeps it, in a file of its own because its type bounds its pins.
ghost use Rattle.std.specs.Prelude.{◌≡◌, ◌≤◌, length};

use crate::parts::Kind;

// A gate reads the lines of its first `count` places. Six places and a count, and no ArrayVec: that is twice as large, and a
// gate in which one stands could not be copied.
#[derive(Clone, Copy, Debug, PartialEq, Eq)]
pub struct StoredGate {
    pub kind: Kind,
    pub count: u16,
    pub lines: [u16; 6],
    ghost few: { count ≤ 6 },
    ghost six: { length lines ≡ 6 },
}
