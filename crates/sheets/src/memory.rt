// The working memory of a sheet, in a file of its own because its type bounds it.
ghost use Rattle.std.specs.Prelude.{◌≡◌, vec_len};

use std::alloc::{AllocError, Global};

// Three lists and no list of three, since a goal marks a lent list, and each is worked on apart. All is claimed at the making,
// for as many duties as a goal can have, so that no call is ever refused for want of it: `marks` and `left` say something of
// each duty, and `counts` says how many rows in place cover it.
#[derive(Drop)]
pub(crate) struct Memory {
    pub(crate) marks: Vec<bool>,
    pub(crate) left: Vec<bool>,
    pub(crate) counts: Vec<u16>,
    ghost all_marks: { vec_len marks ≡ 65535 },
    ghost all_left: { vec_len left ≡ 65535 },
    ghost all_counts: { vec_len counts ≡ 65535 },
}

impl Memory {
    pub(crate) fn new(heap: Global) -> Result<Memory, AllocError> {
        let marks = vec![in heap; false; 65535]?;
        let left = vec![in heap; false; 65535]?;
        let counts = vec![in heap; 0u16; 65535]?;
        Ok(Memory {
            marks,
            left,
            counts,
        })
    }
}
