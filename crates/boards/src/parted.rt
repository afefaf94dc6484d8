// A record taken apart, in a file of its own because its type says how long its rest is.
ghost use Rattle.std.specs.Prelude.{◌≡◌, length};

use crate::parts::Class;

// A record of a known class: the byte and the field after its mark, and the rest.
#[derive(Clone, Copy)]
pub(crate) struct Record<'a> {
    pub(crate) class: Class,
    pub(crate) field: u8,
    pub(crate) word: u16,
    pub(crate) rest: &'a [u8],
    ghost twelve: { length rest.now ≡ 12 },
}
