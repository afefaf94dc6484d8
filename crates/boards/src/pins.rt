// The pins of a gate, in a file of their own because their type says that each reads a line that there can be.
ghost use Rattle.std.specs.Prelude.{◌<◌, All};

use crate::parts::Value;

// The lines that the pins read, and the values of all lines.
#[derive(Clone, Copy)]
pub(crate) struct Pins<'a> {
    pub(crate) lines: &'a [u16],
    pub(crate) values: &'a [Value; 512],
    ghost inside: { All (λ p. p < 512) lines.now },
}
