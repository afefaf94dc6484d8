// Numbers into lent text, in decimal with no leading zero.
ghost use Rattle.std.specs.Prelude.{◌≡◌, length, decimal};
ghost use Rattle.texts.specs.Texts.{placed};

use crate::writing::put_all;
use itoa::Buffer;

// How many digits the number has.
pub fn decimal_length(n: u64) -> usize
    ensures { result ≡ length (decimal n) }
{
    Buffer::new().format(n).len()
}

// Writes the digits of the number from a place on, as far as the text reaches.
pub fn put_decimal(text: &mut [u8], at: usize, n: u64)
    ensures { text.new ≡ placed text.old at (decimal n) }
{
    put_all(text, at, Buffer::new().format(n).as_bytes());
}
