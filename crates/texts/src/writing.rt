// Bytes into lent text. Whoever writes a line piece by piece uses these: a piece that does not fit is cut off,
// so that no caller has to measure before it writes.
ghost use Rattle.std.specs.Prelude.{◌≡◌, slice_set};
ghost use Rattle.texts.specs.Texts.{placed};

// Writes the byte where the text has such a place, else nothing.
pub fn put(text: &mut [u8], at: usize, byte: u8)
    ensures { text.new ≡ slice_set text.old at byte }
{
    if at < text.len() {
        text[at] = byte;
    }
}

// Writes the bytes from a place on, as far as the text reaches.
pub fn put_all(text: &mut [u8], at: usize, bytes: &[u8])
    ensures { text.new ≡ placed text.old at bytes.now }
{
    // A place that saturates lies past the end of every text, as the place that it stands for does.
    for (k, byte) in bytes.iter().enumerate() {
        put(text, at.saturating_add(k), *byte);
    }
}
