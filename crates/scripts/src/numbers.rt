// Decimal numerals as numbers.
ghost use Rattle.std.specs.Prelude.{◌≡◌};
ghost use Rattle.scripts.specs.Numerals.{digit, number_of, serial_of};

// The byte is a digit.
fn is_digit(byte: u8) -> bool
    ensures { result ≡ digit byte }
{
    matches!(byte, b'0'..=b'9')
}

// The value of a decimal numeral; none where a byte is no digit, the word is empty, or the value does not fit.
pub fn number_of(word: &[u8]) -> Option<u32>
    ensures { result ≡ number_of word.now }
{
    // Byte by byte, since `parse` would take a sign too.
    if word.is_empty() {
        return None;
    }
    let mut value: u64 = 0;
    for byte in word {
        if !is_digit(*byte) {
            return None;
        }
        value = value * 10 + u64::from(*byte - b'0');
        if value >= 4294967296 {
            return None;
        }
    }
    Some(value as u32)
}

// The same for a number that is to fit a serial.
pub fn serial_of(word: &[u8]) -> Option<u16>
    ensures { result ≡ serial_of word.now }
{
    u16::try_from(number_of(word)?).ok()
}
