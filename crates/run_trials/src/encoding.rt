// An encoder of board records, written from the file format alone.
use std::alloc::AllocError;

// A record of a mark, a field of one byte, a field of two bytes with the low byte first, and zeros.
fn record(file: &mut Vec<u8>, mark: u8, field: u8, word: u16) -> Result<(), AllocError> {
    let low = (word % 256) as u8;
    let high = (word / 256) as u8;
    file.extend_from_slice(&[mark, field, low, high, 0, 0, 0, 0, 0, 0, 0, 0, 0, 0, 0, 0])
}

pub(crate) fn input(file: &mut Vec<u8>) -> Result<(), AllocError> {
    record(file, b'I', 0, 0)
}

pub(crate) fn output(file: &mut Vec<u8>, line: u16) -> Result<(), AllocError> {
    record(file, b'O', 0, line)
}

// A line that is stuck at a value.
pub(crate) fn fault(file: &mut Vec<u8>, value: u8, line: u16) -> Result<(), AllocError> {
    record(file, b'F', value, line)
}

// A gate of two pins.
pub(crate) fn gate(file: &mut Vec<u8>, kind: u8, a: u8, b: u8) -> Result<(), AllocError> {
    file.extend_from_slice(&[b'G', kind, 2, 0, a, 0, b, 0, 0, 0, 0, 0, 0, 0, 0, 0])
}
