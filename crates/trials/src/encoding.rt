// An encoder of board records, written from the file format alone: the reader under test is held to it.
use std::alloc::AllocError;

// A record of a mark, a field of one byte, a field of two bytes with the low byte first, and zeros.
pub(crate) fn record(file: &mut Vec<u8>, mark: u8, field: u8, word: u16) -> Result<(), AllocError> {
    let low = (word % 256) as u8;
    let high = (word / 256) as u8;
    file.extend_from_slice(&[mark, field, low, high, 0, 0, 0, 0, 0, 0, 0, 0, 0, 0, 0, 0])
}

pub(crate) fn input(file: &mut Vec<u8>) -> Result<(), AllocError> {
    record(file, b'I', 0, 0)
}

pub(crate) fn output(file: &mut Vec<u8>, line: u16) -> Result<(), AllocError> {
    record(file, b'O', 0, line)
}

// A line that is stuck at a value.
pub(crate) fn fault(file: &mut Vec<u8>, value: u8, line: u16) -> Result<(), AllocError> {
    record(file, b'F', value, line)
}

// A gate with the lines that its pins read; lines past the sixth find no place.
pub(crate) fn gate(file: &mut Vec<u8>, kind: u8, pins: &[u16]) -> Result<(), AllocError> {
    file.extend_from_slice(&[b'G', kind, (pins.len() % 256) as u8, 0])?;
    for k in 0..6usize {
        let line = if k < pins.len() { pins[k] } else { 0 };
        file.extend_from_slice(&[(line % 256) as u8, (line / 256) as u8])?;
    }
    Ok(())
}

// Puts a 1 in place of the last byte.
pub(crate) fn smudge(file: &mut Vec<u8>) -> Result<(), AllocError> {
    file.pop();
    file.extend_from_slice(&[1])
}
