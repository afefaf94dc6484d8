// The two boards of the examples. On the AND gate duties 0, 1 and 2 of detection are covered by 11 alone, duty 3 by every
// cube with a known 0, duty 4 by 01 alone and duty 5 by 10 alone. On the other board the fault is not to be seen.
use crate::encoding::{fault, gate, input, output};
use boards::board::Board;
use goals::detection::Detection;
use std::alloc::Global;
use std::test::Fail;

fn and_file(heap: Global) -> Result<Vec<u8>, Fail> {
    let mut file = Vec::new(heap);
    input(&mut file)?;
    input(&mut file)?;
    gate(&mut file, 1, 0, 1)?;
    output(&mut file, 2)?;
    fault(&mut file, 0, 0)?;
    fault(&mut file, 0, 1)?;
    fault(&mut file, 0, 2)?;
    fault(&mut file, 1, 2)?;
    fault(&mut file, 1, 0)?;
    fault(&mut file, 1, 1)?;
    Ok(file)
}

// One AND gate on two inputs, with all six faults of its three lines.
pub(crate) fn and_gate(heap: Global) -> Result<Board, Fail> {
    let mut board = Board::new(heap)?;
    board.read(&and_file(heap)?)?;
    Ok(board)
}

// Input 0, or else input 0 and input 1; the AND gate, which adds nothing, is stuck at 0.
pub(crate) fn redundant(heap: Global) -> Result<Board, Fail> {
    let mut file = Vec::new(heap);
    input(&mut file)?;
    input(&mut file)?;
    gate(&mut file, 1, 0, 1)?;
    gate(&mut file, 2, 0, 2)?;
    output(&mut file, 3)?;
    fault(&mut file, 0, 2)?;
    let mut board = Board::new(heap)?;
    board.read(&file)?;
    Ok(board)
}

pub(crate) fn detection(heap: Global) -> Result<Detection<Board>, Fail> {
    Ok(Detection::new(and_gate(heap)?))
}
