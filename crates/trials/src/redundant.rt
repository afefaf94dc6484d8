// Boards where nothing is found: a line that no output needs, and no line at all.
use crate::encoding::{fault, gate, input, output};
use boards::board::Board;
use devices::decide::decide;
use devices::device::Device;
use findings::report::report;
use std::test::Fail;

// Input 0, or else input 0 and input 1: the AND gate adds nothing.
#[test]
fn is_redundant(rt: HostRuntime) -> Result<(), Fail> {
    let mut file = Vec::new(rt.alloc());
    input(&mut file)?;
    input(&mut file)?;
    gate(&mut file, 1, &[0, 1])?;
    gate(&mut file, 2, &[0, 2])?;
    output(&mut file, 3)?;
    fault(&mut file, 0, 2)?;
    let mut board = Board::new(rt.alloc())?;
    board.read(&file)?;
    assert_eq!(rt; decide(&board, 0, 1)?, None);
    let text = report(rt.alloc(), &board)?;
    assert_eq!(rt; text.as_str(), "0 0 -\n1 0 -\n");
    Ok(())
}

#[test]
fn is_empty(rt: HostRuntime) -> Result<(), Fail> {
    let mut board = Board::new(rt.alloc())?;
    board.read(&[])?;
    assert_eq!(rt; board.machines(), 1);
    let text = report(rt.alloc(), &board)?;
    assert_eq!(rt; text.as_str(), "0 0 -\n");
    Ok(())
}
