// The most inputs, lines, outputs and faults that a board can have, and one more of each.
use crate::encoding::{fault, gate, input, output};
use crate::refusals::reading;
use boards::board::Board;
use findings::report::report;
use std::test::Fail;

#[test]
fn inputs(rt: HostRuntime) -> Result<(), Fail> {
    let mut file = Vec::new(rt.alloc());
    for _ in 0..16 {
        input(&mut file)?;
    }
    assert_eq!(rt; reading(rt.alloc(), &file)?, (0, 0));
    input(&mut file)?;
    assert_eq!(rt; reading(rt.alloc(), &file)?, (3, 16));
    Ok(())
}

#[test]
fn lines(rt: HostRuntime) -> Result<(), Fail> {
    let mut file = Vec::new(rt.alloc());
    input(&mut file)?;
    for _ in 0..511 {
        gate(&mut file, 8, &[0])?;
    }
    assert_eq!(rt; reading(rt.alloc(), &file)?, (0, 0));
    gate(&mut file, 8, &[0])?;
    assert_eq!(rt; reading(rt.alloc(), &file)?, (3, 512));
    Ok(())
}

#[test]
fn outputs(rt: HostRuntime) -> Result<(), Fail> {
    let mut file = Vec::new(rt.alloc());
    input(&mut file)?;
    for _ in 0..32 {
        output(&mut file, 0)?;
    }
    assert_eq!(rt; reading(rt.alloc(), &file)?, (0, 0));
    output(&mut file, 0)?;
    assert_eq!(rt; reading(rt.alloc(), &file)?, (3, 33));
    Ok(())
}

#[test]
fn faults(rt: HostRuntime) -> Result<(), Fail> {
    let mut file = Vec::new(rt.alloc());
    input(&mut file)?;
    for _ in 0..255 {
        fault(&mut file, 0, 0)?;
    }
    assert_eq!(rt; reading(rt.alloc(), &file)?, (0, 0));
    fault(&mut file, 0, 0)?;
    assert_eq!(rt; reading(rt.alloc(), &file)?, (3, 256));
    Ok(())
}

// A row of repeaters long enough that lines need their high byte; the last is stuck at 1.
#[test]
fn long_row(rt: HostRuntime) -> Result<(), Fail> {
    let mut file = Vec::new(rt.alloc());
    input(&mut file)?;
    for line in 0..299u16 {
        gate(&mut file, 8, &[line])?;
    }
    output(&mut file, 299)?;
    fault(&mut file, 1, 299)?;
    let mut board = Board::new(rt.alloc())?;
    board.read(&file)?;
    let text = report(rt.alloc(), &board)?;
    assert_eq!(rt; text.as_str(), "0 0 -\n1 1 0\n");
    Ok(())
}
