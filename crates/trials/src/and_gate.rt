// One AND gate on two inputs, with all six faults of its three lines.
use crate::encoding::{fault, gate, input, output};
use boards::board::Board;
use devices::decide::decide;
use devices::labels::labels;
use devices::masked::Masked;
use devices::refusal::Refusal;
use findings::report::report;
use std::alloc::Global;
use std::test::Fail;

fn file(heap: Global) -> Result<Vec<u8>, Fail> {
    let mut file = Vec::new(heap);
    input(&mut file)?;
    input(&mut file)?;
    gate(&mut file, 1, &[0, 1])?;
    output(&mut file, 2)?;
    fault(&mut file, 0, 0)?;
    fault(&mut file, 0, 1)?;
    fault(&mut file, 0, 2)?;
    fault(&mut file, 1, 2)?;
    fault(&mut file, 1, 0)?;
    fault(&mut file, 1, 1)?;
    Ok(file)
}

pub(crate) fn and_gate(heap: Global) -> Result<Board, Fail> {
    let mut board = Board::new(heap)?;
    board.read(&file(heap)?)?;
    Ok(board)
}

#[test]
fn reports(rt: HostRuntime) -> Result<(), Fail> {
    let board = and_gate(rt.alloc())?;
    let text = report(rt.alloc(), &board)?;
    assert_eq!(rt;
        text.as_str(),
        "0 0 -\n1 1 11\n2 1 11\n3 1 11\n4 4 00\n5 5 01\n6 6 10\n"
    );
    Ok(())
}

#[test]
fn decides(rt: HostRuntime) -> Result<(), Fail> {
    let board = and_gate(rt.alloc())?;
    assert_eq!(rt; decide(&board, 1, 2)?, None);
    assert_eq!(rt; decide(&board, 0, 1)?, Some(3));
    assert_eq!(rt; decide(&board, 0, 4)?, Some(0));
    assert_eq!(rt; decide(&board, 5, 6)?, Some(1));
    Ok(())
}

#[test]
fn has_no_seventh_fault(rt: HostRuntime) -> Result<(), Fail> {
    let board = and_gate(rt.alloc())?;
    assert_eq!(rt; decide(&board, 0, 7), Err(Refusal::NoSuchMachine));
    assert_eq!(rt; decide(&board, 7, 0), Err(Refusal::NoSuchMachine));
    assert_eq!(rt; Refusal::NoSuchMachine.number(), 10);
    Ok(())
}

#[test]
fn labels_in_a_long_list(rt: HostRuntime) -> Result<(), Fail> {
    let board = and_gate(rt.alloc())?;
    let mut list = [77u16; 9];
    labels(&board, &mut list)?;
    assert_eq!(rt; list, [0, 1, 1, 1, 4, 5, 6, 77, 77]);
    Ok(())
}

#[test]
fn labels_in_no_short_list(rt: HostRuntime) -> Result<(), Fail> {
    let board = and_gate(rt.alloc())?;
    let mut list = [77u16; 6];
    assert_eq!(rt; labels(&board, &mut list), Err(Refusal::ListTooShort));
    assert_eq!(rt; list, [77u16; 6]);
    assert_eq!(rt; Refusal::ListTooShort.number(), 11);
    Ok(())
}

// With no output in sight no machine is told from the good card.
#[test]
fn masked_wholly(rt: HostRuntime) -> Result<(), Fail> {
    let blind = Masked::new(and_gate(rt.alloc())?, 0);
    let mut list = [77u16; 7];
    labels(&blind, &mut list)?;
    assert_eq!(rt; list, [0u16; 7]);
    assert_eq!(rt; decide(&blind, 0, 1)?, None);
    Ok(())
}
