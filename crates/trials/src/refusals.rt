// Files that are refused, with the number of the refusal and the record that it names.
use crate::and_gate::and_gate;
use crate::encoding::{fault, gate, input, output, record, smudge};
use boards::board::Board;
use devices::device::Device;
use findings::report::report;
use std::alloc::Global;
use std::test::Fail;

// What reading says: number and record of the refusal, or two zeros where the file is accepted.
pub(crate) fn reading(heap: Global, file: &[u8]) -> Result<(u16, usize), Fail> {
    let mut board = Board::new(heap)?;
    match board.read(file) {
        Ok(()) => Ok((0, 0)),
        Err(unread) => Ok((unread.number(), unread.record())),
    }
}

// What reading says of a board of two inputs with this one gate.
fn with_gate(heap: Global, kind: u8, pins: &[u16]) -> Result<(u16, usize), Fail> {
    let mut file = Vec::new(heap);
    input(&mut file)?;
    input(&mut file)?;
    gate(&mut file, kind, pins)?;
    reading(heap, &file)
}

// What reading says of a board of one input with this one record more.
fn with_record(heap: Global, mark: u8, field: u8, word: u16) -> Result<(u16, usize), Fail> {
    let mut file = Vec::new(heap);
    input(&mut file)?;
    record(&mut file, mark, field, word)?;
    reading(heap, &file)
}

#[test]
fn is_not_whole(rt: HostRuntime) -> Result<(), Fail> {
    assert_eq!(rt; reading(rt.alloc(), &[0; 15])?, (1, 0));
    assert_eq!(rt; reading(rt.alloc(), &[0; 33])?, (1, 2));
    Ok(())
}

#[test]
fn has_a_strange_mark(rt: HostRuntime) -> Result<(), Fail> {
    assert_eq!(rt; reading(rt.alloc(), &[0; 16])?, (2, 0));
    assert_eq!(rt; with_record(rt.alloc(), b'i', 0, 0)?, (2, 1));
    Ok(())
}

#[test]
fn is_out_of_order(rt: HostRuntime) -> Result<(), Fail> {
    let mut file = Vec::new(rt.alloc());
    input(&mut file)?;
    output(&mut file, 0)?;
    input(&mut file)?;
    assert_eq!(rt; reading(rt.alloc(), &file)?, (2, 2));
    Ok(())
}

#[test]
fn has_a_bad_gate(rt: HostRuntime) -> Result<(), Fail> {
    assert_eq!(rt; with_gate(rt.alloc(), 1, &[0, 1])?, (0, 0));
    assert_eq!(rt; with_gate(rt.alloc(), 0, &[0, 1])?, (4, 2));
    assert_eq!(rt; with_gate(rt.alloc(), 9, &[0, 1])?, (4, 2));
    Ok(())
}

#[test]
fn has_a_bad_pin_count(rt: HostRuntime) -> Result<(), Fail> {
    assert_eq!(rt; with_gate(rt.alloc(), 1, &[0])?, (4, 2));
    assert_eq!(rt; with_gate(rt.alloc(), 7, &[0, 1])?, (4, 2));
    assert_eq!(rt; with_gate(rt.alloc(), 5, &[0, 1, 0, 1, 0, 1])?, (0, 0));
    assert_eq!(rt; with_gate(rt.alloc(), 5, &[0, 1, 0, 1, 0, 1, 0])?, (4, 2));
    Ok(())
}

#[test]
fn has_a_bad_stuck_value(rt: HostRuntime) -> Result<(), Fail> {
    assert_eq!(rt; with_record(rt.alloc(), b'F', 1, 0)?, (0, 0));
    assert_eq!(rt; with_record(rt.alloc(), b'F', 2, 0)?, (4, 1));
    Ok(())
}

// A gate that reads its own line, an output one past the last, and a line whose low byte alone would be one.
#[test]
fn names_no_line(rt: HostRuntime) -> Result<(), Fail> {
    assert_eq!(rt; with_gate(rt.alloc(), 1, &[0, 2])?, (5, 2));
    assert_eq!(rt; with_record(rt.alloc(), b'O', 0, 1)?, (5, 1));
    assert_eq!(rt; with_record(rt.alloc(), b'F', 0, 256)?, (5, 1));
    Ok(())
}

#[test]
fn is_not_zero(rt: HostRuntime) -> Result<(), Fail> {
    assert_eq!(rt; with_record(rt.alloc(), b'I', 1, 0)?, (6, 1));
    assert_eq!(rt; with_record(rt.alloc(), b'O', 1, 0)?, (6, 1));
    let mut file = Vec::new(rt.alloc());
    input(&mut file)?;
    fault(&mut file, 0, 0)?;
    smudge(&mut file)?;
    assert_eq!(rt; reading(rt.alloc(), &file)?, (6, 1));
    Ok(())
}

// A refusal at the last record leaves the board that was read before.
#[test]
fn keeps_the_old_board(rt: HostRuntime) -> Result<(), Fail> {
    let mut board = and_gate(rt.alloc())?;
    let mut file = Vec::new(rt.alloc());
    input(&mut file)?;
    output(&mut file, 0)?;
    fault(&mut file, 2, 0)?;
    assert!(rt; board.read(&file).is_err());
    assert_eq!(rt; board.machines(), 7);
    let text = report(rt.alloc(), &board)?;
    assert_eq!(rt;
        text.as_str(),
        "0 0 -\n1 1 11\n2 1 11\n3 1 11\n4 4 00\n5 5 01\n6 6 10\n"
    );
    Ok(())
}
