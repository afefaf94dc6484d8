// The line that is printed for a refused board.
use crate::encoding::input;
use boards::board::Board;
use boards::refusal::{Trouble, Unread};
use std::alloc::Global;
use std::test::Fail;
use texts::short::TextTooShort;

// Why a board of 17 inputs is refused; a board that is accepted fails the test.
fn refused(heap: Global) -> Result<Unread, Fail> {
    let mut file = Vec::new(heap);
    for _ in 0..17 {
        input(&mut file)?;
    }
    let mut board = Board::new(heap)?;
    match board.read(&file) {
        Ok(()) => Err(Fail::new("17 inputs are accepted")),
        Err(unread) => Ok(unread),
    }
}

#[test]
fn stands_at_the_start(rt: HostRuntime) -> Result<(), Fail> {
    let unread = refused(rt.alloc())?;
    assert_eq!(rt; unread, Unread::Bad(Trouble::OneTooMany, 16));
    let mut text = [b'.'; 16];
    assert_eq!(rt; unread.write_line(&mut text)?, 13);
    assert_eq!(rt; text, *b"refused 3 16\n...");
    Ok(())
}

#[test]
fn fits_just(rt: HostRuntime) -> Result<(), Fail> {
    let mut text = [b'.'; 13];
    assert_eq!(rt; refused(rt.alloc())?.write_line(&mut text)?, 13);
    assert_eq!(rt; text, *b"refused 3 16\n");
    Ok(())
}

#[test]
fn finds_no_room(rt: HostRuntime) -> Result<(), Fail> {
    let mut text = [b'.'; 12];
    assert_eq!(rt;
        refused(rt.alloc())?.write_line(&mut text),
        Err(TextTooShort)
    );
    assert_eq!(rt; text, [b'.'; 12]);
    assert_eq!(rt; TextTooShort.number(), 36);
    Ok(())
}
