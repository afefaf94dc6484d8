// Records in which two tests fail: the refusal is that of the earlier test.
use crate::encoding::{gate, input, output, record, smudge};
use crate::refusals::reading;
use std::test::Fail;

// An input after a gate, and one too many.
#[test]
fn order_before_room(rt: HostRuntime) -> Result<(), Fail> {
    let mut file = Vec::new(rt.alloc());
    for _ in 0..16 {
        input(&mut file)?;
    }
    gate(&mut file, 8, &[0])?;
    input(&mut file)?;
    assert_eq!(rt; reading(rt.alloc(), &file)?, (2, 17));
    Ok(())
}

// A 256th fault that is stuck at 2.
#[test]
fn room_before_field(rt: HostRuntime) -> Result<(), Fail> {
    let mut file = Vec::new(rt.alloc());
    input(&mut file)?;
    for _ in 0..255 {
        record(&mut file, b'F', 0, 0)?;
    }
    record(&mut file, b'F', 2, 0)?;
    assert_eq!(rt; reading(rt.alloc(), &file)?, (3, 256));
    Ok(())
}

// A line that does not exist, stuck at 2.
#[test]
fn field_before_line(rt: HostRuntime) -> Result<(), Fail> {
    let mut file = Vec::new(rt.alloc());
    input(&mut file)?;
    record(&mut file, b'F', 2, 99)?;
    assert_eq!(rt; reading(rt.alloc(), &file)?, (4, 1));
    Ok(())
}

// An output on a line that does not exist, with a last byte that is not zero.
#[test]
fn line_before_zero(rt: HostRuntime) -> Result<(), Fail> {
    let mut file = Vec::new(rt.alloc());
    input(&mut file)?;
    output(&mut file, 99)?;
    smudge(&mut file)?;
    assert_eq!(rt; reading(rt.alloc(), &file)?, (5, 1));
    Ok(())
}

// A file of no whole records is refused before its bad first record is looked at, and of two bad records the first counts.
#[test]
fn first_record(rt: HostRuntime) -> Result<(), Fail> {
    assert_eq!(rt; reading(rt.alloc(), &[0; 17])?, (1, 1));
    let mut file = Vec::new(rt.alloc());
    output(&mut file, 0)?;
    record(&mut file, b'?', 0, 0)?;
    assert_eq!(rt; reading(rt.alloc(), &file)?, (5, 0));
    Ok(())
}
