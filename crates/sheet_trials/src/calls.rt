// Single calls and their refusals.
use crate::ones::Ones;
use cubes::cube::Cube;
use sheets::refusal::Refusal;
use sheets::sheet::Sheet;
use std::alloc::Global;
use std::process::Abort;
use std::test::Fail;

pub(crate) fn sheet(heap: Global) -> Result<Sheet<Ones>, Fail> {
    Ok(Sheet::new(heap, Ones { name: 0 })?)
}

// The rows in place, as they are listed.
pub(crate) fn listed(rt: &impl Abort, sheet: &Sheet<Ones>, expected: &[u8]) -> Result<(), Fail> {
    let mut text = [b'.'; 64];
    let length = match sheet.list(&mut text) {
        Ok(length) => length,
        Err(_) => return Err(Fail::new("too short")),
    };
    assert_eq!(rt; length, expected.len());
    assert!(rt; text.starts_with(expected));
    Ok(())
}

#[test]
fn covers_and_lists(rt: HostRuntime) -> Result<(), Fail> {
    let mut sheet = sheet(rt.alloc())?;
    assert_eq!(rt; sheet.cover(1)?, Some(1));
    assert_eq!(rt; sheet.cover(1)?, None);
    assert_eq!(rt; sheet.cover(0)?, Some(2));
    assert_eq!(rt; sheet.cover(2), Err(Refusal::NoSuchDuty));
    listed(&rt, &sheet, b"1 01\n2 10\n")
}

#[test]
fn strikes_no_row_that_is_not_spare(rt: HostRuntime) -> Result<(), Fail> {
    let mut sheet = sheet(rt.alloc())?;
    assert_eq!(rt; sheet.enter(Cube::from_masks(0, 3)?)?, 1);
    assert_eq!(rt; sheet.enter(Cube::from_masks(0, 1)?)?, 2);
    let slip = sheet.pull(1)?;
    assert_eq!(rt; sheet.strike(slip), Err(Refusal::DutyLeftBare(1)));
    let slip = sheet.pull(2)?;
    assert_eq!(rt; sheet.strike(slip), Ok(()));
    listed(&rt, &sheet, b"1 11\n")
}

#[test]
fn exchanges_and_joins(rt: HostRuntime) -> Result<(), Fail> {
    let mut sheet = sheet(rt.alloc())?;
    assert_eq!(rt; sheet.enter(Cube::from_masks(0, 1)?)?, 1);
    assert_eq!(rt; sheet.enter(Cube::from_masks(0, 2)?)?, 2);
    let other = Cube::from_masks(0, 2)?;
    let above = Cube::from_masks(0, 4)?;
    let slip = sheet.pull(1)?;
    assert_eq!(rt; sheet.exchange(slip, other), Err(Refusal::DutyLeftBare(0)));
    let slip = sheet.pull(1)?;
    assert_eq!(rt; sheet.exchange(slip, above), Err(Refusal::InputAbove));
    assert_eq!(rt; sheet.join(1, 1), Err(Refusal::NotJoinable));
    assert_eq!(rt; sheet.join(1, 3), Err(Refusal::NoSuchRow));
    assert_eq!(rt; sheet.join(2, 1), Ok(()));
    listed(&rt, &sheet, b"2 11\n")
}
