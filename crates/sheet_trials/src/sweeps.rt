// Sweeps, and rows that are out.
use crate::calls::{listed, sheet};
use cubes::cube::Cube;
use sheets::refusal::Refusal;
use std::test::Fail;

#[test]
fn keeps_one_of_two_equal_rows(rt: HostRuntime) -> Result<(), Fail> {
    let mut sheet = sheet(rt.alloc())?;
    assert_eq!(rt; sheet.enter(Cube::from_masks(0, 3)?)?, 1);
    assert_eq!(rt; sheet.enter(Cube::from_masks(0, 3)?)?, 2);
    assert_eq!(rt; sheet.sweep(), 1);
    listed(&rt, &sheet, b"1 11\n")
}

#[test]
fn leaves_rows_that_are_out(rt: HostRuntime) -> Result<(), Fail> {
    let mut sheet = sheet(rt.alloc())?;
    assert_eq!(rt; sheet.enter(Cube::from_masks(0, 3)?)?, 1);
    assert_eq!(rt; sheet.enter(Cube::from_masks(0, 1)?)?, 2);
    let slip = sheet.pull(1)?;
    let joined = sheet.join(1, 2);
    let swept = sheet.sweep();
    assert_eq!(rt; sheet.put_back(slip), Ok(()));
    assert_eq!(rt; joined, Err(Refusal::RowOut));
    assert_eq!(rt; swept, 0);
    assert_eq!(rt; sheet.sweep(), 1);
    listed(&rt, &sheet, b"1 11\n")
}
