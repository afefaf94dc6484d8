// A sheet of 256 rows.
use crate::answers::listed;
use crate::boards_read::detection;
use boards::board::Board;
use cubes::cube::Cube;
use goals::detection::Detection;
use sheets::refusal::Refusal;
use sheets::sheet::Sheet;
use std::alloc::Global;
use std::test::Fail;

// 256 rows of 0X, which cover duty 3 alone.
fn full(heap: Global) -> Result<Sheet<Detection<Board>>, Fail> {
    let mut sheet = Sheet::new(heap, detection(heap)?)?;
    let cube = Cube::from_masks(1, 0)?;
    for _ in 0..256 {
        sheet.enter(cube)?;
    }
    Ok(sheet)
}

#[test]
fn takes_no_row_more(rt: HostRuntime) -> Result<(), Fail> {
    let mut sheet = full(rt.alloc())?;
    assert_eq!(rt;
        sheet.enter(Cube::from_masks(1, 0)?),
        Err(Refusal::SheetFull)
    );
    assert_eq!(rt;
        sheet.enter(Cube::from_masks(4, 0)?),
        Err(Refusal::InputAbove)
    );
    assert_eq!(rt; sheet.cover(3), Ok(None));
    assert_eq!(rt; sheet.cover(0), Err(Refusal::SheetFull));
    assert_eq!(rt; sheet.cover(6), Err(Refusal::NoSuchDuty));
    assert_eq!(rt; Refusal::SheetFull.number(), 22);
    Ok(())
}

// Row 7 makes room for row 257. Swept from the last, row 1 is the one that is left of those of 0X.
#[test]
fn uses_a_place_again(rt: HostRuntime) -> Result<(), Fail> {
    let mut sheet = full(rt.alloc())?;
    let slip = sheet.pull(7)?;
    let entered = sheet.cover(0);
    let struck = sheet.strike(slip);
    assert_eq!(rt; entered, Err(Refusal::SheetFull));
    assert_eq!(rt; struck, Ok(()));
    assert_eq!(rt; sheet.cover(0), Ok(Some(257)));
    assert_eq!(rt; sheet.cover(4), Err(Refusal::SheetFull));
    assert_eq!(rt; sheet.sweep(), 254);
    listed(&rt, &sheet, b"1 0X\n257 11\n")
}
