// The last serial.
use crate::answers::listed;
use crate::boards_read::detection;
use boards::board::Board;
use cubes::cube::Cube;
use goals::detection::Detection;
use sheets::refusal::Refusal;
use sheets::sheet::Sheet;
use std::alloc::Global;
use std::test::Fail;

// A sheet that has given so many serials; each row after the first is joined to it.
fn spent(heap: Global, given: u16) -> Result<Sheet<Detection<Board>>, Fail> {
    let mut sheet = Sheet::new(heap, detection(heap)?)?;
    let cube = Cube::from_masks(1, 0)?;
    sheet.enter(cube)?;
    for _ in 1..given {
        let serial = sheet.enter(cube)?;
        sheet.join(1, serial)?;
    }
    Ok(sheet)
}

#[test]
fn is_the_last(rt: HostRuntime) -> Result<(), Fail> {
    let mut sheet = spent(rt.alloc(), 65534)?;
    assert_eq!(rt; sheet.cover(0), Ok(Some(65535)));
    assert_eq!(rt; sheet.cover(4), Err(Refusal::SerialsSpent));
    assert_eq!(rt;
        sheet.enter(Cube::from_masks(1, 0)?),
        Err(Refusal::SerialsSpent)
    );
    assert_eq!(rt; sheet.cover(3), Ok(None));
    assert_eq!(rt;
        sheet.enter(Cube::from_masks(4, 0)?),
        Err(Refusal::InputAbove)
    );
    assert_eq!(rt; Refusal::SerialsSpent.number(), 23);
    listed(&rt, &sheet, b"1 0X\n65535 11\n")
}

// With 256 rows and all serials spent the rows are looked at first.
#[test]
fn is_not_asked_for_on_a_full_sheet(rt: HostRuntime) -> Result<(), Fail> {
    let mut sheet = spent(rt.alloc(), 65280)?;
    let cube = Cube::from_masks(1, 0)?;
    for _ in 0..255 {
        sheet.enter(cube)?;
    }
    assert_eq!(rt; sheet.enter(cube), Err(Refusal::SheetFull));
    assert_eq!(rt; sheet.join(1, 65535), Ok(()));
    assert_eq!(rt; sheet.enter(cube), Err(Refusal::SerialsSpent));
    Ok(())
}
