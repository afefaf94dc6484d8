// As many excused duties as there may be, and one more.
use crate::answers::listed;
use crate::hundred::Hundred;
use goals::excused::Excused;
use goals::goal::Goal;
use goals::refusal::NotExcused;
use sheets::refusal::Refusal;
use sheets::sheet::Sheet;
use std::alloc::Global;
use std::test::Fail;

// Duties 0 to 63 are excused.
fn excused(heap: Global) -> Result<Excused<Hundred>, Fail> {
    let mut goal = Excused::new(heap, Hundred { name: 0 })?;
    for duty in 0..64u32 {
        goal.excuse(duty)?;
    }
    Ok(goal)
}

#[test]
fn ends_at_64(rt: HostRuntime) -> Result<(), Fail> {
    let mut goal = excused(rt.alloc())?;
    assert_eq!(rt; goal.excuse(64), Err(NotExcused::TooMany));
    assert_eq!(rt; goal.excuse(63), Ok(()));
    assert_eq!(rt; goal.excuse(100), Err(NotExcused::NoSuchDuty));
    assert_eq!(rt; NotExcused::TooMany.number(), 35);
    assert_eq!(rt; NotExcused::NoSuchDuty.number(), 29);
    Ok(())
}

#[test]
fn changes_what_is_wanted(rt: HostRuntime) -> Result<(), Fail> {
    let mut goal = excused(rt.alloc())?;
    assert_eq!(rt; goal.excuse(64), Err(NotExcused::TooMany));
    assert!(rt; !goal.wanted(0));
    assert!(rt; !goal.wanted(63));
    assert!(rt; goal.wanted(64));
    assert!(rt; goal.wanted(99));
    assert_eq!(rt; goal.duties(), 100);
    Ok(())
}

#[test]
fn is_seen_by_a_sheet(rt: HostRuntime) -> Result<(), Fail> {
    let mut sheet = Sheet::new(rt.alloc(), excused(rt.alloc())?)?;
    assert_eq!(rt; sheet.cover(63), Err(Refusal::NotWanted));
    assert_eq!(rt; sheet.cover(100), Err(Refusal::NoSuchDuty));
    assert_eq!(rt; sheet.cover(64), Ok(Some(1)));
    assert_eq!(rt; sheet.cover(63), Err(Refusal::NotWanted));
    assert_eq!(rt; sheet.cover(99), Ok(None));
    assert_eq!(rt; Refusal::NotWanted.number(), 31);
    listed(&rt, &sheet, b"1 0\n")
}
