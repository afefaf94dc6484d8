// Claims over detection on the AND gate.
use crate::boards_read::detection;
use claims::claiming::claim;
use claims::pair::Pair;
use claims::refusal::ClaimRefusal;
use goals::excused::Excused;
use std::test::Fail;

#[test]
fn are_accepted(rt: HostRuntime) -> Result<(), Fail> {
    let goal = detection(rt.alloc())?;
    assert_eq!(rt; claim(&goal, &[0, 4, 5]), Ok(3));
    assert_eq!(rt; claim(&goal, &[5, 1]), Ok(2));
    assert_eq!(rt; claim(&goal, &[]), Ok(0));
    Ok(())
}

#[test]
fn are_covered_together(rt: HostRuntime) -> Result<(), Fail> {
    let goal = detection(rt.alloc())?;
    let found = ClaimRefusal::CoveredTogether {
        earlier: 1,
        later: 2,
    };
    assert_eq!(rt; claim(&goal, &[0, 3, 4]), Err(found));
    assert_eq!(rt; found.number(), 33);
    Ok(())
}

// Vector 1 covers places 1 and 2, and only vector 2 covers places 0 and 2.
#[test]
fn name_the_earliest_partner(rt: HostRuntime) -> Result<(), Fail> {
    let goal = detection(rt.alloc())?;
    let found = ClaimRefusal::CoveredTogether {
        earlier: 0,
        later: 2,
    };
    assert_eq!(rt; claim(&goal, &[4, 5, 3]), Err(found));
    Ok(())
}

// Vector 1 covers places 0 and 3, and only vector 3 covers places 1 and 2.
#[test]
fn name_the_earliest_later_place(rt: HostRuntime) -> Result<(), Fail> {
    let goal = detection(rt.alloc())?;
    let found = ClaimRefusal::CoveredTogether {
        earlier: 1,
        later: 2,
    };
    assert_eq!(rt; claim(&goal, &[5, 0, 2, 3]), Err(found));
    Ok(())
}

#[test]
fn name_a_duty_twice(rt: HostRuntime) -> Result<(), Fail> {
    let goal = detection(rt.alloc())?;
    let found = ClaimRefusal::NamedBefore { place: 2 };
    assert_eq!(rt; claim(&goal, &[4, 0, 4, 0]), Err(found));
    assert_eq!(rt; found.number(), 30);
    Ok(())
}

#[test]
fn name_no_duty(rt: HostRuntime) -> Result<(), Fail> {
    let goal = detection(rt.alloc())?;
    let found = ClaimRefusal::NoSuchDuty { place: 2 };
    assert_eq!(rt; claim(&goal, &[4, 4, 9]), Err(found));
    assert_eq!(rt; claim(&goal, &[4, 4, 6]), Err(found));
    assert_eq!(rt; found.number(), 29);
    Ok(())
}

// Of 257 duties none is looked at; of 256 the first is named again.
#[test]
fn are_too_long(rt: HostRuntime) -> Result<(), Fail> {
    let goal = detection(rt.alloc())?;
    assert_eq!(rt; claim(&goal, &[9; 257]), Err(ClaimRefusal::TooMany));
    assert_eq!(rt; ClaimRefusal::TooMany.number(), 34);
    let found = ClaimRefusal::NamedBefore { place: 1 };
    assert_eq!(rt; claim(&goal, &[0; 256]), Err(found));
    Ok(())
}

#[test]
fn name_an_excused_duty(rt: HostRuntime) -> Result<(), Fail> {
    let mut goal = Excused::new(rt.alloc(), detection(rt.alloc())?)?;
    goal.excuse(0)?;
    let found = ClaimRefusal::NotWanted { place: 0 };
    assert_eq!(rt; claim(&goal, &[0]), Err(found));
    assert_eq!(rt; found.number(), 31);
    assert_eq!(rt; claim(&goal, &[1, 4, 5]), Ok(3));
    Ok(())
}

// A pair of places is written with the earlier one first, whatever the order of pairs.
#[test]
fn are_written_earlier_first(rt: HostRuntime) -> Result<(), Fail> {
    let pair = Pair {
        earlier: 1,
        later: 2,
    };
    let text = format!(in rt.alloc(); "{pair:?}")?;
    assert_eq!(rt; text.as_str(), "Pair { earlier: 1, later: 2 }");
    Ok(())
}
