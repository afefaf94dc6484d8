// The board with a fault that no vector shows.
use crate::answers::{answered, listed};
use crate::boards_read::redundant;
use claims::refusal::ClaimRefusal;
use goals::detection::Detection;
use runs::running::run;
use sheets::call::Call;
use sheets::refusal::Refusal;
use std::test::Fail;

#[test]
fn has_no_row(rt: HostRuntime) -> Result<(), Fail> {
    let goal = Detection::new(redundant(rt.alloc())?);
    let done = run(rt.alloc(), goal, &[Call::Cover(0), Call::Cover(1)], &[0])?;
    listed(&rt, &done.sheet, b"")?;
    let found = ClaimRefusal::NotCoverable { place: 0 };
    assert_eq!(rt; done.verdict, Err(found));
    assert_eq!(rt; found.number(), 32);
    assert_eq!(rt; Refusal::NotCoverable.number(), 32);
    answered(
        &rt,
        &done.answers,
        &[Err(Refusal::NotCoverable), Err(Refusal::NoSuchDuty)],
    );
    Ok(())
}
