// First sheets.
use crate::answers::{answered, listed};
use crate::boards_read::{and_gate, detection};
use goals::distinction::Distinction;
use runs::first::first_sheet;
use sheets::refusal::Refusal;
use sheets::reply::Reply;
use std::test::Fail;

// Row 2 is 00, which the rows after it make spare.
#[test]
fn detects(rt: HostRuntime) -> Result<(), Fail> {
    let done = first_sheet(rt.alloc(), detection(rt.alloc())?)?;
    listed(&rt, &done.sheet, b"1 11\n3 01\n4 10\n")?;
    assert_eq!(rt; done.verdict, Ok(0));
    answered(
        &rt,
        &done.answers,
        &[
            Ok(Reply::Gave(1)),
            Ok(Reply::Already),
            Ok(Reply::Already),
            Ok(Reply::Gave(2)),
            Ok(Reply::Gave(3)),
            Ok(Reply::Gave(4)),
            Ok(Reply::Removed(1)),
        ],
    );
    Ok(())
}

// Machines 1, 2 and 3 are equivalent: the duties 0, 1 and 5 are refused. Row 1 is 00, which the rows after it make spare.
#[test]
fn tells_apart(rt: HostRuntime) -> Result<(), Fail> {
    let goal = Distinction::new(and_gate(rt.alloc())?);
    let done = first_sheet(rt.alloc(), goal)?;
    listed(&rt, &done.sheet, b"2 01\n3 10\n")?;
    answered(
        &rt,
        &done.answers,
        &[
            Err(Refusal::NotCoverable),
            Err(Refusal::NotCoverable),
            Ok(Reply::Gave(1)),
            Ok(Reply::Gave(2)),
            Ok(Reply::Gave(3)),
            Err(Refusal::NotCoverable),
            Ok(Reply::Already),
            Ok(Reply::Already),
            Ok(Reply::Already),
            Ok(Reply::Already),
            Ok(Reply::Already),
            Ok(Reply::Already),
            Ok(Reply::Already),
            Ok(Reply::Already),
            Ok(Reply::Already),
            Ok(Reply::Removed(1)),
        ],
    );
    Ok(())
}
