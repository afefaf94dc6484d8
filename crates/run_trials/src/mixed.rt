// Runs over detection on the AND gate, with refused calls between others.
use crate::answers::{answered, listed};
use crate::boards_read::detection;
use claims::refusal::ClaimRefusal;
use cubes::cube::Cube;
use runs::running::run;
use sheets::call::Call;
use sheets::refusal::Refusal;
use sheets::reply::Reply;
use std::test::Fail;

// Row 2 is struck at last, and row 1 is put back by the end of the run.
#[test]
fn strikes(rt: HostRuntime) -> Result<(), Fail> {
    let calls = [
        Call::Cover(9),
        Call::Strike(5),
        Call::Enter(Cube::from_masks(1, 2)?),
        Call::Enter(Cube::from_masks(1, 0)?),
        Call::Pull(1),
        Call::Pull(1),
        Call::Enter(Cube::from_masks(0, 3)?),
        Call::Strike(1),
        Call::PutBack(1),
        Call::Pull(1),
        Call::Pull(2),
        Call::Strike(2),
        Call::Join(1, 3),
        Call::Join(2, 3),
        Call::Cover(4),
        Call::Pull(2),
        Call::Strike(2),
        Call::Sweep,
    ];
    let done = run(rt.alloc(), detection(rt.alloc())?, &calls, &[0, 4, 5])?;
    listed(&rt, &done.sheet, b"1 01\n3 11\n4 01\n")?;
    assert_eq!(rt; done.verdict, Ok(3));
    answered(
        &rt,
        &done.answers,
        &[
            Err(Refusal::NoSuchDuty),
            Err(Refusal::NotOut),
            Ok(Reply::Gave(1)),
            Ok(Reply::Gave(2)),
            Ok(Reply::Gave(1)),
            Err(Refusal::RowOut),
            Ok(Reply::Gave(3)),
            Err(Refusal::DutyLeftBare(4)),
            Err(Refusal::NotOut),
            Ok(Reply::Gave(1)),
            Ok(Reply::Gave(2)),
            Err(Refusal::DutyLeftBare(3)),
            Err(Refusal::RowOut),
            Err(Refusal::NotJoinable),
            Ok(Reply::Gave(4)),
            Ok(Reply::Gave(2)),
            Ok(Reply::Done),
            Ok(Reply::Removed(0)),
        ],
    );
    Ok(())
}

// Rows 1 and 2 become 00, which is exchanged for 10 in the end.
#[test]
fn joins_and_exchanges(rt: HostRuntime) -> Result<(), Fail> {
    let above = Cube::from_masks(4, 0)?;
    let calls = [
        Call::Enter(Cube::from_masks(1, 0)?),
        Call::Enter(Cube::from_masks(2, 0)?),
        Call::Join(1, 2),
        Call::Pull(2),
        Call::Enter(above),
        Call::Pull(1),
        Call::Exchange(1, above),
        Call::Exchange(1, above),
        Call::Pull(1),
        Call::Exchange(1, Cube::from_masks(0, 3)?),
        Call::Pull(1),
        Call::Exchange(1, Cube::from_masks(2, 1)?),
        Call::Join(1, 1),
        Call::Enter(Cube::from_masks(1, 0)?),
        Call::Sweep,
        Call::PutBack(3),
        Call::Join(3, 1),
    ];
    let done = run(rt.alloc(), detection(rt.alloc())?, &calls, &[0, 4, 0])?;
    listed(&rt, &done.sheet, b"1 10\n")?;
    assert_eq!(rt; done.verdict, Err(ClaimRefusal::NamedBefore { place: 2 }));
    answered(
        &rt,
        &done.answers,
        &[
            Ok(Reply::Gave(1)),
            Ok(Reply::Gave(2)),
            Ok(Reply::Done),
            Err(Refusal::NoSuchRow),
            Err(Refusal::InputAbove),
            Ok(Reply::Gave(1)),
            Err(Refusal::InputAbove),
            Err(Refusal::NotOut),
            Ok(Reply::Gave(1)),
            Err(Refusal::DutyLeftBare(3)),
            Ok(Reply::Gave(1)),
            Ok(Reply::Done),
            Err(Refusal::NotJoinable),
            Ok(Reply::Gave(3)),
            Ok(Reply::Removed(1)),
            Err(Refusal::NotOut),
            Err(Refusal::NoSuchRow),
        ],
    );
    Ok(())
}

// Three rows are pulled in another order than they stand. The sweep, which finds none in place, removes none.
#[test]
fn puts_back_what_is_out(rt: HostRuntime) -> Result<(), Fail> {
    let calls = [
        Call::Cover(3),
        Call::Cover(4),
        Call::Cover(5),
        Call::Pull(2),
        Call::Pull(3),
        Call::Pull(1),
        Call::Sweep,
        Call::PutBack(3),
        Call::PutBack(3),
        Call::Cover(3),
    ];
    let done = run(rt.alloc(), detection(rt.alloc())?, &calls, &[])?;
    listed(&rt, &done.sheet, b"1 00\n2 01\n3 10\n")?;
    answered(
        &rt,
        &done.answers,
        &[
            Ok(Reply::Gave(1)),
            Ok(Reply::Gave(2)),
            Ok(Reply::Gave(3)),
            Ok(Reply::Gave(2)),
            Ok(Reply::Gave(3)),
            Ok(Reply::Gave(1)),
            Ok(Reply::Removed(0)),
            Ok(Reply::Done),
            Err(Refusal::NotOut),
            Ok(Reply::Already),
        ],
    );
    Ok(())
}
