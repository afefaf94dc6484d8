// A goal without wanted duties: detection with all six duties excused.
use crate::answers::{answered, listed};
use crate::boards_read::detection;
use boards::board::Board;
use cubes::cube::Cube;
use goals::detection::Detection;
use goals::excused::Excused;
use runs::running::run;
use sheets::call::Call;
use sheets::refusal::Refusal;
use sheets::reply::Reply;
use std::alloc::Global;
use std::test::Fail;

fn none_wanted(heap: Global) -> Result<Excused<Detection<Board>>, Fail> {
    let mut goal = Excused::new(heap, detection(heap)?)?;
    for duty in 0..6u32 {
        goal.excuse(duty)?;
    }
    Ok(goal)
}

// Row 2 is out when the others are swept.
#[test]
fn needs_no_row(rt: HostRuntime) -> Result<(), Fail> {
    let calls = [
        Call::Enter(Cube::from_masks(0, 3)?),
        Call::Enter(Cube::from_masks(1, 2)?),
        Call::Enter(Cube::from_masks(2, 1)?),
        Call::Cover(0),
        Call::Pull(2),
        Call::Sweep,
    ];
    let done = run(rt.alloc(), none_wanted(rt.alloc())?, &calls, &[])?;
    listed(&rt, &done.sheet, b"2 01\n")?;
    assert_eq!(rt; done.verdict, Ok(0));
    answered(
        &rt,
        &done.answers,
        &[
            Ok(Reply::Gave(1)),
            Ok(Reply::Gave(2)),
            Ok(Reply::Gave(3)),
            Err(Refusal::NotWanted),
            Ok(Reply::Gave(2)),
            Ok(Reply::Removed(2)),
        ],
    );
    Ok(())
}

#[test]
fn strikes_any_row(rt: HostRuntime) -> Result<(), Fail> {
    let calls = [
        Call::Enter(Cube::from_masks(0, 3)?),
        Call::Pull(1),
        Call::Strike(1),
        Call::Sweep,
    ];
    let done = run(rt.alloc(), none_wanted(rt.alloc())?, &calls, &[])?;
    listed(&rt, &done.sheet, b"")?;
    answered(
        &rt,
        &done.answers,
        &[
            Ok(Reply::Gave(1)),
            Ok(Reply::Gave(1)),
            Ok(Reply::Done),
            Ok(Reply::Removed(0)),
        ],
    );
    Ok(())
}
