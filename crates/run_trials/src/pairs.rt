// Distinction on the AND gate, alone and joined to detection on the same board.
use crate::answers::listed;
use crate::boards_read::and_gate;
use boards::board::Board;
use cubes::cube::Cube;
use devices::device::Device;
use goals::covering::smallest_covering;
use goals::detection::Detection;
use goals::distinction::Distinction;
use goals::goal::Goal;
use goals::joined::Joined;
use runs::first::first_sheet;
use runs::running::run;
use std::alloc::Global;
use std::rc::Rc;
use std::test::Fail;

// Duty 0 is the pair (1, 2), and duty 14 is (5, 6).
#[test]
fn are_fifteen(rt: HostRuntime) -> Result<(), Fail> {
    let goal = Distinction::new(and_gate(rt.alloc())?);
    assert_eq!(rt; goal.duties(), 15);
    assert_eq!(rt; smallest_covering(&goal, 0), None);
    assert_eq!(rt; smallest_covering(&goal, 3), Some(2));
    assert_eq!(rt; smallest_covering(&goal, 14), Some(1));
    assert_eq!(rt; smallest_covering(&goal, 15), None);
    assert!(rt; goal.wanted(14));
    assert!(rt; !goal.wanted(15));
    Ok(())
}

// Input 1 alone is 1: machine 5 then answers 1, and machine 6 nothing.
#[test]
fn are_told_by_a_cube(rt: HostRuntime) -> Result<(), Fail> {
    let goal = Distinction::new(and_gate(rt.alloc())?);
    let cube = Cube::from_masks(0, 2)?;
    assert!(rt; goal.covers(cube, 3));
    assert!(rt; !goal.covers(cube, 4));
    Ok(())
}

// At 11 machines 1, 2 and 3 answer 0, the others 1.
#[test]
fn are_marked(rt: HostRuntime) -> Result<(), Fail> {
    let goal = Distinction::new(and_gate(rt.alloc())?);
    let mut marks = [true; 17];
    goal.mark(Cube::from_masks(0, 3)?, &mut marks);
    assert_eq!(rt;
        marks,
        [
            false, false, true, true, true, false, true, true, true, true, true, true, false,
            false, false, false, false,
        ]
    );
    Ok(())
}

fn both(heap: Global) -> Result<Joined<Detection<Rc<Board>>, Distinction<Rc<Board>>>, Fail> {
    let board = Rc::new(heap, and_gate(heap)?)?;
    let same = board.clone()?;
    Ok(Joined::new(Detection::new(board), Distinction::new(same)))
}

#[test]
fn come_after_faults(rt: HostRuntime) -> Result<(), Fail> {
    let goal = both(rt.alloc())?;
    assert_eq!(rt; goal.inputs(), 2);
    assert_eq!(rt; goal.duties(), 21);
    assert_eq!(rt; smallest_covering(&goal, 5), Some(1));
    assert_eq!(rt; smallest_covering(&goal, 6), None);
    assert_eq!(rt; smallest_covering(&goal, 9), Some(2));
    assert_eq!(rt; smallest_covering(&goal, 20), Some(1));
    assert!(rt; !goal.wanted(21));
    Ok(())
}

#[test]
fn need_no_row_more(rt: HostRuntime) -> Result<(), Fail> {
    let done = first_sheet(rt.alloc(), both(rt.alloc())?)?;
    listed(&rt, &done.sheet, b"1 11\n3 01\n4 10\n")?;
    let done = run(rt.alloc(), both(rt.alloc())?, &[], &[0, 4, 5])?;
    assert_eq!(rt; done.verdict, Ok(3));
    Ok(())
}
