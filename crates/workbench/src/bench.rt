// Making the calls of a script and printing what they answered.
use boards::board::Board;
use console::saying::say_listing;
use goals::detection::Detection;
use goals::distinction::Distinction;
use goals::excused::Excused;
use goals::goal::Goal;
use goals::joined::Joined;
use runs::running::run;
use scripts::kind::Kind;
use scripts::script::Script;
use scripts::telling::{answer_line, claim_line, excuse_line};
use std::rc::Rc;

// Works for the goal of this kind over the board; where there are two goals, they share it. No contract can say what is printed:
// each line is made by a call that has one.
pub(crate) fn work(
    rt: &HostRuntime,
    board: Board,
    kind: Kind,
    script: &Script,
) -> anyhow::Result<()> {
    let heap = rt.alloc();
    match kind {
        Kind::Detect => work_for(rt, Detection::new(board), script),
        Kind::Tell => work_for(rt, Distinction::new(board), script),
        Kind::Both => {
            let first = Rc::new(heap, board)?;
            let second = first.clone()?;
            work_for(
                rt,
                Joined::new(Detection::new(first), Distinction::new(second)),
                script,
            )
        }
    }
}

// Excuses the duties, makes the calls, checks the claim where there is one, and prints each answer and the listing.
fn work_for<G: Goal + Drop>(rt: &HostRuntime, goal: G, script: &Script) -> anyhow::Result<()> {
    let heap = rt.alloc();
    let mut goal = Excused::new(heap, goal)?;
    for duty in &script.excused {
        let answer = goal.excuse(*duty);
        rt.println(excuse_line(heap, answer)?)?;
    }
    // No claim is like a claim of nothing, but no line says what became of it.
    let claimed = match &script.claimed {
        Some(duties) => duties.as_slice(),
        None => &[],
    };
    let finished = run(heap, goal, script.calls.as_slice(), claimed)?;
    for answer in &finished.answers {
        rt.println(answer_line(heap, *answer)?)?;
    }
    if script.claimed.is_some() {
        rt.println(claim_line(heap, finished.verdict)?)?;
    }
    rt.println("")?;
    say_listing(rt, &finished.sheet)?;
    Ok(())
}
