// Program `classes`: reads a board file from standard input and prints, for each machine, its number, its label
// (the smallest machine that no vector tells from it) and the letters of the smallest vector that tells it from
// the good card, or `-` where none does. For a refused board it prints the line that says so.
#![tactic(auto)]

use boards::board::Board;
use console::input::read_input;
use console::saying::say_refused;
use findings::report::report;

fn main(rt: HostRuntime) -> anyhow::Result<()> {
    let heap = rt.alloc();
    let bytes = read_input(&rt)?;
    let mut board = Board::new(heap)?;
    match board.read(&bytes) {
        Ok(()) => rt.print(report(heap, &board)?)?,
        Err(unread) => say_refused(&rt, unread)?,
    }
    Ok(())
}
