// Program firstsheet: reads a board file from standard input, covers each duty of detection in order, sweeps, and prints
// the listing: the serial and the letters of each row in place. For a refused board it prints the line that says so.
#![tactic(auto)]

use boards::board::Board;
use console::input::read_input;
use console::saying::{say_listing, say_refused};
use goals::detection::Detection;
use runs::first::first_sheet;

fn main(rt: HostRuntime) -> anyhow::Result<()> {
    let heap = rt.alloc();
    let bytes = read_input(&rt)?;
    let mut board = Board::new(heap)?;
    match board.read(&bytes) {
        Ok(()) => say_listing(&rt, &first_sheet(heap, Detection::new(board))?.sheet)?,
        Err(unread) => say_refused(&rt, unread)?,
    }
    Ok(())
}
