// Printing what a library call wrote into lent text.
use boards::refusal::Unread;
use goals::goal::Goal;
use sheets::sheet::Sheet;
use std::io;
use std::io::Write;

// The longest line: `refused`, a digit, a number of at most 20 digits, two blanks and a line feed.
const REFUSED_LINE: usize = 32;

// Prints the line for a refused board.
pub fn say_refused(rt: &HostRuntime, unread: Unread) -> io::Result<()> {
    let mut text = [0u8; REFUSED_LINE];
    match unread.write_line(&mut text) {
        Ok(length) => rt.stdout().write_all(&text[0..length]),
        // This cannot be: the text is as long as the longest line.
        Err(_) => Ok(()),
    }
}

// The longest listing: 256 rows of a serial of 5 digits, a blank, 16 letters and a line feed.
const LISTING: usize = 5888;

// Prints the listing of a sheet.
pub fn say_listing<G: Goal>(rt: &HostRuntime, sheet: &Sheet<G>) -> io::Result<()> {
    let mut listing = vec![in rt.alloc(); 0u8; LISTING]?;
    match sheet.list(listing.as_mut_slice()) {
        Ok(length) => rt.stdout().write_all(&listing[0..length]),
        // This cannot be: the text is as long as the longest listing.
        Err(_) => Ok(()),
    }
}
