// The listing: a line for each row in place, written into lent text.
ghost use Rattle.std.specs.Prelude.{◌≡◌, ℕ, ◌+◌, ◌<◌, ◌≤◌, length};
ghost use Rattle.texts.specs.Texts.{placed, Lent};
ghost use Rattle.sheets.specs.Listing.{row_line, row_letters, lines, listing};

use crate::row::Row;
use crate::sheet::Sheet;
use cubes::letters::letter_of;
use goals::goal::Goal;
use texts::decimal::{decimal_length, put_decimal};
use texts::short::TextTooShort;
use texts::writing::put;

// The line of a row: its serial, and the letters of so many inputs.
#[derive(Clone, Copy)]
struct Line<'a> {
    row: &'a Row,
    inputs: u8,
}

impl Line<'_> {
    // How long the line is.
    #[tactic(auto, using(crate::proofs::Lines::length_line, texts::proofs::Placing::decimal_length_le))]
    fn length(&self) -> usize
        ensures value { result ≡ length (row_line self.now.inputs self.now.row.now) }
        ensures few { result ≤ 300 }
    {
        decimal_length(self.row.serial as u64) + 2 + self.inputs as usize
    }

    // Writes the letters from a place on. The text is lent, so the line is written in pieces, and no Display writes it.
    #[tactic(auto, using(crate::proofs::Lines::letters_more))]
    fn put_letters(&self, text: &mut [u8], at: usize)
        requires { at + self.now.inputs < length text.old }
        ensures { text.new ≡ placed text.old at (row_letters self.now.inputs self.now.row.now) }
    {
        for input in 0..self.inputs {
            put(
                text,
                at + input as usize,
                letter_of(self.row.zeros, self.row.ones, input),
            );
        }
    }

    // Writes the line from a place on.
    #[tactic(auto, using(crate::proofs::Lines::length_line, crate::proofs::Lines::line_written))]
    fn put(&self, text: &mut [u8], at: usize)
        requires { at + length (row_line self.now.inputs self.now.row.now) ≤ length text.old }
        ensures { text.new ≡ placed text.old at (row_line self.now.inputs self.now.row.now) }
    {
        let serial = self.row.serial as u64;
        let blank = at + decimal_length(serial);
        let end = blank + 1 + self.inputs as usize;
        put_decimal(text, at, serial);
        put(text, blank, b' ');
        self.put_letters(text, blank + 1);
        put(text, end, b'\n');
    }
}

// How long the lines of the rows in place are.
fn lines_length(rows: &[Row], inputs: u8) -> usize
    requires { length rows.now ≤ 256 }
    ensures { result ≡ length (lines inputs rows.now) }
{
    rows.iter()
        .filter(|row| !row.out)
        .map(|row| Line { row, inputs }.length())
        .sum()
}

// Writes the lines of the rows in place from the start, each at the place where the one before it ends in the lent text.
fn put_lines(rows: &[Row], inputs: u8, text: &mut [u8])
    requires { length (lines inputs rows.now) ≤ length text.old }
    ensures { text.new ≡ placed text.old 0 (lines inputs rows.now) }
{
    let mut at = 0;
    for row in rows {
        if !row.out {
            let line = Line { row, inputs };
            line.put(text, at);
            at += line.length();
        }
    }
}

impl<G: Goal> Sheet<G> {
    // Writes each row in place from the start of a lent text, and answers the length; the rest of the text stays, and
    // nothing is written where it is too short.
    #[tactic(auto, using(texts::proofs::Placing::placed_start))]
    pub fn list(&self, text: &mut [u8]) -> Result<usize, TextTooShort>
        ensures { Lent (listing (G.means self.now.goal) self.now.rows.items) text.old text.new result }
    {
        let inputs = self.goal.inputs();
        let length = lines_length(self.rows.as_slice(), inputs);
        if text.len() < length {
            return Err(TextTooShort);
        }
        put_lines(self.rows.as_slice(), inputs, text);
        Ok(length)
    }
}
