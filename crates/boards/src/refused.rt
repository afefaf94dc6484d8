// The line that a program prints for a refused board, and the numbers in it.
ghost use Rattle.std.specs.Prelude.{◌≡◌};
ghost use Rattle.texts.specs.Texts.{Lent};
ghost use Rattle.boards.specs.Refusing.{trouble_number, number as number_of, named, refused_line};

use crate::refusal::{Trouble, Unread};
use texts::decimal::{decimal_length, put_decimal};
use texts::short::TextTooShort;
use texts::writing::{put, put_all};

impl Trouble {
    // The number by which the shop knows what is wrong with a record.
    pub fn number(&self) -> u16
        ensures { result ≡ trouble_number self.now }
    {
        match self {
            Trouble::Misplaced => 2,
            Trouble::OneTooMany => 3,
            Trouble::BadField => 4,
            Trouble::BadLine => 5,
            Trouble::NotZero => 6,
        }
    }
}

impl Unread {
    // The number by which the shop knows the refusal.
    pub fn number(&self) -> u16
        ensures { result ≡ number_of self.now }
    {
        match self {
            Unread::NotWhole(_) => 1,
            Unread::Bad(trouble, _) => trouble.number(),
        }
    }

    // The record that is named: the bad one, or how many whole ones there are.
    pub fn record(&self) -> usize
        ensures { result ≡ named self.now }
    {
        match self {
            Unread::NotWhole(whole) => *whole,
            Unread::Bad(_, bad) => *bad,
        }
    }

    // Writes the line and its line feed from the start of a lent text, and answers its length; the rest of the
    // text stays, and nothing is written where it is too short.
    #[tactic(auto, using(texts::proofs::Placing::decimal_length_le))]
    pub fn write_line(&self, text: &mut [u8]) -> Result<usize, TextTooShort>
        ensures { Lent (refused_line self.now) text.old text.new result }
    {
        // Part by part and with its places counted, since the text is lent and nothing is written where it is too short.
        let number = self.number() as u64;
        let named = self.record() as u64;
        let blank = 8 + decimal_length(number);
        let end = blank + 1 + decimal_length(named);
        if text.len() < end + 1 {
            return Err(TextTooShort);
        }
        put_all(text, 0, b"refused ");
        put_decimal(text, 8, number);
        put(text, blank, b' ');
        put_decimal(text, blank + 1, named);
        put(text, end, b'\n');
        Ok(end + 1)
    }
}
