// One record of a board file: 16 bytes, taken apart and tested. Reading asks here, once for each record.
ghost use Rattle.std.specs.Prelude.{◌≡◌, take, drop};
ghost use Rattle.std.specs.Result.{result_err};
ghost use Rattle.boards.specs.Cards.{pins_fit};
ghost use Rattle.boards.specs.Records.{word as word_from, words, zeros, all_below, lines_seen, in_order, has_room, field_fits, lines_exist, rest_zero, trouble_in, Admitted};
ghost use Rattle.boards.specs.Parted.{Parted};

use crate::parted::Record;
use crate::parts::{Class, Kind, Seen, UnknownMark};
use crate::refusal::Trouble;

// A field of two bytes, the low byte first.
fn word_of(lo: u8, hi: u8) -> u16
    ensures { result ≡ word_from lo hi }
{
    u16::from_le_bytes([lo, hi])
}

// Whether a gate of this kind can have so many pins.
fn pins_fit(kind: Kind, count: u16) -> bool
    ensures { result ≡ pins_fit kind count }
{
    match kind {
        Kind::Not | Kind::Buf => count == 1,
        _ => (2 <= count) & (count <= 6),
    }
}

impl Record<'_> {
    // Takes a record apart. It has a name and is no TryFrom, since a record is no other form of its bytes but borrows them.
    pub(crate) fn parted(bytes: &[u8; 16]) -> Result<Record<'_>, UnknownMark>
        ensures { Parted bytes.now result }
    {
        // The pattern is on a slice since one on an array, which could not fail, gets no proof.
        let [mark, field, lo, hi, rest @ ..] = bytes.as_slice() else {
            unreachable!();
        };
        let class = Class::try_from(*mark)?;
        Ok(Record {
            class,
            field: *field,
            word: word_of(*lo, *hi),
            rest,
        })
    }

    // The lines of its six places for pins.
    pub(crate) fn pins(&self) -> [u16; 6]
        ensures { result ≡ words self.now.rest.now }
    {
        let rest = self.rest;
        [
            word_of(rest[0], rest[1]),
            word_of(rest[2], rest[3]),
            word_of(rest[4], rest[5]),
            word_of(rest[6], rest[7]),
            word_of(rest[8], rest[9]),
            word_of(rest[10], rest[11]),
        ]
    }

    // Whether gate kind and pin count, or stuck value, are ones that there are.
    fn field_fits(&self) -> bool
        ensures { result ≡ field_fits self.now.class self.now.field self.now.word }
    {
        match self.class {
            Class::Input => true,
            // By `match`: with `is_ok_and`, tried, the promise stayed open.
            Class::Gate => match Kind::try_from(self.field) {
                Ok(kind) => pins_fit(kind, self.word),
                Err(_) => false,
            },
            Class::Output => true,
            Class::Fault => self.field <= 1,
        }
    }

    // Whether the lines of its pins are among the first ones, so many.
    fn pins_below(&self, lines: u32) -> bool
        ensures { result ≡ all_below lines (take self.now.word (words self.now.rest.now)) }
    {
        let pins = self.pins();
        pins.iter()
            .take(self.word as usize)
            .all(|pin| u32::from(*pin) < lines)
    }

    // Whether the lines that it names exist already.
    fn lines_exist(&self, seen: &Seen) -> bool
        ensures { result ≡ lines_exist seen.now self.now.class self.now.word self.now.rest.now }
    {
        let lines = seen.lines();
        match self.class {
            Class::Input => true,
            Class::Gate => self.pins_below(lines),
            Class::Output => u32::from(self.word) < lines,
            Class::Fault => u32::from(self.word) < lines,
        }
    }

    // Whether the rest is zero from a place on.
    fn zero_from(&self, from: usize) -> bool
        ensures { result ≡ zeros (drop from self.now.rest.now) }
    {
        let rest = self.rest;
        rest.iter().skip(from).all(|byte| *byte == 0)
    }

    // Whether the bytes that say nothing are zero.
    fn rest_zero(&self) -> bool
        ensures { result ≡ rest_zero self.now.class self.now.field self.now.word self.now.rest.now }
    {
        match self.class {
            Class::Input => (self.field == 0) & ((self.word == 0) & self.zero_from(0)),
            Class::Gate => self.zero_from(2 * self.word as usize),
            Class::Output => (self.field == 0) & self.zero_from(0),
            Class::Fault => self.zero_from(0),
        }
    }
}

impl Seen {
    // How many lines the records make.
    fn lines(&self) -> u32
        ensures { result ≡ lines_seen self.now }
    {
        u32::from(self.inputs) + u32::from(self.gates)
    }

    // Whether no record of a later class was seen.
    fn in_order(&self, class: Class) -> bool
        ensures { result ≡ in_order self.now class }
    {
        match class {
            Class::Input => (self.gates == 0) & ((self.outputs == 0) & (self.faults == 0)),
            Class::Gate => (self.outputs == 0) & (self.faults == 0),
            Class::Output => self.faults == 0,
            Class::Fault => true,
        }
    }

    // Whether a board can have one more of the class.
    fn has_room(&self, class: Class) -> bool
        ensures { result ≡ has_room self.now class }
    {
        match class {
            Class::Input => self.inputs < 16,
            Class::Gate => self.lines() < 512,
            Class::Output => self.outputs < 32,
            Class::Fault => self.faults < 255,
        }
    }

    // Refuses a record with the first test that it does not pass.
    fn test(&self, next: &Record) -> Result<(), Trouble>
        ensures { result_err result ≡ trouble_in next.now.class self.now next.now.field next.now.word next.now.rest.now }
    {
        if !self.in_order(next.class) {
            return Err(Trouble::Misplaced);
        }
        if !self.has_room(next.class) {
            return Err(Trouble::OneTooMany);
        }
        if !next.field_fits() {
            return Err(Trouble::BadField);
        }
        if !next.lines_exist(self) {
            return Err(Trouble::BadLine);
        }
        if !next.rest_zero() {
            return Err(Trouble::NotZero);
        }
        Ok(())
    }

    // Counts one record more, where nothing is wrong with it.
    pub(crate) fn admit(&mut self, bytes: &[u8; 16]) -> Result<(), Trouble>
        ensures { Admitted self.old bytes.now self.new result }
    {
        let record = Record::parted(bytes)?;
        self.test(&record)?;
        match record.class {
            Class::Input => self.inputs += 1,
            Class::Gate => self.gates += 1,
            Class::Output => self.outputs += 1,
            Class::Fault => self.faults += 1,
        }
        Ok(())
    }
}
