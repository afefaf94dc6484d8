// Reading a board file, in two passes: the first only looks, so that a refusal changes nothing; the second fills.
ghost use Rattle.std.specs.Prelude.{◌≡◌, ◌+◌, ◌<◌, true, [], ◌∷◌, ◌++◌, length, take, None};
ghost use Rattle.boards.specs.Cards.{card, lines, pins_fit};
ghost use Rattle.boards.specs.Boards.{card_of, no_card};
ghost use Rattle.boards.specs.Records.{all_below, trouble, counts};
ghost use Rattle.boards.specs.Scanning.{with_record, with_gate, Checked};
ghost use Rattle.boards.specs.Reading.{Read};

use crate::board::Board;
use crate::gate::StoredGate;
use crate::parted::Record;
use crate::parts::{Class, Fault, Kind, Seen};
use crate::refusal::Unread;

// Looks through a whole file for the first bad record.
fn check_all(bytes: &[u8]) -> Result<(), Unread>
    ensures { Checked bytes.now result }
{
    let (records, left) = bytes.as_chunks::<16>();
    if !left.is_empty() {
        return Err(Unread::NotWhole(records.len()));
    }
    let mut seen = Seen::default();
    for (r, record) in records.iter().enumerate() {
        // By `if let`, since the closure of a `map_err` would borrow the place that the loop counts.
        if let Err(t) = seen.admit(record) {
            return Err(Unread::Bad(t, r));
        }
    }
    Ok(())
}

impl Board {
    // The board of an empty file, with the memory that it has.
    fn clear(&mut self)
        ensures { card_of self.new ≡ no_card }
    {
        self.faults.clear();
        self.outputs.clear();
        self.gates.clear();
        self.inputs = 0;
    }

    fn add_input(&mut self)
        requires few { self.old.inputs < 16 }
        requires first { length self.old.gates.items ≡ 0 }
        ensures { card_of self.new ≡ card (self.old.inputs + 1) (card_of self.old).gates (card_of self.old).outputs (card_of self.old).faults }
    {
        self.inputs += 1;
    }

    fn add_gate(&mut self, kind: Kind, count: u16, pins: [u16; 6])
        requires few { lines (card_of self.old) < 512 }
        requires fits { pins_fit kind count ≡ true }
        requires earlier { all_below (lines (card_of self.old)) (take count pins) ≡ true }
        ensures { card_of self.new ≡ with_gate (card_of self.old) kind (take count pins) }
    {
        self.gates.push_reserved(StoredGate {
            kind,
            count,
            lines: pins,
        });
    }

    fn add_output(&mut self, line: u16)
        requires few { length self.old.outputs.items < 32 }
        requires exists { line < lines (card_of self.old) }
        ensures { card_of self.new ≡ card self.old.inputs (card_of self.old).gates ((card_of self.old).outputs ++ (line ∷ [])) (card_of self.old).faults }
    {
        self.outputs.push_reserved(line);
    }

    fn add_fault(&mut self, fault: Fault)
        requires few { length self.old.faults.items < 255 }
        requires exists { fault.line < lines (card_of self.old) }
        ensures { card_of self.new ≡ card self.old.inputs (card_of self.old).gates (card_of self.old).outputs ((card_of self.old).faults ++ (fault ∷ [])) }
    {
        self.faults.push_reserved(fault);
    }

    // Adds what a good record describes. Such a record always comes apart, and its kind is known: there is nothing to refuse with.
    fn add(&mut self, bytes: &[u8; 16])
        requires { trouble (counts (card_of self.old)) bytes.now ≡ None }
        ensures { card_of self.new ≡ with_record (card_of self.old) bytes.now }
    {
        let Ok(record) = Record::parted(bytes) else {
            return;
        };
        match record.class {
            Class::Input => self.add_input(),
            Class::Gate => {
                let Ok(kind) = Kind::try_from(record.field) else {
                    return;
                };
                self.add_gate(kind, record.word, record.pins())
            }
            Class::Output => self.add_output(record.word),
            Class::Fault => self.add_fault(Fault {
                line: record.word,
                stuck: record.field == 1,
            }),
        }
    }

    // Replaces what the board held by the card of this file; where it is no file of a card, nothing changes.
    pub fn read(&mut self, bytes: &[u8]) -> Result<(), Unread>
        ensures { Read bytes.now (card_of self.old) (card_of self.new) result }
    {
        check_all(bytes)?;
        self.clear();
        let (records, _) = bytes.as_chunks::<16>();
        for record in records {
            self.add(record);
        }
        Ok(())
    }
}
