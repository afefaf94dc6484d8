// Simulating a card at a cube, with at most one line stuck: the value of every line, in line order.
ghost use Rattle.std.specs.Prelude.{◌≡◌, ◌+◌, ◌<◌};
ghost use Rattle.boards.specs.Cards.{lines, given, fault, held, by_itself, read, Simulated};
ghost use Rattle.boards.specs.Boards.{card_of};

use crate::board::Board;
use crate::gates::made_of;
use crate::parts::{Fault, Value};
use cubes::cube::Cube;

// What a cube says of an input.
fn input_value(cube: Cube, i: usize) -> Value
    requires { i < 16 }
    ensures { result ≡ given cube i }
{
    if cube.zeros() >> i & 1 == 1 {
        Value::Zero
    } else if cube.ones() >> i & 1 == 1 {
        Value::One
    } else {
        Value::Unknown
    }
}

// The value of line k: at which it is stuck, or else the one that it would have.
fn held_value(fault: Option<Fault>, k: usize, free: Value) -> Value
    ensures { result ≡ held fault k free }
{
    match fault {
        Some(f) if f.line as usize == k => { if f.stuck { Value::One } else { Value::Zero } }
        _ => free,
    }
}

impl Board {
    // How many lines there are.
    pub(crate) fn lines(&self) -> usize
        ensures { result ≡ lines (card_of self.now) }
    {
        self.inputs as usize + self.gates.len()
    }

    // The fault of a machine; machine 0 has none.
    fn fault_of(&self, machine: u16) -> Option<Fault>
        ensures { result ≡ fault (card_of self.now) machine }
    {
        self.faults.get((machine as usize).checked_sub(1)?).copied()
    }

    // What line k has by itself, from the values of the lines before it.
    fn own_value(&self, k: usize, cube: Cube, values: &[Value; 512]) -> Value
        requires { k < lines (card_of self.now) }
        ensures { result ≡ by_itself (card_of self.now) cube (read values.now) k }
    {
        let inputs = self.inputs as usize;
        if k < inputs {
            return input_value(cube, k);
        }
        made_of(&self.gates[k - inputs], values)
    }

    // The value of every line of a machine at a cube; nothing is known past the last line.
    pub fn simulate(&self, machine: u16, cube: Cube) -> [Value; 512]
        ensures { Simulated (card_of self.now) machine cube result }
    {
        let fault = self.fault_of(machine);
        let mut values = [Value::Unknown; 512];
        // An index, since the lines are filled in line order, each from those before it.
        for k in 0..self.lines() {
            let free = self.own_value(k, cube, &values);
            values[k] = held_value(fault, k, free);
        }
        values
    }
}
