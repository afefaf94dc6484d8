// What gates make of the values at their pins. The simulation asks here, once for each gate.
ghost use Rattle.std.specs.Prelude.{◌≡◌, ◌<◌, true, map, length, All};
ghost use Rattle.std.specs.List.{fold};
ghost use Rattle.boards.specs.Values.{invert, and2, or2, xor2, only, gate, single};
ghost use Rattle.boards.specs.declared.parts.Value.TheVariants.{Zero, One};
ghost use Rattle.boards.specs.Cards.{read, pins_fit};
ghost use Rattle.boards.specs.Wiring.{gate_of};

use crate::gate::StoredGate;
use crate::parts::{Kind, Value};
use crate::pins::Pins;

// The opposite value.
fn inverse(v: Value) -> Value
    ensures { result ≡ invert v }
{
    match v {
        Value::Zero => Value::One,
        Value::One => Value::Zero,
        Value::Unknown => Value::Unknown,
    }
}

// One pin more of an AND.
fn and(a: Value, b: Value) -> Value
    ensures { result ≡ and2 a b }
{
    match (a, b) {
        (Value::Zero, _) | (_, Value::Zero) => Value::Zero,
        (Value::One, Value::One) => Value::One,
        _ => Value::Unknown,
    }
}

// One pin more of an OR.
fn or(a: Value, b: Value) -> Value
    ensures { result ≡ or2 a b }
{
    match (a, b) {
        (Value::One, _) | (_, Value::One) => Value::One,
        (Value::Zero, Value::Zero) => Value::Zero,
        _ => Value::Unknown,
    }
}

// One pin more of an XOR.
fn xor(a: Value, b: Value) -> Value
    ensures { result ≡ xor2 a b }
{
    match a {
        Value::Zero => b,
        Value::One => inverse(b),
        Value::Unknown => Value::Unknown,
    }
}

impl Pins<'_> {
    // What an AND of them makes. Each operation has its own chain: with the operation as a parameter, tried as a closure and as a
    // match before the fold, the contract stayed open.
    fn all(&self) -> Value
        ensures { result ≡ fold and2 One (map (read self.now.values.now) self.now.lines.now) }
    {
        let Pins { lines, values } = *self;
        lines
            .iter()
            .map(|pin| values[*pin as usize])
            .fold(Value::One, and)
    }

    // What an OR of them makes.
    fn any(&self) -> Value
        ensures { result ≡ fold or2 Zero (map (read self.now.values.now) self.now.lines.now) }
    {
        let Pins { lines, values } = *self;
        lines
            .iter()
            .map(|pin| values[*pin as usize])
            .fold(Value::Zero, or)
    }

    // What an XOR of them makes.
    fn odd(&self) -> Value
        ensures { result ≡ fold xor2 Zero (map (read self.now.values.now) self.now.lines.now) }
    {
        let Pins { lines, values } = *self;
        lines
            .iter()
            .map(|pin| values[*pin as usize])
            .fold(Value::Zero, xor)
    }

    // The value of the one pin.
    #[tactic(auto, using(crate::specs::Pins::only_first))]
    fn only(&self) -> Value
        requires { length self.now.lines.now ≡ 1 }
        ensures { result ≡ only (map (read self.now.values.now) self.now.lines.now) }
    {
        self.values[self.lines[0] as usize]
    }

    // What a gate of this kind makes of them.
    #[tactic(auto, using(crate::specs::Pins::conj_fold, crate::specs::Pins::disj_fold, crate::specs::Pins::parity_fold))]
    fn made(&self, kind: Kind) -> Value
        requires { single kind ≡ true → length self.now.lines.now ≡ 1 }
        ensures { result ≡ gate kind (map (read self.now.values.now) self.now.lines.now) }
    {
        match kind {
            Kind::And => self.all(),
            Kind::Or => self.any(),
            Kind::Nand => inverse(self.all()),
            Kind::Nor => inverse(self.any()),
            Kind::Xor => self.odd(),
            Kind::Xnor => inverse(self.odd()),
            Kind::Not => inverse(self.only()),
            Kind::Buf => self.only(),
        }
    }
}

// What a stored gate makes of its pins.
pub(crate) fn made_of(stored: &StoredGate, values: &[Value; 512]) -> Value
    requires count { pins_fit (gate_of stored.now).kind (length (gate_of stored.now).pins) ≡ true }
    requires inside { All (λ p. p < 512) (gate_of stored.now).pins }
    ensures { result ≡ gate (gate_of stored.now).kind (map (read values.now) (gate_of stored.now).pins) }
{
    let pins = Pins {
        lines: &stored.lines[..stored.count as usize],
        values,
    };
    pins.made(stored.kind)
}
