// What a script asks, as values.
ghost use Rattle.std.specs.Prelude.{◌≡◌};
ghost use Rattle.scripts.specs.declared.script.Unreadable.TheVariants.{NoMemory};

use sheets::call::Call;
use std::alloc::AllocError;

// What one line asks. The duties of a claim stand in the line's words.
#[derive(Clone, Copy, Debug)]
pub enum Line {
    // Nothing: it is blank, or a remark.
    Nothing,
    Excuse(u32),
    Do(Call),
    Claim,
}

// The first word of a line.
#[derive(Clone, Copy, Debug, PartialEq, Eq)]
pub enum Verb {
    Excuse,
    Enter,
    Cover,
    Pull,
    Back,
    Strike,
    Exchange,
    Join,
    Sweep,
    Claim,
}

// The duties to excuse, then the calls, then the claim, where there is one.
#[derive(Drop)]
pub struct Script {
    pub excused: Vec<u32>,
    pub calls: Vec<Call>,
    pub claimed: Option<Vec<u32>>,
}

// Why there is no script: a line is not understood, lines counted from 1, or there is no memory.
#[derive(Clone, Copy, Debug, PartialEq, Eq)]
pub enum Unreadable {
    NotUnderstood { line: usize },
    NoMemory,
}

impl From<AllocError> for Unreadable {
    ghost from_gives = { λ _ unreadable. unreadable ≡ NoMemory };

    fn from(_error: AllocError) -> Unreadable {
        Unreadable::NoMemory
    }
}
