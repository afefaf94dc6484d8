// Why a file is no board.
ghost use Rattle.std.specs.Prelude.{◌≡◌};
ghost use Rattle.boards.specs.declared.refusal.Trouble.TheVariants.{Misplaced};

use crate::parts::UnknownMark;

// What is wrong with a record, in the order in which it is tested.
#[derive(Clone, Copy, Debug, PartialEq, Eq)]
pub enum Trouble {
    // Its mark is unknown, or belongs to a class that should have come earlier.
    Misplaced,
    // There are as many of its class already as a board can have.
    OneTooMany,
    // Its gate kind, pin count or stuck value is not one that there is.
    BadField,
    // It names a line that does not exist, or a gate reads a line that is not earlier.
    BadLine,
    // A byte that should be zero is not.
    NotZero,
}

impl From<UnknownMark> for Trouble {
    ghost from_gives = { λ _ trouble. trouble ≡ Misplaced };

    fn from(_mark: UnknownMark) -> Trouble {
        Trouble::Misplaced
    }
}

// The file is no row of whole records (with the number of whole ones), or a record is bad (with its number from 0).
#[derive(Clone, Copy, Debug, PartialEq, Eq)]
pub enum Unread {
    NotWhole(usize),
    Bad(Trouble, usize),
}
