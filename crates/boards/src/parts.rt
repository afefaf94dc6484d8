// The plain parts of a card: the values of a line, the kinds of gates, faults, and the classes of records.
ghost use Rattle.std.specs.Prelude.{◌≡◌};
ghost use Rattle.std.specs.Result.{result_ok};
ghost use Rattle.boards.specs.Records.{class, kind_of};

// What is known of a line. Unknown stands first: it is what a line that is not there would have.
#[derive(Clone, Copy, Debug, PartialEq, Eq)]
pub enum Value {
    Unknown,
    Zero,
    One,
}

#[derive(Clone, Copy, Debug, PartialEq, Eq)]
pub enum Kind {
    And,
    Or,
    Nand,
    Nor,
    Xor,
    Xnor,
    Not,
    Buf,
}

// A byte that is of no kind of gate.
#[derive(Clone, Copy, Debug, PartialEq, Eq)]
pub struct UnknownKind;

impl TryFrom<u8> for Kind {
    type Error = UnknownKind;

    ghost try_from_gives = { λ byte r. result_ok r ≡ kind_of byte };

    fn try_from(byte: u8) -> Result<Kind, UnknownKind> {
        match byte {
            1 => Ok(Kind::And),
            2 => Ok(Kind::Or),
            3 => Ok(Kind::Nand),
            4 => Ok(Kind::Nor),
            5 => Ok(Kind::Xor),
            6 => Ok(Kind::Xnor),
            7 => Ok(Kind::Not),
            8 => Ok(Kind::Buf),
            _ => Err(UnknownKind),
        }
    }
}

// A line that is stuck at 1, or else at 0.
#[derive(Clone, Copy, Debug, PartialEq, Eq)]
pub struct Fault {
    pub line: u16,
    pub stuck: bool,
}

// What a record of a board file describes. A file has them in this order.
#[derive(Clone, Copy, Debug, PartialEq, Eq)]
pub enum Class {
    Input,
    Gate,
    Output,
    Fault,
}

// A byte that marks no class of records.
#[derive(Clone, Copy, Debug, PartialEq, Eq)]
pub struct UnknownMark;

impl TryFrom<u8> for Class {
    type Error = UnknownMark;

    ghost try_from_gives = { λ mark r. result_ok r ≡ class mark };

    fn try_from(mark: u8) -> Result<Class, UnknownMark> {
        match mark {
            0x49 => Ok(Class::Input),
            0x47 => Ok(Class::Gate),
            0x4F => Ok(Class::Output),
            0x46 => Ok(Class::Fault),
            _ => Err(UnknownMark),
        }
    }
}

// How many records of each class were read.
#[derive(Clone, Copy, Debug, Default, PartialEq, Eq)]
pub struct Seen {
    pub inputs: u16,
    pub gates: u16,
    pub outputs: u16,
    pub faults: u16,
}
