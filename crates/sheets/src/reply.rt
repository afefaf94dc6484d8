// What an accepted call answers.
use crate::row::Serial;

// The answer of any call.
#[derive(Clone, Copy, Debug, PartialEq, Eq)]
pub enum Reply {
    // The serial of a row that was entered or pulled.
    Gave(Serial),
    // A duty is covered by a row in place already.
    Already,
    // So many rows were removed.
    Removed(u16),
    // Nothing but that it is done.
    Done,
}
