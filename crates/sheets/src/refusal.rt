// Why a call of the sheet is refused.
#[derive(Clone, Copy, Debug, PartialEq, Eq)]
pub enum Refusal {
    // An input at or above the goal's is known.
    InputAbove,
    // There are 256 rows.
    SheetFull,
    // Serial 65,535 has been given.
    SerialsSpent,
    // No row has the serial.
    NoSuchRow,
    // The row is out.
    RowOut,
    // The slip's serial is not a row that is out.
    NotOut,
    // This wanted duty, the smallest such, would be covered by no row in place.
    DutyLeftBare(u32),
    // The serials are equal, or an input is 0 in one row and 1 in the other.
    NotJoinable,
    // The goal has no such duty.
    NoSuchDuty,
    // The duty is not wanted.
    NotWanted,
    // No vector covers the duty.
    NotCoverable,
}
