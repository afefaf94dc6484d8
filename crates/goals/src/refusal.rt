// Why a duty is not excused.
#[derive(Clone, Copy, Debug, PartialEq, Eq)]
pub enum NotExcused {
    // There is no such duty.
    NoSuchDuty,
    // As many others are excused already as may be.
    TooMany,
}
