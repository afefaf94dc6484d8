// Why a claim is refused. Places in the list count from 0.
#[derive(Clone, Copy, Debug, PartialEq, Eq)]
pub enum ClaimRefusal {
    // The list has more than 256 entries.
    TooMany,
    // The goal has no such duty.
    NoSuchDuty { place: u16 },
    // The duty is named at an earlier place too.
    NamedBefore { place: u16 },
    // The duty is not wanted.
    NotWanted { place: u16 },
    // No vector covers the duty.
    NotCoverable { place: u16 },
    // One vector covers the duties at both places: the earliest later place, and its earliest partner before it.
    CoveredTogether { earlier: u16, later: u16 },
}
