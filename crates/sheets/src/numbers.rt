// The numbers by which the shop knows refusals and answers. They are given by the shop and have gaps, so each is written out
// here and no conversion makes it.
ghost use Rattle.std.specs.Prelude.{◌≡◌};
ghost use Rattle.sheets.specs.Sheets.{number, answer_number};

use crate::refusal::Refusal;
use crate::reply::Reply;

impl Refusal {
    pub fn number(&self) -> u16
        ensures { result ≡ number self.now }
    {
        match self {
            Refusal::InputAbove => 21,
            Refusal::SheetFull => 22,
            Refusal::SerialsSpent => 23,
            Refusal::NoSuchRow => 24,
            Refusal::RowOut => 25,
            Refusal::NotOut => 26,
            Refusal::DutyLeftBare(_) => 27,
            Refusal::NotJoinable => 28,
            Refusal::NoSuchDuty => 29,
            Refusal::NotWanted => 31,
            Refusal::NotCoverable => 32,
        }
    }
}

impl Reply {
    // A serial, 0 for a duty that is covered already, or the count of a sweep; none where nothing is answered.
    pub fn number(&self) -> Option<u16>
        ensures { result ≡ answer_number self.now }
    {
        match self {
            Reply::Gave(serial) => Some(*serial),
            Reply::Already => Some(0),
            Reply::Removed(count) => Some(*count),
            Reply::Done => None,
        }
    }
}
