// The receipt for a pulled row.
ghost use Rattle.std.specs.Prelude.{◌≡◌};

use crate::row::Serial;

// It is not Drop, so that it has to be handed in to put back, strike or exchange: letting it go, or handing it in
// twice, does not compile.
pub struct Slip {
    pub(crate) serial: Serial,
}

impl Slip {
    // The serial of the row that was pulled.
    pub fn serial(&self) -> Serial
        ensures { result ≡ self.now.serial }
    {
        self.serial
    }
}
