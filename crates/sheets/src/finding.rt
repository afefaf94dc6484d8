// Where the row of a serial stands.
ghost use Rattle.sheets.specs.Places.{Found, FoundOut};

use crate::refusal::Refusal;
use crate::row::Serial;
use crate::sheet::Sheet;

impl<G> Sheet<G> {
    pub(crate) fn place_of(&self, serial: Serial) -> Option<usize>
        ensures { Found self.now.rows.items serial result }
    {
        self.rows.iter().position(|row| row.serial == serial)
    }

    // The place of a slip's row, which has to be out.
    pub(crate) fn place_out(&self, serial: Serial) -> Result<usize, Refusal>
        ensures { FoundOut self.now.rows.items serial result }
    {
        match self.place_of(serial) {
            Some(i) if self.rows[i].out => Ok(i),
            _ => Err(Refusal::NotOut),
        }
    }
}
