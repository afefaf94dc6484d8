// A row of the sheet.
ghost use Rattle.std.specs.Prelude.{◌≡◌};
ghost use Rattle.sheets.specs.Sheets.{row_in};

use cubes::cube::Cube;
use cubes::mask::Mask;

// What a row is known by. Serials rise by one from 1, and none is used again.
pub type Serial = u16;

// A row holds plain masks, and a cube is made from them after a check. It is in place, or out.
#[derive(Clone, Copy, Debug)]
pub struct Row {
    pub serial: Serial,
    pub zeros: Mask,
    pub ones: Mask,
    pub out: bool,
}

impl Row {
    // A row in place.
    pub(crate) fn of(serial: Serial, cube: Cube) -> Row
        ensures { result ≡ row_in serial cube }
    {
        Row {
            serial,
            zeros: cube.zeros(),
            ones: cube.ones(),
            out: false,
        }
    }
}
