// Entering a cube as the last row.
ghost use Rattle.std.specs.Prelude.{◌≡◌};
ghost use Rattle.sheets.specs.Sheets.{state, told};
ghost use Rattle.sheets.specs.Entering.{enter, entry};
ghost use Rattle.sheets.specs.declared.reply.Reply.TheVariants.{Gave};

use crate::asking::is_above;
use crate::refusal::Refusal;
use crate::row::{Row, Serial};
use crate::sheet::Sheet;
use cubes::cube::Cube;
use goals::goal::Goal;

impl<G: Goal> Sheet<G> {
    // A cube of the goal's inputs as the last row, in place; answers its serial.
    pub(crate) fn add(&mut self, cube: Cube) -> Result<Serial, Refusal>
        ensures answer { told Gave result ≡ (entry (state self.old) cube).answer }
        ensures after { state self.new ≡ (entry (state self.old) cube).after }
        ensures same { self.new.goal ≡ self.old.goal }
    {
        if self.rows.len() >= 256 {
            return Err(Refusal::SheetFull);
        }
        let serial = self.given.checked_add(1).ok_or(Refusal::SerialsSpent)?;
        self.rows.push_reserved(Row::of(serial, cube));
        self.given = serial;
        Ok(serial)
    }

    pub fn enter(&mut self, cube: Cube) -> Result<Serial, Refusal>
        ensures answer { told Gave result ≡ (enter (G.means self.old.goal) (state self.old) cube).answer }
        ensures after { state self.new ≡ (enter (G.means self.old.goal) (state self.old) cube).after }
        ensures same { self.new.goal ≡ self.old.goal }
    {
        if is_above(&self.goal, cube) {
            return Err(Refusal::InputAbove);
        }
        self.add(cube)
    }
}
