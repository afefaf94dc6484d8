// Joining two rows into one.
ghost use Rattle.std.specs.Prelude.{◌≡◌};
ghost use Rattle.sheets.specs.Sheets.{state, told};
ghost use Rattle.sheets.specs.Joining.{join};
ghost use Rattle.sheets.specs.declared.reply.Reply.TheVariants.{Done};

use crate::refusal::Refusal;
use crate::row::{Row, Serial};
use crate::sheet::Sheet;
use cubes::cube::Cube;
use goals::goal::Goal;

impl<G: Goal> Sheet<G> {
    // The first row gets every 0 and 1 of both, and the second is removed.
    pub fn join(&mut self, first: Serial, second: Serial) -> Result<(), Refusal>
        ensures answer { told (λ _. Done) result ≡ (join (state self.old) first second).answer }
        ensures after { state self.new ≡ (join (state self.old) first second).after }
        ensures same { self.new.goal ≡ self.old.goal }
    {
        let i = self.place_of(first).ok_or(Refusal::NoSuchRow)?;
        let j = self.place_of(second).ok_or(Refusal::NoSuchRow)?;
        let x = self.rows[i];
        let y = self.rows[j];
        if x.out || y.out {
            return Err(Refusal::RowOut);
        }
        if first == second {
            return Err(Refusal::NotJoinable);
        }
        let cube = Cube::from_masks(x.zeros | y.zeros, x.ones | y.ones).map_err(
            |_| Refusal::NotJoinable,
        )?;
        self.rows[i] = Row::of(first, cube);
        let _ = self.rows.remove(j);
        Ok(())
    }
}
