// Exchanging the cube of a pulled row.
ghost use Rattle.std.specs.Prelude.{◌≡◌};
ghost use Rattle.sheets.specs.Sheets.{state, told};
ghost use Rattle.sheets.specs.Exchanging.{exchange};
ghost use Rattle.sheets.specs.declared.reply.Reply.TheVariants.{Done};

use crate::asking::is_above;
use crate::refusal::Refusal;
use crate::row::Row;
use crate::sheet::Sheet;
use crate::slip::Slip;
use cubes::cube::Cube;
use goals::goal::Goal;

impl<G: Goal> Sheet<G> {
    // Gives the row of the slip a new cube, and makes it in place; it keeps its serial and its place in the order.
    // Where it is refused for the cube or for a duty, the row is in place again as it was.
    pub fn exchange(&mut self, slip: Slip, cube: Cube) -> Result<(), Refusal>
        ensures answer { told (λ _. Done) result ≡ (exchange (G.means self.old.goal) (state self.old) slip.serial cube).answer }
        ensures after { state self.new ≡ (exchange (G.means self.old.goal) (state self.old) slip.serial cube).after }
        ensures same { self.new.goal ≡ self.old.goal }
    {
        let Slip { serial } = slip;
        let i = self.place_out(serial)?;
        if is_above(&self.goal, cube) {
            self.rows[i].out = false;
            return Err(Refusal::InputAbove);
        }
        match self.memory.first_lost(&self.goal, &self.rows[i], Some(cube), self.rows.as_slice()) {
            Some(duty) => {
                self.rows[i].out = false;
                Err(Refusal::DutyLeftBare(duty))
            }
            None => {
                self.rows[i] = Row::of(serial, cube);
                Ok(())
            }
        }
    }
}
