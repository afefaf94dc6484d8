// Striking a pulled row, unless a wanted duty of it is covered by no row in place.
ghost use Rattle.std.specs.Prelude.{◌≡◌};
ghost use Rattle.sheets.specs.Sheets.{state, told};
ghost use Rattle.sheets.specs.Striking.{strike};
ghost use Rattle.sheets.specs.declared.reply.Reply.TheVariants.{Done};

use crate::refusal::Refusal;
use crate::sheet::Sheet;
use crate::slip::Slip;
use goals::goal::Goal;

impl<G: Goal> Sheet<G> {
    // Removes the row of the slip. Where a duty would be left bare, the row is in place again.
    pub fn strike(&mut self, slip: Slip) -> Result<(), Refusal>
        ensures answer { told (λ _. Done) result ≡ (strike (G.means self.old.goal) (state self.old) slip.serial).answer }
        ensures after { state self.new ≡ (strike (G.means self.old.goal) (state self.old) slip.serial).after }
        ensures same { self.new.goal ≡ self.old.goal }
    {
        let Slip { serial } = slip;
        let i = self.place_out(serial)?;
        match self
            .memory
            .first_lost(&self.goal, &self.rows[i], None, self.rows.as_slice())
        {
            Some(duty) => {
                self.rows[i].out = false;
                Err(Refusal::DutyLeftBare(duty))
            }
            None => {
                let _ = self.rows.remove(i);
                Ok(())
            }
        }
    }
}
