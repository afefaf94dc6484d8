// Pulling a row, and putting it back.
ghost use Rattle.std.specs.Prelude.{◌≡◌};
ghost use Rattle.sheets.specs.Sheets.{state, told};
ghost use Rattle.sheets.specs.Pulling.{pull, put_back};
ghost use Rattle.sheets.specs.declared.reply.Reply.TheVariants.{Gave, Done};

use crate::refusal::Refusal;
use crate::row::Serial;
use crate::sheet::Sheet;
use crate::slip::Slip;
use goals::goal::Goal;

impl<G: Goal> Sheet<G> {
    // Makes the row out, and hands over a slip with its serial.
    pub fn pull(&mut self, serial: Serial) -> Result<Slip, Refusal>
        ensures answer { told (λ slip. Gave slip.serial) result ≡ (pull (state self.old) serial).answer }
        ensures after { state self.new ≡ (pull (state self.old) serial).after }
        ensures same { self.new.goal ≡ self.old.goal }
    {
        let i = self.place_of(serial).ok_or(Refusal::NoSuchRow)?;
        if self.rows[i].out {
            return Err(Refusal::RowOut);
        }
        self.rows[i].out = true;
        Ok(Slip { serial })
    }

    // Makes the row of the slip in place.
    pub fn put_back(&mut self, slip: Slip) -> Result<(), Refusal>
        ensures answer { told (λ _. Done) result ≡ (put_back (state self.old) slip.serial).answer }
        ensures after { state self.new ≡ (put_back (state self.old) slip.serial).after }
        ensures same { self.new.goal ≡ self.old.goal }
    {
        let Slip { serial } = slip;
        let i = self.place_out(serial)?;
        self.rows[i].out = false;
        Ok(())
    }
}
