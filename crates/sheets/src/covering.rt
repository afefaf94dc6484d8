// Covering a duty by the smallest vector that does, unless a row in place covers it already.
ghost use Rattle.std.specs.Prelude.{◌≡◌};
ghost use Rattle.sheets.specs.Sheets.{state, told};
ghost use Rattle.sheets.specs.Covering.{cover, covered_reply};

use crate::asking::any_in_place;
use crate::refusal::Refusal;
use crate::reply::Reply;
use crate::row::Serial;
use crate::sheet::Sheet;
use cubes::cube::Cube;
use goals::covering::smallest_covering;
use goals::goal::Goal;

// The reply of a call that covers.
impl From<Option<Serial>> for Reply {
    ghost from_gives = { λ entered reply. reply ≡ covered_reply entered };

    fn from(entered: Option<Serial>) -> Reply {
        entered.map_or(Reply::Already, Reply::Gave)
    }
}

impl<G: Goal> Sheet<G> {
    // The serial of the new row, or none where a row in place covers the duty already.
    #[tactic(auto, using(cubes::proofs::Searches::first_least))]
    pub fn cover(&mut self, duty: u32) -> Result<Option<Serial>, Refusal>
        ensures answer { told covered_reply result ≡ (cover (G.means self.old.goal) (state self.old) duty).answer }
        ensures after { state self.new ≡ (cover (G.means self.old.goal) (state self.old) duty).after }
        ensures same { self.new.goal ≡ self.old.goal }
    {
        if duty >= self.goal.duties() {
            return Err(Refusal::NoSuchDuty);
        }
        if !self.goal.wanted(duty) {
            return Err(Refusal::NotWanted);
        }
        if any_in_place(&self.goal, self.rows.as_slice(), duty) {
            return Ok(None);
        }
        let number = smallest_covering(&self.goal, duty).ok_or(Refusal::NotCoverable)?;
        let cube = Cube::vector(self.goal.inputs(), number).ok_or(Refusal::NotCoverable)?;
        self.add(cube).map(Some)
    }
}
