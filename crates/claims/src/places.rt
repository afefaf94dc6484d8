// The first bad place of a claim, for each test over the whole list.
ghost use Rattle.std.specs.Prelude.{◌≡◌};
ghost use Rattle.claims.specs.Claims.{coverable, first_bad, no_such, named_before, unwanted, uncoverable};

use crate::named::Named;
use goals::covering::smallest_covering;
use goals::goal::Goal;

// Whether some vector covers the duty.
fn is_coverable<G: Goal>(goal: &G, duty: u32) -> bool
    ensures { result ≡ coverable (G.means goal.now) duty }
{
    smallest_covering(goal, duty).is_some()
}

impl<'a, G: Goal> Named<'a, G> {
    // The first duty that there is none of.
    pub(crate) fn first_no_such(&self) -> Option<u16>
        ensures { result ≡ first_bad self.now.duties.now (no_such (G.means self.now.goal.now) self.now.duties.now) }
    {
        let count = self.goal.duties();
        self.duties
            .iter()
            .position(|duty| *duty >= count)
            .map(|place| place as u16)
    }

    // The first duty that is named before.
    pub(crate) fn first_named_before(&self) -> Option<u16>
        ensures { result ≡ first_bad self.now.duties.now (named_before self.now.duties.now) }
    {
        for (place, duty) in self.duties.iter().enumerate() {
            if self.duties[..place].contains(duty) {
                return Some(place as u16);
            }
        }
        None
    }

    // The first duty that is not wanted.
    pub(crate) fn first_unwanted(&self) -> Option<u16>
        ensures { result ≡ first_bad self.now.duties.now (unwanted (G.means self.now.goal.now) self.now.duties.now) }
    {
        self.duties
            .iter()
            .position(|duty| !self.goal.wanted(*duty))
            .map(|place| place as u16)
    }

    // The first duty that no vector covers.
    pub(crate) fn first_uncoverable(&self) -> Option<u16>
        ensures { result ≡ first_bad self.now.duties.now (uncoverable (G.means self.now.goal.now) self.now.duties.now) }
    {
        self.duties
            .iter()
            .position(|duty| !is_coverable(self.goal, *duty))
            .map(|place| place as u16)
    }
}
