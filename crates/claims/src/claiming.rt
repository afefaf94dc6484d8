// Checking a claim.
ghost use Rattle.std.specs.Prelude.{◌≡◌};
ghost use Rattle.claims.specs.Claims.{verdict, number};
ghost use Rattle.claims.specs.Bounds.{Bound};

use crate::named::Named;
use crate::refusal::ClaimRefusal;
use goals::goal::Goal;

// The most duties that a claim may name.
const MOST: usize = 256;

impl ClaimRefusal {
    // The number by which the shop knows the refusal.
    pub fn number(&self) -> u16
        ensures { result ≡ number self.now }
    {
        match self {
            ClaimRefusal::TooMany => 34,
            ClaimRefusal::NoSuchDuty { .. } => 29,
            ClaimRefusal::NamedBefore { .. } => 30,
            ClaimRefusal::NotWanted { .. } => 31,
            ClaimRefusal::NotCoverable { .. } => 32,
            ClaimRefusal::CoveredTogether { .. } => 33,
        }
    }
}

// Accepted with the length of the list, or refused with the first bad place of the first test that finds one.
pub fn claim<G: Goal>(goal: &G, duties: &[u32]) -> Result<u16, ClaimRefusal>
    ensures answer { result ≡ verdict (G.means goal.now) duties.now }
    ensures bound { Bound (G.means goal.now) duties.now result }
{
    if duties.len() > MOST {
        return Err(ClaimRefusal::TooMany);
    }
    let claimed = Named { goal, duties };
    // Each search answers a place, if it finds one, and here each place gets the name of its refusal.
    if let Some(place) = claimed.first_no_such() {
        return Err(ClaimRefusal::NoSuchDuty { place });
    }
    if let Some(place) = claimed.first_named_before() {
        return Err(ClaimRefusal::NamedBefore { place });
    }
    if let Some(place) = claimed.first_unwanted() {
        return Err(ClaimRefusal::NotWanted { place });
    }
    if let Some(place) = claimed.first_uncoverable() {
        return Err(ClaimRefusal::NotCoverable { place });
    }
    match claimed.first_clash() {
        Some(x) => Err(ClaimRefusal::CoveredTogether {
            earlier: x.earlier,
            later: x.later,
        }),
        None => Ok(duties.len() as u16),
    }
}
