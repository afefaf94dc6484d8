// The slips in hand: finding the slip of a serial, and handing in those that are left at the end.
ghost use Rattle.std.specs.Prelude.{◌≡◌, [], vec_capacity};
ghost use Rattle.sheets.specs.Sheets.{state};
ghost use Rattle.runs.specs.Hands.{Taken, Ready, Backed};

use crate::bench::Bench;
use goals::goal::Goal;
use sheets::row::Serial;
use sheets::sheet::Sheet;
use sheets::slip::Slip;

// The slip of a serial, taken out of those held.
pub(crate) fn take_slip(slips: &mut Vec<Slip>, serial: Serial) -> Option<Slip>
    ensures taken { Taken slips.old.items serial slips.new.items result }
    ensures room { vec_capacity slips.new ≡ vec_capacity slips.old }
{
    let i = slips.iter().position(|slip| slip.serial() == serial)?;
    Some(slips.remove(i))
}

impl<G: Goal> Bench<G> {
    // Puts back every row that is out, and ends the list of slips.
    pub(crate) fn put_all_back(self) -> Sheet<G>
        ensures back { Backed (state self.sheet) (state result) }
        ensures ready { Ready (state result) [] }
        ensures same { result.goal ≡ self.sheet.goal }
    {
        let Bench {
            mut sheet,
            mut slips,
        } = self;
        while let Some(slip) = slips.pop() {
            let _ = sheet.put_back(slip);
        }
        slips.destroy_empty();
        sheet
    }
}
