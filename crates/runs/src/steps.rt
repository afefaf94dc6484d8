// The calls of a run, one by one, with the slips in hand.
ghost use Rattle.std.specs.Prelude.{◌≡◌};
ghost use Rattle.sheets.specs.Sheets.{state};
ghost use Rattle.sheets.specs.Pulling.{pull, put_back};
ghost use Rattle.sheets.specs.Striking.{strike};
ghost use Rattle.sheets.specs.Exchanging.{exchange};
ghost use Rattle.sheets.specs.Running.{does};

use crate::bench::Bench;
use crate::hands::take_slip;
use cubes::cube::Cube;
use goals::goal::Goal;
use sheets::call::Call;
use sheets::refusal::Refusal;
use sheets::reply::Reply;
use sheets::row::Serial;

impl<G: Goal> Bench<G> {
    // Pulls a row, and keeps its slip.
    fn pull(&mut self, serial: Serial) -> Result<Reply, Refusal>
        ensures answer { result ≡ (pull (state self.old.sheet) serial).answer }
        ensures after { state self.new.sheet ≡ (pull (state self.old.sheet) serial).after }
        ensures same { self.new.sheet.goal ≡ self.old.sheet.goal }
    {
        let slip = self.sheet.pull(serial)?;
        let pulled = slip.serial();
        self.slips.push_reserved(slip);
        Ok(Reply::Gave(pulled))
    }

    // Puts a row back by its slip. Where no slip of the serial is in hand, no row of it is out. This and the next two differ in
    // the call alone; a closure in its place would have to bring the rule of the call too, so each is written out.
    fn put_back(&mut self, serial: Serial) -> Result<Reply, Refusal>
        ensures answer { result ≡ (put_back (state self.old.sheet) serial).answer }
        ensures after { state self.new.sheet ≡ (put_back (state self.old.sheet) serial).after }
        ensures same { self.new.sheet.goal ≡ self.old.sheet.goal }
    {
        let slip = take_slip(&mut self.slips, serial).ok_or(Refusal::NotOut)?;
        self.sheet.put_back(slip).map(|()| Reply::Done)
    }

    // Strikes a row by its slip.
    fn strike(&mut self, serial: Serial) -> Result<Reply, Refusal>
        ensures answer { result ≡ (strike (G.means self.old.sheet.goal) (state self.old.sheet) serial).answer }
        ensures after { state self.new.sheet ≡ (strike (G.means self.old.sheet.goal) (state self.old.sheet) serial).after }
        ensures same { self.new.sheet.goal ≡ self.old.sheet.goal }
    {
        let slip = take_slip(&mut self.slips, serial).ok_or(Refusal::NotOut)?;
        self.sheet.strike(slip).map(|()| Reply::Done)
    }

    // Exchanges the cube of a row by its slip.
    fn exchange(&mut self, serial: Serial, cube: Cube) -> Result<Reply, Refusal>
        ensures answer { result ≡ (exchange (G.means self.old.sheet.goal) (state self.old.sheet) serial cube).answer }
        ensures after { state self.new.sheet ≡ (exchange (G.means self.old.sheet.goal) (state self.old.sheet) serial cube).after }
        ensures same { self.new.sheet.goal ≡ self.old.sheet.goal }
    {
        let slip = take_slip(&mut self.slips, serial).ok_or(Refusal::NotOut)?;
        self.sheet.exchange(slip, cube).map(|()| Reply::Done)
    }

    // One call.
    pub(crate) fn step(&mut self, call: Call) -> Result<Reply, Refusal>
        ensures answer { result ≡ (does (G.means self.old.sheet.goal) (state self.old.sheet) call).answer }
        ensures after { state self.new.sheet ≡ (does (G.means self.old.sheet.goal) (state self.old.sheet) call).after }
        ensures same { self.new.sheet.goal ≡ self.old.sheet.goal }
    {
        match call {
            Call::Enter(cube) => self.sheet.enter(cube).map(Reply::Gave),
            Call::Cover(duty) => self.sheet.cover(duty).map(Reply::from),
            Call::Pull(serial) => self.pull(serial),
            Call::PutBack(serial) => self.put_back(serial),
            Call::Strike(serial) => self.strike(serial),
            Call::Exchange(serial, cube) => self.exchange(serial, cube),
            Call::Join(first, second) => self.sheet.join(first, second).map(|()| Reply::Done),
            Call::Sweep => Ok(Reply::Removed(self.sheet.sweep())),
        }
    }
}
