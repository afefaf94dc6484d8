// A goal that is none of the four kinds: a hundred duties, each covered by every cube.
ghost use Rattle.std.specs.Prelude.{◌≡◌, refl};
ghost use Rattle.run_trials.specs.Hundred.{hundred};
ghost use Rattle.std.proofs.Common.{arith};
ghost use Rattle.std.proofs.lemmas.Bool.{le-ltb};

use cubes::cube::Cube;
use goals::goal::Goal;

#[derive(Drop)]
pub struct Hundred {
    pub name: u8,
}

impl Goal for Hundred {
    ghost means = { λ _. hundred };

    ghost lawful = { λ goal.
        record {
          few_inputs = omega arith;
          few_duties = omega arith;
          none_wanted_above = λ d h. le-ltb d 100 h;
          none_covered_above = λ c d h. le-ltb d 100 h;
          refined = λ a b d r e. e;
          own_inputs = λ a b d h. refl;
        } };

    fn inputs(&self) -> u8 {
        1
    }

    fn duties(&self) -> u32 {
        100
    }

    fn wanted(&self, duty: u32) -> bool {
        duty < 100
    }

    fn covers(&self, cube: Cube, duty: u32) -> bool {
        duty < 100
    }
}
