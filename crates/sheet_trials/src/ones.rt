// A goal that is none of the four kinds: two inputs, and duty d wants input d at 1.
ghost use Rattle.std.specs.Prelude.{◌≡◌, ◌==◌, nat_lt};
ghost use Rattle.sheet_trials.specs.Ones.{ones};
ghost use Rattle.std.proofs.Common.{arith};
ghost use Rattle.std.proofs.lemmas.Bool.{le-ltb, and_parts, and_from, and_left, eqb-true, eq-eqb};
ghost use Rattle.cubes.specs.Masks.{bit};
ghost use Rattle.sheet_trials.specs.OnesGoalLemmas.{agree};

use cubes::cube::Cube;
use goals::goal::Goal;

#[derive(Drop)]
pub struct Ones {
    pub name: u8,
}

impl Goal for Ones {
    ghost means = { λ _. ones };

    ghost lawful = { λ goal.
        record {
          few_inputs = omega arith;
          few_duties = omega arith;
          none_wanted_above = λ d h. le-ltb d 2 h;
          none_covered_above = λ c d h. and_left _ _ (le-ltb d 2 h);
          refined = λ a b d r e. let p = and_parts (nat_lt d 2) (bit b.ones d == 1) e in and_from _ _ p.0 (eq-eqb (bit a.ones d) 1 ((r d).1 (eqb-true (bit b.ones d) 1 p.1)));
          own_inputs = λ a b d h. agree a b d h;
        } };

    fn inputs(&self) -> u8 {
        2
    }

    fn duties(&self) -> u32 {
        2
    }

    fn wanted(&self, duty: u32) -> bool {
        duty < 2
    }

    fn covers(&self, cube: Cube, duty: u32) -> bool {
        if duty >= 2 {
            return false;
        }
        cube.ones() >> duty & 1 == 1
    }
}
