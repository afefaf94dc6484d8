// A question that is asked of 64 vectors at a time, and cannot be asked of one.
ghost use Rattle.std.specs.Prelude.{ℕ};
ghost use Rattle.cubes.specs.Masks.{has};
ghost use Rattle.cubes.specs.Searching.{Sought};

use cubes::mask::InputWords;
use cubes::walk::{Question, smallest};
use std::test::Fail;

// Which vectors of four inputs have input 2 on.
struct ThirdIsOn;

impl Question for ThirdIsOn {
    ghost asks = { λ _. record { inputs = 4; passes = λ number. has number 2 } };

    fn inputs(&self) -> u8 {
        4
    }

    fn passing(&self, words: &InputWords) -> u64 {
        words[2]
    }
}

#[test]
fn is_asked_by_words_alone(rt: HostRuntime) -> Result<(), Fail> {
    assert_eq!(rt; smallest(&ThirdIsOn), Some(4));
    Ok(())
}
