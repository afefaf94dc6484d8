// The number of the refusal, for those who pass it on as a number.
ghost use Rattle.std.specs.Prelude.{◌≡◌};
ghost use Rattle.texts.specs.Texts.{number};

use crate::short::TextTooShort;

impl TextTooShort {
    // The number by which the shop knows the refusal.
    pub fn number(&self) -> u16
        ensures { result ≡ number self.now }
    {
        36
    }
}
