// The one refusal of a call that writes into lent text, in a file of its own because specs/ speaks of it.

// The lent text is shorter than what is to be written; nothing was written.
#[derive(Clone, Copy, Debug, PartialEq, Eq)]
pub struct TextTooShort;
