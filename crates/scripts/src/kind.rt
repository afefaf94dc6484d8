// The kinds of goal, in a file of its own because specs/ speaks of it.

// Detection, distinction, or the two joined in that order.
#[derive(Clone, Copy, Debug, PartialEq, Eq)]
pub enum Kind {
    Detect,
    Tell,
    Both,
}
