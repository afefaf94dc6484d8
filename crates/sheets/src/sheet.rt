// The sheet, in a file of its own because its type bounds its rows.
ghost use Rattle.std.specs.Prelude.{◌≡◌, ℕ, ◌≤◌, vec_len, vec_capacity};

use crate::memory::Memory;
use crate::row::{Row, Serial};

// A goal, at most 256 rows in order of entry, the last serial that was given, and the working memory of the calls.
#[derive(Drop)]
pub struct Sheet<G> {
    pub(crate) goal: G,
    pub(crate) rows: Vec<Row>,
    pub(crate) given: Serial,
    pub(crate) memory: Memory,
    ghost few: { vec_len rows ≤ 256 },
    ghost room: { 256 ≤ vec_capacity rows },
}
