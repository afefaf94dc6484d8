// Excused: a goal of which some duties are no longer wanted, in a file of its own because its type bounds them.
ghost use Rattle.std.specs.Prelude.{◌≡◌, ℕ, ◌≤◌, true, vec_len, vec_capacity};
ghost use Rattle.goals.specs.Naming.{all_once};

// A goal, and the duties of it that are no longer wanted, each named once.
#[derive(Drop)]
pub struct Excused<G> {
    pub(crate) goal: G,
    pub(crate) duties: Vec<u32>,
    ghost few: { vec_len duties ≤ 64 },
    ghost room: { 64 ≤ vec_capacity duties },
    ghost once: { all_once duties.items ≡ true },
}
