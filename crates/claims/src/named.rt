// The duties that a claim names, in a file of its own because its type bounds them.
ghost use Rattle.std.specs.Prelude.{◌≤◌, length};

// Not too many duties, and the goal that they are of.
#[derive(Drop)]
pub(crate) struct Named<'a, G> {
    pub(crate) goal: &'a G,
    pub(crate) duties: &'a [u32],
    ghost few: { length duties.now ≤ 256 },
}
