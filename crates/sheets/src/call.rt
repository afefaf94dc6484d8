// The calls of a sheet, as values. Put back, strike and exchange name the serial of the slip that is handed in.
use crate::row::Serial;
use cubes::cube::Cube;

#[derive(Clone, Copy, Debug)]
pub enum Call {
    Enter(Cube),
    Cover(u32),
    Pull(Serial),
    PutBack(Serial),
    Strike(Serial),
    Exchange(Serial, Cube),
    Join(Serial, Serial),
    Sweep,
}
