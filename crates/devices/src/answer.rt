// What a machine shows at its outputs.

// For each output 0, 1 or unknown: output o is 0 where bit o of `zeros` is set, 1 where bit o of `ones` is.
#[derive(Clone, Copy, Debug, PartialEq, Eq)]
pub struct Answer {
    pub zeros: u32,
    pub ones: u32,
}
