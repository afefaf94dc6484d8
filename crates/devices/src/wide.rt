// What a machine shows at its outputs at 64 vectors.

// For each of 64 vectors and each output 0, 1 or unknown: output o is 0 at the k-th vector where bit k of word o of `zeros` is
// set, 1 where bit k of word o of `ones` is.
// Two arrays, as an answer has two masks: each is filled and hidden apart, so pairs of words would be no plainer.
#[derive(Clone, Copy)]
pub struct WideAnswer {
    pub zeros: [u64; 32],
    pub ones: [u64; 32],
}
