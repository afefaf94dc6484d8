// Worked examples for the sheet: calls in several orders, refused ones between others. All expected values were found by
// hand, over a goal of this crate's own whose duties can be read off the cube.
#![tactic(auto)]

#[cfg(test)]
mod calls;
#[cfg(test)]
mod ones;
#[cfg(test)]
mod sweeps;
