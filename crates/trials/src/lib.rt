// Worked examples for the libraries together, from the bytes of a board file to what is found out about its
// machines. All expected values were found by hand or by boards/reference.py.
#![tactic(auto)]

#[cfg(test)]
mod and_gate;
#[cfg(test)]
mod asked;
#[cfg(test)]
mod c17;
#[cfg(test)]
mod encoding;
#[cfg(test)]
mod first_failing;
#[cfg(test)]
mod limits;
#[cfg(test)]
mod redundant;
#[cfg(test)]
mod refusals;
#[cfg(test)]
mod refused_line;
