// Worked examples for goals, claims, sheets and runs together, over boards of a few gates. All expected values were
// found by hand from docs/RULES.md.
#![tactic(auto)]

#[cfg(test)]
mod answers;
#[cfg(test)]
mod boards_read;
#[cfg(test)]
mod claimed;
#[cfg(test)]
mod encoding;
#[cfg(test)]
mod excusing;
#[cfg(test)]
mod firsts;
#[cfg(test)]
mod full;
#[cfg(test)]
mod hundred;
#[cfg(test)]
mod mixed;
#[cfg(test)]
mod pairs;
#[cfg(test)]
mod redundant;
#[cfg(test)]
mod serials;
#[cfg(test)]
mod unwanted;
