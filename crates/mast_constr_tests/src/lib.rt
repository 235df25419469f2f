//! Worked constraints, with what they say or their first breach: what no clause says, and that calls succeed where memory is there.
#![tactic(auto)]

#[cfg(test)]
mod breaches;
#[cfg(test)]
mod constraints;
#[cfg(test)]
mod limits;
#[cfg(test)]
mod shown;
