//! Tests of mast_terms: what no clause says, values from outside, and that calls succeed where memory is there.
#![tactic(auto)]

#[cfg(test)]
mod tests;
