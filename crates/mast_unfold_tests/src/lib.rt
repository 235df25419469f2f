//! Tests of mast_unfold: that calls succeed, and that the definitions give the sources of worked atoms.
#![tactic(auto)]

#[cfg(test)]
mod documents;
#[cfg(test)]
mod tests;
