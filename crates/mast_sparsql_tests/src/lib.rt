//! Tests of mast_sparsql, of what no clause says: that calls succeed, and that the definitions give the answers of worked files.
#![tactic(auto)]

#[cfg(test)]
mod tests;
