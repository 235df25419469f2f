//! Tests of mast_grammar, of what no clause says: that calls succeed, and that the definitions give the answers of worked inputs.
#![tactic(auto)]

#[cfg(test)]
mod tests;
