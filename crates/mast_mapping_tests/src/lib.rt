//! Tests of mast_mapping: what no clause says, that calls succeed, and that the definitions give the answers of worked documents.
#![tactic(auto)]

#[cfg(test)]
mod tests;
