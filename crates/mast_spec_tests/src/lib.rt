//! Tests of the specifications of mast_canon: what they have of their documents, and where documents are refused.
#![tactic(auto)]

#[cfg(test)]
mod tests;
