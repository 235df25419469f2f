//! Tests of mast_cq: worked queries, with what they become, and that calls succeed where memory is there.
#![tactic(auto)]

mod facts;
#[cfg(test)]
mod tests;

pub use facts::{Facts, facts_laws};
