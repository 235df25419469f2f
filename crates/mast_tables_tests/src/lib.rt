//! Tests of mast_tables: table files with their rows or breaches, and that calls succeed where memory is there.
#![tactic(auto)]

#[cfg(test)]
mod tests;
