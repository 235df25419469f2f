//! Tests of mast_join: that choices are found where memory is there, and that they are those that SQLite gives.
#![tactic(auto)]

#[cfg(test)]
mod extension_tests;
#[cfg(test)]
mod tests;
