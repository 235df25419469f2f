//! Tests of mast_par: pieces run side by side, each is asked once, and callers can say what the answers are.
#![tactic(auto)]

#[cfg(test)]
mod tests;
