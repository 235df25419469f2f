//! Worked closures: that the call succeeds, and that the definitions give the members of worked queries.
#![tactic(auto)]

#[cfg(test)]
mod tests;
