//! Tests of mast_write: every line of a refusal, the usage text, and the texts of facts, answers, conflicts and lines.
#![tactic(auto)]

#[cfg(test)]
mod tests;
