//! Tests of the top call over objects in memory: where calls on files and sinks fail, and where the machine gives no words.
#![tactic(auto)]

#[cfg(test)]
mod tests;
