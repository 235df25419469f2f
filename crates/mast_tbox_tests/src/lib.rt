//! Worked TBoxes, with what they give: that the calls succeed, and that the definitions give the answers of worked inputs.
#![tactic(auto)]

#[cfg(test)]
mod tests;
