//! Tests of mast_files: that its calls succeed, and what the files of the working folder and standard output do with the operating system.
#![tactic(auto)]

#[cfg(test)]
mod tests;
