//! Terms as numbers: values and objects, each with one number, and from a number back to its term.
//! What the crates above rest on: two terms have one number exactly where they are equal, and a number gives its term back.
//! The words are defined in specs/Numbered.antt.
//! It must not know where terms come from, nor what is asked of them.
#![tactic(auto)]

mod key;
mod terms;

pub use terms::Terms;
