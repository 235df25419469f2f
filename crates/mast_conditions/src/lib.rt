//! Conditions on numbers that ask for rows of relations, nested; and the rows that are chosen by them.
//! The crates above rest on this: `holds` tells whether a condition is true, and `Select::collect` puts exactly the rows that
//! a select gives. In `specs/`, `Truth` has when a condition is true, `Choices` what a select gives, `Spans` rows side by side.
//! It must not know what the numbers stand for, nor where the conditions come from.
#![tactic(auto)]

mod asking;
mod collecting;
mod condition;
mod linking;
mod span;

pub use asking::holds;
pub use condition::{Condition, Entry, Select};
pub use linking::entries;
pub use span::{Span, spans};
