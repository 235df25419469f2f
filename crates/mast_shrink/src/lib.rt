//! Conflicts: the rows of a breach, without those that it can do without.
//! What the crates above rest on: `shrink` gives a conflict among the rows of a breach, in order, with an origin of its own.
//! The words of its contracts stand in `mast_canon` (what a conflict is) and `mast_check`; specs/ has those of private functions.
//! It must not know how breaches are found, nor how a conflict is printed.
#![tactic(auto)]

mod conflict;
mod rows;

pub use conflict::{Conflict, shrink, shrink_by};
