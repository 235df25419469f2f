//! The rewriting of a conjunctive query: its closure under meetings of atoms, with the hierarchies folded into `Down`.
//! What the crates above rest on: the members of a rewriting are exactly the closure, and have exactly the certain answers.
//! The words of its contracts stand in specs/: CountingMeetings, Closures and Rewritings.
//! It must not know of rows, mappings and sources, nor how queries are read or answers found.
#![tactic(auto)]

mod counting;
mod growth;
mod laws;
mod leaders;
mod meetings;
mod memo;
mod pair;
mod rewriting;

pub use laws::{closure_law, closure_member_law, meeting_law, rewriting_law, spec_rewriting_law};
pub use rewriting::{Rewriting, TooMany, perfect_ref};
