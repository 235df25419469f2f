//! The certain answers of unions of conjunctive queries over the rows of tables, and the rows that give them.
//! The crates above rest on this: `Answering::certain` gives exactly the certain answers, sorted, each once.
//! The words of its contracts stand in specs/: Answered, and LargeClosures for the one refusal.
//! It must not know how documents, tables and queries are read, nor how answers are printed.
#![tactic(auto)]

mod answering;
mod closures;
mod found;
mod supported;
mod tuples;

pub use answering::{Answering, certain};
pub use closures::{TooManyIn, closures_fit};
pub use supported::hits;
