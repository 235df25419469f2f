//! Violation queries: for each axiom and constraint that facts can break, a query that asks for a breach.
//! What the crates above rest on: something is broken exactly where a query of that origin has a certain answer that
//! passes its test. The words of its contracts stand in specs/Patterns.antt, ViolationLists.antt and Breaches.antt.
//! It must not know how documents are read, nor how answers of queries are found.
#![tactic(auto)]

mod count;
mod laws;
mod list;
mod paths;
mod patterns;
mod ranges;
mod violation;

pub use laws::violation_law;
pub use list::violation_queries;
pub use violation::{MOST_VIOLATIONS, Test, TooManyViolations, Violation};
