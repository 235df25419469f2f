//! What the rows of a SparSQL query are: its EQL-Lite formula and when values satisfy it. The evaluator is not here yet.
//! The crates above rest on this: the range of `some` does not matter in the formula of a body (`range_law`).
//! In `specs/`, Formulas, Satisfaction and Evaluated have the definitions.
//! It must not know how queries are read, nor how the lists of the tables were found.
#![tactic(auto)]

mod laws;

pub use laws::{lists_law, range_law};
