//! Conjunctive queries over relations of numbers, joined depth first by hashed look-ups.
//! The crates above rest on this: `answers` adds exactly the answers of a slice, and `first` finds one that passes a test.
//! In `specs/`, `Matches` and `Slices` have what answers are, `Stores` how sets of rows change, and `Plans` which plans are right.
//! It must not know what the numbers stand for, nor where relations and queries come from.
#![tactic(auto)]

mod hashes;
mod join;
mod laws;
mod lookup;
mod order;
mod plan;
mod planning;
mod query;
mod relation;
mod relations;
mod rows;

pub use laws::slices_give_answers;
pub use plan::Plan;
pub use query::{Conjunction, Pattern, Test};
pub use relations::Relations;
pub use rows::RowSet;
