//! Joins: the choices of rows that meet a source query, and what queries over classes, roles and attributes have over rows.
//! The crates above rest on this: what `Extensions` has ready tells exactly the tuples of a query, or its hits; `choices` is exact.
//! In `specs/`, `Extensions`, `Answers` and `Hits` have what that means, `Slices` the pieces of work, and `Chosen` choices of rows.
//! It must not know how queries and tables are read, nor of closures, violations and printed answers.
#![tactic(auto)]

mod base;
mod comparisons;
mod conjunction;
mod extensions;
mod facts;
mod fill;
mod found;
mod grow;
mod hit;
mod index;
mod join;
mod laws;
mod lookup;
mod making;
mod naming;
mod numbers;
mod order;
mod places;
mod plan;
mod ready;
mod rows;
mod shapes;
mod slices;
mod store;
mod unfolding;
mod values;

pub use extensions::{Extensions, Wanted};
pub use found::Choices;
pub use hit::{Hit, hit_of};
pub use laws::sources_give_extensions;
pub use plan::choices;
pub use ready::Ready;
pub use slices::{Slice, slices_of};
pub use unfolding::unfolder_of;
