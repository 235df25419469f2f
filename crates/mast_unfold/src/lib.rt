//! Unfolding: which maps give which of the atoms below an atom.
//! The crates above rest on `Unfolder::sources`: it gives all sources of an atom, in order, each once.
//! In `specs/`, `Sources` has what a source is, and `HeadFacts` the fact that a head gives.
//! It must not know of rows and choices, of specifications, nor how a query is joined.
#![tactic(auto)]

mod by_name;
mod columns;
mod equations;
mod forms;
mod groups;
mod outputs;
mod source;
mod templates;
mod unfolder;

pub use source::Source;
pub use unfolder::Unfolder;
