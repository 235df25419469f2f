//! Reads the constraints of a document: functionality, identifications and denials.
//! The crates above rest on `read_constraints`: it gives the constraints of the tree, or the first breach of the document.
//! In `specs/`, Whole has what a document has, Items, Paths and Denials the rules by which it is read, and Kept what constraints keep.
//! It must not know what a constraint means, nor of restrictions, facts and queries.
#![tactic(auto)]

mod denials;
mod laws;
mod paths;
mod reader;
mod variables;

pub use laws::constraints_law;
pub use reader::read_constraints;
