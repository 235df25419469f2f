//! Tokens and trees of a document: the ontology, the constraints or the mappings.
//! The crates above rest on this: a document is the tree that the grammar gives, or the answer is its first breach.
//! In `specs/`, `Source` has the tokens, `Grammar` and `Trees` the trees, `Prologue` what a document begins with, `Prefixes` the IRIs.
//! It must not know what a node means: neither axioms nor tables.
#![tactic(auto)]

mod constants;
mod document;
mod item;
mod laws;
mod layer;
mod main_node;
mod names;
mod parser;
mod prefix;
mod prologue;
mod scanner;
mod shape;
mod token;
mod token_list;
mod trees;
mod words;

pub use constants::is_identifier;
pub use document::{Doc, DocName, read_doc};
pub use item::{Item, MOST_OPEN, TreeBreach, TreeKind};
pub use laws::{prologue_law, span_law, token_law, tree_law};
pub use layer::Layer;
pub use main_node::Parts;
pub use names::is_standard;
pub use prefix::PrefixTable;
pub use prologue::prefixes;
pub use shape::{ShapeBreach, ShapeKind, wrong};
pub use token::{LexBreach, LexKind, Token, TokenKind};
pub use token_list::tokens;
