//! SparSQL queries: the first two passes of their reader and the tree of a query, what a query is, and why a text is none.
//! The crates above rest on this: bytes are tokens of the grammar within its limits and have a tree, or the answer is the first breach.
//! In `specs/`, `Lexing`, `Terminals` and `Passes` have the passes, `Trees` the tree, and `WellFormed` which queries are well formed.
//! It must not know how a query is answered, nor how a breach is printed.
#![tactic(auto)]

mod breach;
mod cursor;
mod grammar;
mod laws;
mod lexing;
mod lines;
mod parts;
mod patterns;
mod query;
mod terminals;
mod tree;
mod tree_reader;
mod written;

pub use breach::{QueryBreach, QueryKind};
pub use grammar::query_tokens;
pub use laws::file_law;
pub use lexing::file_tokens;
pub use query::{Body, ColumnRef, Condition, Query, Side};
pub use tree::{
    Block, Column, Constant, Entry, Item, Line, Object, Operand, Part, Property, Table, Tree,
    Triples,
};
pub use tree_reader::query_tree;
