//! The grammar of SparSQL queries over terminals, with its limits.
//! The crates above rest on this: terminals are a query within the limits, or the answer is their first breach.
//! In `specs/`, `Grammar` has the grammar and what is a query, and `Breaches` the limits and the first breach.
//! It must not know the texts of tokens, nor what a query means.
#![tactic(auto)]

mod breach;
mod laws;
mod limits;
mod reader;
mod rules;
mod stack;
mod table;
mod terminal;

pub use breach::{GrammarBreach, GrammarKind};
pub use laws::grammar_law;
pub use limits::{MOST_ATOMS, MOST_BLOCKS, MOST_ENTRIES, MOST_OPEN, MOST_OPERATORS};
pub use reader::first_breach;
pub use terminal::Terminal;
