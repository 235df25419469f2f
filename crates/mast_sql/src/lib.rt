//! SQL tokens, and the source queries of mappings that are written in them.
//! The crates above rest on this: a text is the tokens and the query that the grammar gives, or the answer is its first breach.
//! In `specs/`, `Tokens` has the forms of tokens, `Source` those of a text, `Symbols` what they stand for, `Grammar` the queries.
//! It must not know which tables and columns are declared, nor what rows a query chooses.
#![tactic(auto)]

mod comparisons;
mod entries;
mod items;
mod laws;
mod parser;
mod query;
mod reader;
mod scanner;
mod symbol;
mod token;
mod tokens;

pub use laws::{query_law, span_law, token_law};
pub use query::{
    Compare, Comparison, FromEntry, MOST_ENTRIES, Operand, SelectItem, SourceQuery, SqlBreach,
    SqlBreachKind,
};
pub use reader::read_source_query;
pub use symbol::{Keyword, Symbol, keyword_of, symbol_of};
pub use token::{SqlKind, SqlLex, SqlToken};
pub use tokens::sql_tokens;
