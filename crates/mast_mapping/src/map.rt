//! Mappings.
use mast_sql::SourceQuery;
use mast_tables::TableDecl;
use mast_terms::{List, Name, Text, Value, Vocabulary};

/// The mappings of a document: the names that they use, the declared tables and the maps, both in order.
#[derive(Drop)]
pub struct Mappings {
    /// The vocabulary, which begins with that of the constraints.
    pub vocab: Vocabulary,
    pub tables: List<TableDecl>,
    pub maps: List<Map>,
}

/// A source query, and what each choice of rows that meets it gives. The line is that of the query's string.
#[derive(Debug, Drop)]
pub struct Map {
    pub line: u32,
    pub query: SourceQuery,
    pub heads: List<Head>,
}

/// What a choice of rows gives: a fact of a class, a role or an attribute.
#[derive(Debug, PartialEq, Eq, Drop)]
pub enum Head {
    /// The subject is a member of the class.
    Class {
        name: Name,
        subject: Template,
    },
    /// `to` is a filler of the role for `from`.
    Role {
        name: Name,
        from: Template,
        to: Template,
    },
    /// The value is one of the attribute for `from`.
    Attr {
        name: Name,
        from: Template,
        value: Slot,
    },
}

/// An object with slots for its arguments.
#[derive(Debug, PartialEq, Eq, Drop)]
pub struct Template {
    pub symbol: Text,
    pub args: List<Slot>,
}

/// A place for a value.
#[derive(Debug, PartialEq, Eq, Drop)]
pub enum Slot {
    /// The value of the source query's output of this name.
    Output(Text),
    /// This value.
    Constant(Value),
}
