//! Source queries.
ghost use Rattle.std.specs.Prelude.{◌≡◌, OnOk};
ghost use Rattle.mast_sql.specs.inside.Parser as parser;

use mast_terms::{List, NoMemory, Text, Value};
use std::alloc::Global;

/// How many entries FROM may have.
pub const MOST_ENTRIES: usize = 8;

/// A query that chooses a row for each of its aliases.
/// An alias or an output that the text does not name is the table's or the column's name.
#[derive(Debug, Drop)]
pub struct SourceQuery {
    pub items: List<SelectItem>,
    pub from: List<FromEntry>,
    pub conditions: List<Comparison>,
}

/// A selected column, with the alias before it if one stands there, and the name under which it goes out.
#[derive(Debug, Drop)]
pub struct SelectItem {
    pub alias: Option<Text>,
    pub column: Text,
    pub output: Text,
}

/// A table, and the alias under which a row of it is chosen.
#[derive(Debug, Drop)]
pub struct FromEntry {
    pub table: Text,
    pub alias: Text,
}

/// A condition on the chosen rows.
#[derive(Debug, Drop)]
pub struct Comparison {
    pub left: Operand,
    pub op: Compare,
    pub right: Operand,
}

/// A sign of comparison: `=`, `<>` or `!=`, `<`, `<=`, `>`, `>=`.
#[derive(Clone, Copy, Debug, PartialEq, Eq)]
pub enum Compare {
    Equal,
    Differ,
    Less,
    AtMost,
    More,
    AtLeast,
}

/// A side of a comparison.
#[derive(Debug, Drop)]
pub enum Operand {
    Column { alias: Option<Text>, column: Text },
    Constant(Value),
}

/// Why tokens are no source query.
#[derive(Clone, Copy, Debug, PartialEq, Eq)]
pub enum SqlBreachKind {
    /// Some source query begins with the tokens before, and none with this one as well.
    Grammar,
    /// A name that begins the ninth FROM entry.
    Aliases,
}

/// The first breach of the grammar: the number of its token, from 0, and the kind.
/// At the end it is the number of tokens.
#[derive(Clone, Copy, Debug, PartialEq, Eq)]
pub struct SqlBreach {
    pub token: u32,
    pub kind: SqlBreachKind,
}

impl SourceQuery {
    pub(crate) fn new(alloc: Global) -> SourceQuery
        ensures { result ≡ parser.empty }
    {
        SourceQuery {
            items: List::new(alloc),
            from: List::new(alloc),
            conditions: List::new(alloc),
        }
    }

    pub(crate) fn push_item(&mut self, alloc: Global, item: SelectItem) -> Result<(), NoMemory>
        ensures { OnOk result (self.new ≡ parser.with_item self.old item) }
    {
        self.items.push(alloc, item)
    }

    pub(crate) fn push_entry(&mut self, alloc: Global, entry: FromEntry) -> Result<(), NoMemory>
        ensures { OnOk result (self.new ≡ parser.with_entry self.old entry) }
    {
        self.from.push(alloc, entry)
    }

    pub(crate) fn push_condition(
        &mut self,
        alloc: Global,
        comparison: Comparison,
    ) -> Result<(), NoMemory>
        ensures { OnOk result (self.new ≡ parser.with_condition self.old comparison) }
    {
        self.conditions.push(alloc, comparison)
    }
}
