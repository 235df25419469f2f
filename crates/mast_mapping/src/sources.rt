//! Source queries in their strings, read and judged by the tables that are declared before them, in the order of the
//! judgements: the text and its grammar, the FROM entries, the items, the comparisons; and last what a column means.
ghost use Rattle.std.specs.Prelude.{◌≡◌, ◌<◌, ◌≤◌, ◌-◌, [], length, IfOk};
ghost use Rattle.std.specs.Option.{option_map};
ghost use Rattle.mast_tables.specs.Whole as whole;
ghost use Rattle.mast_sql.specs.Source.{AreTokens};
ghost use Rattle.mast_terms.specs.Answers.{Answers};
ghost use Rattle.mast_terms.specs.Refusals.{IsRefusedBy};
ghost use Rattle.mast_tree.specs.Said.{said};
ghost use Rattle.mast_mapping.specs.Columns as columns;
ghost use Rattle.mast_mapping.specs.Queries as queries;
ghost use Rattle.mast_mapping.specs.Readings as readings;
ghost use Rattle.mast_mapping.specs.Maps as maps;
ghost use Rattle.mast_mapping.specs.inside.Kinds as kinds;
ghost use Rattle.mast_mapping.specs.inside.Sources as inside;
ghost use Rattle.mast_mapping.specs.inside.Readers.{doc_of, ByTexts};

use crate::doc_reader::DocReader;
use crate::name_index::NameIndex;
use crate::table_index::TableIndex;
use mast_sql::{
    Comparison, FromEntry, Operand, SelectItem, SourceQuery, SqlBreach, SqlBreachKind, SqlToken,
    read_source_query, sql_tokens,
};
use mast_terms::{Kind, List, Stop, Text, Value};
use mast_tree::{Item, Layer, ShapeBreach, ShapeKind, wrong};
use std::alloc::Global;

impl<'r, 'a> DocReader<'r, 'a> {
    // A string that is a source query over the tables before, with its line, and its outputs.
    pub(crate) fn source(
        &self,
        alloc: Global,
        tables: &TableIndex,
        item: &Item,
    ) -> Result<(SourceQuery, NameIndex), Stop<ShapeBreach>>
        ensures { ByTexts (λ t. inside.ReadsSource t tables.now (said (doc_of self.now) item.now) result) }
    {
        match self.doc.layer(item) {
            Layer::Text { token, line } => {
                let text = self.doc.text(alloc, token)?;
                let end = self.end(token);
                let query = match reading(alloc, text.as_str(), end) {
                    Ok(query) => query,
                    Err(Stop::Named(kind)) => return Err(wrong(line, kind)),
                    Err(Stop::NoMemory) => return Err(Stop::NoMemory),
                };
                match judge_query(alloc, tables, &query) {
                    Ok(outputs) => Ok((query, outputs)),
                    Err(Stop::Named(kind)) => Err(wrong(line, kind)),
                    Err(Stop::NoMemory) => Err(Stop::NoMemory),
                }
            }
            _ => Err(self.wrong(item, ShapeKind::Shape)),
        }
    }
}

// What a text reads as.
fn reading(alloc: Global, text: &str, end: u32) -> Result<SourceQuery, Stop<ShapeKind>>
    requires short { length text.now ≤ end - 1 }
    ensures { inside.ReadsText text.now result }
{
    let tokens = lexed(alloc, text, end)?;
    match read_source_query(alloc, text, tokens.as_slice()) {
        Ok(query) => Ok(query),
        Err(Stop::Named(breach)) => Err(Stop::Named(grammar_kind(breach))),
        Err(Stop::NoMemory) => Err(Stop::NoMemory),
    }
}

// The tokens of a text, which ends before the `end`th byte of a document, and so is short enough.
fn lexed(alloc: Global, text: &str, end: u32) -> Result<List<SqlToken>, Stop<ShapeKind>>
    requires short { length text.now ≤ end - 1 }
    ensures tokens { Answers result (AreTokens text.now) (readings.IsLexical text.now) }
    ensures few { IfOk result (λ tokens. length tokens < 4294967295) }
{
    match sql_tokens(alloc, text) {
        Ok(tokens) => Ok(tokens),
        Err(Stop::Named(breach)) => Err(Stop::Named(ShapeKind::Sql {
            token: breach.token,
        })),
        Err(Stop::NoMemory) => Err(Stop::NoMemory),
    }
}

// What a breach of the grammar is in a mapping document.
fn grammar_kind(breach: SqlBreach) -> ShapeKind
    ensures { result ≡ readings.grammar_kind breach.kind breach.token }
{
    match breach.kind {
        SqlBreachKind::Grammar => ShapeKind::Sql {
            token: breach.token,
        },
        SqlBreachKind::Aliases => ShapeKind::Aliases,
    }
}

// What is wrong with a source query by the tables before it. Else its outputs.
fn judge_query(
    alloc: Global,
    tables: &TableIndex,
    query: &SourceQuery,
) -> Result<NameIndex, Stop<ShapeKind>>
    ensures refused { IsRefusedBy result (queries.query_breach tables.now query.now) }
    ensures outputs { IfOk result (λ outputs. outputs ≡ maps.outputs query.now) }
{
    let entries = query.from.as_slice();
    judge_entries(alloc, tables, entries)?;
    let outputs = judge_items(alloc, tables, entries, query.items.as_slice())?;
    match comparisons_breach(tables, entries, query.conditions.as_slice()) {
        None => Ok(outputs),
        Some(kind) => Err(Stop::Named(kind)),
    }
}

// What is wrong with entries, in order: a table that is not declared, or an alias that stands before.
fn judge_entries(
    alloc: Global,
    tables: &TableIndex,
    entries: &[FromEntry],
) -> Result<(), Stop<ShapeKind>>
    ensures { IsRefusedBy result (queries.from_breach tables.now [] entries.now) }
{
    let mut aliases = NameIndex::new(alloc);
    for entry in entries {
        if !tables.has(entry.table.as_str()) {
            return Err(Stop::Named(ShapeKind::UnknownTable));
        }
        if aliases.has(entry.alias.as_str()) {
            return Err(Stop::Named(ShapeKind::DoubleName));
        }
        aliases.push(alloc, entry.alias.as_str())?;
    }
    Ok(())
}

// What is wrong with items, in order: a column that means nothing, or an output that stands before. Else their outputs.
fn judge_items(
    alloc: Global,
    tables: &TableIndex,
    entries: &[FromEntry],
    items: &[SelectItem],
) -> Result<NameIndex, Stop<ShapeKind>>
    ensures refused { IsRefusedBy result (queries.items_breach tables.now entries.now [] items.now) }
    ensures outputs { IfOk result (λ outputs. outputs ≡ inside.outputs_of items.now) }
{
    let mut outputs = NameIndex::new(alloc);
    for item in items {
        if column_kind(tables, entries, &item.alias, &item.column).is_none() {
            return Err(Stop::Named(ShapeKind::UnknownColumn));
        }
        if outputs.has(item.output.as_str()) {
            return Err(Stop::Named(ShapeKind::DoubleName));
        }
        outputs.push(alloc, item.output.as_str())?;
    }
    Ok(outputs)
}

// The first comparison, in order, with a column that means nothing or with sides of different kinds.
fn comparisons_breach(
    tables: &TableIndex,
    entries: &[FromEntry],
    comparisons: &[Comparison],
) -> Option<ShapeKind>
    ensures { result ≡ queries.comparisons_breach tables.now entries.now comparisons.now }
{
    for c in comparisons {
        let left = operand_kind(tables, entries, &c.left);
        let right = operand_kind(tables, entries, &c.right);
        let breach = sides_breach(left, right);
        if breach.is_some() {
            return breach;
        }
    }
    None
}

// What is wrong with the sides of a comparison of these kinds: the left one, the right one, then both.
fn sides_breach(left: Option<Kind>, right: Option<Kind>) -> Option<ShapeKind>
    ensures { result ≡ queries.sides_breach left right }
{
    match left {
        None => Some(ShapeKind::UnknownColumn),
        Some(left) => match right {
            None => Some(ShapeKind::UnknownColumn),
            Some(right) => kinds_breach(left, right),
        },
    }
}

// What is wrong with two kinds: that they differ.
fn kinds_breach(left: Kind, right: Kind) -> Option<ShapeKind>
    ensures { result ≡ queries.kinds_breach left right }
{
    match (left, right) {
        (Kind::Text, Kind::Text) => None,
        (Kind::Integer, Kind::Integer) => None,
        (Kind::Date, Kind::Date) => None,
        (Kind::Text, Kind::Integer) => Some(ShapeKind::KindClash),
        (Kind::Text, Kind::Date) => Some(ShapeKind::KindClash),
        (Kind::Integer, Kind::Text) => Some(ShapeKind::KindClash),
        (Kind::Integer, Kind::Date) => Some(ShapeKind::KindClash),
        (Kind::Date, Kind::Text) => Some(ShapeKind::KindClash),
        (Kind::Date, Kind::Integer) => Some(ShapeKind::KindClash),
    }
}

// The kind of a side of a comparison; none where its column means nothing.
fn operand_kind(tables: &TableIndex, entries: &[FromEntry], operand: &Operand) -> Option<Kind>
    ensures { result ≡ queries.operand_kind tables.now entries.now operand.now }
{
    match operand {
        Operand::Column { alias, column } => column_kind(tables, entries, alias, column),
        Operand::Constant(value) => Some(value_kind(value)),
    }
}

fn value_kind(value: &Value) -> Kind
    ensures { result ≡ whole.value_kind value.now }
{
    match value {
        Value::Int(_) => Kind::Integer,
        Value::Text(_) => Kind::Text,
        Value::Date(_) => Kind::Date,
    }
}

// The kind of the column that a name means, with an alias before it or without; none where it means nothing.
fn column_kind(
    tables: &TableIndex,
    entries: &[FromEntry],
    alias: &Option<Text>,
    name: &Text,
) -> Option<Kind>
    ensures { result ≡ option_map (λ m. m.kind) (columns.meaning_of tables.now entries.now alias.now name.now) }
{
    only_kind(tables, entries, alias, name)
}

// The kind that the column has in the only entry that has it.
fn only_kind(
    tables: &TableIndex,
    entries: &[FromEntry],
    alias: &Option<Text>,
    name: &Text,
) -> Option<Kind>
    ensures { result ≡ columns.only (kinds.kinds tables.now alias.now name.now entries.now) }
{
    let mut found = None;
    for entry in entries {
        if let Some(kind) = kind_in(tables, alias, name, entry) {
            if found.is_some() {
                return None;
            }
            found = Some(kind);
        }
    }
    found
}

// The kind of the column of a name in the table of an entry, where the entry may have it.
fn kind_in(
    tables: &TableIndex,
    alias: &Option<Text>,
    name: &Text,
    entry: &FromEntry,
) -> Option<Kind>
    ensures { result ≡ kinds.kind_in tables.now alias.now name.now entry.now }
{
    if !is_alias(alias, &entry.alias) {
        return None;
    }
    tables.kind(entry.table.as_str(), name.as_str())
}

// Whether an entry with this alias may have the column.
fn is_alias(wanted: &Option<Text>, alias: &Text) -> bool
    ensures { result ≡ columns.is_alias wanted.now alias.now }
{
    match wanted {
        None => true,
        Some(wanted) => *alias == *wanted,
    }
}
