//! The columns that sides of comparisons and outputs mean, and the numbers of tables, by the declared tables.
ghost use Rattle.std.specs.Prelude.{◌≡◌};
ghost use Rattle.std.specs.Option.{option_copied, option_map};
ghost use Rattle.mast_mapping.specs.Columns as spec;
ghost use Rattle.mast_canon.specs.Choices as choices;
ghost use Rattle.mast_canon.specs.Places as places;
ghost use Rattle.mast_canon.specs.Places.{meaning};

use mast_sql::{FromEntry, SelectItem, SourceQuery};
use mast_tables::{Column, TableDecl};
use mast_terms::{Kind, Text};

/// A column of the table of a FROM entry.
#[derive(Clone, Copy)]
pub struct Place {
    /// The number of the entry, from 0.
    pub entry: usize,
    /// The number of the column in the entry's table, from 0.
    pub column: usize,
    /// The kind of the column.
    pub kind: Kind,
}

/// The number of the table of a name, from 0; where there is none, one that no table has.
pub fn table_number(name: &Text, decls: &[TableDecl]) -> usize
    ensures { result ≡ choices.table_number name.now decls.now }
{
    let mut number = 0;
    for decl in decls {
        if decl.name == *name {
            return number;
        }
        number += 1;
    }
    number
}

// The table of a name.
fn table_named<'a>(name: &Text, tables: &'a [TableDecl]) -> Option<&'a TableDecl>
    ensures { option_copied result ≡ spec.table_named name.now tables.now }
{
    for table in tables {
        if table.name == *name {
            return Some(table);
        }
    }
    None
}

// The column of a name in the table of an entry.
fn column_named(name: &Text, entry: usize, columns: &[Column]) -> Option<Place>
    ensures { option_map meaning result ≡ spec.column_named name.now entry 0 columns.now }
{
    let mut number = 0;
    for column in columns {
        if column.name == *name {
            return Some(Place {
                entry,
                column: number,
                kind: column.kind,
            });
        }
        number += 1;
    }
    None
}

// Whether an entry with this alias may have the column.
fn is_alias(wanted: &Option<Text>, alias: &Text) -> bool
    ensures { result ≡ spec.is_alias wanted.now alias.now }
{
    match wanted {
        None => true,
        Some(wanted) => *alias == *wanted,
    }
}

// The column of a name in the table of an entry, where the entry may have it.
fn column_in(
    decls: &[TableDecl],
    alias: &Option<Text>,
    name: &Text,
    number: usize,
    entry: &FromEntry,
) -> Option<Place>
    ensures { option_map meaning result ≡ places.column_in decls.now alias.now name.now number entry.now }
{
    if !is_alias(alias, &entry.alias) {
        return None;
    }
    match table_named(&entry.table, decls) {
        None => None,
        Some(table) => column_named(name, number, table.columns.as_slice()),
    }
}

/// What a column means over these entries: the only column of its name, with an alias before it or without. None where no
/// entry has it, or two have.
pub fn place_of(
    decls: &[TableDecl],
    entries: &[FromEntry],
    alias: &Option<Text>,
    name: &Text,
) -> Option<Place>
    ensures { option_map meaning result ≡ spec.meaning_of decls.now entries.now alias.now name.now }
{
    let mut found = None;
    let mut number = 0;
    for entry in entries {
        if let Some(place) = column_in(decls, alias, name, number, entry) {
            if found.is_some() {
                return None;
            }
            found = Some(place);
        }
        number += 1;
    }
    found
}

// The item that goes out under this name.
fn item_named<'a>(items: &'a [SelectItem], name: &Text) -> Option<&'a SelectItem>
    ensures { option_copied result ≡ spec.item_named name.now items.now }
{
    for item in items {
        if item.output == *name {
            return Some(item);
        }
    }
    None
}

/// What an output of a source query means. None where no item goes out under this name, or its column means nothing.
pub fn output_place(decls: &[TableDecl], query: &SourceQuery, name: &Text) -> Option<Place>
    ensures { option_map meaning result ≡ spec.meaning_of_output decls.now query.now name.now }
{
    match item_named(query.items.as_slice(), name) {
        None => None,
        Some(item) => place_of(decls, query.from.as_slice(), &item.alias, &item.column),
    }
}
