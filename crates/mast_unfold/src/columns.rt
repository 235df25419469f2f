//! The columns of declared tables, each found at once by the name of its table and its own.
ghost use Rattle.std.specs.Prelude.{◌≡◌, IfOk};
ghost use Rattle.std.specs.Option.{option_copied, option_map};
ghost use Rattle.mast_mapping.specs.Columns.{column_of_table, is_alias, table_named};
ghost use Rattle.mast_unfold.specs.inside.Lookups.{AreColumns, AreTables, meant, column_in, column_by};

use crate::by_name::ByName;
use mast_sql::FromEntry;
use mast_tables::{Column, TableDecl};
use mast_terms::{Kind, NoMemory, Text};
use std::alloc::Global;
use std::marker::Model;

/// A column of the table of a FROM entry: the number of the entry and that of the column, both from 0, and the kind.
#[derive(Clone, Copy, PartialEq, Eq, Hash)]
pub(crate) struct Place {
    pub(crate) entry: usize,
    pub(crate) column: usize,
    pub(crate) kind: Kind,
}

/// A column of a table: its number, from 0, and its kind.
#[derive(Clone, Copy)]
pub(crate) struct Numbered {
    pub(crate) number: usize,
    pub(crate) kind: Kind,
}

/// Declared tables by name, each with its columns by name. Contracts see the list of the tables.
#[derive(Drop)]
pub(crate) struct Tables<'a> {
    decls: &'a [TableDecl],
    by_name: ByName<ByName<Numbered>>,
}

impl<'a> Model for Tables<'a> {
    ghost use Rattle.std.specs.Prelude.{List};
    ghost use Rattle.mast_tables.specs.declared.declaration.TableDecl.{TableDecl as ATable};
    ghost use Rattle.mast_unfold.specs.inside.Lookups.{AreTables as AreTheTables};

    ghost Value = { List ATable };

    ghost view = { λ t. t.decls.now };

    ghost invariant = { λ t. AreTheTables t.decls.now t.by_name };
}

// The columns by name. Of two with one name it is the first.
fn columns_by_name(alloc: Global, columns: &[Column]) -> Result<ByName<Numbered>, NoMemory>
    ensures { IfOk result (AreColumns columns.now) }
{
    let mut by_name = ByName::new(alloc);
    let mut left = columns.len();
    while left > 0 {
        left -= 1;
        let column = &columns[left];
        let numbered = Numbered {
            number: left,
            kind: column.kind,
        };
        by_name.put(alloc, column.name.as_str(), numbered)?;
    }
    Ok(by_name)
}

// The tables by name. Of two with one name it is the first.
fn tables_by_name(alloc: Global, decls: &[TableDecl]) -> Result<ByName<ByName<Numbered>>, NoMemory>
    ensures { IfOk result (AreTables decls.now) }
{
    let mut by_name = ByName::new(alloc);
    let mut left = decls.len();
    while left > 0 {
        left -= 1;
        let decl = &decls[left];
        let columns = columns_by_name(alloc, decl.columns.as_slice())?;
        by_name.put(alloc, decl.name.as_str(), columns)?;
    }
    Ok(by_name)
}

// Whether an entry with this alias may have the column.
fn is_alias_of(wanted: &Option<Text>, alias: &Text) -> bool
    ensures { result ≡ is_alias wanted.now alias.now }
{
    match wanted {
        None => true,
        Some(wanted) => *alias == *wanted,
    }
}

// The column of a name in the table of a name, for an entry of this number.
fn found_column(
    by_name: &ByName<ByName<Numbered>>,
    table: &Text,
    name: &Text,
    entry: usize,
) -> Option<Place>
    ensures { option_map meant result ≡ column_by by_name.now table.now name.now entry }
{
    let columns = by_name.find(table.as_str())?;
    let column = columns.find(name.as_str())?;
    Some(Place {
        entry,
        column: column.number,
        kind: column.kind,
    })
}

impl<'a> Tables<'a> {
    // Declared tables.
    pub(crate) fn new(alloc: Global, decls: &'a [TableDecl]) -> Result<Tables<'a>, NoMemory>
        ensures { IfOk result (λ tables. tables ≡ decls.now) }
    {
        let by_name = tables_by_name(alloc, decls)?;
        Ok(Tables { decls, by_name })
    }

    // The column of a name in the table of the entry of this number, where the entry may have it.
    pub(crate) fn column(
        &self,
        alias: &Option<Text>,
        name: &Text,
        number: usize,
        entry: &FromEntry,
    ) -> Option<Place>
        ensures { option_map meant result ≡ column_in self.now alias.now name.now number entry.now }
    {
        if !is_alias_of(alias, &entry.alias) {
            return None;
        }
        found_column(&self.by_name, &entry.table, name, number)
    }
}
