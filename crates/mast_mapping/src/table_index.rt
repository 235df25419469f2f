//! Declared tables in order, each found at once by its name, and its columns by theirs.
ghost use Rattle.std.specs.Prelude.{◌≡◌, [], ◌∷◌, ◌++◌, None, false, is_some, option_copied, IfOk, OnOk};
ghost use Rattle.mast_terms.specs.Vocabularies.{stands};
ghost use Rattle.mast_mapping.specs.Columns.{table_named};
ghost use Rattle.mast_mapping.specs.OverTables.{table_names};
ghost use Rattle.mast_mapping.specs.inside.Indices.{shown, value_named, kind_in_kinds, column_kinds};
ghost use Rattle.mast_mapping.specs.inside.Kinds.{kind_of_table};

use crate::kind_index::KindIndex;
use indexmap::IndexMap;
use mast_tables::TableDecl;
use mast_terms::{Kind, List, NoMemory};
use std::alloc::Global;
use std::marker::Model;

/// Declared tables. Contracts see the list of them.
#[derive(Drop)]
pub(crate) struct TableIndex {
    tables: List<TableDecl>,
    columns: IndexMap<String, KindIndex>,
}

impl Model for TableIndex {
    ghost use Rattle.std.specs.Prelude.{◌≡◌, List};
    ghost use Rattle.mast_tables.specs.declared.declaration.TableDecl.{TableDecl as ATable};
    ghost use Rattle.mast_mapping.specs.inside.Indices.{shown, table_kinds};

    ghost Value = { List ATable };

    ghost view = { λ index. index.tables };

    ghost invariant = { λ index. shown index.columns.entries ≡ table_kinds index.tables };
}

impl TableIndex {
    // No tables.
    pub(crate) fn new(alloc: Global) -> TableIndex
        ensures { result ≡ [] }
    {
        TableIndex {
            tables: List::new(alloc),
            columns: IndexMap::new(alloc),
        }
    }

    // Whether a table of a name is there.
    pub(crate) fn has(&self, name: &str) -> bool
        ensures { result ≡ stands name.now (table_names self.now) }
    {
        holds(&self.columns, name)
    }

    // The kind of the column of a name in the table of a name.
    pub(crate) fn kind(&self, table: &str, column: &str) -> Option<Kind>
        ensures { result ≡ kind_of_table column.now (table_named table.now self.now) }
    {
        find_kind(&self.columns, table, column)
    }

    // With a new table last, and the kinds of its columns.
    pub(crate) fn with(
        self,
        alloc: Global,
        table: TableDecl,
        kinds: KindIndex,
    ) -> Result<TableIndex, NoMemory>
        requires kinds { kinds ≡ column_kinds table.columns }
        requires new { stands table.name (table_names self) ≡ false }
        ensures { IfOk result (λ index. index ≡ self ++ table ∷ []) }
    {
        let TableIndex {
            mut tables,
            mut columns,
        } = self;
        put(&mut columns, alloc, table.name.as_str(), kinds)?;
        tables.push(alloc, table)?;
        Ok(TableIndex { tables, columns })
    }

    // The tables.
    pub(crate) fn into_tables(self) -> List<TableDecl>
        ensures { result ≡ self }
    {
        let TableIndex { tables, columns: _ } = self;
        tables
    }
}

// The kinds of the columns of the table of a name.
fn find<'t>(columns: &'t IndexMap<String, KindIndex>, name: &str) -> Option<&'t KindIndex>
    ensures { option_copied result ≡ value_named name.now (shown columns.now.entries) }
{
    columns.get(name)
}

// The kind of the column of a name in the table of a name.
fn find_kind(columns: &IndexMap<String, KindIndex>, table: &str, column: &str) -> Option<Kind>
    ensures { result ≡ kind_in_kinds column.now (value_named table.now (shown columns.now.entries)) }
{
    match find(columns, table) {
        None => None,
        Some(kinds) => kinds.kind(column),
    }
}

// Whether a table of a name is there.
fn holds(columns: &IndexMap<String, KindIndex>, name: &str) -> bool
    ensures { result ≡ is_some (value_named name.now (shown columns.now.entries)) }
{
    match find(columns, name) {
        None => false,
        Some(_) => true,
    }
}

// Puts a table with a new name last.
fn put(
    columns: &mut IndexMap<String, KindIndex>,
    alloc: Global,
    name: &str,
    kinds: KindIndex,
) -> Result<(), NoMemory>
    requires { value_named name.now (shown columns.old.entries) ≡ None }
    ensures { OnOk result (shown columns.new.entries ≡ shown columns.old.entries ++ (name.now, kinds) ∷ []) }
{
    columns.insert(String::from_str(alloc, name)?, kinds)?;
    Ok(())
}
