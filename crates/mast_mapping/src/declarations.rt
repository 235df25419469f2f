//! Declared tables, read from `Table` nodes by the grammar's rules.
ghost use Rattle.std.specs.Prelude.{[]};
ghost use Rattle.mast_tree.specs.Results.{Gives};
ghost use Rattle.mast_tree.specs.Said.{said};
ghost use Rattle.mast_mapping.specs.Declarations as spec;
ghost use Rattle.mast_mapping.specs.OverTables.{table_names};
ghost use Rattle.mast_mapping.specs.inside.Declared.{ReadsTable, ReadsColumns, ReadsColumn, names_of};
ghost use Rattle.mast_mapping.specs.inside.Readers.{doc_of};

use crate::doc_reader::DocReader;
use crate::kind_index::KindIndex;
use crate::table_index::TableIndex;
use mast_tables::{Column, TableDecl};
use mast_terms::{Kind, List, Stop, Text};
use mast_tree::{Item, Layer, ShapeBreach, ShapeKind, wrong};
use std::alloc::Global;

impl<'r, 'a> DocReader<'r, 'a> {
    // Table(Identifier Str Column Column ..): the table, and the kinds of its columns.
    pub(crate) fn table(
        &self,
        alloc: Global,
        before: &TableIndex,
        line: u32,
        items: &[Item],
    ) -> Result<(TableDecl, KindIndex), Stop<ShapeBreach>>
        ensures { ReadsTable (spec.table_in (doc_of self.now) (table_names before.now) line items.now) result }
    {
        match items {
            [name, file, _, ..] => {
                let name = self.table_name(alloc, before, name)?;
                let file = self.string(alloc, file)?;
                let (_, columns) = items.split_at(2);
                let (columns, kinds) = self.columns(alloc, columns)?;
                Ok((
                    TableDecl {
                        name,
                        file,
                        columns,
                    },
                    kinds,
                ))
            }
            _ => Err(wrong(line, ShapeKind::Shape)),
        }
    }

    // The name of a table, which no table before has.
    fn table_name(
        &self,
        alloc: Global,
        tables: &TableIndex,
        item: &Item,
    ) -> Result<Text, Stop<ShapeBreach>>
        ensures { Gives result (spec.new_name (table_names tables.now) (said (doc_of self.now) item.now)) }
    {
        let name = self.identifier(alloc, item)?;
        if tables.has(name.as_str()) {
            return Err(self.wrong(item, ShapeKind::DoubleName));
        }
        Ok(name)
    }

    // Columns, and their kinds.
    fn columns(
        &self,
        alloc: Global,
        items: &[Item],
    ) -> Result<(List<Column>, KindIndex), Stop<ShapeBreach>>
        ensures { ReadsColumns (spec.columns_of (doc_of self.now) [] items.now) result }
    {
        let mut columns = List::new(alloc);
        let mut kinds = KindIndex::new(alloc);
        for item in items {
            let column = self.column(alloc, &kinds, item)?;
            kinds.push(alloc, column.name.as_str(), column.kind)?;
            columns.push(alloc, column)?;
        }
        Ok((columns, kinds))
    }

    // Column(Identifier kind) or Column(Identifier kind Null), behind others.
    fn column(
        &self,
        alloc: Global,
        before: &KindIndex,
        item: &Item,
    ) -> Result<Column, Stop<ShapeBreach>>
        ensures { ReadsColumn (doc_of self.now) (names_of before.now) item.now result }
    {
        match self.doc.layer(item) {
            Layer::Node { word, line, items } => {
                if word == "Column" {
                    self.column_in(alloc, before, line, items)
                } else {
                    Err(wrong(line, ShapeKind::Shape))
                }
            }
            _ => Err(self.wrong(item, ShapeKind::Shape)),
        }
    }

    // The items of a `Column` node.
    fn column_in(
        &self,
        alloc: Global,
        before: &KindIndex,
        line: u32,
        items: &[Item],
    ) -> Result<Column, Stop<ShapeBreach>>
        ensures { Gives result (spec.column_in (doc_of self.now) (names_of before.now) line items.now) }
    {
        match items {
            [name, kind] => {
                let name = self.column_name(alloc, before, name)?;
                let kind = self.kind(kind)?;
                Ok(Column {
                    name,
                    kind,
                    null: false,
                })
            }
            [name, kind, null] => {
                let name = self.column_name(alloc, before, name)?;
                let kind = self.kind(kind)?;
                let null = self.null(null)?;
                Ok(Column { name, kind, null })
            }
            _ => Err(wrong(line, ShapeKind::Shape)),
        }
    }

    // The name of a column, which no column of the table before has.
    fn column_name(
        &self,
        alloc: Global,
        before: &KindIndex,
        item: &Item,
    ) -> Result<Text, Stop<ShapeBreach>>
        ensures { Gives result (spec.new_name (names_of before.now) (said (doc_of self.now) item.now)) }
    {
        let name = self.identifier(alloc, item)?;
        if before.has(name.as_str()) {
            return Err(self.wrong(item, ShapeKind::DoubleName));
        }
        Ok(name)
    }

    // The leaf `text`, `integer` or `date`.
    fn kind(&self, item: &Item) -> Result<Kind, Stop<ShapeBreach>>
        ensures { Gives result (spec.kind_of (said (doc_of self.now) item.now)) }
    {
        match self.doc.layer(item) {
            Layer::Name { word, line } => {
                if word == "text" {
                    Ok(Kind::Text)
                } else if word == "integer" {
                    Ok(Kind::Integer)
                } else if word == "date" {
                    Ok(Kind::Date)
                } else {
                    Err(wrong(line, ShapeKind::Shape))
                }
            }
            _ => Err(self.wrong(item, ShapeKind::Shape)),
        }
    }

    // The leaf `Null`.
    fn null(&self, item: &Item) -> Result<bool, Stop<ShapeBreach>>
        ensures { Gives result (spec.null_of (said (doc_of self.now) item.now)) }
    {
        match self.doc.layer(item) {
            Layer::Name { word, line } => {
                if word == "Null" {
                    Ok(true)
                } else {
                    Err(wrong(line, ShapeKind::Shape))
                }
            }
            _ => Err(self.wrong(item, ShapeKind::Shape)),
        }
    }
}
