//! The cells that the outputs of a split mapping mean.
ghost use Rattle.std.specs.Option.{IsSome};
ghost use Rattle.mast_canon.specs.Conditions.{TablesHaveNumbers};
ghost use Rattle.mast_mapping.specs.Columns.{meaning_of_output};
ghost use Rattle.mast_write.specs.inside.Cells.{IsPlaceOf, IsPlaceOver};

use mast_canon::{output_place, table_number};
use mast_sql::SourceQuery;
use mast_tables::TableDecl;
use mast_terms::{Text, Vocabulary};

/// The vocabulary of a split mapping, the declared tables and the source query.
#[derive(Drop)]
pub(crate) struct Source<'a> {
    pub(crate) vocab: &'a Vocabulary,
    pub(crate) tables: &'a [TableDecl],
    pub(crate) query: &'a SourceQuery,
    ghost numbered: { ∥ TablesHaveNumbers tables.now ∥₁ },
}

/// The cell of a column in the row that is chosen for a FROM entry.
/// The entry and its table count from 0, the column from 1.
#[derive(Clone, Copy)]
pub(crate) struct CellPlace {
    pub(crate) entry: usize,
    pub(crate) table: usize,
    pub(crate) column: u32,
}

impl Source<'_> {
    // The place of the cell that an output means.
    pub(crate) fn cell_place(&self, name: &Text) -> CellPlace
        requires { IsSome (meaning_of_output self.now.tables.now self.now.query.now name.now) }
        ensures place { IsPlaceOf (meaning_of_output self.now.tables.now self.now.query.now name.now) result }
        ensures over { IsPlaceOver self.now.tables.now self.now.query.now.from result }
    {
        let found = output_place(self.tables, self.query, name).unwrap();
        let entry = &self.query.from.as_slice()[found.entry];
        CellPlace {
            entry: found.entry,
            table: table_number(&entry.table, self.tables),
            column: found.column as u32 + 1,
        }
    }
}
