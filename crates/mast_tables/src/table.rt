//! Tables, their cells and the numbers of their values.
ghost use Rattle.std.specs.Prelude.{◌≡◌, ◌+◌, ◌<◌, ◌≤◌, IfOk, OnOk, length, option_copied};
ghost use Rattle.mast_tables.specs.Limits.{most_cells};
ghost use Rattle.mast_tables.specs.Rows.{IsPlace, cell_at, number_at, number_of};
ghost use Rattle.mast_tables.specs.Whole.{MayHold, whole_row, whole_rows};
ghost use Rattle.mast_tables.specs.inside.Cells.{AreCells, cells_in, width_in};
ghost use Rattle.mast_tables.specs.inside.Reading.{Adds};

use crate::TableDecl;
use crate::cells::Cells;
use crate::typed::Content;
use mast_terms::{List, NoMemory, Value};
use std::alloc::Global;
use std::marker::Model;

/// A table: rows of cells, each a value of its column's kind, or missing. Rows and columns count from 1.
/// Contracts see its rows.
#[derive(Drop)]
pub struct Table {
    pub(crate) count: u32,
    pub(crate) cells: Cells,
}

impl Model for Table {
    ghost use Rattle.std.specs.Prelude.{List};
    ghost use Rattle.mast_tables.specs.Rows.{Row};
    ghost use Rattle.mast_tables.specs.inside.Cells.{IsGrid, cells_in, rows_of, width_in};

    ghost Value = { List Row };

    ghost view = { λ t. rows_of (width_in t.cells) t.count (cells_in t.cells) };

    ghost invariant = { λ t. IsGrid t.count t.cells };
}

impl Table {
    /// The value of a cell. None comes exactly for a missing cell.
    pub fn cell(&self, row: u32, column: u32) -> Option<&Value>
        requires { IsPlace self.now row column }
        ensures { option_copied result ≡ cell_at self.now row column }
    {
        self.cells.value(row as usize - 1, column as usize - 1)
    }

    /// How many rows there are.
    pub fn rows(&self) -> u32
        ensures { result ≡ length self.now }
    {
        self.count
    }

    /// The number of a cell's value, from 0. None comes exactly for a missing cell.
    /// Two cells of one table have one number exactly where their values are equal.
    pub fn number(&self, row: u32, column: u32) -> Option<u32>
        requires { IsPlace self.now row column }
        ensures { result ≡ number_at self.now row column }
    {
        self.cells.number(row as usize - 1, column as usize - 1)
    }

    /// The number that the cells with this value have. None comes exactly where no cell has it.
    pub fn find(&self, value: &Value) -> Option<u32>
        ensures { result ≡ number_of self.now value.now }
    {
        self.cells.find(value)
    }

    /// The table whose cells are these values, none of them missing. It needs one column or more, rows of the declared
    /// width and kinds, and at most 4,000,000,000 cells. A value that stands in several cells is copied once.
    pub fn of(alloc: Global, decl: &TableDecl, rows: &[List<Value>]) -> Result<Table, NoMemory>
        requires { MayHold decl.now.columns rows.now }
        ensures { IfOk result (λ table. table ≡ whole_rows rows.now) }
    {
        let mut cells = Cells::new(alloc, decl.columns.as_slice().len())?;
        for row in rows {
            push_row(alloc, row.as_slice(), &mut cells)?;
        }
        Ok(Table {
            count: rows.len() as u32,
            cells,
        })
    }

    /// A table with the same cells.
    pub fn copy(&self, alloc: Global) -> Result<Table, NoMemory>
        ensures { IfOk result (λ table. table ≡ self.now) }
    {
        Ok(Table {
            count: self.count,
            cells: self.cells.copy(alloc)?,
        })
    }
}

// A row of these values, behind the others.
fn push_row(alloc: Global, values: &[Value], cells: &mut Cells) -> Result<(), NoMemory>
    requires cells { AreCells cells.old }
    requires wide { 0 < width_in cells.old }
    requires room { length (cells_in cells.old) + length values.now ≤ most_cells }
    ensures { OnOk result (Adds cells.old cells.new (whole_row values.now)) }
{
    for value in values {
        cells.push(alloc, Content::Lent(value))?;
    }
    Ok(())
}
