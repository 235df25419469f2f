//! Declared tables, and the breach of a table file.
use mast_terms::{Kind, List, Text};

/// A declared table: its name, its file and its columns in order.
#[derive(Debug, Drop)]
pub struct TableDecl {
    pub name: Text,
    pub file: Text,
    pub columns: List<Column>,
}

/// A declared column. Where `null` holds, an empty cell is missing.
#[derive(Debug, Drop)]
pub struct Column {
    pub name: Text,
    pub kind: Kind,
    pub null: bool,
}

/// What is wrong with a table file, in the order in which it is judged at one record.
#[derive(Clone, Copy, Debug, PartialEq, Eq)]
pub enum RowKind {
    /// The header is not the declared column names in their order.
    Header,
    /// There are more rows than the table may have.
    Rows,
    /// The record has fewer or more cells than there are columns.
    Width,
    /// A cell is no UTF-8.
    NotUtf8,
    /// A cell is empty, and its column is neither of texts nor one that may have missing cells.
    Missing,
    /// A cell of an integer column is no integer, or one out of range.
    BadInt,
    /// A cell of a date column is no day of the calendar.
    BadDate,
}

/// The breach of a table file: the number of its record, where 0 is the header, and its column, which counts from 1.
/// A breach of kind `Rows` has column 0.
#[derive(Clone, Copy, Debug, PartialEq, Eq)]
pub struct RowBreach {
    pub number: u32,
    pub column: u32,
    pub kind: RowKind,
}
