//! Cells by the kind of their column.
ghost use Rattle.std.specs.Prelude.{◌≡◌, [], ⊤, IsUtf8};
ghost use Rattle.mast_terms.specs.declared.value.Kind.TheVariants as kind;
ghost use Rattle.mast_tables.specs.Typed.{IsMissing};
ghost use Rattle.mast_tables.specs.inside.Reading.{TellsCell};

use crate::{Column, RowKind};
use mast_terms::{Kind, Value, read_date, read_int};

// What a cell holds. A text is lent by its record, and a value that is there by who has it, so that no cell takes
// memory before it is known to be new.
#[derive(Drop)]
pub(crate) enum Content<'a> {
    Missing,
    Text(&'a str),
    Lent(&'a Value),
    Other(Value),
}

// What a cell holds, or what is wrong with it.
pub(crate) fn read_cell<'a>(cell: &'a [u8], column: &Column) -> Result<Content<'a>, RowKind>
    ensures { TellsCell column.now cell.now result }
{
    let text = match str::from_utf8(cell) {
        Ok(text) => text,
        Err(_) => return Err(RowKind::NotUtf8),
    };
    if cell.is_empty() && column.null {
        return Ok(Content::Missing);
    }
    match column.kind {
        Kind::Text => Ok(Content::Text(text)),
        Kind::Integer => read_integer_cell(cell, column),
        Kind::Date => read_date_cell(cell, column),
    }
}

// A cell of an integer column that is not missing.
fn read_integer_cell<'a>(cell: &'a [u8], column: &Column) -> Result<Content<'a>, RowKind>
    requires text { IsUtf8 cell.now }
    requires there { IsMissing column.now cell.now → ⊥ }
    requires kind { column.now.kind ≡ kind.Integer }
    ensures { TellsCell column.now cell.now result }
{
    if cell.is_empty() {
        return Err(RowKind::Missing);
    }
    match read_int(cell) {
        Ok(number) => Ok(Content::Other(Value::Int(number))),
        Err(_) => Err(RowKind::BadInt),
    }
}

// A cell of a date column that is not missing.
fn read_date_cell<'a>(cell: &'a [u8], column: &Column) -> Result<Content<'a>, RowKind>
    requires text { IsUtf8 cell.now }
    requires there { IsMissing column.now cell.now → ⊥ }
    requires kind { column.now.kind ≡ kind.Date }
    ensures { TellsCell column.now cell.now result }
{
    if cell.is_empty() {
        return Err(RowKind::Missing);
    }
    match read_date(cell) {
        Ok(date) => Ok(Content::Other(Value::Date(date))),
        Err(_) => Err(RowKind::BadDate),
    }
}
