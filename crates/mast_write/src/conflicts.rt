//! The text of a conflict.
ghost use Rattle.std.specs.Prelude.{◌≡◌, ◌++◌, codes, map, IfOk, OnOk};
ghost use Rattle.std.specs.List.{AllByRecursion};
ghost use Rattle.mast_write.specs.ConflictLines as lines;
ghost use Rattle.mast_write.specs.ConflictLines.{IsConflictText, IsInOrder, IsOfTables};
ghost use Rattle.mast_write.specs.LineText.{lines_text};

use crate::document_lines::doc_word;
use crate::file_lines::push_text;
use mast_canon::{Ground, Origin, RowId};
use mast_tables::TableDecl;
use mast_terms::NoMemory;
use std::alloc::Global;

/// The text of a conflict: the line `conflict GROUND DOC line L` of its origin, and then a line `row TABLE NUMBER` for
/// each row, by declared order of tables and then by number.
///
/// The rows may stand in any order, and one several times: each is printed once.
pub fn conflict_text(
    alloc: Global,
    origin: &Origin,
    tables: &[TableDecl],
    rows: &[RowId],
) -> Result<Vec<u8>, NoMemory>
    requires { AllByRecursion (IsOfTables tables.now) rows.now }
    ensures { IfOk result (λ text. IsConflictText origin.now tables.now rows.now text.items) }
{
    let ordered = in_order(alloc, rows)?;
    let mut text = origin_line(alloc, *origin)?;
    push_rows(alloc, tables, &ordered, &mut text)?;
    Ok(text)
}

// `conflict GROUND DOC line L`, with its line feed
fn origin_line(alloc: Global, origin: Origin) -> Result<Vec<u8>, NoMemory>
    ensures { IfOk result (λ text. text.items ≡ lines.origin_line origin ++ codes "\n") }
{
    let ground = ground_word(origin.ground);
    let doc = doc_word(origin.doc);
    let line = origin.line;
    Ok(format!(in alloc; "conflict {ground} {doc} line {line}\n")?.into_bytes())
}

// The word of a ground.
fn ground_word(ground: Ground) -> &'static str
    ensures { result.now ≡ lines.ground_word ground }
{
    match ground {
        Ground::Disjoint => "disjoint",
        Ground::Irreflexive => "irreflexive",
        Ground::ValueType => "type",
        Ground::Functional => "functional",
        Ground::Identify => "identify",
        Ground::Deny => "deny",
    }
}

// The rows in order, each once.
fn in_order(alloc: Global, rows: &[RowId]) -> Result<Vec<RowId>, NoMemory>
    ensures { IfOk result (λ ordered. IsInOrder rows.now ordered.items) }
{
    let mut ordered = Vec::new(alloc);
    ordered.extend_from_slice(rows)?;
    ordered.sort_unstable();
    ordered.dedup();
    Ok(ordered)
}

// Appends the lines of rows.
fn push_rows(
    alloc: Global,
    tables: &[TableDecl],
    rows: &[RowId],
    text: &mut Vec<u8>,
) -> Result<(), NoMemory>
    requires { AllByRecursion (IsOfTables tables.now) rows.now }
    ensures { OnOk result (text.new.items ≡ text.old.items ++ lines_text (map (lines.row_line tables.now) rows.now)) }
{
    for row in rows {
        push_row(alloc, tables, *row, text)?;
    }
    Ok(())
}

// Appends `row TABLE NUMBER` and the line feed.
fn push_row(
    alloc: Global,
    tables: &[TableDecl],
    row: RowId,
    text: &mut Vec<u8>,
) -> Result<(), NoMemory>
    requires { IsOfTables tables.now row }
    ensures { OnOk result (text.new.items ≡ text.old.items ++ (lines.row_line tables.now row ++ codes "\n")) }
{
    let table = table_of(tables, row);
    let number = row.number;
    push_text(format!(in alloc; "row {table} {number}\n")?, text)
}

// The name of a row's table.
fn table_of(tables: &[TableDecl], row: RowId) -> &str
    requires { IsOfTables tables.now row }
    ensures { result.now ≡ lines.table_of tables.now row }
{
    tables[row.table as usize].name.as_str()
}
