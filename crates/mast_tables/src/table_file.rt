//! Table files: a file's records, and the table that they are or the first breach.
ghost use Rattle.std.specs.Prelude.{◌≡◌, ◌<◌, ◌≤◌, ◌+◌, ◌↔◌, IsTrue, IfSome, IfNone, IfOk, length, get_or, []};
ghost use Rattle.csv.specs.Reading.{error_kind, reader_state, source_of};
ghost use Rattle.csv.specs.Records.{fields_of};
ghost use Rattle.mast_tables.specs.Breach.{DiffersAt, header_of, TellsFile};
ghost use Rattle.mast_tables.specs.Limits.{most_cells};
ghost use Rattle.mast_tables.specs.Records.{records_of};
ghost use Rattle.mast_tables.specs.inside.Cells.{AreCells, cells_in, width_in};
ghost use Rattle.mast_tables.specs.inside.Reading.{IsOfReading, IsPlain, LeavesRoom, TakesNext, TellsAll, TellsCells, TellsRest, TellsRow};

use crate::cells::Cells;
use crate::typed::read_cell;
use crate::{Column, RowBreach, RowKind, Table, TableDecl};
use csv::{ByteRecord, Error, Reader, ReaderBuilder};
use mast_terms::{NoMemory, Stop};
use std::alloc::Global;
use std::io::Read;

/// The table of a file, with at most `most` rows, or the file's first breach.
///
/// The breach is that of the least record that has one. At one record `Header` comes before `Rows`, `Rows` before
/// `Width`, and `Width` before the cells. Among the cells the least column decides, and at one cell the order is
/// `NotUtf8`, `Missing`, `BadInt`, `BadDate`. `Header` is at record 0 and the least column at which header and
/// declaration differ; a file without any record has it at column 1. `Rows` is at record `most + 1` and column 0.
/// `Width` is at the least column that only one of record and declaration has.
pub fn load(
    alloc: Global,
    bytes: &[u8],
    decl: &TableDecl,
    most: u32,
) -> Result<Table, Stop<RowBreach>>
    requires small { length bytes.now < most_cells }
    requires columns { length decl.now.columns < most_cells }
    ensures { TellsFile decl.now.columns most (records_of bytes.now) result }
{
    let mut reader = ReaderBuilder::new()
        .has_headers(false)
        .flexible(true)
        .from_reader(alloc, bytes);
    read_table(
        alloc,
        &mut reader,
        decl.columns.as_slice(),
        most,
        bytes.len() as u32,
    )
}

// The header, and then at most so many records.
fn read_table<R: Read>(
    alloc: Global,
    reader: &mut Reader<R>,
    columns: &[Column],
    most: u32,
    turns: u32,
) -> Result<Table, Stop<RowBreach>>
    requires columns { length columns.now < most_cells }
    requires plain { IsPlain reader.old }
    requires room { LeavesRoom 0 (source_of R.remaining reader.old) (reader_state reader.old) }
    ensures { TellsAll columns.now most turns (source_of R.remaining reader.old) (reader_state reader.old) result }
{
    let mut line = ByteRecord::new(alloc);
    if !next(reader, &mut line)? {
        return Err(Stop::Named(RowBreach {
            number: 0,
            column: 1,
            kind: RowKind::Header,
        }));
    }
    match header_breach(&line, columns) {
        Some(column) => Err(Stop::Named(RowBreach {
            number: 0,
            column,
            kind: RowKind::Header,
        })),
        None => read_rows(alloc, reader, &mut line, columns, most, turns),
    }
}

// The next record, if there is one.
fn next<R: Read>(reader: &mut Reader<R>, line: &mut ByteRecord) -> Result<bool, NoMemory>
    requires { IsPlain reader.old }
    ensures plain { IfOk result (λ _. IsPlain reader.new) }
    ensures read { IfOk result (λ found. TakesNext R.remaining reader.old reader.new found (fields_of line.new)) }
{
    match reader.read_byte_record(line) {
        Ok(found) => Ok(found),
        Err(error) => Err(want_of_memory(error)),
    }
}

// The answer on an error of reading alone: want of memory, or a fault of what is read from. Bytes in memory have no
// faults, but the reader's contract does not say so; want of memory is the one answer that says nothing of the file.
fn want_of_memory(error: Error) -> NoMemory
    requires { IsOfReading (error_kind error) }
{
    drop(error);
    NoMemory
}

// The least column at which header and declaration differ.
fn header_breach(header: &ByteRecord, columns: &[Column]) -> Option<u32>
    requires { length columns.now < most_cells }
    ensures differs { IfSome result (λ column. DiffersAt 1 (header_of columns.now) (fields_of header.now) column) }
    ensures same { IfNone result (fields_of header.now ≡ header_of columns.now) }
{
    for (i, column) in columns.iter().enumerate() {
        if i >= header.len() {
            return Some(i as u32 + 1);
        }
        if !is_name(field(header, i), column) {
            return Some(i as u32 + 1);
        }
    }
    if header.len() > columns.len() {
        return Some(columns.len() as u32 + 1);
    }
    None
}

fn is_name(cell: &[u8], column: &Column) -> bool
    ensures { IsTrue result ↔ (cell.now ≡ column.now.name) }
{
    cell == column.name.as_str().as_bytes()
}

// The rows that are left, at most so many.
fn read_rows<R: Read>(
    alloc: Global,
    reader: &mut Reader<R>,
    line: &mut ByteRecord,
    columns: &[Column],
    most: u32,
    turns: u32,
) -> Result<Table, Stop<RowBreach>>
    requires columns { length columns.now < most_cells }
    requires plain { IsPlain reader.old }
    requires room { LeavesRoom 0 (source_of R.remaining reader.old) (reader_state reader.old) }
    ensures { TellsRest columns.now most turns (source_of R.remaining reader.old) (reader_state reader.old) result }
{
    let mut cells = Cells::new(alloc, columns.len())?;
    for row in 0..turns {
        if !next(reader, line)? {
            return Ok(Table { count: row, cells });
        }
        read_row(alloc, line, columns, most, row + 1, &mut cells)?;
    }
    Ok(Table {
        count: turns,
        cells,
    })
}

// The row of the record with this number.
fn read_row(
    alloc: Global,
    line: &ByteRecord,
    columns: &[Column],
    most: u32,
    number: u32,
    cells: &mut Cells,
) -> Result<(), Stop<RowBreach>>
    requires columns { length columns.now < most_cells }
    requires cells { AreCells cells.old }
    requires wide { width_in cells.old ≡ length columns.now }
    requires room { length (cells_in cells.old) + length (fields_of line.now) ≤ most_cells }
    ensures { TellsRow columns.now most number (fields_of line.now) cells.old cells.new result }
{
    if number > most {
        return Err(Stop::Named(RowBreach {
            number,
            column: 0,
            kind: RowKind::Rows,
        }));
    }
    if line.len() != columns.len() {
        return Err(Stop::Named(RowBreach {
            number,
            column: line.len().min(columns.len()) as u32 + 1,
            kind: RowKind::Width,
        }));
    }
    read_cells(alloc, line, columns, number, cells)
}

// The cells of a record, each by its column, or the first wrong one.
fn read_cells(
    alloc: Global,
    line: &ByteRecord,
    columns: &[Column],
    number: u32,
    cells: &mut Cells,
) -> Result<(), Stop<RowBreach>>
    requires columns { length columns.now < most_cells }
    requires width { length (fields_of line.now) ≡ length columns.now }
    requires cells { AreCells cells.old }
    requires wide { width_in cells.old ≡ length columns.now }
    requires room { length (cells_in cells.old) + length (fields_of line.now) ≤ most_cells }
    ensures { TellsCells columns.now number (fields_of line.now) cells.old cells.new result }
{
    for (i, column) in columns.iter().enumerate() {
        match read_cell(field(line, i), column) {
            Ok(content) => cells.push(alloc, content)?,
            Err(kind) => {
                return Err(Stop::Named(RowBreach {
                    number,
                    column: i as u32 + 1,
                    kind,
                }));
            }
        }
    }
    Ok(())
}

fn field(line: &ByteRecord, i: usize) -> &[u8]
    requires { i < length (fields_of line.now) }
    ensures { result.now ≡ get_or (fields_of line.now) i [] }
{
    line.get(i).unwrap()
}
