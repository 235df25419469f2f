//! Tests of mast_tables: table files with their rows or breaches, and that calls succeed where memory is there.
ghost use Rattle.std.specs.Prelude.{◌≡◌, ◌≤◌, ◌∷◌, [], IfOk, length};
ghost use Rattle.std.specs.List.{AllByRecursion};
ghost use Rattle.mast_tables.specs.Rows.{IsPlace};
ghost use Rattle.mast_tables.specs.Whole.{FitsColumns, whole_rows};
ghost use Rattle.mast_tables_tests.specs.Declared.{IsOfNumbers, IsOfPairs, of_pair};

use mast_tables::{Column, RowKind, Table, TableDecl, load};
use mast_terms::{Kind, List, NoMemory, Stop, Text, Value};
use std::alloc::Global;
use std::test::Fail;

fn column(alloc: Global, name: &str, kind: Kind, null: bool) -> Result<Column, NoMemory>
    ensures { IfOk result (λ column. column.kind ≡ kind) }
{
    Ok(Column {
        name: Text::from_str(alloc, name)?,
        kind,
        null,
    })
}

// A table with a text column `name` that may be missing, an integer column `n` and a date column `d`.
fn declared(alloc: Global) -> Result<TableDecl, NoMemory> {
    let mut columns = List::new(alloc);
    columns.push(alloc, column(alloc, "name", Kind::Text, true)?)?;
    columns.push(alloc, column(alloc, "n", Kind::Integer, false)?)?;
    columns.push(alloc, column(alloc, "d", Kind::Date, true)?)?;
    Ok(TableDecl {
        name: Text::from_str(alloc, "t")?,
        file: Text::from_str(alloc, "t.csv")?,
        columns,
    })
}

// The number of rows of a file, or the number, the column and the kind of its breach.
fn judged(
    alloc: Global,
    bytes: &[u8],
    most: u32,
) -> Result<Result<u32, (u32, u32, RowKind)>, NoMemory> {
    if bytes.len() > 1000 {
        return Err(NoMemory);
    }
    let decl = declared(alloc)?;
    if decl.columns.as_slice().len() > 3 {
        return Err(NoMemory);
    }
    match load(alloc, bytes, &decl, most) {
        Ok(table) => Ok(Ok(table.rows())),
        Err(Stop::Named(breach)) => Ok(Err((breach.number, breach.column, breach.kind))),
        Err(Stop::NoMemory) => Err(NoMemory),
    }
}

#[test]
fn files_have_rows(rt: HostRuntime) -> Result<(), Fail> {
    let cases = [
        (b"name,n,d\n".as_slice(), 9, 0),
        (
            b"\xEF\xBB\xBFname,n,d\n\n\"a,\"\"b\"\"\",007,2024-02-29\r\n,+7,\n".as_slice(),
            9,
            2,
        ),
        (b"name,n,d\nu,1,\nu,2,\nv,3,\n".as_slice(), 3, 3),
        (
            b"name,n,d\nu,-9223372036854775808,0001-01-01".as_slice(),
            9,
            1,
        ),
    ];
    for (bytes, most, rows) in cases {
        assert_eq!(rt; judged(rt.alloc(), bytes, most)?, Ok(rows));
    }
    Ok(())
}

#[test]
fn a_header_is_as_declared(rt: HostRuntime) -> Result<(), Fail> {
    let cases = [
        (b"".as_slice(), 1),
        (b"name,m,d\n".as_slice(), 2),
        (b"name,n\n".as_slice(), 3),
        (b"name,n,d,e\nu\n".as_slice(), 4),
        (b"\xEF\xBB\xBF\xEF\xBB\xBFname,n,d\n".as_slice(), 1),
    ];
    for (bytes, column) in cases {
        assert_eq!(rt;
            judged(rt.alloc(), bytes, 9)?,
            Err((0, column, RowKind::Header))
        );
    }
    Ok(())
}

#[test]
fn the_first_breach_comes_before_the_limit_of_rows(rt: HostRuntime) -> Result<(), Fail> {
    let full = b"name,n,d\nu,1,\nu,2,\nv\n".as_slice();
    assert_eq!(rt; judged(rt.alloc(), full, 2)?, Err((3, 0, RowKind::Rows)));
    let wrong = b"name,n,d\nu,1,\nu,x,\nv\n".as_slice();
    assert_eq!(rt; judged(rt.alloc(), wrong, 2)?, Err((2, 2, RowKind::BadInt)));
    Ok(())
}

#[test]
fn a_row_has_a_first_breach(rt: HostRuntime) -> Result<(), Fail> {
    let cases = [
        (b"name,n,d\nu,x\n".as_slice(), 3, RowKind::Width),
        (b"name,n,d\nu,x,y,z\n".as_slice(), 4, RowKind::Width),
        (b"name,n,d\n\"\"\n".as_slice(), 2, RowKind::Width),
        (b"name,n,d\nu,\xFF,y\n".as_slice(), 2, RowKind::NotUtf8),
        (b"name,n,d\n\xC3,,y\n".as_slice(), 1, RowKind::NotUtf8),
        (b"name,n,d\nu,,y\n".as_slice(), 2, RowKind::Missing),
        (
            b"name,n,d\nu,9223372036854775808,y\n".as_slice(),
            2,
            RowKind::BadInt,
        ),
        (
            b"name,n,d\nu,1,2023-02-29\n".as_slice(),
            3,
            RowKind::BadDate,
        ),
    ];
    for (bytes, column, kind) in cases {
        assert_eq!(rt; judged(rt.alloc(), bytes, 9)?, Err((1, column, kind)));
    }
    Ok(())
}

// The number of a cell, whether it is this value, and the number of the value.
fn looked_up(
    alloc: Global,
    bytes: &[u8],
    row: u32,
    column: u32,
    value: &Value,
) -> Result<(Option<u32>, bool, Option<u32>), NoMemory> {
    let decl = declared(alloc)?;
    looked_up_in(alloc, &decl, bytes, row, column, value)
}

fn looked_up_in(
    alloc: Global,
    decl: &TableDecl,
    bytes: &[u8],
    row: u32,
    column: u32,
    value: &Value,
) -> Result<(Option<u32>, bool, Option<u32>), NoMemory> {
    let width = decl.columns.as_slice().len();
    if width > 3 || bytes.len() > 1000 {
        return Err(NoMemory);
    }
    match load(alloc, bytes, decl, 3) {
        Ok(table) => {
            if row < 1 || row > table.rows() || column < 1 || column as usize > width {
                return Err(NoMemory);
            }
            let is = match table.cell(row, column) {
                Some(cell) => *cell == *value,
                None => false,
            };
            Ok((table.number(row, column), is, table.find(value)))
        }
        Err(Stop::Named(_) | Stop::NoMemory) => Err(NoMemory),
    }
}

#[test]
fn equal_values_have_one_number(rt: HostRuntime) -> Result<(), Fail> {
    let alloc = rt.alloc();
    let file = b"name,n,d\nu,1,\n,1,2024-02-29\nu,2,2024-02-29\n".as_slice();
    let u = Value::Text(Text::from_str(alloc, "u")?);
    let z = Value::Text(Text::from_str(alloc, "z")?);
    let one = Value::Int(1);
    let cases = [
        (1, 1, &u, (Some(0), true, Some(0))),
        (3, 1, &u, (Some(0), true, Some(0))),
        (2, 1, &u, (None, false, Some(0))),
        (2, 2, &one, (Some(1), true, Some(1))),
        (3, 2, &z, (Some(3), false, None)),
    ];
    for (row, column, value, wanted) in cases {
        assert_eq!(rt; looked_up(alloc, file, row, column, value)?, wanted);
    }
    Ok(())
}

// A table with a text column and an integer column.
fn pairs(alloc: Global) -> Result<TableDecl, NoMemory>
    ensures { IfOk result (λ decl. IsOfPairs decl.columns) }
{
    let mut columns = List::new(alloc);
    columns.push(alloc, column(alloc, "text", Kind::Text, true)?)?;
    columns.push(alloc, column(alloc, "n", Kind::Integer, false)?)?;
    Ok(TableDecl {
        name: Text::from_str(alloc, "pairs")?,
        file: Text::from_str(alloc, "pairs.csv")?,
        columns,
    })
}

fn pair(alloc: Global, text: &str, number: i64) -> Result<List<Value>, NoMemory>
    ensures { IfOk result (λ row. row ≡ of_pair text.now number) }
{
    let mut row = List::new(alloc);
    row.push(alloc, Value::Text(Text::from_str(alloc, text)?))?;
    row.push(alloc, Value::Int(number))?;
    Ok(row)
}

// The table of two pairs, each with this number.
fn given(alloc: Global, first: &str, second: &str, number: i64) -> Result<Table, NoMemory>
    ensures { IfOk result (λ table. table ≡ whole_rows (of_pair first.now number ∷ of_pair second.now number ∷ [])) }
{
    let decl = pairs(alloc)?;
    let rows = [pair(alloc, first, number)?, pair(alloc, second, number)?];
    Table::of(alloc, &decl, &rows)
}

fn is_cell(table: &Table, row: u32, column: u32, value: &Value) -> bool
    requires { IsPlace table.now row column }
{
    match table.cell(row, column) {
        Some(cell) => *cell == *value,
        None => false,
    }
}

// Whether a row is this text and this number.
fn is_row(alloc: Global, table: &Table, row: u32, text: &str, number: i64) -> bool
    requires first { IsPlace table.now row 1 }
    requires second { IsPlace table.now row 2 }
{
    match Text::from_str(alloc, text) {
        Ok(text) => {
            is_cell(table, row, 1, &Value::Text(text))
                && is_cell(table, row, 2, &Value::Int(number))
        }
        Err(_) => false,
    }
}

// Whether these are the numbers of the empty text and of the last cell of two rows.
fn are_numbers(alloc: Global, table: &Table) -> bool
    requires { IsPlace table.now 2 2 }
{
    match Text::from_str(alloc, "") {
        Ok(text) => {
            table.find(&Value::Text(text)) == Some(2)
                && table.number(2, 2) == Some(1)
                && table.rows() == 2
        }
        Err(_) => false,
    }
}

fn is_given(alloc: Global, table: &Table, first: &str, second: &str, number: i64) -> bool
    requires { table.now ≡ whole_rows (of_pair first.now number ∷ of_pair second.now number ∷ []) }
{
    is_row(alloc, table, 1, first, number)
        && is_row(alloc, table, 2, second, number)
        && are_numbers(alloc, table)
}

// Whether the copy of a table is given too.
fn is_copied(
    alloc: Global,
    table: &Table,
    first: &str,
    second: &str,
    number: i64,
) -> Result<bool, NoMemory>
    requires { table.now ≡ whole_rows (of_pair first.now number ∷ of_pair second.now number ∷ []) }
{
    let copy = table.copy(alloc)?;
    Ok(is_given(alloc, &copy, first, second, number))
}

fn given_and_copied(alloc: Global) -> Result<bool, NoMemory> {
    let table = given(alloc, "u", "", 1)?;
    if !is_given(alloc, &table, "u", "", 1) {
        return Ok(false);
    }
    is_copied(alloc, &table, "u", "", 1)
}

#[test]
fn given_values_are_the_cells_of_a_table_and_of_its_copy(rt: HostRuntime) -> Result<(), Fail> {
    assert!(rt; given_and_copied(rt.alloc())?);
    Ok(())
}

// The file of a table with the integer columns `n` and `one`: so many rows, each with a number of its own and 1.
fn counted(alloc: Global, rows: u32) -> Result<Vec<u8>, NoMemory> {
    let mut file = Vec::new(alloc);
    file.extend_from_slice(b"n,one\n")?;
    for row in 0..rows {
        for power in [100000, 10000, 1000, 100, 10, 1] {
            file.push(b'0' + (row / power % 10) as u8)?;
        }
        file.extend_from_slice(b",1\n")?;
    }
    Ok(file)
}

fn numbers_and_ones(alloc: Global) -> Result<TableDecl, NoMemory> {
    let mut columns = List::new(alloc);
    columns.push(alloc, column(alloc, "n", Kind::Integer, false)?)?;
    columns.push(alloc, column(alloc, "one", Kind::Integer, false)?)?;
    Ok(TableDecl {
        name: Text::from_str(alloc, "t")?,
        file: Text::from_str(alloc, "t.csv")?,
        columns,
    })
}

// How many rows the file of so many has, and the numbers of the values 1 and `last`.
fn numbered(
    alloc: Global,
    rows: u32,
    last: i64,
) -> Result<(u32, Option<u32>, Option<u32>), NoMemory> {
    let file = counted(alloc, rows)?;
    numbers_in(alloc, file.as_slice(), rows, last)
}

fn numbers_in(
    alloc: Global,
    file: &[u8],
    rows: u32,
    last: i64,
) -> Result<(u32, Option<u32>, Option<u32>), NoMemory> {
    let decl = numbers_and_ones(alloc)?;
    if file.len() > 10_000_000 || decl.columns.as_slice().len() > 2 {
        return Err(NoMemory);
    }
    match load(alloc, file, &decl, rows) {
        Ok(table) => Ok((
            table.rows(),
            table.find(&Value::Int(1)),
            table.find(&Value::Int(last)),
        )),
        Err(Stop::Named(_) | Stop::NoMemory) => Err(NoMemory),
    }
}

// Want of memory is the one answer that no clause pins: a table of more values than two bytes count is there.
#[test]
fn more_values_than_two_bytes_count_have_numbers(rt: HostRuntime) -> Result<(), Fail> {
    let alloc = rt.alloc();
    assert_eq!(rt; numbered(alloc, 3, 2)?, (3, Some(1), Some(2)));
    assert_eq!(rt;
        numbered(alloc, 70_000, 69_999)?,
        (70_000, Some(1), Some(69_999))
    );
    Ok(())
}

// The table of a column of so many numbers, 0, 1 and on: how many rows its copy has, and the number of the last value.
fn of_numbers(alloc: Global, count: u32) -> Result<(u32, Option<u32>), NoMemory>
    requires { count ≤ 1000000 }
{
    let table = table_of_numbers(alloc, count)?;
    let copy = table.copy(alloc)?;
    Ok((copy.rows(), copy.find(&Value::Int(count as i64 - 1))))
}

fn table_of_numbers(alloc: Global, count: u32) -> Result<Table, NoMemory>
    requires { count ≤ 1000000 }
{
    let decl = numbers(alloc)?;
    let rows = rows_of_numbers(alloc, &decl, count)?;
    Table::of(alloc, &decl, rows.as_slice())
}

// A table with an integer column.
fn numbers(alloc: Global) -> Result<TableDecl, NoMemory>
    ensures { IfOk result (λ decl. IsOfNumbers decl.columns) }
{
    let mut columns = List::new(alloc);
    columns.push(alloc, column(alloc, "n", Kind::Integer, false)?)?;
    Ok(TableDecl {
        name: Text::from_str(alloc, "numbers")?,
        file: Text::from_str(alloc, "numbers.csv")?,
        columns,
    })
}

// Rows of a number each: 0, 1 and on.
fn rows_of_numbers(
    alloc: Global,
    decl: &TableDecl,
    count: u32,
) -> Result<Vec<List<Value>>, NoMemory>
    requires { IsOfNumbers decl.now.columns }
    ensures long { IfOk result (λ rows. length rows.items ≡ count) }
    ensures fit { IfOk result (λ rows. AllByRecursion (FitsColumns decl.now.columns) rows.items) }
{
    let mut rows = Vec::new(alloc);
    for number in 0..count {
        let mut row = List::new(alloc);
        row.push(alloc, Value::Int(number as i64))?;
        rows.push(row)?;
    }
    Ok(rows)
}

#[test]
fn more_given_values_than_two_bytes_count_have_numbers(rt: HostRuntime) -> Result<(), Fail> {
    assert_eq!(rt; of_numbers(rt.alloc(), 70_000)?, (70_000, Some(69_999)));
    Ok(())
}
