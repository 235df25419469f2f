//! The lines of what is wrong with a query file or with a table, and of a read fault.
ghost use Rattle.std.specs.Prelude.{◌≡◌, ◌++◌, IfOk, OnOk, string_bytes};
ghost use Rattle.mast_terms.specs.Printed.{quoted};
ghost use Rattle.mast_write.specs.RefusalLines as lines;

use mast_sparsql::{QueryBreach, QueryKind};
use mast_tables::{RowBreach, RowKind};
use mast_terms::{NoMemory, Text, Value, write_value};
use std::alloc::Global;

// `refused query NAME token T KIND`, or `limit LIMIT query NAME token T`
pub(crate) fn query_line(
    alloc: Global,
    file: &Text,
    breach: QueryBreach,
) -> Result<Vec<u8>, NoMemory>
    ensures { IfOk result (λ text. text.items ≡ (lines.query_event file.now breach.token breach.kind).1) }
{
    let token = breach.token;
    match breach.kind {
        QueryKind::Lex => query_refused(alloc, file, token, "lex"),
        QueryKind::Grammar => query_refused(alloc, file, token, "grammar"),
        QueryKind::UnknownName => query_refused(alloc, file, token, "unknown-name"),
        QueryKind::UnknownColumn => query_refused(alloc, file, token, "unknown-column"),
        QueryKind::DoubleName => query_refused(alloc, file, token, "double-name"),
        QueryKind::SortClash => query_refused(alloc, file, token, "sort-clash"),
        QueryKind::Width => query_refused(alloc, file, token, "width"),
        QueryKind::BadConstant => query_refused(alloc, file, token, "bad-constant"),
        QueryKind::Depth => query_limit(alloc, file, token, "depth"),
        QueryKind::Operators => query_limit(alloc, file, token, "operators"),
        QueryKind::Entries => query_limit(alloc, file, token, "entries"),
        QueryKind::Disjuncts => query_limit(alloc, file, token, "disjuncts"),
        QueryKind::Atoms => query_limit(alloc, file, token, "atoms"),
        QueryKind::Names => query_limit(alloc, file, token, "names"),
    }
}

// `refused query NAME token T KIND`
fn query_refused(alloc: Global, file: &Text, token: u32, kind: &str) -> Result<Vec<u8>, NoMemory>
    ensures { IfOk result (λ text. text.items ≡ (lines.query_refused file.now token kind.now).1) }
{
    let mut text = b"refused query ".to_vec(alloc)?;
    push_quoted(alloc, file.as_str(), &mut text)?;
    push_text(format!(in alloc; " token {token} {kind}\n")?, &mut text)?;
    Ok(text)
}

// `limit LIMIT query NAME token T`
fn query_limit(alloc: Global, file: &Text, token: u32, name: &str) -> Result<Vec<u8>, NoMemory>
    ensures { IfOk result (λ text. text.items ≡ (lines.query_limit file.now token name.now).1) }
{
    let mut text = format!(in alloc; "limit {name} query ")?.into_bytes();
    push_quoted(alloc, file.as_str(), &mut text)?;
    push_text(format!(in alloc; " token {token}\n")?, &mut text)?;
    Ok(text)
}

// `refused table TABLE record N column C KIND`, or `limit rows table TABLE record N`
pub(crate) fn row_line(alloc: Global, table: &Text, breach: RowBreach) -> Result<Vec<u8>, NoMemory>
    ensures { IfOk result (λ text. text.items ≡ (lines.row_event table.now breach.number breach.column breach.kind).1) }
{
    match breach.kind {
        RowKind::Header => row_refused(alloc, table, breach, "header"),
        RowKind::Rows => too_many_rows(alloc, table, breach.number),
        RowKind::Width => row_refused(alloc, table, breach, "width"),
        RowKind::NotUtf8 => row_refused(alloc, table, breach, "not-utf8"),
        RowKind::Missing => row_refused(alloc, table, breach, "missing"),
        RowKind::BadInt => row_refused(alloc, table, breach, "bad-int"),
        RowKind::BadDate => row_refused(alloc, table, breach, "bad-date"),
    }
}

// `refused table TABLE record N column C KIND`
fn row_refused(
    alloc: Global,
    table: &Text,
    breach: RowBreach,
    kind: &str,
) -> Result<Vec<u8>, NoMemory>
    ensures { IfOk result (λ text. text.items ≡ (lines.row_refused table.now breach.number breach.column kind.now).1) }
{
    let table = table.as_str();
    let number = breach.number;
    let column = breach.column;
    let line = format!(in alloc; "refused table {table} record {number} column {column} {kind}\n")?;
    Ok(line.into_bytes())
}

// `limit rows table TABLE record N`
fn too_many_rows(alloc: Global, table: &Text, number: u32) -> Result<Vec<u8>, NoMemory>
    ensures { IfOk result (λ text. text.items ≡ (lines.too_many_rows table.now number).1) }
{
    let table = table.as_str();
    Ok(format!(in alloc; "limit rows table {table} record {number}\n")?.into_bytes())
}

// `limit bytes query NAME`
pub(crate) fn query_bytes(alloc: Global, file: &Text) -> Result<Vec<u8>, NoMemory>
    ensures { IfOk result (λ text. text.items ≡ (lines.query_bytes file.now).1) }
{
    let mut text = b"limit bytes query ".to_vec(alloc)?;
    push_quoted(alloc, file.as_str(), &mut text)?;
    text.push(b'\n')?;
    Ok(text)
}

// `limit bytes table TABLE`
pub(crate) fn table_bytes(alloc: Global, table: &Text) -> Result<Vec<u8>, NoMemory>
    ensures { IfOk result (λ text. text.items ≡ (lines.table_bytes table.now).1) }
{
    let table = table.as_str();
    Ok(format!(in alloc; "limit bytes table {table}\n")?.into_bytes())
}

// `limit closure query NAME table I block J`
pub(crate) fn block_closure(
    alloc: Global,
    file: &Text,
    table: usize,
    block: usize,
) -> Result<Vec<u8>, NoMemory>
    ensures { IfOk result (λ text. text.items ≡ (lines.block_closure file.now table block).1) }
{
    let mut text = b"limit closure query ".to_vec(alloc)?;
    push_quoted(alloc, file.as_str(), &mut text)?;
    push_text(
        format!(in alloc; " table {table} block {block}\n")?,
        &mut text,
    )?;
    Ok(text)
}

// `read fault NAME`
pub(crate) fn read_fault(alloc: Global, file: &Text) -> Result<Vec<u8>, NoMemory>
    ensures { IfOk result (λ text. text.items ≡ (lines.read_fault file.now).1) }
{
    let mut text = b"read fault ".to_vec(alloc)?;
    push_quoted(alloc, file.as_str(), &mut text)?;
    text.push(b'\n')?;
    Ok(text)
}

// Appends the name of a file, printed as a text.
pub(crate) fn push_quoted(alloc: Global, name: &str, text: &mut Vec<u8>) -> Result<(), NoMemory>
    ensures { OnOk result (text.new.items ≡ text.old.items ++ quoted name.now) }
{
    let name = Value::Text(Text::from_str(alloc, name)?);
    write_value(alloc, &name, text)
}

// Appends the bytes of a string.
pub(crate) fn push_text(more: String, text: &mut Vec<u8>) -> Result<(), NoMemory>
    ensures { OnOk result (text.new.items ≡ text.old.items ++ string_bytes more) }
{
    text.extend_from_slice(more.as_bytes())?;
    Ok(())
}
