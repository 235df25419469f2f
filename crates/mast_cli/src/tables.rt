//! The stages of the declared tables, in order. Their limits of bytes and of rows are those of all tables together.
ghost use Rattle.std.specs.Prelude.{◌≡◌, ◌-◌, ◌<◌, ◌≤◌, length, IfOk};
ghost use Rattle.std.specs.List.{AllByRecursion};
ghost use Rattle.mast_canon.specs.Fitting.{Fits, IsRowOf};
ghost use Rattle.mast_cli.specs.inside.Causes.{PartHasCause};
ghost use Rattle.mast_cli.specs.inside.Loading.{IsNumbered, TellsLoaded, TellsTable, TellsTables};
ghost use Rattle.mast_cli.specs.inside.Telling.{IfRead, WhenTold};

use crate::file::read_file;
use crate::judged::{Part, ended_at};
use crate::limits::{ROWS, TABLE_BYTES};
use mast_files::Files;
use mast_tables::{Table, TableDecl, files_have_one_answer, load};
use mast_terms::{List, NoMemory, Stop};
use mast_write::Refusal;
use std::alloc::Global;

/// How many bytes and rows the tables so far have left of the limits.
#[derive(Drop)]
pub struct Left {
    pub bytes: u64,
    pub rows: u32,
}

/// The tables of these declarations, in order.
pub fn judge_tables<F: Files>(
    alloc: Global,
    decls: &[TableDecl],
    files: &mut F,
) -> Result<Part<List<Table>>, NoMemory>
    requires { AllByRecursion IsNumbered decls.now }
    ensures told { IfOk result (WhenTold (F.contents files.old) (TellsTables decls.now (F.reading files.new))) }
    ensures fits { IfOk result (IfRead (Fits decls.now)) }
    ensures kept { F.contents files.new ≡ F.contents files.old }
    ensures cause { IfOk result (PartHasCause (F.faults files.old) (F.faults files.new) (F.reading files.new)) }
{
    // Where a call on a file fails, the stages behind it are still those of the contents.
    files_have_one_answer();

    let mut left = Left {
        bytes: TABLE_BYTES,
        rows: ROWS,
    };
    let mut tables = List::new(alloc);
    for decl in decls {
        match judge_table(alloc, decl, &mut left, files)? {
            Part::Read(table) => tables.push(alloc, table)?,
            Part::Ended(judged) => return Ok(Part::Ended(judged)),
        }
    }
    Ok(Part::Read(tables))
}

// The table of a declaration, which leaves less of the limits.
fn judge_table<F: Files>(
    alloc: Global,
    decl: &TableDecl,
    left: &mut Left,
    files: &mut F,
) -> Result<Part<Table>, NoMemory>
    requires columns { IsNumbered decl.now }
    requires small { left.old.bytes < 4294967295 }
    ensures told { IfOk result (WhenTold (F.contents files.old)
        (TellsTable left.old left.new decl.now (F.reading files.new))) }
    ensures fits { IfOk result (IfRead (AllByRecursion (IsRowOf decl.now))) }
    ensures less { left.new.bytes ≤ left.old.bytes }
    ensures kept { F.contents files.new ≡ F.contents files.old }
    ensures cause { IfOk result (PartHasCause (F.faults files.old) (F.faults files.new) (F.reading files.new)) }
{
    let too_long = Refusal::TableBytes {
        table: decl.name.copy(alloc)?,
    };
    match read_file(alloc, decl.file.as_str(), left.bytes, too_long, files)? {
        Part::Read(bytes) => {
            left.bytes -= bytes.len() as u64;
            load_table(alloc, decl, &bytes, &mut left.rows)
        }
        Part::Ended(judged) => Ok(Part::Ended(judged)),
    }
}

// The table of a file's bytes, which leaves fewer rows.
#[tactic(auto, using(mast_canon::proofs::FittingLemmas::rows_few, mast_canon::proofs::FittingLemmas::table_fits))]
fn load_table(
    alloc: Global,
    decl: &TableDecl,
    bytes: &[u8],
    rows: &mut u32,
) -> Result<Part<Table>, NoMemory>
    requires columns { IsNumbered decl.now }
    requires small { length bytes.now < 4294967295 }
    ensures told { IfOk result (TellsLoaded rows.old decl.now bytes.now) }
    ensures left { IfOk result (IfRead (λ table. rows.new ≡ rows.old - length table)) }
    ensures fits { IfOk result (IfRead (AllByRecursion (IsRowOf decl.now))) }
{
    match load(alloc, bytes, decl, *rows) {
        Ok(table) => {
            *rows -= table.rows();
            Ok(Part::Read(table))
        }
        Err(Stop::Named(breach)) => {
            let table = decl.name.copy(alloc)?;
            ended_at(alloc, Refusal::Table { table, breach })
        }
        Err(Stop::NoMemory) => Err(NoMemory),
    }
}
