//! The choices that meet a source query.
ghost use Rattle.std.specs.Prelude.{◌≡◌, IfOk, map};
ghost use Rattle.std.specs.Option.{option_copied};
ghost use Rattle.mast_canon.specs.Choices as canon;
ghost use Rattle.mast_canon.specs.Fitting.{Fits};
ghost use Rattle.mast_join.specs.Chosen.{AreChoices, AreFew};
ghost use Rattle.mast_join.specs.inside.Plans as plans;
ghost use Rattle.mast_join.specs.inside.Plans.{AreTests, IsSide};

use crate::comparisons::{Side, Test};
use crate::found::Choices;
use crate::join::Join;
use mast_canon::{RowId, Tables, place_of, table_number};
use mast_sql::{Comparison, FromEntry, Operand, SourceQuery};
use mast_tables::TableDecl;
use mast_terms::NoMemory;
use std::alloc::Global;

// The numbers of the tables of entries.
fn places(alloc: Global, decls: &[TableDecl], entries: &[FromEntry]) -> Result<Vec<usize>, NoMemory>
    ensures { IfOk result (λ places. places.items ≡ map (λ entry. canon.table_number entry.table decls.now) entries.now) }
{
    let mut places = Vec::new(alloc);
    for entry in entries {
        places.push(table_number(&entry.table, decls))?;
    }
    Ok(places)
}

// Whether there is a table of each number.
fn are_below(places: &[usize], count: usize) -> bool
    ensures { result ≡ plans.are_below count places.now }
{
    for place in places {
        if *place >= count {
            return false;
        }
    }
    true
}

// A side of a comparison, with a place for a column.
fn side<'a>(decls: &[TableDecl], entries: &[FromEntry], operand: &'a Operand) -> Side<'a>
    ensures { IsSide decls.now entries.now operand.now result }
{
    match operand {
        Operand::Column { alias, column } => match place_of(decls, entries, alias, column) {
            None => Side::Nothing,
            Some(place) => Side::Cell {
                entry: place.entry,
                column: place.column,
            },
        },
        Operand::Constant(value) => Side::Constant(value),
    }
}

// The comparisons, with places for columns.
fn tests<'a>(
    alloc: Global,
    decls: &[TableDecl],
    entries: &[FromEntry],
    conditions: &'a [Comparison],
) -> Result<Vec<Test<'a>>, NoMemory>
    ensures { IfOk result (λ tests. AreTests decls.now entries.now conditions.now tests.items) }
{
    let mut tests = Vec::new(alloc);
    for condition in conditions {
        tests.push(Test {
            left: side(decls, entries, &condition.left),
            op: condition.op,
            right: side(decls, entries, &condition.right),
        })?;
    }
    Ok(tests)
}

/// The choices of a row for each FROM entry that meet the source query, of all rows or of those that are given, each once.
/// It needs tables that fit their declarations. A column that means nothing has no value, and an entry whose table is not
/// declared has no row.
pub fn choices(
    alloc: Global,
    query: &SourceQuery,
    decls: &[TableDecl],
    tables: &Tables,
    only: Option<&[RowId]>,
) -> Result<Choices, NoMemory>
    requires fits { Fits decls.now tables.now.list }
    requires few { AreFew decls.now }
    ensures { IfOk result (λ found. AreChoices decls.now tables.now.list query.now (option_copied only.entry) found.list) }
{
    let tables = tables.list.as_slice();
    let entries = query.from.as_slice();
    let places = places(alloc, decls, entries)?;
    if !are_below(&places, tables.len()) {
        return Ok(Choices::new(alloc, places.len()));
    }
    let join = Join {
        tables,
        places,
        tests: tests(alloc, decls, entries, query.conditions.as_slice())?,
        only,
    };
    join.choices(alloc)
}
