//! How the relation of an atom is filled from facts.
ghost use Rattle.std.specs.Prelude.{◌≡◌, ◌+◌, ◌<◌, ◌≤◌, ℕ, List, true, length, IfOk, OnOk};
ghost use Rattle.std.specs.List.{AllByRecursion};
ghost use Rattle.mast_relations.specs.Stores.{HasOnlyGained, contents, no_rows};
ghost use Rattle.mast_join.specs.inside.Filling as filling;
ghost use Rattle.mast_join.specs.inside.Filling.{AreColumns, AreLinked, AreRelationsMore, FitsNumber, Has, HasGiven, HasGivenBy, IsFilled, IsFull, IsGiven, IsGivenBy, IsRefilled, IsRelationNext, IsRowOf, rows_at, with_set};
ghost use Rattle.mast_join.specs.inside.Relates.{set_columns as set_columns_of};

use crate::extensions::Wanted;
use crate::facts::MadeFact;
use crate::shapes::Asked;
use mast_relations::{Relations, RowSet};
use mast_terms::{List, NoMemory};
use std::alloc::Global;

// A source: what its member asks of the terms of a fact, and the place of the facts of its map.
#[derive(Clone, Copy)]
pub(crate) struct Gathered {
    pub(crate) first: Asked,
    pub(crate) second: Asked,
    pub(crate) place: usize,
}

// How many columns of an extension have numbers of sets.
pub(crate) fn set_columns(wanted: Wanted) -> u32
    ensures { result ≡ set_columns_of wanted }
{
    match wanted {
        Wanted::Tuples => 0,
        Wanted::SomeHits => 1,
        Wanted::AllHits => 1,
    }
}

// Whether a number is what is asked for.
fn fits(asked: Asked, number: u32, row: &[u32]) -> bool
    ensures yes { result ≡ true → FitsNumber row.now asked number }
    ensures no { FitsNumber row.now asked number → result ≡ true }
{
    match asked {
        Asked::Nothing => true,
        Asked::Number(wanted) => wanted == number,
        Asked::Column(column) => match row.get(column) {
            None => false,
            Some(held) => *held == number,
        },
    }
}

// The number of a column.
fn column_number(asked: Asked, column: usize, first: u32, second: u32) -> u32
    ensures { result ≡ filling.column_number asked column first second }
{
    match asked {
        Asked::Column(wanted) => { if wanted == column { first } else { second } }
        Asked::Nothing => second,
        Asked::Number(_) => second,
    }
}

// Makes the columns of a row.
fn make_columns(
    row: &mut Vec<u32>,
    width: usize,
    asked: Asked,
    first: u32,
    second: u32,
) -> Result<(), NoMemory>
    ensures long { OnOk result (length row.new.items ≡ width) }
    ensures are { OnOk result (AreColumns asked first second row.new.items) }
{
    row.clear();
    for column in 0..width {
        row.push(column_number(asked, column, first, second))?;
    }
    Ok(())
}

// Makes the row of a fact, and tells whether its terms are what is asked for.
fn make_row(
    row: &mut Vec<u32>,
    width: usize,
    source: Gathered,
    fact: MadeFact,
) -> Result<bool, NoMemory>
    requires { IsFull width source }
    ensures long { OnOk result (length row.new.items ≡ width) }
    ensures yes { IfOk result (λ is. is ≡ true → IsRowOf width source fact row.new.items) }
    ensures no { IfOk result (λ is. (front : List ℕ) → IsRowOf width source fact front → (is ≡ true) × (front ≡ row.new.items)) }
{
    make_columns(row, width, source.first, fact.first, fact.second)?;
    Ok(fits(source.first, fact.first, row) && fits(source.second, fact.second, row))
}

// Puts a row, and behind it the number of a set where sets are wanted: of one that was seen only where all are.
fn put(
    alloc: Global,
    wanted: Wanted,
    relations: &mut Relations,
    number: u32,
    seen: &mut RowSet,
    row: &mut Vec<u32>,
    set: u32,
) -> Result<(), NoMemory>
    requires there { number < length (contents relations.old) }
    requires wide { (rows_at relations.old number).width ≡ length row.old.items + set_columns_of wanted }
    requires seen { seen.old.width ≡ length row.old.items }
    requires linked { AreLinked wanted seen.old.list (rows_at relations.old number).list }
    ensures linked { OnOk result (AreLinked wanted seen.new.list (rows_at relations.new number).list) }
    ensures seen { seen.new.width ≡ seen.old.width }
    ensures refilled { IsRefilled number relations.old relations.new }
    ensures only { HasOnlyGained (λ r. r ≡ with_set wanted row.old.items set) (rows_at relations.old number) (rows_at relations.new number) }
    ensures has { OnOk result (Has wanted (rows_at relations.new number).list row.old.items set) }
{
    match wanted {
        Wanted::Tuples => {
            relations.insert(alloc, number, row)?;
            Ok(())
        }
        Wanted::SomeHits => {
            if seen.insert(alloc, row)? {
                row.push(set)?;
                relations.insert(alloc, number, row)?;
            }
            Ok(())
        }
        Wanted::AllHits => {
            row.push(set)?;
            relations.insert(alloc, number, row)?;
            Ok(())
        }
    }
}

// Puts what a fact gives, if it gives a row.
fn put_fact(
    alloc: Global,
    wanted: Wanted,
    width: usize,
    source: Gathered,
    fact: MadeFact,
    relations: &mut Relations,
    number: u32,
    seen: &mut RowSet,
    row: &mut Vec<u32>,
) -> Result<(), NoMemory>
    requires full { IsFull width source }
    requires there { number < length (contents relations.old) }
    requires wide { (rows_at relations.old number).width ≡ width + set_columns_of wanted }
    requires seen { seen.old.width ≡ width }
    requires linked { AreLinked wanted seen.old.list (rows_at relations.old number).list }
    ensures linked { OnOk result (AreLinked wanted seen.new.list (rows_at relations.new number).list) }
    ensures seen { seen.new.width ≡ seen.old.width }
    ensures refilled { IsRefilled number relations.old relations.new }
    ensures only { HasOnlyGained (IsGivenBy wanted width source fact) (rows_at relations.old number) (rows_at relations.new number) }
    ensures has { OnOk result (HasGivenBy wanted width source fact (rows_at relations.new number).list) }
{
    if make_row(row, width, source, fact)? {
        put(alloc, wanted, relations, number, seen, row, fact.set)
    } else {
        Ok(())
    }
}

// Puts what the facts of a source give.
fn fill_from(
    alloc: Global,
    wanted: Wanted,
    width: usize,
    source: Gathered,
    facts: &[MadeFact],
    relations: &mut Relations,
    number: u32,
    seen: &mut RowSet,
) -> Result<(), NoMemory>
    requires full { IsFull width source }
    requires there { number < length (contents relations.old) }
    requires wide { (rows_at relations.old number).width ≡ width + set_columns_of wanted }
    requires seen { seen.old.width ≡ width }
    requires linked { AreLinked wanted seen.old.list (rows_at relations.old number).list }
    ensures linked { OnOk result (AreLinked wanted seen.new.list (rows_at relations.new number).list) }
    ensures seen { seen.new.width ≡ seen.old.width }
    ensures refilled { IsRefilled number relations.old relations.new }
    ensures only { HasOnlyGained (IsGiven wanted width source facts.now) (rows_at relations.old number) (rows_at relations.new number) }
    ensures all { OnOk result (HasGiven wanted width source facts.now (rows_at relations.new number).list) }
{
    let mut row = Vec::new(alloc);
    for fact in facts {
        put_fact(
            alloc, wanted, width, source, *fact, relations, number, seen, &mut row,
        )?;
    }
    Ok(())
}

// Puts what the sources give.
fn fill_all(
    alloc: Global,
    wanted: Wanted,
    width: usize,
    facts: &[List<MadeFact>],
    sources: &[Gathered],
    relations: &mut Relations,
    number: u32,
) -> Result<(), NoMemory>
    requires full { AllByRecursion (IsFull width) sources.now }
    requires places { AllByRecursion (λ source. source.place < length facts.now) sources.now }
    requires there { number < length (contents relations.old) }
    requires rows { rows_at relations.old number ≡ no_rows (width + set_columns_of wanted) }
    ensures filled { OnOk result (IsFilled wanted width facts.now sources.now (rows_at relations.new number)) }
    ensures refilled { IsRefilled number relations.old relations.new }
{
    let mut seen = RowSet::new(alloc, width);
    for source in sources {
        let given = facts[source.place].as_slice();
        fill_from(
            alloc, wanted, width, *source, given, relations, number, &mut seen,
        )?;
    }
    Ok(())
}

// A relation with exactly what the sources give, behind the others.
pub(crate) fn fill(
    alloc: Global,
    wanted: Wanted,
    width: usize,
    facts: &[List<MadeFact>],
    sources: &[Gathered],
    relations: &mut Relations,
) -> Result<u32, NoMemory>
    requires width { width ≤ 2 }
    requires full { AllByRecursion (IsFull width) sources.now }
    requires places { AllByRecursion (λ source. source.place < length facts.now) sources.now }
    ensures more { AreRelationsMore relations.old relations.new }
    ensures next { IfOk result (IsRelationNext (IsFilled wanted width facts.now sources.now) relations.old relations.new) }
{
    let number = relations.begin(alloc, width as u32 + set_columns(wanted))?;
    fill_all(alloc, wanted, width, facts, sources, relations, number)?;
    Ok(number)
}
