//! The numbers of values, each value of a table once, and of the terms of a map's head.
ghost use Rattle.std.specs.Prelude.{◌≡◌, ◌<◌, ℕ, List, None, Some, nat_eq, if◌then◌else◌, IfOk, OnOk, OnErr, Option, length};
ghost use Rattle.indexmap.specs.IndexMap.{get};
ghost use Rattle.mast_terms.specs.declared.term.Term.{Term};
ghost use Rattle.mast_terms.specs.declared.value.Value.{Value};
ghost use Rattle.mast_join.specs.inside.Values as values;
ghost use Rattle.mast_join.specs.inside.Values.{AllRead, AreNoted, AreValues, CanRead, CanReadPart, HasNumber, IsCell, KeepsNumbers, PartReads, ReadAll, Reads, TellsTerm, TellsValue, TellsValues};

use indexmap::IndexMap;
use mast_canon::Tables;
use mast_numbers::Terms;
use mast_tables::numbers_tell_values;
use mast_terms::NoMemory;
use std::alloc::Global;

// Where the number of a slot comes from: the cell of an entry's row, or a constant. A slot that means no column has no number.
#[derive(Drop)]
pub(crate) enum SlotPlace {
    Cell {
        entry: usize,
        table: usize,
        column: u32,
    },
    Known(u32),
    Nothing,
}

// Where the number of a term comes from: a slot, or a symbol's number and slots.
#[derive(Drop)]
pub(crate) enum Part {
    Value(SlotPlace),
    Object { symbol: u32, args: Vec<SlotPlace> },
}

// Where the numbers of a head's terms come from. A class has one.
#[derive(Drop)]
pub(crate) struct HeadPlaces {
    pub(crate) first: Part,
    pub(crate) second: Option<Part>,
}

// A cell of a table.
#[derive(Clone, Copy)]
pub(crate) struct Cell {
    pub(crate) table: usize,
    pub(crate) row: u32,
    pub(crate) column: u32,
}

// The numbers of the values of tables, as far as they were asked for, by the numbers that the tables give them.
#[derive(Drop)]
pub(crate) struct Values {
    pub(crate) known: IndexMap<u64, u32>,
}

// What stands for the value of a table that has this number there.
fn key_of(table: usize, number: u32) -> u64
    requires { table < 4294967296 }
    ensures { result ≡ values.key_of table number }
{
    table as u64 * 4_294_967_296 + number as u64
}

impl Values {
    // No value has a number yet.
    pub(crate) fn new(alloc: Global) -> Values
        ensures { (key : ℕ) → values.noted result key ≡ None }
    {
        Values {
            known: IndexMap::new(alloc),
        }
    }

    // The number that is noted under a key.
    fn get(&self, key: u64) -> Option<u32>
        ensures { result ≡ values.noted self.now key }
    {
        match self.known.get(&key) {
            None => None,
            Some(number) => Some(*number),
        }
    }

    // Notes a number under a key.
    fn note(&mut self, key: u64, number: u32) -> Result<(), NoMemory>
        ensures ok { OnOk result ((k : ℕ) → values.noted self.new k ≡ (if nat_eq key k then Some number else values.noted self.old k)) }
        ensures err { OnErr result ((k : ℕ) → values.noted self.new k ≡ values.noted self.old k) }
    {
        self.known.insert(key, number)?;
        Ok(())
    }

    // The number of a cell's value. None where it is missing. Each different value of a table is hashed once.
    pub(crate) fn number(
        &mut self,
        alloc: Global,
        terms: &mut Terms,
        tables: &Tables,
        cell: Cell,
    ) -> Result<Option<u32>, NoMemory>
        requires cell { IsCell tables.now.list cell.table cell.row cell.column }
        requires noted { AreNoted terms.old.terms tables.now.list self.old }
        ensures number { IfOk result (TellsValue terms.new.terms (values.cell_value tables.now.list cell)) }
        ensures noted { AreNoted terms.new.terms tables.now.list self.new }
        ensures kept { KeepsNumbers terms.old terms.new }
    {
        numbers_tell_values();
        let rows = &tables.list.as_slice()[cell.table];
        match rows.number(cell.row, cell.column) {
            None => Ok(None),
            Some(number) => self.numbered(alloc, terms, tables, cell, number),
        }
    }

    // The same, by the number that the table gives the value.
    fn numbered(
        &mut self,
        alloc: Global,
        terms: &mut Terms,
        tables: &Tables,
        cell: Cell,
        number: u32,
    ) -> Result<Option<u32>, NoMemory>
        requires cell { IsCell tables.now.list cell.table cell.row cell.column }
        requires number { HasNumber tables.now.list cell number }
        requires noted { AreNoted terms.old.terms tables.now.list self.old }
        ensures number { IfOk result (TellsValue terms.new.terms (values.cell_value tables.now.list cell)) }
        ensures noted { AreNoted terms.new.terms tables.now.list self.new }
        ensures kept { KeepsNumbers terms.old terms.new }
    {
        let key = key_of(cell.table, number);
        match self.get(key) {
            Some(made) => Ok(Some(made)),
            None => {
                let rows = &tables.list.as_slice()[cell.table];
                match rows.cell(cell.row, cell.column) {
                    None => Ok(None),
                    Some(value) => {
                        let made = terms.value(alloc, value)?;
                        self.note(key, made)?;
                        Ok(Some(made))
                    }
                }
            }
        }
    }
}

// The number of a slot in a choice. None where its cell is missing.
fn of_side(
    alloc: Global,
    terms: &mut Terms,
    known: &mut Values,
    tables: &Tables,
    choice: &[u32],
    side: &SlotPlace,
) -> Result<Option<u32>, NoMemory>
    requires reads { CanRead terms.old.terms tables.now.list choice.now side.now }
    requires noted { AreNoted terms.old.terms tables.now.list known.old }
    ensures number { IfOk result (λ number. (value : Option Value) → Reads terms.old.terms tables.now.list choice.now side.now value → TellsValue terms.new.terms value number) }
    ensures noted { AreNoted terms.new.terms tables.now.list known.new }
    ensures kept { KeepsNumbers terms.old terms.new }
{
    match side {
        SlotPlace::Nothing => Ok(None),
        SlotPlace::Known(number) => Ok(Some(*number)),
        SlotPlace::Cell {
            entry,
            table,
            column,
        } => {
            let cell = Cell {
                table: *table,
                row: choice[*entry],
                column: *column,
            };
            known.number(alloc, terms, tables, cell)
        }
    }
}

// The numbers of slots in a choice. None where a cell is missing.
fn of_sides(
    alloc: Global,
    terms: &mut Terms,
    known: &mut Values,
    tables: &Tables,
    choice: &[u32],
    sides: &[SlotPlace],
) -> Result<Option<Vec<u32>>, NoMemory>
    requires reads { AllRead terms.old.terms tables.now.list choice.now sides.now }
    requires noted { AreNoted terms.old.terms tables.now.list known.old }
    ensures numbers { IfOk result (λ numbers. (vs : Option (List Value)) → ReadAll terms.old.terms tables.now.list choice.now sides.now vs → TellsValues terms.new.terms vs (values.listed numbers)) }
    ensures values { IfOk result (λ numbers. AreValues terms.new.terms (values.listed numbers)) }
    ensures noted { AreNoted terms.new.terms tables.now.list known.new }
    ensures kept { KeepsNumbers terms.old terms.new }
{
    let mut numbers = Vec::new(alloc);
    for side in sides {
        match of_side(alloc, terms, known, tables, choice, side)? {
            None => return Ok(None),
            Some(number) => numbers.push(number)?,
        }
    }
    Ok(Some(numbers))
}

// The number of a term of the head in a choice. None where a cell is missing.
pub(crate) fn of_part(
    alloc: Global,
    terms: &mut Terms,
    known: &mut Values,
    tables: &Tables,
    choice: &[u32],
    part: &Part,
) -> Result<Option<u32>, NoMemory>
    requires reads { CanReadPart terms.old tables.now.list choice.now part.now }
    requires noted { AreNoted terms.old.terms tables.now.list known.old }
    ensures number { IfOk result (λ number. (t : Option Term) → PartReads terms.old tables.now.list choice.now part.now t → TellsTerm terms.new.terms t number) }
    ensures noted { AreNoted terms.new.terms tables.now.list known.new }
    ensures kept { KeepsNumbers terms.old terms.new }
{
    match part {
        Part::Value(side) => of_side(alloc, terms, known, tables, choice, side),
        Part::Object { symbol, args } => {
            match of_sides(alloc, terms, known, tables, choice, args)? {
                None => Ok(None),
                Some(numbers) => Ok(Some(terms.object(alloc, *symbol, &numbers)?)),
            }
        }
    }
}
