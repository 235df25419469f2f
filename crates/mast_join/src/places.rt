//! Where the numbers of the terms of a map's head come from: looked up once for a map. And the numbers that a choice has there.
ghost use Rattle.std.specs.Prelude.{◌≡◌, ◌<◌, ℕ, List, Option, length, IfOk, OnOk};
ghost use Rattle.std.specs.List.{AllZip};
ghost use Rattle.mast_terms.specs.declared.term.Term.{Term};
ghost use Rattle.mast_canon.specs.Places.{meaning};
ghost use Rattle.mast_join.specs.Chosen.{AreFew};
ghost use Rattle.mast_join.specs.inside.Places.{AreHeadPlaces, BothRead, CanReadBoth, IsCellPlace, IsObjectPart, IsSlotPlace, IsValuePart, TellsBoth};
ghost use Rattle.mast_join.specs.inside.Values.{AreNoted, KeepsNumbers};

use crate::values::{HeadPlaces, Part, SlotPlace, Values, of_part};
use mast_canon::{Place, Tables, output_place, table_number};
use mast_mapping::{Head, Slot, Template};
use mast_numbers::Terms;
use mast_sql::{FromEntry, SourceQuery};
use mast_tables::TableDecl;
use mast_terms::NoMemory;
use std::alloc::Global;

// The place of a column of an entry.
fn column_place(decls: &[TableDecl], entries: &[FromEntry], place: Place) -> SlotPlace
    requires entry { place.entry < length entries.now }
    requires column { place.column < 4294967295 }
    ensures { IsCellPlace decls.now entries.now (meaning place) result }
{
    SlotPlace::Cell {
        entry: place.entry,
        table: table_number(&entries[place.entry].table, decls),
        column: place.column as u32 + 1,
    }
}

// The place of a slot.
fn slot_place(
    alloc: Global,
    terms: &mut Terms,
    decls: &[TableDecl],
    query: &SourceQuery,
    slot: &Slot,
) -> Result<SlotPlace, NoMemory>
    requires few { AreFew decls.now }
    ensures place { IfOk result (IsSlotPlace terms.new decls.now query.now slot.now) }
    ensures kept { KeepsNumbers terms.old terms.new }
{
    match slot {
        Slot::Constant(value) => Ok(SlotPlace::Known(terms.value(alloc, value)?)),
        Slot::Output(name) => match output_place(decls, query, name) {
            None => Ok(SlotPlace::Nothing),
            Some(place) => Ok(column_place(decls, query.from.as_slice(), place)),
        },
    }
}

// The places of slots.
fn slot_places(
    alloc: Global,
    terms: &mut Terms,
    decls: &[TableDecl],
    query: &SourceQuery,
    slots: &[Slot],
) -> Result<Vec<SlotPlace>, NoMemory>
    requires few { AreFew decls.now }
    ensures places { IfOk result (λ places. AllZip (IsSlotPlace terms.new decls.now query.now) slots.now places.items) }
    ensures kept { KeepsNumbers terms.old terms.new }
{
    let mut places = Vec::new(alloc);
    for slot in slots {
        places.push(slot_place(alloc, terms, decls, query, slot)?)?;
    }
    Ok(places)
}

// The part of an object.
fn object_part(
    alloc: Global,
    terms: &mut Terms,
    decls: &[TableDecl],
    query: &SourceQuery,
    template: &Template,
) -> Result<Part, NoMemory>
    requires few { AreFew decls.now }
    ensures part { IfOk result (IsObjectPart terms.new decls.now query.now template.now) }
    ensures kept { KeepsNumbers terms.old terms.new }
{
    let symbol = terms.symbol(alloc, &template.symbol)?;
    let args = slot_places(alloc, terms, decls, query, template.args.as_slice())?;
    Ok(Part::Object { symbol, args })
}

// The part of a value.
fn value_part(
    alloc: Global,
    terms: &mut Terms,
    decls: &[TableDecl],
    query: &SourceQuery,
    slot: &Slot,
) -> Result<Part, NoMemory>
    requires few { AreFew decls.now }
    ensures part { IfOk result (IsValuePart terms.new decls.now query.now slot.now) }
    ensures kept { KeepsNumbers terms.old terms.new }
{
    Ok(Part::Value(slot_place(alloc, terms, decls, query, slot)?))
}

// The parts of a head.
pub(crate) fn head_places(
    alloc: Global,
    terms: &mut Terms,
    decls: &[TableDecl],
    query: &SourceQuery,
    head: &Head,
) -> Result<HeadPlaces, NoMemory>
    requires few { AreFew decls.now }
    ensures places { IfOk result (AreHeadPlaces terms.new decls.now query.now head.now) }
    ensures kept { KeepsNumbers terms.old terms.new }
{
    match head {
        Head::Class { subject, .. } => {
            let first = object_part(alloc, terms, decls, query, subject)?;
            Ok(HeadPlaces {
                first,
                second: None,
            })
        }
        Head::Role { from, to, .. } => {
            let first = object_part(alloc, terms, decls, query, from)?;
            let second = object_part(alloc, terms, decls, query, to)?;
            Ok(HeadPlaces {
                first,
                second: Some(second),
            })
        }
        Head::Attr { from, value, .. } => {
            let first = object_part(alloc, terms, decls, query, from)?;
            let second = value_part(alloc, terms, decls, query, value)?;
            Ok(HeadPlaces {
                first,
                second: Some(second),
            })
        }
    }
}

// The numbers of the terms of a head in a choice; a class has that of its term twice. None where a cell is missing.
pub(crate) fn of_head(
    alloc: Global,
    terms: &mut Terms,
    known: &mut Values,
    tables: &Tables,
    choice: &[u32],
    places: &HeadPlaces,
) -> Result<Option<(u32, u32)>, NoMemory>
    requires reads { CanReadBoth terms.old tables.now.list choice.now places.now }
    requires noted { AreNoted terms.old.terms tables.now.list known.old }
    ensures numbers { IfOk result (λ numbers. (first second : Option Term) → BothRead terms.old tables.now.list choice.now places.now first second → TellsBoth terms.new.terms first second numbers) }
    ensures noted { AreNoted terms.new.terms tables.now.list known.new }
    ensures kept { KeepsNumbers terms.old terms.new }
{
    let one = match of_part(alloc, terms, known, tables, choice, &places.first)? {
        None => return Ok(None),
        Some(one) => one,
    };
    match &places.second {
        None => Ok(Some((one, one))),
        Some(part) => match of_part(alloc, terms, known, tables, choice, part)? {
            None => Ok(None),
            Some(two) => Ok(Some((one, two))),
        },
    }
}
