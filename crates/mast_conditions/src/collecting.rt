//! The rows that a select gives.
ghost use Rattle.std.specs.Prelude.{◌≡◌, ◌∷◌, ◌++◌, ℕ, List, [], true, length, IfOk, OnOk};
ghost use Rattle.mast_relations.specs.Stores.{HasAll, HasOnlyGained, contents};
ghost use Rattle.mast_conditions.specs.Choices.{Gives, Leads, SelectGives};

use crate::asking::{can_look_up, holds, numbers_at};
use crate::condition::{Entry, Select};
use mast_relations::{Relations, RowSet};
use mast_terms::NoMemory;
use std::alloc::Global;

impl Select {
    /// Puts the rows that the select gives over these numbers into the set. For want of memory only some of them may be there.
    pub fn collect(
        &self,
        alloc: Global,
        relations: &Relations,
        numbers: &mut Vec<u32>,
        found: &mut RowSet,
    ) -> Result<(), NoMemory>
        requires { found.old.width ≡ length self.now.items }
        ensures gained { HasOnlyGained (SelectGives (contents relations.now) self.now numbers.old.items) found.old found.new }
        ensures all { OnOk result (HasAll (SelectGives (contents relations.now) self.now numbers.old.items) found.new) }
        ensures numbers { OnOk result (numbers.new.items ≡ numbers.old.items) }
    {
        collects(
            alloc,
            relations,
            self,
            self.entries.as_slice(),
            numbers,
            found,
        )
    }
}

// Puts what is given over these entries.
#[cycle(collect)]
fn collects(
    alloc: Global,
    relations: &Relations,
    select: &Select,
    entries: &[Entry],
    numbers: &mut Vec<u32>,
    found: &mut RowSet,
) -> Result<(), NoMemory>
    requires { found.old.width ≡ length select.now.items }
    ensures gained { HasOnlyGained (Gives (contents relations.now) select.now entries.now numbers.old.items) found.old found.new }
    ensures all { OnOk result (HasAll (Gives (contents relations.now) select.now entries.now numbers.old.items) found.new) }
    ensures numbers { OnOk result (numbers.new.items ≡ numbers.old.items) }
{
    match entries.split_first() {
        None => settles(alloc, relations, select, numbers, found),
        Some((entry, rest)) => collects_rows(alloc, relations, select, entry, rest, numbers, found),
    }
}

// Puts what is given over an entry and the rest.
#[cycle(collect)]
fn collects_rows(
    alloc: Global,
    relations: &Relations,
    select: &Select,
    entry: &Entry,
    rest: &[Entry],
    numbers: &mut Vec<u32>,
    found: &mut RowSet,
) -> Result<(), NoMemory>
    requires { found.old.width ≡ length select.now.items }
    ensures gained { HasOnlyGained (Gives (contents relations.now) select.now (entry.now ∷ rest.now) numbers.old.items) found.old found.new }
    ensures all { OnOk result (HasAll (Gives (contents relations.now) select.now (entry.now ∷ rest.now) numbers.old.items) found.new) }
    ensures numbers { OnOk result (numbers.new.items ≡ numbers.old.items) }
{
    if !can_look_up(relations, entry, numbers) {
        return Err(NoMemory);
    }
    let columns = entry.columns.as_slice();
    let places = entry.places.as_slice();
    let mut place = relations.last(entry.relation, columns, numbers, places);
    while place > 0 {
        let row = relations.rows(entry.relation).row(place - 1);
        collects_row(alloc, relations, select, row, rest, numbers, found)?;
        place = relations.before(entry.relation, columns, numbers, places, place);
    }
    Ok(())
}

// Puts what is given over the rest, with this row behind the numbers.
#[cycle(collect)]
fn collects_row(
    alloc: Global,
    relations: &Relations,
    select: &Select,
    row: &[u32],
    rest: &[Entry],
    numbers: &mut Vec<u32>,
    found: &mut RowSet,
) -> Result<(), NoMemory>
    requires { found.old.width ≡ length select.now.items }
    ensures gained { HasOnlyGained (Gives (contents relations.now) select.now rest.now (numbers.old.items ++ row.now)) found.old found.new }
    ensures all { OnOk result (HasAll (Gives (contents relations.now) select.now rest.now (numbers.old.items ++ row.now)) found.new) }
    ensures numbers { OnOk result (numbers.new.items ≡ numbers.old.items) }
{
    let count = numbers.len();
    numbers.extend_from_slice(row)?;
    collects(alloc, relations, select, rest, numbers, found)?;
    numbers.truncate(count);
    Ok(())
}

// Puts the numbers of the items, where the condition is true.
fn settles(
    alloc: Global,
    relations: &Relations,
    select: &Select,
    numbers: &mut Vec<u32>,
    found: &mut RowSet,
) -> Result<(), NoMemory>
    requires { found.old.width ≡ length select.now.items }
    ensures gained { HasOnlyGained (Gives (contents relations.now) select.now [] numbers.old.items) found.old found.new }
    ensures all { OnOk result (HasAll (Gives (contents relations.now) select.now [] numbers.old.items) found.new) }
    ensures numbers { OnOk result (numbers.new.items ≡ numbers.old.items) }
{
    if !holds(alloc, relations, &select.condition, numbers)? {
        return Ok(());
    }
    let row = numbers_at(alloc, numbers, select.items.as_slice())?;
    found.insert(alloc, &row)?;
    Ok(())
}
