//! Whether conditions are true.
ghost use Rattle.std.specs.Prelude.{◌≡◌, ◌++◌, true, take, get_or, IfOk, OnOk};
ghost use Rattle.std.specs.List.{list_all, list_any};
ghost use Rattle.mast_relations.specs.Lookups.{CanLookUp};
ghost use Rattle.mast_relations.specs.Plans.{AreBelow, picked};
ghost use Rattle.mast_relations.specs.Stores.{contents};
ghost use Rattle.mast_conditions.specs.Truth.{is_some_row_true, truth, truths};

use crate::condition::{Condition, Entry};
use mast_relations::Relations;
use mast_terms::NoMemory;
use std::alloc::Global;

// Whether each of the numbers is below a bound.
fn are_below(numbers: &[usize], bound: usize) -> bool
    ensures { result ≡ true → AreBelow bound numbers.now }
{
    for number in numbers {
        if *number >= bound {
            return false;
        }
    }
    true
}

// Whether the relation, the columns and the places of an entry are there.
pub(crate) fn can_look_up(relations: &Relations, entry: &Entry, numbers: &[u32]) -> bool
    ensures { result ≡ true → CanLookUp (contents relations.now) entry.now.relation entry.now.columns numbers.now entry.now.places }
{
    if entry.relation as usize >= relations.count() {
        return false;
    }
    if entry.columns.len() != entry.places.len() {
        return false;
    }
    are_below(entry.columns.as_slice(), relations.width(entry.relation))
        && are_below(entry.places.as_slice(), numbers.len())
}

// The number at a place, and 0 beyond the last.
pub(crate) fn number_at(numbers: &[u32], place: usize) -> u32
    ensures { result ≡ get_or numbers.now place 0 }
{
    match numbers.get(place) {
        Some(number) => *number,
        None => 0,
    }
}

/// The numbers at these places.
pub(crate) fn numbers_at(
    alloc: Global,
    numbers: &[u32],
    places: &[usize],
) -> Result<Vec<u32>, NoMemory>
    ensures { IfOk result (λ picks. picks.items ≡ picked numbers.now places.now) }
{
    let mut picks = Vec::new(alloc);
    for place in places {
        picks.push(number_at(numbers, *place))?;
    }
    Ok(picks)
}

// The first numbers, so many, with those at the places behind them.
fn only(
    alloc: Global,
    numbers: &[u32],
    count: usize,
    places: &[usize],
) -> Result<Vec<u32>, NoMemory>
    ensures { IfOk result (λ chosen. chosen.items ≡ take count numbers.now ++ picked numbers.now places.now) }
{
    if count > numbers.len() {
        return Err(NoMemory);
    }
    let picks = numbers_at(alloc, numbers, places)?;
    let mut chosen = Vec::from_slice(alloc, numbers.split_at(count).0)?;
    chosen.extend_from_slice(&picks)?;
    Ok(chosen)
}

/// Whether the condition is true of these numbers, which are afterwards as they were. Rows are looked up by the indices that
/// there are, and the first that makes the rest true ends the search. A condition that names a relation, a column or a place
/// that is not there is answered by NoMemory.
#[cycle(holds)]
pub fn holds(
    alloc: Global,
    relations: &Relations,
    condition: &Condition,
    numbers: &mut Vec<u32>,
) -> Result<bool, NoMemory>
    ensures truth { IfOk result (λ b. b ≡ truth (contents relations.now) condition.now numbers.old.items) }
    ensures numbers { OnOk result (numbers.new.items ≡ numbers.old.items) }
{
    match condition {
        Condition::Equal(left, right) => {
            Ok(number_at(numbers, *left) == number_at(numbers, *right))
        }
        Condition::Not(inner) => {
            let holds = holds(alloc, relations, inner.get(), numbers)?;
            Ok(!holds)
        }
        Condition::All(conditions) => all_hold(alloc, relations, conditions.as_slice(), numbers),
        Condition::Any(conditions) => one_holds(alloc, relations, conditions.as_slice(), numbers),
        Condition::Row { entry, rest } => row_holds(alloc, relations, entry, rest.get(), numbers),
        Condition::Only {
            count,
            places,
            rest,
        } => {
            let mut chosen = only(alloc, numbers, *count, places.as_slice())?;
            holds(alloc, relations, rest.get(), &mut chosen)
        }
    }
}

// Whether all conditions are true.
#[cycle(holds)]
fn all_hold(
    alloc: Global,
    relations: &Relations,
    conditions: &[Condition],
    numbers: &mut Vec<u32>,
) -> Result<bool, NoMemory>
    ensures truth { IfOk result (λ b. b ≡ list_all (λ part. part numbers.old.items) (truths (contents relations.now) conditions.now)) }
    ensures numbers { OnOk result (numbers.new.items ≡ numbers.old.items) }
{
    for condition in conditions {
        if !holds(alloc, relations, condition, numbers)? {
            return Ok(false);
        }
    }
    Ok(true)
}

// Whether one of the conditions is true.
#[cycle(holds)]
fn one_holds(
    alloc: Global,
    relations: &Relations,
    conditions: &[Condition],
    numbers: &mut Vec<u32>,
) -> Result<bool, NoMemory>
    ensures truth { IfOk result (λ b. b ≡ list_any (λ part. part numbers.old.items) (truths (contents relations.now) conditions.now)) }
    ensures numbers { OnOk result (numbers.new.items ≡ numbers.old.items) }
{
    for condition in conditions {
        if holds(alloc, relations, condition, numbers)? {
            return Ok(true);
        }
    }
    Ok(false)
}

// Whether some row of the entry makes the rest true.
#[cycle(holds)]
fn row_holds(
    alloc: Global,
    relations: &Relations,
    entry: &Entry,
    rest: &Condition,
    numbers: &mut Vec<u32>,
) -> Result<bool, NoMemory>
    ensures truth { IfOk result (λ b. b ≡ is_some_row_true (contents relations.now) entry.now (truth (contents relations.now) rest.now) numbers.old.items) }
    ensures numbers { OnOk result (numbers.new.items ≡ numbers.old.items) }
{
    if !can_look_up(relations, entry, numbers) {
        return Err(NoMemory);
    }
    let columns = entry.columns.as_slice();
    let places = entry.places.as_slice();
    let mut place = relations.last(entry.relation, columns, numbers, places);
    while place > 0 {
        let row = relations.rows(entry.relation).row(place - 1);
        if holds_with(alloc, relations, rest, row, numbers)? {
            return Ok(true);
        }
        place = relations.before(entry.relation, columns, numbers, places, place);
    }
    Ok(false)
}

// Whether the condition is true with this row behind the numbers.
#[cycle(holds)]
fn holds_with(
    alloc: Global,
    relations: &Relations,
    condition: &Condition,
    row: &[u32],
    numbers: &mut Vec<u32>,
) -> Result<bool, NoMemory>
    ensures truth { IfOk result (λ b. b ≡ truth (contents relations.now) condition.now (numbers.old.items ++ row.now)) }
    ensures numbers { OnOk result (numbers.new.items ≡ numbers.old.items) }
{
    let count = numbers.len();
    numbers.extend_from_slice(row)?;
    let holds = holds(alloc, relations, condition, numbers)?;
    numbers.truncate(count);
    Ok(holds)
}
