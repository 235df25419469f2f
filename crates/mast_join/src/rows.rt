//! The rows that an entry may have.
ghost use Rattle.std.specs.Prelude.{◌≡◌, ◌↔◌, ◌<◌, ◌≤◌, ℕ, [], IfOk, OnOk, length, get_or};
ghost use Rattle.std.specs.List.{All, filter};
ghost use Rattle.mast_canon.specs.Choices.{IsRowNumber};
ghost use Rattle.mast_cq.specs.Queries.{In};
ghost use Rattle.mast_join.specs.inside.Joins.{IsJoin, nothing, only, sources};
ghost use Rattle.mast_join.specs.inside.Partial.{AreCandidates, Once};
ghost use Rattle.mast_join.specs.inside.RowLists as row_lists;
ghost use Rattle.mast_join.specs.inside.RowLists.{AreAllowed, given, numbers_to, passes_alone};

use crate::join::Join;
use mast_canon::RowId;
use mast_terms::NoMemory;
use std::alloc::Global;

// The numbers of so many rows.
fn all_rows(alloc: Global, count: u32) -> Result<Vec<u32>, NoMemory>
    ensures { IfOk result (λ rows. rows.items ≡ numbers_to count) }
{
    let mut rows = Vec::new(alloc);
    for row in 0..count {
        rows.push(row + 1)?;
    }
    Ok(rows)
}

// Whether a row is one of a table with so many.
fn is_given(row: &RowId, place: usize, count: u32) -> bool
    ensures { result ≡ row_lists.is_given place count row.now }
{
    row.table as usize == place && row.number >= 1 && row.number <= count
}

// The numbers that are given for a table with so many rows, as often as they are.
fn given_numbers(
    alloc: Global,
    rows: &[RowId],
    place: usize,
    count: u32,
) -> Result<Vec<u32>, NoMemory>
    ensures { IfOk result (λ numbers. numbers.items ≡ given place count rows.now) }
{
    let mut numbers = Vec::new(alloc);
    for row in rows {
        if is_given(row, place, count) {
            numbers.push(row.number)?;
        }
    }
    Ok(numbers)
}

// Each number once.
fn make_distinct(numbers: &mut Vec<u32>)
    ensures once { Once numbers.new.items }
    ensures same { (number : ℕ) → In number numbers.new.items ↔ In number numbers.old.items }
{
    numbers.sort_unstable();
    numbers.dedup();
}

impl Join<'_> {
    // The rows that an entry may have.
    fn allowed(&self, alloc: Global, entry: usize) -> Result<Vec<u32>, NoMemory>
        requires join { IsJoin self.now }
        requires entry { entry < length self.now.places.items }
        ensures { IfOk result (λ rows. AreAllowed (sources self.now) self.now.places.items (only self.now) entry rows.items) }
    {
        let count = self.source(entry).rows();
        match self.only {
            None => all_rows(alloc, count),
            Some(only) => {
                let mut numbers = given_numbers(alloc, only, self.places[entry], count)?;
                make_distinct(&mut numbers);
                Ok(numbers)
            }
        }
    }

    // Those of some rows of an entry of which no comparison is false by themselves.
    fn passing(&self, alloc: Global, entry: usize, rows: &[u32]) -> Result<Vec<u32>, NoMemory>
        requires join { IsJoin self.now }
        requires entry { entry < length self.now.places.items }
        requires rows { All (λ row. row ≤ length (get_or (sources self.now) entry [])) rows.now }
        ensures { IfOk result (λ found. found.items ≡ filter (passes_alone self.now entry) rows.now) }
    {
        let mut choice = vec![in alloc; 0u32; self.width()]?;
        let mut found = Vec::new(alloc);
        for row in rows {
            choice[entry] = *row;
            if self.passes(&choice) {
                found.push(*row)?;
            }
        }
        Ok(found)
    }

    // The rows that an entry may have, and of which no comparison is false by themselves.
    pub(crate) fn candidates(&self, alloc: Global, entry: usize) -> Result<Vec<u32>, NoMemory>
        requires join { IsJoin self.now }
        requires entry { entry < length self.now.places.items }
        ensures { IfOk result (λ rows. AreCandidates (sources self.now) self.now.places.items (only self.now) self.now.tests.items (nothing self.now) entry rows.items) }
    {
        let rows = self.allowed(alloc, entry)?;
        self.passing(alloc, entry, &rows)
    }
}
