//! Partial choices that get a row for one more entry.
ghost use Rattle.std.specs.Prelude.{◌≡◌, ◌+◌, ◌^◌, ◌<◌, ◌≤◌, ◌++◌, [], true, false, IfOk, OnOk, length, get_or, set, replicate};
ghost use Rattle.std.specs.List.{All, AllByRecursion};
ghost use Rattle.mast_join.specs.inside.Grows.{ArePartialOf, AreWhole, CanGrow, HasGrown, HasOther, IsLinked, IsLookup};
ghost use Rattle.mast_join.specs.inside.Joins.{IsJoin, sources};
ghost use Rattle.mast_join.specs.inside.Partial.{IsCellOver, IsPartly, kept};

use crate::found::Choices;
use crate::index::Index;
use crate::join::Join;
use crate::lookup::find_rows;
use crate::numbers::Numbers;
use crate::order::Link;
use mast_terms::NoMemory;
use std::alloc::Global;

// So many rows and more are not indexed; no table has as many.
const MOST_INDEXED: usize = 0xFFFF_FFFE;

// For each choice so many numbers of the other column are noted at most, so that few choices over a large table cost little.
const NOTED_FOR_A_CHOICE: usize = 16;

impl Join<'_> {
    // Puts the choice with each of these rows at the entry behind the others, where no comparison is false.
    fn put(
        &self,
        choice: &mut [u32],
        entry: usize,
        rows: &[u32],
        grown: &mut Choices,
    ) -> Result<(), NoMemory>
        requires join { IsJoin self.now }
        requires entry { entry < length self.now.places.items }
        requires rows { All (λ row. row ≤ length (get_or (sources self.now) entry [])) rows.now }
        requires partly { IsPartly (sources self.now) choice.old }
        requires width { grown.old.width ≡ length self.now.places.items }
        ensures width { OnOk result (grown.new.width ≡ length self.now.places.items) }
        ensures list { OnOk result (grown.new.list ≡ grown.old.list ++ kept (sources self.now) self.now.tests.items choice.old entry rows.now) }
    {
        for row in rows {
            choice[entry] = *row;
            if self.passes(choice) {
                grown.push(choice)?;
            }
        }
        Ok(())
    }

    // Each of the choices with each of these rows.
    fn grow_by_all(
        &self,
        alloc: Global,
        choices: &Choices,
        entry: usize,
        rows: &[u32],
    ) -> Result<Choices, NoMemory>
        requires { CanGrow self.now entry rows.now choices.now }
        ensures { IfOk result (HasGrown self.now entry rows.now choices.now) }
    {
        let mut grown = Choices::new(alloc, self.width());
        let mut choice = vec![in alloc; 0u32; self.width()]?;
        for number in 0..choices.len() {
            choice.copy_from_slice(choices.choice(number));
            self.put(&mut choice, entry, rows, &mut grown)?;
        }
        Ok(grown)
    }

    // The same, where each choice gets those rows alone that the index has for it.
    fn grow_by_index(
        &self,
        alloc: Global,
        choices: &Choices,
        entry: usize,
        link: Link,
        index: &Index<'_>,
        numbers: &mut Numbers<'_>,
    ) -> Result<Choices, NoMemory>
        requires can { CanGrow self.now entry index.now.rows.now choices.now }
        requires linked { IsLinked self.now entry link index.now.rows.now choices.now.list }
        requires lookup { IsLookup self.now entry link index.now numbers.old }
        ensures { IfOk result (HasGrown self.now entry index.now.rows.now choices.now) }
    {
        let mut grown = Choices::new(alloc, self.width());
        let mut choice = vec![in alloc; 0u32; self.width()]?;
        let mut found = Vec::new(alloc);
        for number in 0..choices.len() {
            choice.copy_from_slice(choices.choice(number));
            find_rows(index, numbers, choice[link.other], &mut found)?;
            self.put(&mut choice, entry, &found, &mut grown)?;
        }
        Ok(grown)
    }

    // How many numbers of the other column's values are noted: all, or fewer where the choices are few.
    fn noted(&self, choices: &Choices, link: Link) -> usize
        requires join { IsJoin self.now }
        requires other { link.other < length self.now.places.items }
        requires long { AllByRecursion (λ choice. length choice ≡ length self.now.places.items) choices.now.list }
        requires others { AllByRecursion (HasOther self.now link) choices.now.list }
        requires column { link.other_column + 1 < 2 ^ 32 }
        ensures { 0 < result }
    {
        let table = self.source(link.other);
        let mut greatest = 0;
        for number in 0..choices.len() {
            let row = choices.choice(number)[link.other];
            greatest = greatest_of(greatest, table.number(row, link.other_column as u32 + 1));
        }
        let most = choices.len().saturating_mul(NOTED_FOR_A_CHOICE);
        greatest.min(most).saturating_add(1)
    }

    // The choices with each of these rows, by an equality that links the entry to bound ones.
    fn grow_by_link(
        &self,
        alloc: Global,
        choices: &Choices,
        entry: usize,
        link: Link,
        rows: &[u32],
    ) -> Result<Choices, NoMemory>
        requires can { CanGrow self.now entry rows.now choices.now }
        requires linked { IsLinked self.now entry link rows.now choices.now.list }
        requires cell { IsCellOver (sources self.now) entry link.column }
        requires other { IsCellOver (sources self.now) link.other link.other_column }
        requires few { length rows.now + 1 < 2 ^ 32 }
        ensures { IfOk result (HasGrown self.now entry rows.now choices.now) }
    {
        let table = self.source(entry);
        let index = Index::new(alloc, table, link.column as u32 + 1, rows)?;
        let mut numbers = Numbers {
            from: self.source(link.other),
            column: link.other_column as u32 + 1,
            to: table,
            same: self.places[link.other] == self.places[entry],
            known: vec![in alloc; None; self.noted(choices, link)]?,
        };
        self.grow_by_index(alloc, choices, entry, link, &index, &mut numbers)
    }

    // The partial choices for one more entry.
    fn extend(
        &self,
        alloc: Global,
        choices: &Choices,
        entry: usize,
        bound: &[bool],
    ) -> Result<Choices, NoMemory>
        requires join { IsJoin self.now }
        requires entry { get_or bound.now entry true ≡ false }
        requires long { length bound.now ≡ length self.now.places.items }
        requires partial { ArePartialOf self.now bound.now choices.now }
        ensures { IfOk result (ArePartialOf self.now (set bound.now entry true)) }
    {
        let rows = self.candidates(alloc, entry)?;
        match self.link(entry, bound) {
            None => self.grow_by_all(alloc, choices, entry, &rows),
            Some(link) => {
                if rows.len() < MOST_INDEXED {
                    self.grow_by_link(alloc, choices, entry, link, &rows)
                } else {
                    self.grow_by_all(alloc, choices, entry, &rows)
                }
            }
        }
    }

    // The choice that has no row yet, where no comparison is false of it.
    fn start(&self, alloc: Global) -> Result<Choices, NoMemory>
        requires { IsJoin self.now }
        ensures { IfOk result (ArePartialOf self.now (replicate (length self.now.places.items) false)) }
    {
        let mut choices = Choices::new(alloc, self.width());
        let choice = vec![in alloc; 0u32; self.width()]?;
        if self.passes(&choice) {
            choices.push(&choice)?;
        }
        Ok(choices)
    }

    // The choices with a row for each entry.
    pub(crate) fn choices(&self, alloc: Global) -> Result<Choices, NoMemory>
        requires { IsJoin self.now }
        ensures { IfOk result (AreWhole self.now) }
    {
        let mut bound = vec![in alloc; false; self.width()]?;
        let mut choices = self.start(alloc)?;
        for _ in 0..self.width() {
            match self.next(&bound) {
                None => return Ok(choices),
                Some(entry) => {
                    choices = self.extend(alloc, &choices, entry, &bound)?;
                    bound[entry] = true;
                }
            }
        }
        Ok(choices)
    }
}

// The greater of the two, if there are two.
fn greatest_of(greatest: usize, number: Option<u32>) -> usize {
    match number {
        None => greatest,
        Some(number) => greatest.max(number as usize),
    }
}
