//! A source query over tables, and partial choices of its rows.
ghost use Rattle.std.specs.Prelude.{◌≡◌, ◌<◌, [], false, length, get_or};
ghost use Rattle.std.specs.Option.{option_copied};
ghost use Rattle.mast_join.specs.inside.Joins.{EntryThere, IsJoin, sources};
ghost use Rattle.mast_join.specs.inside.Partial as partial;
ghost use Rattle.mast_join.specs.inside.Partial.{IsPartly, IsSideOver, IsTestOver, is_open, pass_all, passes, side_value};

use crate::comparisons::{Side, Test, compare};
use mast_canon::RowId;
use mast_tables::Table;
use mast_terms::Value;

// The tables, the number of the table of each entry, the comparisons, and the rows that may be chosen, where they are given.
#[derive(Drop)]
pub(crate) struct Join<'a> {
    pub(crate) tables: &'a [Table],
    pub(crate) places: Vec<usize>,
    pub(crate) tests: Vec<Test<'a>>,
    pub(crate) only: Option<&'a [RowId]>,
}

impl<'a> Join<'a> {
    // How many entries there are.
    pub(crate) fn width(&self) -> usize
        ensures { result ≡ length self.now.places.items }
    {
        self.places.len()
    }

    // The table of an entry.
    pub(crate) fn source(&self, entry: usize) -> &'a Table
        requires join { IsJoin self.now }
        requires entry { entry < length self.now.places.items }
        ensures { result.now ≡ get_or (sources self.now) entry [] }
    {
        &self.tables[self.places[entry]]
    }

    // The value of a side whose row is chosen.
    pub(crate) fn value(&self, choice: &[u32], side: &Side<'a>) -> Option<&'a Value>
        requires join { IsJoin self.now }
        requires partly { IsPartly (sources self.now) choice.now }
        requires over { IsSideOver (sources self.now) side.now }
        requires chosen { is_open choice.now side.now ≡ false }
        ensures { option_copied result ≡ side_value (sources self.now) choice.now side.now }
    {
        match side {
            Side::Cell { entry, column } => {
                let row = choice[*entry];
                self.source(*entry).cell(row, *column as u32 + 1)
            }
            Side::Constant(value) => Some(*value),
            Side::Nothing => None,
        }
    }

    // Whether the comparison is true, or can't be judged yet.
    pub(crate) fn passes_one(&self, choice: &[u32], test: &Test<'a>) -> bool
        requires join { IsJoin self.now }
        requires partly { IsPartly (sources self.now) choice.now }
        requires over { IsTestOver (sources self.now) test.now }
        ensures { result ≡ passes (sources self.now) choice.now test.now }
    {
        if is_open(choice, &test.left) || is_open(choice, &test.right) {
            return true;
        }
        compare(
            test.op,
            self.value(choice, &test.left),
            self.value(choice, &test.right),
        )
    }

    // Whether no comparison is false.
    pub(crate) fn passes(&self, choice: &[u32]) -> bool
        requires join { IsJoin self.now }
        requires partly { IsPartly (sources self.now) choice.now }
        ensures { result ≡ pass_all (sources self.now) choice.now self.now.tests.items }
    {
        for test in &self.tests {
            if !self.passes_one(choice, test) {
                return false;
            }
        }
        true
    }
}

// Whether no row is chosen yet for the entry of the side.
fn is_open(choice: &[u32], side: &Side<'_>) -> bool
    requires { EntryThere choice.now side.now }
    ensures { result ≡ partial.is_open choice.now side.now }
{
    match side {
        Side::Cell { entry, column: _ } => choice[*entry] == 0,
        Side::Constant(_) => false,
        Side::Nothing => false,
    }
}
