//! The numbers that the values of a table's column have in another table.
ghost use Rattle.std.specs.Prelude.{◌≡◌, Some, IfSome, option_and_then};
ghost use Rattle.mast_tables.specs.Rows.{IsPlace, cell_at, number_at, number_of};
ghost use Rattle.mast_join.specs.inside.Lookups.{AreNumbers, IsNoteOf};

use mast_tables::{Table, numbers_tell_values};

// That a number of the one table is this of the other.
#[derive(Clone, Copy)]
pub(crate) struct Known {
    pub(crate) number: u32,
    pub(crate) other: Option<u32>,
}

// A column of the one table, and the other table. What is found is noted, so each different value is looked up once where
// there are as many places as numbers.
#[derive(Drop)]
pub(crate) struct Numbers<'t> {
    pub(crate) from: &'t Table,
    pub(crate) column: u32,
    pub(crate) to: &'t Table,
    pub(crate) same: bool,
    pub(crate) known: Vec<Option<Known>>,
}

impl Numbers<'_> {
    // The number in the other table of the value in a row. None comes where the cell is missing, or no cell there has the value.
    pub(crate) fn number(&mut self, row: u32) -> Option<u32>
        requires numbers { AreNumbers self.old }
        requires place { IsPlace self.old.from.now row self.old.column }
        ensures number { result ≡ option_and_then (number_of self.old.to.now) (cell_at self.old.from.now row self.old.column) }
        ensures numbers { AreNumbers self.new }
        ensures from { self.new.from.now ≡ self.old.from.now }
        ensures column { self.new.column ≡ self.old.column }
        ensures to { self.new.to.now ≡ self.old.to.now }
    {
        numbers_tell_values();
        match self.from.number(row, self.column) {
            None => None,
            Some(number) => {
                if self.same {
                    Some(number)
                } else {
                    self.other(row, number)
                }
            }
        }
    }

    // The same, where the value's own number is known.
    fn other(&mut self, row: u32, number: u32) -> Option<u32>
        requires numbers { AreNumbers self.old }
        requires place { IsPlace self.old.from.now row self.old.column }
        requires number { number_at self.old.from.now row self.old.column ≡ Some number }
        ensures number { result ≡ option_and_then (number_of self.old.to.now) (cell_at self.old.from.now row self.old.column) }
        ensures numbers { AreNumbers self.new }
        ensures from { self.new.from.now ≡ self.old.from.now }
        ensures column { self.new.column ≡ self.old.column }
        ensures to { self.new.to.now ≡ self.old.to.now }
    {
        match self.note_of(number) {
            Some(known) => known.other,
            None => self.look_up(row, number),
        }
    }

    // What is noted of a number.
    fn note_of(&self, number: u32) -> Option<Known>
        requires { AreNumbers self.now }
        ensures { IfSome result (IsNoteOf self.now.from.now self.now.column self.now.to.now number) }
    {
        match self.known[number as usize % self.known.len()] {
            None => None,
            Some(known) => {
                if known.number == number {
                    Some(known)
                } else {
                    None
                }
            }
        }
    }

    // Looks the value in a row up in the other table, and notes what is found of its number.
    fn look_up(&mut self, row: u32, number: u32) -> Option<u32>
        requires numbers { AreNumbers self.old }
        requires place { IsPlace self.old.from.now row self.old.column }
        requires number { number_at self.old.from.now row self.old.column ≡ Some number }
        ensures number { result ≡ option_and_then (number_of self.old.to.now) (cell_at self.old.from.now row self.old.column) }
        ensures numbers { AreNumbers self.new }
        ensures from { self.new.from.now ≡ self.old.from.now }
        ensures column { self.new.column ≡ self.old.column }
        ensures to { self.new.to.now ≡ self.old.to.now }
    {
        numbers_tell_values();
        let other = self.found(row);
        let place = number as usize % self.known.len();
        self.known[place] = Some(Known { number, other });
        other
    }

    // The number in the other table of the value in a row.
    fn found(&self, row: u32) -> Option<u32>
        requires { IsPlace self.now.from.now row self.now.column }
        ensures { result ≡ option_and_then (number_of self.now.to.now) (cell_at self.now.from.now row self.now.column) }
    {
        match self.from.cell(row, self.column) {
            None => None,
            Some(value) => self.to.find(value),
        }
    }
}
