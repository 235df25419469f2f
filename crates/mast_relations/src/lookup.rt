//! Rows of a relation that agree with given numbers, one after the other.
ghost use Rattle.std.specs.Prelude.{◌≡◌, ◌-◌, ◌<◌, ◌≤◌, [], length, get_or};
ghost use Rattle.mast_relations.specs.Lookups.{AgreesAt, CanAgreeBy, CanLookUp, IsLastOf, rows_in};
ghost use Rattle.mast_relations.specs.Matches.{Rows, nothing};
ghost use Rattle.mast_relations.specs.Plans.{AreBelow};
ghost use Rattle.mast_relations.specs.Stores.{contents};

use crate::relation::{Relation, agree};
use crate::relations::Relations;
use crate::rows::{RowSet, hash_at};
use mast_terms::NoMemory;
use std::alloc::Global;

// The last of the rows before the end that agrees.
fn scanned(rows: &RowSet, columns: &[usize], values: &[u32], places: &[usize], end: u32) -> u32
    requires can { CanAgreeBy rows.now.width columns.now values.now places.now }
    requires within { end ≤ length rows.now.list }
    ensures { IsLastOf (AgreesAt rows.now.list columns.now values.now places.now) end result }
{
    let mut place = end;
    while place > 0 {
        if agree(rows.row(place - 1), columns, values, places) {
            return place;
        }
        place -= 1;
    }
    place
}

impl Relation {
    // The last row that agrees: by the index over the columns, if there is one.
    fn last_by(&self, columns: &[usize], values: &[u32], places: &[usize]) -> u32
        requires { CanAgreeBy self.now.rows.width columns.now values.now places.now }
        ensures { IsLastOf (AgreesAt self.now.rows.list columns.now values.now places.now) (length self.now.rows.list) result }
    {
        match self.position(columns) {
            Some(index) => self.last(index, values, places, hash_at(values, places)),
            None => scanned(self.rows(), columns, values, places, self.rows().len()),
        }
    }

    // The last one before a row that agrees.
    fn before_by(&self, columns: &[usize], values: &[u32], places: &[usize], place: u32) -> u32
        requires can { CanAgreeBy self.now.rows.width columns.now values.now places.now }
        requires some { 0 < place }
        requires within { place ≤ length self.now.rows.list }
        requires agrees { AgreesAt self.now.rows.list columns.now values.now places.now (place - 1) }
        ensures { IsLastOf (AgreesAt self.now.rows.list columns.now values.now places.now) (place - 1) result }
    {
        match self.position(columns) {
            Some(index) => self.before(index, values, places, hash_at(values, places), place),
            None => scanned(self.rows(), columns, values, places, place - 1),
        }
    }
}

impl Relations {
    /// Makes the index of a relation over these columns, if there is none, by which its rows are then looked up.
    pub fn add_index(
        &mut self,
        alloc: Global,
        relation: u32,
        columns: Vec<usize>,
    ) -> Result<(), NoMemory>
        requires there { relation < length self.old }
        requires columns { AreBelow (get_or (contents self.old) relation nothing).width columns.items }
        ensures { contents self.new ≡ contents self.old }
    {
        let stored = &mut self.relations[relation as usize];
        stored.index(alloc, columns)?;
        Ok(())
    }

    /// The rows of a relation.
    pub fn rows(&self, relation: u32) -> &RowSet
        requires { relation < length self.now }
        ensures { result.now ≡ get_or (contents self.now) relation nothing }
    {
        self.relations[relation as usize].rows()
    }

    /// One more than the number of the last row that has in these columns what the values have at these places; 0 where
    /// none has. An index over the columns is used, if there is one; else it looks at each row.
    pub fn last(&self, relation: u32, columns: &[usize], values: &[u32], places: &[usize]) -> u32
        requires { CanLookUp (contents self.now) relation columns.now values.now places.now }
        ensures { IsLastOf (AgreesAt (rows_in (contents self.now) relation) columns.now values.now places.now) (length (rows_in (contents self.now) relation)) result }
    {
        self.relations[relation as usize].last_by(columns, values, places)
    }

    /// The same, of the rows before one of them.
    pub fn before(
        &self,
        relation: u32,
        columns: &[usize],
        values: &[u32],
        places: &[usize],
        place: u32,
    ) -> u32
        requires can { CanLookUp (contents self.now) relation columns.now values.now places.now }
        requires some { 0 < place }
        requires within { place ≤ length (rows_in (contents self.now) relation) }
        requires agrees { AgreesAt (rows_in (contents self.now) relation) columns.now values.now places.now (place - 1) }
        ensures { IsLastOf (AgreesAt (rows_in (contents self.now) relation) columns.now values.now places.now) (place - 1) result }
    {
        self.relations[relation as usize].before_by(columns, values, places, place)
    }
}
