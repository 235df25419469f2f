//! A relation, with indices by some of its columns.
ghost use Rattle.std.specs.Prelude.{◌≡◌, ℕ, ◌-◌, ◌<◌, ◌≤◌, [], true, false, length, IfOk, IfSome, OnErr};
ghost use Rattle.mast_relations.specs.Matches.{Rows};
ghost use Rattle.mast_relations.specs.Stores.{IsInserted, IsUnchanged, Stored, no_rows};
ghost use Rattle.mast_relations.specs.Plans.{AreBelow, picked};
ghost use Rattle.mast_relations.specs.inside.Lasts.{HasHash, IsLast};
ghost use Rattle.mast_relations.specs.inside.Indices.{Agrees, AgreesBy, CanAgree, IsGrown, IsIndexAt, IsIndexOf, IsLookup, hashes_by};

use crate::hashes::Hashes;
use crate::rows::{RowSet, hash_at};
use mast_terms::NoMemory;
use std::alloc::Global;
use std::marker::Model;

// The hashes of rows at some columns.
#[derive(Drop)]
pub(crate) struct Index {
    pub(crate) columns: Vec<usize>,
    pub(crate) hashes: Hashes,
}

// Rows, and indices of all of them. Contracts see the rows, and the columns of each index.
#[derive(Drop)]
pub(crate) struct Relation {
    rows: RowSet,
    indices: Vec<Index>,
}

impl Model for Relation {
    ghost use Rattle.std.specs.Prelude.{map};
    ghost use Rattle.std.specs.List.{AllByRecursion};
    ghost use Rattle.mast_relations.specs.Stores.{Stored};
    ghost use Rattle.mast_relations.specs.inside.Indices.{IsIndexOf};

    ghost Value = { Stored };

    ghost view = { λ r. record { rows = r.rows; indices = map (λ index. index.columns.items) r.indices.items } };

    ghost invariant = { λ r. AllByRecursion (IsIndexOf r.rows) r.indices.items };
}

// Whether a row has at some columns what values have at some places.
pub(crate) fn agree(row: &[u32], columns: &[usize], values: &[u32], places: &[usize]) -> bool
    requires columns { AreBelow (length row.now) columns.now }
    requires places { AreBelow (length values.now) places.now }
    requires long { length columns.now ≡ length places.now }
    ensures yes { result ≡ true → picked row.now columns.now ≡ picked values.now places.now }
    ensures no { result ≡ false → picked row.now columns.now ≡ picked values.now places.now → ⊥ }
{
    for (at, column) in columns.iter().enumerate() {
        if row[*column] != values[places[at]] {
            return false;
        }
    }
    true
}

// The hashes of all rows at some columns.
fn hashes_at(alloc: Global, rows: &RowSet, columns: &[usize]) -> Result<Hashes, NoMemory>
    requires { AreBelow rows.now.width columns.now }
    ensures { IfOk result (λ hashes. hashes ≡ hashes_by columns.now rows.now.list) }
{
    let mut hashes = Hashes::new(alloc);
    for place in 0..rows.len() {
        hashes.push(alloc, hash_at(rows.row(place), columns))?;
    }
    Ok(hashes)
}

impl Relation {
    // No row, of this width.
    pub(crate) fn new(alloc: Global, width: usize) -> Relation
        ensures rows { result.rows ≡ no_rows width }
        ensures indices { result.indices ≡ [] }
    {
        Relation {
            rows: RowSet::new(alloc, width),
            indices: Vec::new(alloc),
        }
    }

    // The rows.
    pub(crate) fn rows(&self) -> &RowSet
        ensures { result.now ≡ self.now.rows }
    {
        &self.rows
    }

    // Puts a row, where it is not there yet. Then no index is left; else all is as it was.
    pub(crate) fn insert(&mut self, alloc: Global, row: &[u32]) -> Result<bool, NoMemory>
        requires { length row.now ≡ self.old.rows.width }
        ensures rows { IsInserted self.old.rows row.now result self.new.rows }
        ensures unchanged { IsUnchanged result self.old self.new }
    {
        if !self.rows.insert(alloc, row)? {
            return Ok(false);
        }
        self.indices.clear();
        Ok(true)
    }

    // The number of the index by these columns, if there is one.
    pub(crate) fn position(&self, columns: &[usize]) -> Option<usize>
        ensures { IfSome result (IsIndexAt self.now columns.now) }
    {
        for (at, index) in self.indices.iter().enumerate() {
            if index.columns.as_slice() == columns {
                return Some(at);
            }
        }
        None
    }

    // Makes an index by these columns, and gives its number.
    fn add(&mut self, alloc: Global, columns: Vec<usize>) -> Result<usize, NoMemory>
        requires { AreBelow self.old.rows.width columns.items }
        ensures index { IfOk result (IsIndexAt self.new columns.items) }
        ensures grown { IsGrown self.old self.new }
    {
        let number = self.indices.len();
        let hashes = hashes_at(alloc, &self.rows, &columns)?;
        self.indices.push(Index { columns, hashes })?;
        Ok(number)
    }

    // The number of the index by these columns, which is made if there is none.
    pub(crate) fn index(&mut self, alloc: Global, columns: Vec<usize>) -> Result<usize, NoMemory>
        requires { AreBelow self.old.rows.width columns.items }
        ensures index { IfOk result (IsIndexAt self.new columns.items) }
        ensures grown { IsGrown self.old self.new }
    {
        match self.position(&columns) {
            Some(number) => Ok(number),
            None => self.add(alloc, columns),
        }
    }

    // One more than the last place of a row that has in the index's columns what the values have at the places; 0 where there is none.
    pub(crate) fn last(&self, index: usize, values: &[u32], places: &[usize], hash: u32) -> u32
        requires { IsLookup self.now index values.now places.now hash }
        ensures { IsLast (Agrees self.now index values.now places.now) (Agrees self.now index values.now places.now) (length self.now.rows.list) result }
    {
        let index = &self.indices[index];
        agreeing(
            &self.rows,
            index,
            values,
            places,
            hash,
            index.hashes.last(hash),
        )
    }

    // The same, of the rows before one of them.
    pub(crate) fn before(
        &self,
        index: usize,
        values: &[u32],
        places: &[usize],
        hash: u32,
        place: u32,
    ) -> u32
        requires lookup { IsLookup self.now index values.now places.now hash }
        requires some { 0 < place }
        requires within { place ≤ length self.now.rows.list }
        requires agrees { Agrees self.now index values.now places.now (place - 1) }
        ensures { IsLast (Agrees self.now index values.now places.now) (Agrees self.now index values.now places.now) (place - 1) result }
    {
        let index = &self.indices[index];
        agreeing(
            &self.rows,
            index,
            values,
            places,
            hash,
            index.hashes.before(hash, place),
        )
    }
}

// The first place from this one on, along its chain, of a row that agrees.
fn agreeing(
    rows: &RowSet,
    index: &Index,
    values: &[u32],
    places: &[usize],
    hash: u32,
    place: u32,
) -> u32
    requires index { IsIndexOf rows.now index.now }
    requires lookup { CanAgree index.now.columns.items values.now places.now hash }
    requires within { place ≤ length rows.now.list }
    requires hashed { 0 < place → HasHash index.now.hashes hash (place - 1) }
    ensures last { (count : ℕ) → count ≤ length rows.now.list → IsLast (HasHash index.now.hashes hash) (HasHash index.now.hashes hash) count place
        → IsLast (AgreesBy rows.now index.now.columns.items values.now places.now) (AgreesBy rows.now index.now.columns.items values.now places.now) count result }
{
    let mut place = place;
    while place > 0 {
        if agree(rows.row(place - 1), &index.columns, values, places) {
            return place;
        }
        place = index.hashes.before(hash, place);
    }
    place
}
