//! Different rows of one width, in one vector.
ghost use Rattle.std.specs.Prelude.{◌≡◌, ◌<◌, ◌+◌, ◌^◌, [], true, false, length, get_or};
ghost use Rattle.mast_terms.specs.Vocabularies.{EachOnce};
ghost use Rattle.mast_relations.specs.Matches.{In, Rows};
ghost use Rattle.mast_relations.specs.Stores.{IsInserted, no_rows};
ghost use Rattle.mast_relations.specs.Plans.{AreBelow, picked};
ghost use Rattle.mast_relations.specs.inside.Hashing.{hash_of, mixed};
ghost use Rattle.mast_relations.specs.inside.Lasts.{IsLast, IsRow};

use crate::hashes::Hashes;
use mast_terms::NoMemory;
use std::alloc::Global;
use std::marker::Model;

// By it neighbouring numbers come into places far from each other: 2^32 divided by the golden ratio, made odd.
const SCATTER: u32 = 0x9E37_79B1;

// So many rows are the most: their places are numbers of 32 bits.
const MOST: u32 = 0xFFFF_FFFE;

/// Different rows of one width, in the order in which they came. Contracts see the width, and the list of the rows.
#[derive(Drop)]
pub struct RowSet {
    width: usize,
    numbers: Vec<u32>,
    hashes: Hashes,
}

impl Model for RowSet {
    ghost use Rattle.mast_relations.specs.Matches.{Rows};
    ghost use Rattle.mast_relations.specs.inside.RowSets.{rows_of, IsRowSet};

    ghost Value = { Rows };

    ghost view = { λ r. rows_of r.width r.hashes r.numbers.items };

    ghost invariant = { λ r. IsRowSet r.width r.hashes r.numbers.items };
}

// A hash, with one more number.
fn mix(hash: u32, number: u32) -> u32
    ensures { result ≡ mixed hash number }
{
    hash.wrapping_add(number).wrapping_mul(SCATTER)
}

// The hash of some numbers.
pub(crate) fn hash_all(numbers: &[u32]) -> u32
    ensures { result ≡ hash_of numbers.now }
{
    let mut hash = 0;
    for number in numbers {
        hash = mix(hash, *number);
    }
    hash
}

// The hash of the numbers at some places.
pub(crate) fn hash_at(numbers: &[u32], places: &[usize]) -> u32
    requires { AreBelow (length numbers.now) places.now }
    ensures { result ≡ hash_of (picked numbers.now places.now) }
{
    let mut hash = 0;
    for place in places {
        hash = mix(hash, numbers[*place]);
    }
    hash
}

impl RowSet {
    /// No row, of this width.
    pub fn new(alloc: Global, width: usize) -> RowSet
        ensures { result ≡ no_rows width }
    {
        RowSet {
            width,
            numbers: Vec::new(alloc),
            hashes: Hashes::new(alloc),
        }
    }

    /// How many numbers a row has.
    pub fn width(&self) -> usize
        ensures { result ≡ self.now.width }
    {
        self.width
    }

    /// How many rows there are. They are different.
    pub fn len(&self) -> u32
        ensures len { result ≡ length self.now.list }
        ensures different { EachOnce self.now.list }
    {
        self.hashes.len()
    }

    /// The row of a number, from 0.
    pub fn row(&self, number: u32) -> &[u32]
        requires { number < length self.now.list }
        ensures row { result.now ≡ get_or self.now.list number [] }
        ensures wide { length result.now ≡ self.now.width }
    {
        let behind = self
            .numbers
            .as_slice()
            .split_at(number as usize * self.width)
            .1;
        behind.split_at(self.width).0
    }

    // One more than the place of a row; 0 where it is not there.
    pub(crate) fn find(&self, row: &[u32], hash: u32) -> u32
        requires { hash ≡ hash_of row.now }
        ensures { IsLast (IsRow self.now row.now) (IsRow self.now row.now) (length self.now.list) result }
    {
        let mut place = self.hashes.last(hash);
        while place > 0 {
            if self.row(place - 1) == row {
                return place;
            }
            place = self.hashes.before(hash, place);
        }
        place
    }

    // Whether a row is there.
    pub(crate) fn has(&self, row: &[u32]) -> bool
        ensures yes { result ≡ true → In row.now self.now.list }
        ensures no { result ≡ false → In row.now self.now.list → ⊥ }
    {
        self.find(row, hash_all(row)) > 0
    }

    /// Puts a row behind the others, where it is not there yet, and tells whether it did. For want of memory all is as it was;
    /// so it answers too where 4,294,967,294 rows are there.
    pub fn insert(&mut self, alloc: Global, row: &[u32]) -> Result<bool, NoMemory>
        requires { length row.now ≡ self.old.width }
        ensures { IsInserted self.old row.now result self.new }
    {
        let hash = hash_all(row);
        if self.find(row, hash) > 0 {
            return Ok(false);
        }
        if self.hashes.len() >= MOST {
            return Err(NoMemory);
        }
        self.put(alloc, row, hash)
    }

    // Puts a row that is not there.
    fn put(&mut self, alloc: Global, row: &[u32], hash: u32) -> Result<bool, NoMemory>
        requires wide { length row.now ≡ self.old.width }
        requires new { IsLast (IsRow self.old row.now) (IsRow self.old row.now) (length self.old.list) 0 }
        requires few { length self.old.list + 1 < 2 ^ 32 }
        requires hash { hash ≡ hash_of row.now }
        ensures { IsInserted self.old row.now result self.new }
    {
        self.numbers.extend_from_slice(row)?;
        match self.hashes.push(alloc, hash) {
            Ok(()) => Ok(true),
            Err(e) => {
                let len = self.numbers.len() - row.len();
                self.numbers.truncate(len);
                Err(e)
            }
        }
    }
}
