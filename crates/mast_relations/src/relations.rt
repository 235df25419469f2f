//! The relations made so far, with the indices made so far.
ghost use Rattle.std.specs.Prelude.{◌≡◌, ◌<◌, ◌∷◌, ◌++◌, [], length, get_or, IfOk, OnOk, OnErr};
ghost use Rattle.mast_relations.specs.Matches.{nothing};
ghost use Rattle.mast_relations.specs.Stores.{IsInsertedAt, IsUnchanged, contents, no_rows};
ghost use Rattle.mast_relations.specs.Plans.{KeepsOtherPlans, KeepsPlans};

use crate::relation::Relation;
use mast_terms::NoMemory;
use std::alloc::Global;
use std::marker::Model;

// So many relations are the most: their numbers have 32 bits.
const MOST: usize = 0xFFFF_FFFF;

/// Relations, numbered from 0, with indices of them. Contracts see the list of the relations, each with the columns of its indices.
#[derive(Drop)]
pub struct Relations {
    pub(crate) relations: Vec<Relation>,
}

impl Model for Relations {
    ghost use Rattle.std.specs.Prelude.{List};
    ghost use Rattle.mast_relations.specs.Stores.{Stored};

    ghost Value = { List Stored };

    ghost view = { λ r. r.relations.items };
}

impl Relations {
    /// No relation.
    pub fn new(alloc: Global) -> Relations
        ensures { result ≡ [] }
    {
        Relations {
            relations: Vec::new(alloc),
        }
    }

    /// Begins a relation of this width, with no row, and gives its number. Plans stay right. For want of memory all is as it was;
    /// so it answers too where 4,294,967,295 relations are there.
    pub fn begin(&mut self, alloc: Global, width: u32) -> Result<u32, NoMemory>
        ensures number { IfOk result (λ number. number ≡ length self.old) }
        ensures ok { OnOk result (contents self.new ≡ contents self.old ++ no_rows width ∷ []) }
        ensures err { OnErr result (self.new ≡ self.old) }
        ensures plans { KeepsPlans self.old self.new }
    {
        let number = self.relations.len();
        if number >= MOST {
            return Err(NoMemory);
        }
        self.relations.push(Relation::new(alloc, width as usize))?;
        Ok(number as u32)
    }

    /// Puts a row into a relation, where it is not there yet, and tells whether it did. Then plans with a pattern of this
    /// relation are no longer right, and others stay so. For want of memory all is as it was; so it answers too where the
    /// relation has 4,294,967,294 rows.
    pub fn insert(&mut self, alloc: Global, relation: u32, row: &[u32]) -> Result<bool, NoMemory>
        requires there { relation < length self.old }
        requires wide { length row.now ≡ (get_or (contents self.old) relation nothing).width }
        ensures inserted { IsInsertedAt (contents self.old) relation row.now result (contents self.new) }
        ensures unchanged { IsUnchanged result self.old self.new }
        ensures plans { KeepsOtherPlans relation self.old self.new }
    {
        let stored = &mut self.relations[relation as usize];
        stored.insert(alloc, row)
    }

    /// How many relations there are.
    pub fn count(&self) -> usize
        ensures { result ≡ length self.now }
    {
        self.relations.len()
    }

    /// The width of a relation.
    pub fn width(&self, relation: u32) -> usize
        requires { relation < length self.now }
        ensures { result ≡ (get_or (contents self.now) relation nothing).width }
    {
        self.relations[relation as usize].rows().width()
    }

    /// How many rows a relation has.
    pub fn len(&self, relation: u32) -> u32
        requires { relation < length self.now }
        ensures { result ≡ length (get_or (contents self.now) relation nothing).list }
    {
        self.relations[relation as usize].rows().len()
    }
}
